//! What a stream of request bytes asks for: the part of HTTP/1.1 (RFC 9112) that this server reads.
//!
//! One request is answered per connection. A request is a head, and for a POST the body behind it, as long as the head
//! says. What it asks for depends on these bytes alone, however they are cut; bytes past them are ignored. The routes:
//!
//! - `POST /vehicles`: registrations;
//! - `POST /events`: events;
//! - `GET /vehicles/{provider}/{device}`: one vehicle;
//! - `GET /vehicles/{provider}/{device}/events`: its accepted events;
//! - `GET /table`: the tables, by their rows.

mod aim;
mod face;
mod fault;
mod field;
mod head_status;
mod method;
mod plan;
mod target;

pub use aim::Aim;
pub use face::Face;
pub use fault::HttpFault;
pub use head_status::{Head, HeadStatus, MAX_FIELDS, MAX_HEAD};
pub use method::Method;
pub use plan::{Plan, plan_of};
