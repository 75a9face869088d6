//! The bytes of an answer over HTTP (RFC 9112), by what a request asks for and what was found.
//!
//! A body is one compact text of JSON (RFC 8259): the members of each object stand in ascending order of their names,
//! and identifiers are UUIDs, hyphenated and in lower case (RFC 9562). Texts are written piece by piece, and no tree of
//! JSON values is built.

mod answer;
mod batch;
mod body;
mod failure;
mod found;
mod head;
mod json;
mod status;

pub use answer::{AnswerBytes, answer_bytes, bytes_of};
pub use failure::{Cause, Failure};
pub use found::Found;
pub use head::{memory_bytes, not_kept_bytes};
pub use status::status_of;
