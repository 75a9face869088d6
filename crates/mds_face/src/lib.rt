//! HTTP (RFC 9112) over any reader and writer: a request is read, what it asks for is put to a desk, and the answer is
//! written.
#![tactic(auto)]

mod asking;
mod connection;
mod desk;
mod kept_desk;
pub mod laws;
mod reading;

pub use connection::{ServeFault, Served, serve_one};
pub use desk::{Desk, SeatDesk};
pub use kept_desk::{KeptDesk, KeptFault, Room, serve_kept, serve_whole};
pub use mds_http::{
    Face, Found, Head, HttpFault, Plan, bytes_of, memory_bytes, not_kept_bytes, plan_of,
};
pub use reading::read_plan;
