//! The requests that a shard accepted, in their order, and beside each the place of the request about its vehicle before it.
//!
//! A request is kept in one of two forms ([`KeptForm`]): as it is, or packed. A packed one takes 48 bytes beside keys and names of
//! types that all requests share, and 4 bytes for the place before it. A past holds at most 2^32 - 1 requests.
#![tactic(auto)]

mod form;
mod packed;
mod past;
mod pieces;
mod shared;

pub use form::KeptForm;
pub use packed::PackedRequest;
pub use past::Past;
pub use pieces::Pieces;
