//! Connections that wait for bytes of their clients, or for their clients to take bytes: which there are, what they hold, and
//! who is let go.
//!
//! A connection waits in a slot, under the number of the slot as its key, with the bytes that came of its request, or those of
//! its answer that weren't sent yet. What else there is of it, its socket, say, is no matter here. A time is a number of
//! milliseconds on a clock that never goes back.
#![tactic(auto)]

mod admission;
mod coming;
mod given;
mod least;
mod leaving;
mod look;
mod outgoing;
mod part;
mod peer;
mod waiter;
mod waiting;

pub use coming::{Coming, ROOM_BYTES};
pub use given::Given;
pub use leaving::Leaving;
pub use look::Look;
pub use outgoing::Outgoing;
pub use part::Part;
pub use peer::Peer;
pub use waiter::{MAX_HELD, Waiter};
pub use waiting::{MAX_WAIT, MAX_WAITING, Waiting};
