//! The log of a shard: what it accepted, as a list that exists in the proofs alone and only ever grows.
//!
//! A [`Keeper`] lies with the shard under its lock, and it alone adds to the log. A [`Front`] is a beginning of the log
//! that was seen, and lies with a caller. So contracts can say what a shard had accepted when it answered, and that
//! what a caller saw is a beginning of what the shard holds in the end. Each entry has the tag of the value that it was
//! added by: in a shard's log the [`Mark`] of the caller that asked, which is handed back once.
//!
//! A log is a book of the crate `logbook`. At run time it is one word with the number of its entries: a front and a
//! keeper have this number too, and what else they hold has no bytes.
#![tactic(auto)]

mod entry;
mod history;
mod mark;

pub use entry::Entry;
pub use history::{BlankLog, Front, Keeper, Logged, Tagged};
pub use mark::{BlankMarks, Mark, Marked, Marks};
