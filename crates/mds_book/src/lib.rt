//! Shards under locks: what many callers share, a seat for each of them, the ledgers that count what was accepted, and the
//! logs by which a contract can name what a shard had accepted when it answered. Once all seats came back, the book is
//! settled: their notes fit what the shards hold.
#![tactic(auto)]

mod blank;
mod book;
mod copies;
mod gathered;
pub mod laws;
mod ledgers;
mod listing;
mod notes;
mod part;
mod progress;
mod record_fault;
mod refilling;
mod seat;
mod settling;
mod sight;
mod slot;

pub use blank::Blank;
pub use book::{Book, MAX_SEATS, OpenFault};
pub use copies::Copies;
pub use gathered::{Gathered, Settled};
pub use ledgers::{NamedLedger, Packed, Plain, ShardLedger, SharedLedger};
pub use mds_io::{Gate, OpenGate};
pub use mds_settle::{Note, NoteList, judge};
pub use notes::{NoteForm, NotePlace};
pub use part::Part;
pub use progress::Progress;
pub use record_fault::RecordFault;
pub use refilling::{RefillFault, RefillStop};
pub use seat::{Keep, Seat};
pub use settling::{SettleFault, reconcile};
pub use sight::Sight;
pub use slot::Slot;
