//! Batches of events, read by several threads at once.
//!
//! A batch is cut at commas that stand behind closing braces, and each thread reads some pieces as batches of their own. Where a
//! piece is none, as where a string or an inner list was cut, the whole is read again by one thread: so the items and the faults
//! are those of [`mds_batch::read_event_items`].
#![tactic(auto)]

mod cut;
mod join;
mod part;
mod piece;
mod whole;

pub use whole::read_event_items_by;
