//! Settling: whether what callers noted of their calls fits the history of a shard, all of it and nothing else.
//!
//! While the callers run nothing is compared; afterwards their notes are judged beside the history. Where they are
//! settled, the calls took place in the order of the history, each caller's in its own order, and each reply that was
//! noted is the right one.
#![tactic(auto)]

mod count;
mod note;
mod order;
mod same;
mod truth;
mod verdict;

pub use note::{Note, NoteList};
pub use verdict::{judge, judge_lawful};
