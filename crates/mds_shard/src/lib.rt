//! The vehicles of one shard: the machine of `mds_core` with its vehicles and identifiers looked up in maps, in place of
//! the history.
//!
//! What a shard answers is what [`mds_core::Fleet`] answers. The type of a shard keeps that its history is lawful, and
//! that its maps are what the history says; so no call looks through the history.
#![tactic(auto)]

mod shard;
mod takes;
mod vehicle;
mod walk;

pub use mds_past::{KeptForm, PackedRequest, Past};
pub use shard::Shard;
pub use takes::TakesEvents;
pub use walk::{MAX_STEPS, WalkStart};
