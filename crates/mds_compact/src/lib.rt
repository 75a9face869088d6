//! Compaction: of a vehicle's old events those are left out that lie in loops of its states.
//!
//! A vehicle's accepted events lead from state to state. Where they come back to a state that was held before, the events
//! between the two moments are a loop. Without it the history stays lawful, and the vehicle stands as it stood: each event
//! that stays starts from the state from which it started before, at its own time.
//!
//! A compaction is made in three passes over the same requests: a [`Survey`], a [`Thinning`] and a [`Marking`]. Each takes one
//! request after another, so a file can feed them. They keep a few words for each vehicle and a byte for each request. No
//! tables are needed: the state held is the one last reported.
//!
//! A [`Cutting`] is a pass of its own, before these: of vehicles that are named it leaves the first events alone.
//!
//! What compaction keeps, and what cuts keep, is told by the [`laws`].
#![tactic(auto)]

mod cutting;
pub mod laws;
mod marking;
mod path;
mod survey;
mod thinning;
mod whole;

pub use cutting::{Cut, Cutting};
pub use marking::Marking;
pub use survey::Survey;
pub use thinning::Thinning;
pub use whole::compaction;
