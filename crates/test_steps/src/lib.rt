//! What the tests of shards and of books share: steps and the tables that judge them, the worked cases of vehicles, and notes.
#![tactic(auto)]

mod notes;
mod steps;
mod worked;

pub use notes::{Noted, put};
pub use steps::{
    AVAILABLE, DEPOT, DROPPED_OFF, NEW, PROFILE, STUCK_AVAILABLE, STUCK_REMOVED, Step,
    WAKE_THEN_REST, hasher, most_tables, tables_of, turns,
};
pub use worked::{CASES, FIRST_EVENT, WorkedCase};
