//! Sets of possible states, and whether an event of several types may lead from one state to another.
//!
//! An event leads from the state held to the state reported where some chain does: a state after each of its types,
//! each step by a row of the table. To admit an event no chain is looked for: the set of states that are possible after
//! each type is enough, and can't grow past the states that there are. The least chain is found by such sets too.
#![tactic(auto)]

mod admission;
mod chain;
mod reach;
mod state_set;
mod steps;

pub use admission::{NoChain, admit, stuck_from};
pub use chain::least_chain;
pub use reach::{forward, openings};
pub use state_set::{StateBits, StateSet};
