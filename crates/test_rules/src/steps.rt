//! Sets of states, and events of several types: the worked cases, lists in place of sets, growths that are refused, and
//! calls that take no memory.
mod cases;
mod events;
mod lists;
mod refused;

use mds_steps::{NoChain, StateSet};
use mds_table::State;

/// Where an event gets stuck, or `None` where it's admitted.
fn place_of(admitted: Result<(), NoChain>) -> Option<usize> {
    match admitted {
        Ok(()) => None,
        Err(stuck) => Some(stuck.at),
    }
}

/// The set of these states.
fn set_of(states: &[State]) -> StateSet {
    let mut set = StateSet::empty();
    for state in states {
        set = set.union(&StateSet::of(*state));
    }
    set
}
