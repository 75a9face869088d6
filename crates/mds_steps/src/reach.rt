//! Where events may lead, and from where.
ghost use Rattle.std.specs.Prelude.{◌<◌, length, IfOk, IfErr};
ghost use Rattle.mds_steps.specs.Reached.{AreReached};
ghost use Rattle.mds_steps.specs.Stuck.{IsStuckFrom};
ghost use Rattle.mds_steps.specs.Opening.{AreOpenings};

use crate::steps::{next_states, previous_states};
use crate::{NoChain, StateSet};
use mds_table::{State, Table, TypeName};

/// The states in which chains for these types end that begin in a state of the set. Without a type it is the set itself.
pub fn forward(table: &Table, set: &StateSet, types: &[TypeName]) -> StateSet
    ensures { AreReached table.now set.now types.now result }
{
    match follow(table, set, types) {
        Ok(reached) => reached,
        Err(_) => StateSet::empty(),
    }
}

/// [`forward`], type by type, up to the first type that no chain passes.
pub(crate) fn follow(table: &Table, set: &StateSet, types: &[TypeName]) -> Result<StateSet, NoChain>
    ensures reached { IfOk result (λ reached.
        AreReached table.now set.now types.now reached
        × IsStuckFrom table.now set.now types.now (length types.now)) }
    ensures stuck { IfErr result (λ fault. (fault.at < length types.now)
        × IsStuckFrom table.now set.now types.now fault.at) }
{
    let mut reached = *set;
    for (at, kind) in types.iter().enumerate() {
        reached = next_states(table, &reached, kind);
        if reached.is_empty() {
            return Err(NoChain { at });
        }
    }
    Ok(reached)
}

/// The states from which an event with these types leads to the state that it reports. Without a type it is that state
/// alone.
pub fn openings(table: &Table, types: &[TypeName], reported: State) -> StateSet
    ensures { AreOpenings table.now types.now reported result }
{
    let mut openings = StateSet::of(reported);
    for at in (0..types.len()).rev() {
        if openings.is_empty() {
            return openings;
        }
        openings = previous_states(table, &types[at], &openings);
    }
    openings
}
