//! The least of the chains of an event.
ghost use Rattle.std.specs.Prelude.{IfOk, MatchOption};
ghost use Rattle.mds_table.specs.Chain.{Leads};
ghost use Rattle.mds_steps.specs.Opening.{AreOpeningsOfEnds};
ghost use Rattle.mds_steps.specs.LeastChain.{IsLeastChain, IsLeastNext};

use crate::StateSet;
use crate::steps::{led_to, previous_states};
use mds_table::{State, Table, TypeName};
use std::alloc::{AllocError, Global};

/// The least chain of an event with these types, from the state held to the state reported: of all the lists of states
/// that the event may go through, the first by state codes, position by position. `None` where no chain leads there.
///
/// # Errors
///
/// `AllocError` where there is no memory for the states.
pub fn least_chain(
    alloc: Global,
    table: &Table,
    held: State,
    types: &[TypeName],
    reported: State,
) -> Result<Option<Vec<State>>, AllocError>
    ensures { IfOk result (λ found. MatchOption found
        (Leads table.now held types.now reported → ⊥)
        (λ chain. IsLeastChain table.now held types.now reported chain.items)) }
{
    let onward = openings_of_ends(alloc, table, types, reported)?;
    if !onward[types.len()].contains(held) {
        return Ok(None);
    }
    let mut chain = Vec::new(alloc);
    let mut state = held;
    for (at, kind) in types.iter().enumerate() {
        chain.push(state)?;
        state = least_next(table, state, kind, &onward[types.len() - at - 1]).unwrap();
    }
    chain.push(state)?;
    Ok(Some(chain))
}

/// The openings of the last types of an event, for each number of them: those of no type stand first, those of all types
/// last.
fn openings_of_ends(
    alloc: Global,
    table: &Table,
    types: &[TypeName],
    reported: State,
) -> Result<Vec<StateSet>, AllocError>
    ensures { IfOk result (λ sets. AreOpeningsOfEnds table.now types.now reported sets.items) }
{
    let mut sets = Vec::new(alloc);
    let mut openings = StateSet::of(reported);
    for at in (0..types.len()).rev() {
        sets.push(openings)?;
        openings = previous_states(table, &types[at], &openings);
    }
    sets.push(openings)?;
    Ok(sets)
}

fn least_next(table: &Table, from: State, kind: &TypeName, onward: &StateSet) -> Option<State>
    ensures { IsLeastNext table.now from kind.now onward.now result }
{
    let masks = table.masks(kind);
    let next = led_to(&masks, from).intersection(onward).states();
    next.first().copied()
}
