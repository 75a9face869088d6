//! The call that takes memory, made again where its growth is refused, and the calls that take none, while each growth is
//! refused (by `tests/refused-growths`).
use bitflags::Flags;
use mds_steps::{StateSet, admit, forward, least_chain, openings, stuck_from};
use mds_table::State::{self, Available, NonOperational, OnTrip};
use mds_table::{Table, TypeName};
use std::alloc::{AllocError, Global};
use test_fixtures::{again, fence, profile_again, type_of};

/// Whether the least chain of a trip that ends is these states.
fn is_chain(alloc: Global, states: &[State]) -> Result<bool, AllocError> {
    let tables = profile_again(alloc)?;
    let (table, types) = (tables.at(0), [type_of("trip_end")]);
    Ok(
        match again!(least_chain(alloc, table, OnTrip, &types, Available))? {
            Some(chain) => chain.as_slice() == states,
            None => false,
        },
    )
}

#[test]
fn least_chain_succeeds_after_a_refused_growth(rt: HostRuntime) {
    assert_eq!(rt; is_chain(rt.alloc(), &[OnTrip, Available]), Ok(true));
}

/// The bits of a set, how many states it has, and whether this is none.
fn told(set: &StateSet) -> (u16, usize, bool) {
    (set.bits().bits(), set.states().len(), set.is_empty())
}

/// Of an event from a state held to a state reported: whether it's admitted, whether the states that it leads to and from are
/// right, and how far it gets from any state.
fn event_told(
    table: &Table,
    held: State,
    types: &[TypeName],
    reported: State,
) -> ([bool; 3], usize) {
    let reached = forward(table, &StateSet::of(held), types);
    let are_right = [
        admit(table, held, types, reported).is_ok(),
        reached.contains(reported),
        openings(table, types, reported).contains(held),
    ];
    (are_right, stuck_from(table, &StateSet::all(), types))
}

/// What is told of the set of no state, of that of all, of one and of a pair, and of a trip that ends with a low battery.
type Told = ([(u16, usize, bool); 4], ([bool; 3], usize));

/// The same, between two fences.
fn told_between(alloc: Global) -> Result<Told, AllocError> {
    let table = Table::profile(alloc)?;
    let _begun = fence(alloc);
    let types = [type_of("trip_end"), type_of("battery_low")];
    let pair = StateSet::of(Available).union(&StateSet::of(OnTrip));
    let sets = [
        told(&StateSet::empty()),
        told(&StateSet::all()),
        told(&StateSet::of(OnTrip)),
        told(&pair.copy()),
    ];
    let event = event_told(&table, OnTrip, &types, NonOperational);
    let _ended = fence(alloc);
    Ok((sets, event))
}

#[test]
fn events_are_admitted_with_every_growth_refused(rt: HostRuntime) {
    let sets = [
        (0, 0, true),
        (511, 9, false),
        (16, 1, false),
        (18, 2, false),
    ];
    let event = ([true, true, true], 2);
    assert_eq!(rt; told_between(rt.alloc()), Ok((sets, event)));
}
