//! Lists of events: growths that are refused, and what is told while each growth is refused.
use mds_core::{Event, EventList};
use mds_table::State;
use std::alloc::Global;
use test_fixtures::{A, B, DROP_OFF, E0, E1, Lack, again, event_of, fence};

/// An event of A, and one of B with two types.
fn two_events() -> Option<(Event, Event)> {
    let low = &["battery_low", "comms_lost"];
    Some((
        event_of(A, E0, DROP_OFF, State::Available, 1000, None)?,
        event_of(B, E1, low, State::NonContactable, 2000, None)?,
    ))
}

/// The two in a list that had room for one, each call made again where its growth is refused.
fn list_of(alloc: Global, first: &Event, second: &Event) -> Result<EventList, Lack> {
    let mut list = again!(EventList::with_room(alloc, 1))?;
    again!(list.push(first))?;
    again!(list.push(second))?;
    Ok(list)
}

/// How many types the event at a place has.
fn types_at(list: &EventList, at: usize) -> usize {
    match list.get(at) {
        Some(event) => event.types().len(),
        None => 0,
    }
}

/// How many events the list of the two has, and how many types each of them.
fn counts(alloc: Global) -> Result<(usize, [usize; 2]), Lack> {
    let (first, second) = two_events().ok_or(Lack::Case)?;
    let list = list_of(alloc, &first, &second)?;
    Ok((list.len(), [types_at(&list, 0), types_at(&list, 1)]))
}

#[test]
fn a_list_of_events_grows_after_a_refused_growth(rt: HostRuntime) {
    assert_eq!(rt; counts(rt.alloc()), Ok((2, [1, 2])));
}

/// Whether the event at a place is this one, by what it tells, its copy, and what another event becomes.
fn is_at(list: &EventList, at: usize, event: &Event, other: &Event) -> bool {
    let Some(found) = list.get(at) else {
        return false;
    };
    let mut changed = other.copy();
    found.copy_to(&mut changed);
    (found.key(), found.id()) == (event.key(), event.id())
        && (found.state(), found.time()) == (event.state(), event.time())
        && found.types() == event.types()
        && found.position().is_none()
        && [found.copy(), changed] == [event.copy(), event.copy()]
}

/// How many events a new list has; and of the list of the two, turned round, whether each event is at its place.
fn told_of(alloc: Global) -> Result<(usize, [bool; 2]), Lack> {
    let (first, second) = two_events().ok_or(Lack::Case)?;
    let mut list = list_of(alloc, &first, &second)?;
    let _begun = fence(alloc);
    let none = EventList::new(alloc).len();
    list.reverse();
    let found = [
        is_at(&list, 0, &second, &first),
        is_at(&list, 1, &first, &second),
    ];
    let _ended = fence(alloc);
    Ok((none, found))
}

#[test]
fn lists_of_events_are_told_of_with_every_growth_refused(rt: HostRuntime) {
    assert_eq!(rt; told_of(rt.alloc()), Ok((0, [true, true])));
}
