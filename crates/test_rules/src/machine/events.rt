//! Events and positions: their faults, and what is told of them while each growth is refused.
use mds_core::{Event, EventFault, MAX_EVENT_TYPES, Position};
use mds_table::{MAX_TIME, State, TypeName};
use std::alloc::Global;
use test_fixtures::{A, B, E0, E1, fence, key, rows, type_of, uuid};

/// Whether an event of A tells this, and that it was at 1, -2.
fn tells(event: &Event, id: u64, state: State, types: &[TypeName], time: u64) -> bool {
    let place = match event.position() {
        Some(place) => (place.lat(), place.lng()),
        None => (0, 0),
    };
    (*event.key(), event.id()) == (key(A), uuid(id))
        && event.state() == state
        && event.types() == types
        && (event.time(), place) == (time, (1, -2))
}

/// Whether an event of A with the most types tells what it is, and one of B that becomes another of A, while each growth is refused
/// (by `tests/refused-growths`).
fn both_tell(alloc: Global) -> Result<[bool; 2], EventFault> {
    let _begun = fence(alloc);
    let low = [type_of("battery_low"); MAX_EVENT_TYPES];
    let trip = [type_of("trip_start")];
    let place = Position::new(1, -2);
    let event = Event::new(key(A), uuid(E1), State::Missing, &low, MAX_TIME, place)?;
    let mut changed = Event::new(key(B), uuid(E0), State::Missing, &low, 7, None)?;
    changed.assign(key(A), uuid(E0), State::OnTrip, &trip, 1000, place)?;
    let mut other = event.copy();
    other.assign_from(&changed);
    let most = tells(
        &event.copy(),
        E1,
        State::Missing,
        &low,
        9_007_199_254_740_991,
    );
    let found = [most, tells(&other, E0, State::OnTrip, &trip, 1000)];
    let _ended = fence(alloc);
    Ok(found)
}

#[test]
fn events_are_told_of_with_every_growth_refused(rt: HostRuntime) {
    assert_eq!(rt; both_tell(rt.alloc()), Ok([true, true]));
}

/// The fault of an event of so many types, at this time.
fn fault_of(count: usize, time: u64) -> Option<EventFault> {
    let types = [type_of("battery_low"); 65];
    let types = types.get(..count).unwrap_or(&[]);
    Event::new(key(A), uuid(E1), State::OnTrip, types, time, None).err()
}

#[test]
fn faults_of_events(rt: HostRuntime) {
    let of_types = [0, 65, 64].map(|count| fault_of(count, 9_007_199_254_740_991));
    let late = [0, 1].map(|count| fault_of(count, 9_007_199_254_740_992));
    let (none, many) = (Some(EventFault::NoTypes), Some(EventFault::TooManyTypes));
    let expected = ([none, many, None], [none, Some(EventFault::BadTime)]);
    assert_eq!(rt; (of_types, late), expected);
}

/// Latitudes and longitudes, and whether they fit a position.
const PLACES: &[(i64, i64, bool)] = rows! {
    (900_000_000, 1_800_000_000, true), (-900_000_000, -1_800_000_000, true),
    (900_000_001, 0, false), (-900_000_001, 0, false), (0, 1_800_000_001, false), (0, -1_800_000_001, false),
};

#[test]
fn positions(rt: HostRuntime) {
    let mut places = PLACES.iter();
    let other = places.position(|(lat, lng, fits)| Position::new(*lat, *lng).is_some() != *fits);
    assert_eq!(rt; other, None);
}
