//! What no clause says of a packed past: that it has room to the end of its numbers, and in the end none, and that it has what
//! was put there, whatever the types.
use mds_core::{Event, Position, Request};
use mds_past::{PackedRequest, Past};
use mds_table::{State, TypeName};
use std::alloc::{AllocError, Global};
use test_fixtures::{Lack, key, uuid};

/// An event of the vehicle of this number, of these types. One of three has no position.
fn event_of_types(number: usize, types: &[TypeName]) -> Result<Event, Lack> {
    let position = match number % 3 {
        0 => Position::new(900_000_000, -1_800_000_000),
        1 => Position::new(-1, 2),
        _ => None,
    };
    let (vehicle, id) = (key(number as u64 % 7), uuid(number as u64));
    match Event::new(
        vehicle,
        id,
        State::Available,
        types,
        number as u64,
        position,
    ) {
        Ok(event) => Ok(event),
        Err(_) => Err(Lack::Case),
    }
}

/// So many types, all of other names than those of other numbers.
fn types_at(alloc: Global, number: usize, count: usize) -> Result<Vec<TypeName>, Lack> {
    let mut types = Vec::new(alloc);
    for place in 0..count {
        let name = format!(in alloc; "t{number}_{place}")?;
        types.push(TypeName::new(&name).unwrap_or_default())?;
    }
    Ok(types)
}

/// Adds a request of the vehicle of this number, behind the one at this place.
fn add(
    past: &mut Past<PackedRequest>,
    request: &Request,
    number: usize,
    earlier: usize,
) -> Result<(), AllocError> {
    past.reserve()?;
    let earlier = if earlier < past.len() {
        Some(earlier)
    } else {
        None
    };
    past.push(request, number, earlier);
    Ok(())
}

/// Whether the past has this event at this place, behind the one at that place.
fn has(past: &Past<PackedRequest>, at: usize, event: &Event, earlier: usize) -> bool {
    if at >= past.len() {
        return false;
    }
    let before = if earlier < at { Some(earlier) } else { None };
    match past.event(at) {
        Some(found) => found.copy() == *event && past.earlier(at) == before,
        None => false,
    }
}

/// The first of so many events, each of as many types of its own, that a past doesn't have behind the others.
fn first_lost(alloc: Global, events: usize, types: usize) -> Result<Option<usize>, Lack> {
    let mut past = Past::new(alloc);
    for number in 0..events {
        let event = event_of_types(number, &types_at(alloc, number, types)?)?;
        add(&mut past, &Request::Report(event), number % 7, number / 2)?;
    }
    for number in 0..events {
        let event = event_of_types(number, &types_at(alloc, number, types)?)?;
        if !has(&past, number, &event, number / 2) {
            return Ok(Some(number));
        }
    }
    Ok(None)
}

/// Lists of the most types, more of them than are looked through for one that came before.
#[test]
fn lists_of_most_types_are_read_as_they_came(rt: HostRuntime) {
    assert_eq!(rt; first_lost(rt.alloc(), 300, 64), Ok(None));
}

/// How many events of one type a past has after as many as it has numbers for; and whether it has the last of them when there is no
/// room for another.
fn taken(alloc: Global, limit: u32) -> Result<(usize, bool), Lack> {
    let mut past = Past::with_limit(alloc, limit);
    let types = types_at(alloc, 0, 1)?;
    for number in 0..limit as usize {
        let event = event_of_types(number, &types)?;
        add(&mut past, &Request::Report(event), number % 7, number)?;
    }
    let count = past.len();
    let last = event_of_types(count.saturating_sub(1), &types)?;
    let more = past.reserve();
    let has_last = has(&past, count.saturating_sub(1), &last, count);
    Ok((past.len(), more == Err(AllocError) && has_last))
}

#[test]
fn a_past_ends_with_its_numbers(rt: HostRuntime) {
    assert_eq!(rt; taken(rt.alloc(), 100), Ok((100, true)));
}

/// Adds an event once more where there was no memory for it, which changed nothing; and answers whether the past has it.
fn added_again(
    past: &mut Past<PackedRequest>,
    number: usize,
    types: &[TypeName],
) -> Result<bool, Lack> {
    let event = event_of_types(number, types)?;
    let before = past.len();
    if add(past, &Request::Report(event), number, number).is_err() {
        if past.len() != before {
            return Ok(false);
        }
        add(past, &Request::Report(event), number, number)?;
    }
    Ok(has(past, before, &event, number))
}

/// Whether a new past has an event and another of two types, each asked for again where a growth was refused.
fn has_two(alloc: Global) -> Result<[bool; 2], Lack> {
    let types = [TypeName::default(), TypeName::default()];
    let mut past = Past::new(alloc);
    let first = added_again(&mut past, 0, &types[..1])?;
    Ok([first, added_again(&mut past, 1, &types)?])
}

#[test]
fn a_packed_past_takes_events_after_a_refused_growth(rt: HostRuntime) {
    assert_eq!(rt; has_two(rt.alloc()), Ok([true, true]));
}
