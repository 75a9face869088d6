//! Rosters: each growth refused once, and what rosters tell while each is.
use mds_commands::Roster;
use mds_core::Outcome::{self, Refused};
use mds_core::Refusal::{AlreadyRegistered, Unregistered};
use mds_core::{Key, Request, Standing};
use mds_table::Tables;
use std::alloc::{AllocError, Global};
use std::hash::RandomState;
use std::random::RandomSource;
use test_fixtures::Ask::{Look, Register};
use test_fixtures::{A, C, Lack, fence, key, profile, profile_again, request_of, rows};
use test_steps::{AVAILABLE, DROPPED_OFF, NEW, Step, hasher};

/// The place of the first step that the roster judges otherwise.
fn first_other(roster: &mut Roster, steps: &[Step]) -> Result<Option<usize>, Lack> {
    for (at, (asked, _, outcome)) in steps.iter().enumerate() {
        let request = request_of(asked).ok_or(Lack::Case)?;
        if roster.take(&request)? != (*outcome == Outcome::Done) {
            return Ok(Some(at));
        }
    }
    Ok(None)
}

/// Whether the roster takes the request; it's asked again where a growth is refused, which changes nothing.
fn is_taken(roster: &mut Roster, request: &Request) -> Result<bool, AllocError> {
    let before = (roster.vehicle(0), roster.registrations(), roster.events());
    match roster.take(request) {
        Err(_) => {
            let after = (roster.vehicle(0), roster.registrations(), roster.events());
            Ok(roster.take(request)? && after == before)
        }
        taken => taken,
    }
}

/// The first three vehicles of a roster and where they stand, and how many vehicles and events it has.
type Told = ([Option<(Key, Standing)>; 3], [usize; 2]);

/// What a roster tells.
fn told(roster: &Roster) -> Told {
    (
        [roster.vehicle(0), roster.vehicle(1), roster.vehicle(2)],
        [roster.registrations(), roster.events()],
    )
}

/// Whether a roster over the tables takes C's registration, A's and A's first event, and what it tells then.
fn taken_again(
    alloc: Global,
    tables: Tables,
    hasher: RandomState,
) -> Result<([bool; 3], Told), Lack> {
    let mut roster = Roster::open(alloc, tables, hasher);
    let report = request_of(&DROPPED_OFF).ok_or(Lack::Case)?;
    let are_taken = [
        is_taken(&mut roster, &Request::Register(key(C)))?,
        is_taken(&mut roster, &Request::Register(key(A)))?,
        is_taken(&mut roster, &report)?,
    ];
    Ok((are_taken, told(&roster)))
}

/// The same of a roster over the profile.
fn taken_by_profile<R: RandomSource>(rt: &R, alloc: Global) -> Result<([bool; 3], Told), Lack> {
    taken_again(alloc, profile_again(alloc)?, hasher(rt)?)
}

#[test]
fn a_roster_takes_after_a_refused_growth(rt: HostRuntime) {
    let vehicles = [Some((key(C), NEW)), Some((key(A), AVAILABLE)), None];
    assert_eq!(rt;
        taken_by_profile(&rt, rt.alloc()),
        Ok(([true, true, true], (vehicles, [2, 1])))
    );
}

/// What takes no memory where nobody is registered.
const OF_NOBODY: &[Step] = rows! {
    (DROPPED_OFF, 0, Refused(Unregistered)),
    (Look(A), 0, Refused(Unregistered)),
};

/// What takes no memory where A is registered.
const OF_ONE: &[Step] = rows! { (Register(A), 1, Refused(AlreadyRegistered)) };

/// The places of the first steps that a roster in which A is registered, and one that was just opened, judge otherwise, and what
/// the first of them tells; between two fences.
fn told_between(
    alloc: Global,
    roster: &mut Roster,
    tables: Tables,
    hasher: RandomState,
) -> Result<([Option<usize>; 2], Told), Lack> {
    let _begun = fence(alloc);
    let mut new = Roster::open(alloc, tables, hasher);
    let others = [
        first_other(roster, OF_ONE)?,
        first_other(&mut new, OF_NOBODY)?,
    ];
    let found = (others, told(roster));
    let _ended = fence(alloc);
    Ok(found)
}

/// The same of rosters over the profile.
fn told_of_profile<R: RandomSource>(
    rt: &R,
    alloc: Global,
) -> Result<([Option<usize>; 2], Told), Lack> {
    let hasher = hasher(rt)?;
    let mut roster = Roster::open(alloc, profile(alloc)?, hasher);
    roster.take(&Request::Register(key(A)))?;
    told_between(alloc, &mut roster, profile(alloc)?, hasher)
}

#[test]
fn rosters_are_told_of_with_every_growth_refused(rt: HostRuntime) {
    let vehicles = [Some((key(A), NEW)), None, None];
    assert_eq!(rt;
        told_of_profile(&rt, rt.alloc()),
        Ok(([None, None], (vehicles, [1, 0])))
    );
}
