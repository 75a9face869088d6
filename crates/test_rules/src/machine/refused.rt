//! Each call that takes memory, made again where its growth is refused, and the calls that take none, while each growth is
//! refused (by `tests/refused-growths`).
use mds_core::{
    Fleet, Known, Outcome, Refusal, Request, Standing, answer, decide, decide_event, run,
    standing_after,
};
use mds_table::{State, Tables};
use std::alloc::{AllocError, Global};
use test_fixtures::{
    A, Ask, DROP_OFF, E1, Lack, again, fence, key, profile, profile_again, request_of, requests_of,
};

/// A registration of A, and its first event.
const REGISTERED: Ask = Ask::Register(A);

const REPORTED: Ask = Ask::Report(A, E1, DROP_OFF, State::Available, 1000);

/// How many replies a run over what is asked has; and how many requests a machine has that it was put to, and how many
/// events of A.
fn counts(alloc: Global, asked: &[Ask]) -> Result<([usize; 2], Option<usize>), Lack> {
    let requests = again!(requests_of(alloc, asked))?;
    let (_, replies) = again!(run(alloc, profile_again(alloc)?, &requests))?;
    let mut fleet = Fleet::open(alloc, profile_again(alloc)?);
    for request in &requests {
        again!(fleet.step(request))?;
    }
    let counts = [replies.len(), fleet.history().len()];
    let count = match again!(fleet.events(alloc, &key(A)))? {
        Some(events) => Some(events.len()),
        None => None,
    };
    Ok((counts, count))
}

#[test]
fn fleet_calls_succeed_after_a_refused_growth(rt: HostRuntime) {
    assert_eq!(rt;
        counts(rt.alloc(), &[REGISTERED, REPORTED]),
        Ok(([2, 2], Some(1)))
    );
}

/// What a machine tells that has accepted nothing: its answer to a look, what it gives of the vehicle, and how many tables and
/// requests it has.
fn looked(fleet: &mut Fleet) -> Result<(Outcome, [bool; 2], [usize; 2]), AllocError> {
    let reply = fleet.step(&Request::Look(key(A)))?;
    let events = fleet.events(fleet.allocator(), &key(A))?;
    let is_there = [events.is_some(), fleet.standing(&key(A)).is_some()];
    let counts = [fleet.tables().len(), fleet.history().len()];
    Ok((reply.outcome, is_there, counts))
}

/// The same, and a word, between two fences.
fn looked_between(
    alloc: Global,
) -> Result<((Outcome, [bool; 2], [usize; 2]), &'static str), AllocError> {
    let tables = profile(alloc)?;
    let _begun = fence(alloc);
    let mut fleet = Fleet::open(alloc, tables);
    let found = looked(&mut fleet)?;
    let word = Refusal::Unregistered.word();
    let _ended = fence(alloc);
    Ok((found, word))
}

#[test]
fn looks_are_answered_with_every_growth_refused(rt: HostRuntime) {
    let looked = (
        Outcome::Refused(Refusal::Unregistered),
        [false, false],
        [1, 0],
    );
    assert_eq!(rt; looked_between(rt.alloc()), Ok((looked, "unregistered")));
}

/// What becomes of the report of a vehicle that is registered and has no event, by its history and by what is known of it;
/// whether it's accepted once more; and where the vehicle stands after it, by the event and by the report.
type Decided = ([Outcome; 2], Result<(), Refusal>, [Standing; 2]);

fn decided(tables: &Tables, request: &Request) -> Option<Decided> {
    let event = request.event()?;
    let registered = Standing::at_registration();
    let standing = registered.after(event);
    let first = Known {
        standing: Some(registered),
        has_event: false,
    };
    let second = Known {
        standing: Some(standing),
        has_event: true,
    };
    let history = [Request::Register(*request.key())];
    let reply = answer(tables, &history, &request.copy());
    let outcomes = [reply.outcome, decide(tables, &first, request)];
    let stand = [standing, standing_after(None, request)];
    Some((outcomes, decide_event(tables, &second, event), stand))
}

/// The same of what is asked, between two fences.
fn decided_between(alloc: Global, asked: &Ask) -> Result<Option<Decided>, Lack> {
    let tables = profile(alloc)?;
    let _begun = fence(alloc);
    let request = request_of(asked).ok_or(Lack::Case)?;
    let found = decided(&tables, &request);
    let _ended = fence(alloc);
    Ok(found)
}

#[test]
fn events_are_decided_with_every_growth_refused(rt: HostRuntime) {
    let standing = Standing {
        state: State::Available,
        events: 1,
        last: Some(1000),
        position: None,
    };
    let decided = ([Outcome::Done; 2], Err(Refusal::Repeated), [standing; 2]);
    assert_eq!(rt; decided_between(rt.alloc(), &REPORTED), Ok(Some(decided)));
}
