//! Seats that ask at once, each in a thread of its own.
use super::{Asking, Told, told_anew};
use mds_book::{Keep, Note};
use mds_core::Outcome::{self, Done, Refused, Seen};
use mds_core::Refusal::NoChain;
use mds_core::Request;
use mds_table::State::{self, Available, NonOperational, Removed};
use mds_table::Tables;
use std::alloc::{AllocError, Global};
use std::random::RandomSource;
use std::sync::Wait;
use std::thread::Threads;
use test_fixtures::Ask::{self, Look, Register, Report};
use test_fixtures::{
    A, B, C, DROP_OFF, E0, E1, E2, E3, E4, Lack, profile, request_of, requests_of, rows,
};
use test_steps::{
    AVAILABLE, DROPPED_OFF, PROFILE, STUCK_AVAILABLE, STUCK_REMOVED, Step, WAKE_THEN_REST,
    tables_of,
};

/// A name, a file of tables or `None` for the profile, what each seat asks, and what comes of it, one seat behind the other;
/// how long the histories are then, and how many events A, B and C have.
type Case = (
    &'static str,
    Option<&'static str>,
    [&'static [Ask]; 2],
    &'static [Outcome],
    [usize; 2],
    [Option<usize>; 3],
);

const CASES: &[Case] = rows! {
    ("two vehicles of one shard", PROFILE, [
        &[Register(A), DROPPED_OFF, Look(A)],
        &[Register(C), Report(C, E1, DROP_OFF, Available, 1000), Look(C)],
    ], &[Done, Done, Seen(AVAILABLE), Done, Done, Seen(AVAILABLE)], [4, 0], [Some(1), None, Some(1)]),
    ("a vehicle of each shard, around the time at which the rules change", WAKE_THEN_REST, [
        &[
            Register(A), Report(A, E1, &["wake"], Available, 1999), Report(A, E2, &["rest"], Removed, 1999),
            Report(A, E3, &["rest"], Removed, 2000), Report(A, E4, &["wake"], Available, 2000),
        ],
        &[Register(B), Report(B, E1, &["wake"], Available, 1000)],
    ], &[Done, Done, STUCK_AVAILABLE, Done, STUCK_REMOVED, Done, Done], [3, 2], [Some(2), Some(1), None]),
};

/// What a book tells of these steps and then of the lists, of which each seat has one. There was no memory where a call isn't
/// noted.
fn told_of<R: Threads + Wait + RandomSource + Sync>(
    rt: &R,
    alloc: Global,
    tables: Tables,
    steps: &[Step],
    each: &[Vec<Request>],
) -> Result<Told, Lack> {
    let asking = Asking {
        seats: each.len(),
        keep: Keep::All,
        steps,
        each,
        quiet: &[],
    };
    let mut count = steps.len();
    for list in each {
        count = count.saturating_add(list.len());
    }
    let told = told_anew(rt, alloc, tables, asking)?.ok_or(Lack::Case)?;
    if told.notes.len() < count {
        return Err(Lack::Memory);
    }
    Ok(told)
}

/// The outcomes that were noted.
fn outcomes_in(alloc: Global, notes: &[Note]) -> Result<Vec<Outcome>, AllocError> {
    let mut outcomes = Vec::with_capacity(alloc, notes.len())?;
    for note in notes {
        outcomes.push(note.reply.outcome)?;
    }
    Ok(outcomes)
}

/// Whether a book tells what the case says.
fn is_so<R: Threads + Wait + RandomSource + Sync>(
    rt: &R,
    alloc: Global,
    case: &Case,
) -> Result<bool, Lack> {
    let (_, file, [one, other], outcomes, lengths, events) = case;
    let mut each = Vec::new(alloc);
    each.push(requests_of(alloc, one)?)?;
    each.push(requests_of(alloc, other)?)?;
    let told = told_of(rt, alloc, tables_of(alloc, *file)?, &[], &each)?;
    Ok(
        outcomes_in(alloc, &told.notes)?.as_slice() == *outcomes
            && told.shown.lengths == *lengths
            && told.end.accepted == lengths[0] as u128 + lengths[1] as u128
            && told.end.histories == [Some(lengths[0]), Some(lengths[1]), None]
            && told.events == *events,
    )
}

/// The name of the first case in which a book tells otherwise.
fn first_difference<R: Threads + Wait + RandomSource + Sync>(
    rt: &R,
    alloc: Global,
    cases: &[Case],
) -> Result<Option<&'static str>, Lack> {
    for case in cases {
        if !is_so(rt, alloc, case)? {
            return Ok(Some(case.0));
        }
    }
    Ok(None)
}

#[test]
fn two_seats_two_threads(rt: HostRuntime) {
    assert_eq!(rt; first_difference(&rt, rt.alloc(), CASES), Ok(None));
}

/// The types and the states of the changes that callers report by turns.
const LOW: (&[&str], State) = (&["battery_low"], NonOperational);

const FULL: (&[&str], State) = (&["battery_charged"], Available);

/// A caller's reports of A by turns, each with an identifier of its own and the caller's, and each with a look behind it.
fn turns_by(alloc: Global, caller: u8, turns: u8) -> Result<Vec<Request>, Lack> {
    let mut requests = Vec::new(alloc);
    for turn in 0..turns {
        let (types, state) = if turn % 2 == 0 { LOW } else { FULL };
        let id = u64::from(caller) * 1000 + u64::from(turn);
        let report = Report(A, id, types, state, 1000);
        requests.push(request_of(&report).ok_or(Lack::Case)?)?;
        requests.push(request_of(&Look(A)).ok_or(Lack::Case)?)?;
    }
    Ok(requests)
}

/// Whether each report was accepted or found no row for its first type, and each look shows as many events as were accepted
/// before it, those of the report before it and of its own among them.
fn looks_fit(notes: &[Note]) -> bool {
    let mut least = 0;
    for note in notes {
        let place = note.reply.place;
        match note.reply.outcome {
            Done => least = place.saturating_add(1),
            Refused(NoChain { held: _, at: 0 }) => least = place,
            Seen(standing) if least <= place && standing.events.saturating_add(1) == place => {}
            _ => return false,
        }
    }
    true
}

/// Whether the events alternate, beginning with a low battery.
fn alternate(events: &[Request]) -> bool {
    let mut next = NonOperational;
    for request in events {
        match request {
            Request::Report(event) if event.state() == next => {}
            _ => return false,
        }
        next = if next == Available {
            NonOperational
        } else {
            Available
        };
    }
    true
}

/// A registration and a first event, before the turns.
const BEFORE: &[Step] =
    rows! { (Register(A), 0, Done), (Report(A, E0, DROP_OFF, Available, 1000), 1, Done) };

/// What comes of so many turns of each of so many callers: how many calls were noted; whether each that was accepted was counted;
/// whether each reply fits; and whether the events alternate.
fn turns_of<R: Threads + Wait + RandomSource + Sync>(
    rt: &R,
    alloc: Global,
    callers: u8,
    turns: u8,
) -> Result<(usize, [bool; 3]), Lack> {
    let mut each = Vec::new(alloc);
    for caller in 0..callers {
        each.push(turns_by(alloc, caller, turns)?)?;
    }
    let told = told_of(rt, alloc, profile(alloc)?, BEFORE, &each)?;
    let done = told
        .notes
        .iter()
        .filter(|note| note.reply.outcome == Done)
        .count();
    let facts = [
        told.end.accepted == done as u128,
        looks_fit(&told.notes),
        alternate(told.first.get(2..).ok_or(Lack::Case)?),
    ];
    Ok((told.notes.len(), facts))
}

#[test]
fn two_threads_on_one_vehicle(rt: HostRuntime) {
    assert_eq!(rt; turns_of(&rt, rt.alloc(), 2, 200), Ok((802, [true; 3])));
}

#[test]
fn sixty_four_threads_on_one_vehicle(rt: HostRuntime) {
    assert_eq!(rt; turns_of(&rt, rt.alloc(), 64, 8), Ok((1026, [true; 3])));
}
