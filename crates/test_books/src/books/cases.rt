//! The worked cases in books of one seat and of several, each against a fleet.
use super::{Asking, told_anew};
use mds_book::{Keep, Note};
use mds_core::Outcome::{Done, Refused, Seen};
use mds_core::Refusal::{AlreadyRegistered, Late, Repeated, Unregistered};
use mds_core::{Fleet, Request};
use mds_table::State::{Available, NonOperational, Removed};
use mds_table::Tables;
use std::alloc::{AllocError, Global};
use std::random::RandomSource;
use std::sync::Wait;
use std::thread::Threads;
use test_fixtures::Ask::{self, Look, Register, Report, ReportAt};
use test_fixtures::{A, B, C, DROP_OFF, E0, E1, E2, E3, E4, Lack, key, request_of, rows};
use test_steps::{
    AVAILABLE, CASES as CASES_OF_SHARDS, DROPPED_OFF, NEW, PROFILE, STUCK_AVAILABLE, STUCK_REMOVED,
    Step, WAKE_THEN_REST, WorkedCase, most_tables, put, tables_of, turns,
};

const LOW: &[&str] = &["battery_low"];

/// Seventeen types: a battery goes low, and is charged and goes low again, time after time.
const LOW_AGAIN: &[&str] = rows! {
    "battery_low",
    "battery_charged", "battery_low", "battery_charged", "battery_low", "battery_charged", "battery_low", "battery_charged", "battery_low",
    "battery_charged", "battery_low", "battery_charged", "battery_low", "battery_charged", "battery_low", "battery_charged", "battery_low",
};

/// Vehicles of both shards; and what is known of a vehicle whichever seat asks.
const CASES: &[WorkedCase] = rows! {
    ("identifiers per vehicle, of two shards", PROFILE, &[
        (Register(A), 0, Done),
        (Register(B), 0, Done),
        (DROPPED_OFF, 1, Done),
        (Report(B, E1, DROP_OFF, Available, 1000), 1, Done),
        (DROPPED_OFF, 2, Refused(Repeated)),
        (Report(A, E1, DROP_OFF, Available, 999), 2, Refused(Repeated)),
    ]),
    ("a registration between two looks", PROFILE, &[
        (Look(B), 0, Refused(Unregistered)),
        (Register(B), 0, Done),
        (Look(B), 1, Seen(NEW)),
    ]),
    ("one vehicle of all seats", PROFILE, &[
        (Register(A), 0, Done),
        (DROPPED_OFF, 1, Done),
        (Look(A), 2, Seen(AVAILABLE)),
        (DROPPED_OFF, 2, Refused(Repeated)),
        (Register(A), 2, Refused(AlreadyRegistered)),
        (Report(A, E2, LOW, NonOperational, 999), 2, Refused(Late { last: 1000 })),
        (Report(A, E2, LOW, NonOperational, 1000), 2, Done),
    ]),
    ("what others did between a seat's own requests", PROFILE, &[
        (Look(A), 0, Refused(Unregistered)),
        (DROPPED_OFF, 0, Refused(Unregistered)),
        (Register(A), 0, Done),
        (Look(A), 1, Seen(NEW)),
        (DROPPED_OFF, 1, Done),
        (Look(A), 2, Seen(AVAILABLE)),
        (Look(A), 2, Seen(AVAILABLE)),
        (DROPPED_OFF, 2, Refused(Repeated)),
        (Register(A), 2, Refused(AlreadyRegistered)),
    ]),
    ("two events of each of two vehicles, with positions and without, of one type and of many", PROFILE, &[
        (Register(B), 0, Done),
        (Register(A), 0, Done),
        (ReportAt(A, E1, DROP_OFF, Available, 1000, (525_200_000, 134_050_000)), 1, Done),
        (ReportAt(B, E1, DROP_OFF, Available, 1000, (-900_000_000, 1_800_000_000)), 1, Done),
        (Report(A, E2, LOW_AGAIN, NonOperational, 2000), 2, Done),
        (ReportAt(B, E2, LOW, NonOperational, 2000, (1, -1)), 2, Done),
    ]),
    ("just before the rules change, as they do, and a vehicle of the other shard before that", WAKE_THEN_REST, &[
        (Register(A), 0, Done),
        (Report(A, E1, &["wake"], Available, 1999), 1, Done),
        (Report(A, E2, &["rest"], Removed, 1999), 2, STUCK_AVAILABLE),
        (Report(A, E3, &["rest"], Removed, 2000), 2, Done),
        (Report(A, E4, &["wake"], Available, 2000), 3, STUCK_REMOVED),
        (Register(B), 0, Done),
        (Report(B, E1, &["wake"], Available, 1000), 1, Done),
    ]),
};

/// How many seats take the steps by turns, and what they note.
type Way = (usize, Keep);

const WAYS: &[Way] = &[
    (1, Keep::Accepted),
    (1, Keep::All),
    (3, Keep::Accepted),
    (3, Keep::All),
];

/// The number of the shard that is asked.
fn shard_of(asked: &Ask) -> usize {
    match asked {
        Register(device) | Look(device) => (*device % 2) as usize,
        Report(device, _, _, _, _) => (*device % 2) as usize,
        ReportAt(device, _, _, _, _, _) => (*device % 2) as usize,
    }
}

/// What the seats are to note of the steps, one seat behind the other.
fn notes_of(alloc: Global, steps: &[Step], way: Way) -> Result<Vec<Note>, Lack> {
    let (seats, keep) = way;
    let mut notes = Vec::new(alloc);
    for seat in 0..seats {
        for step in steps.iter().skip(seat).step_by(seats) {
            let (asked, place, outcome) = step;
            if keep == Keep::All || *outcome == Done {
                put(&mut notes, &(shard_of(asked), *asked, *place, *outcome))?;
            }
        }
    }
    Ok(notes)
}

/// Whether these are the requests about vehicles of the shard of this number, in their order.
fn are_of_shard(requests: &[Request], all: &[Request], number: u128) -> bool {
    let mut left = requests.iter();
    for request in all {
        if request.key().device.as_u128() % 2 == number && left.next() != Some(request) {
            return false;
        }
    }
    left.next().is_none()
}

/// A fleet over the tables that took the steps, or nothing where an outcome is another.
fn fleet_after(alloc: Global, tables: Tables, steps: &[Step]) -> Result<Option<Fleet>, Lack> {
    let mut fleet = Fleet::open(alloc, tables);
    for (asked, _, outcome) in steps {
        let request = request_of(asked).ok_or(Lack::Case)?;
        if fleet.step(&request)?.outcome != *outcome {
            return Ok(None);
        }
    }
    Ok(Some(fleet))
}

/// How many events A, B and C have in a fleet.
fn events_in(alloc: Global, fleet: &Fleet) -> Result<[Option<usize>; 3], AllocError> {
    let mut counts = [None; 3];
    for (device, count) in [A, B, C].iter().zip(counts.iter_mut()) {
        if let Some(events) = fleet.events(alloc, &key(*device))? {
            *count = Some(events.len());
        }
    }
    Ok(counts)
}

/// Whether a book over the tables replies as the steps say, notes that, and has the history and the events of a fleet that does
/// the same.
fn is_so<R: Threads + Wait + RandomSource + Sync>(
    rt: &R,
    alloc: Global,
    tables: &Tables,
    steps: &[Step],
    way: Way,
) -> Result<bool, Lack> {
    let asking = Asking {
        seats: way.0,
        keep: way.1,
        steps,
        each: &[],
        quiet: &[],
    };
    let fleet = fleet_after(alloc, tables.copy(alloc)?, steps)?.ok_or(Lack::Case)?;
    let told = told_anew(rt, alloc, tables.copy(alloc)?, asking)?.ok_or(Lack::Case)?;
    Ok(
        told.shown.others == [None, None]
            && told.notes == notes_of(alloc, steps, way)?
            && told.shown.lengths == [told.first.len(), told.second.len()]
            && told.events == events_in(alloc, &fleet)?
            && are_of_shard(&told.first, fleet.history(), 0)
            && are_of_shard(&told.second, fleet.history(), 1),
    )
}

/// The name of the first case, and how many seats there are, in which it isn't so.
fn first_difference<R: Threads + Wait + RandomSource + Sync>(
    rt: &R,
    alloc: Global,
    cases: &[WorkedCase],
    ways: &[Way],
) -> Result<Option<(&'static str, usize)>, Lack> {
    for (name, file, steps) in cases {
        let tables = tables_of(alloc, *file)?;
        for way in ways {
            if !is_so(rt, alloc, &tables, steps, *way)? {
                return Ok(Some((*name, way.0)));
            }
        }
    }
    Ok(None)
}

#[test]
fn cases_in_books(rt: HostRuntime) {
    assert_eq!(rt;
        [
            first_difference(&rt, rt.alloc(), CASES_OF_SHARDS, WAYS),
            first_difference(&rt, rt.alloc(), CASES, WAYS)
        ],
        [Ok(None), Ok(None)]
    );
}

/// B's changes of two tables, after A's of all: both at the end of the first one's time.
const AFTER_TURNS: &[Step] = rows! {
    (Register(B), 0, Done),
    (Report(B, E0, &["wake"], Available, 2999), 1, Done),
    (Report(B, E1, &["rest"], Removed, 2999), 2, STUCK_AVAILABLE),
};

/// Whether it is so over as many tables as there may be.
fn is_so_over_most_tables<R: Threads + Wait + RandomSource + Sync>(
    rt: &R,
    alloc: Global,
) -> Result<bool, Lack> {
    let mut steps = turns(alloc)?;
    steps.extend_from_slice(AFTER_TURNS)?;
    is_so(rt, alloc, &most_tables(alloc)?, &steps, (2, Keep::All))
}

#[test]
fn most_tables_in_turn(rt: HostRuntime) {
    assert_eq!(rt; is_so_over_most_tables(&rt, rt.alloc()), Ok(true));
}
