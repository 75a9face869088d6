//! Requests that are put to a machine.
use mds_core::Outcome::{Done, Refused, Seen};
use mds_core::Refusal::{AlreadyRegistered, Unregistered};
use mds_core::{Fleet, Position, Reply, Request, Standing, answer, run};
use mds_table::State::{Available, NonOperational, Removed};
use mds_table::Tables;
use std::alloc::Global;
use test_fixtures::Ask::{self, Look, Register, Report, ReportAt};
use test_fixtures::{
    A, B, C, DROP_OFF, E0, E1, E2, Lack, key, profile, request_of, requests_of, rows,
};
use test_steps::{
    AVAILABLE, CASES, PROFILE, STUCK_AVAILABLE, Step, WorkedCase, most_tables, tables_of, turns,
};

/// What only a machine of all vehicles is asked.
const OF_A_FLEET: &[WorkedCase] = rows! {
    ("six requests in a run", PROFILE, &[
        (Look(A), 0, Refused(Unregistered)),
        (Register(A), 0, Done),
        (Register(A), 1, Refused(AlreadyRegistered)),
        (Report(A, E1, DROP_OFF, Available, 1000), 1, Done),
        (Report(B, E2, DROP_OFF, Available, 1000), 2, Refused(Unregistered)),
        (Look(A), 2, Seen(AVAILABLE)),
    ]),
};

/// Whether the reply to a request in a run, and the answer to it after what was accepted before it, are those of the step.
fn is_replied(fleet: &Fleet, request: &Request, reply: Option<&Reply>, step: &Step) -> bool {
    let (_, place, outcome) = step;
    let expected = Reply {
        place: *place,
        outcome: *outcome,
    };
    let history = fleet.history().get(..*place).unwrap_or(&[]);
    answer(fleet.tables(), history, request) == expected && reply == Some(&expected)
}

/// The place of the first step to which something else is replied.
fn first_other(
    fleet: &Fleet,
    requests: &[Request],
    replies: &[Reply],
    steps: &[Step],
) -> Option<usize> {
    for (at, (request, step)) in requests.iter().zip(steps).enumerate() {
        if !is_replied(fleet, request, replies.get(at), step) {
            return Some(at);
        }
    }
    None
}

/// The same of steps over the tables.
fn first_other_in(alloc: Global, tables: Tables, steps: &[Step]) -> Result<Option<usize>, Lack> {
    let mut requests = Vec::new(alloc);
    for (asked, _, _) in steps {
        requests.push(request_of(asked).ok_or(Lack::Case)?)?;
    }
    let (fleet, replies) = run(alloc, tables, &requests)?;
    Ok(first_other(&fleet, &requests, &replies, steps))
}

/// The name of the first case that differs, and the place of its step.
fn first_difference(
    alloc: Global,
    cases: &[WorkedCase],
) -> Result<Option<(&'static str, usize)>, Lack> {
    for (name, file, steps) in cases {
        if let Some(at) = first_other_in(alloc, tables_of(alloc, *file)?, steps)? {
            return Ok(Some((*name, at)));
        }
    }
    Ok(None)
}

/// The same of the cases of all machines, and of those of this one.
fn first_difference_of_all(alloc: Global) -> Result<Option<(&'static str, usize)>, Lack> {
    match first_difference(alloc, CASES)? {
        None => first_difference(alloc, OF_A_FLEET),
        found => Ok(found),
    }
}

#[test]
fn worked_cases(rt: HostRuntime) {
    assert_eq!(rt; first_difference_of_all(rt.alloc()), Ok(None));
}

/// C's changes of two tables, after A's of all: both at the end of the first one's time.
const AFTER_TURNS: &[Step] = rows! {
    (Register(C), 65, Done),
    (Report(C, E0, &["wake"], Available, 2999), 66, Done),
    (Report(C, E1, &["rest"], Removed, 2999), 67, STUCK_AVAILABLE),
};

/// The place of the first step that differs over as many tables as there may be.
fn first_over_most_tables(alloc: Global) -> Result<Option<usize>, Lack> {
    let mut steps = turns(alloc)?;
    steps.extend_from_slice(AFTER_TURNS)?;
    first_other_in(alloc, most_tables(alloc)?, &steps)
}

#[test]
fn most_tables_in_turn(rt: HostRuntime) {
    assert_eq!(rt; first_over_most_tables(rt.alloc()), Ok(None));
}

/// The second of three events has a position.
const WITH_A_POSITION: &[Ask] = rows! {
    Register(A),
    Report(A, E0, DROP_OFF, Available, 1000),
    ReportAt(A, E1, &["battery_low"], NonOperational, 2000, (525_200_000, 134_050_000)),
    Report(A, E2, &["battery_charged"], Available, 3000),
};

/// How a vehicle stands after these requests, and how many events the machine gives of it.
type Told = (Option<Standing>, Option<usize>);

fn told(alloc: Global, fleet: &Fleet, device: u64) -> Result<Told, Lack> {
    let count = match fleet.events(alloc, &key(device))? {
        Some(events) => Some(events.len()),
        None => None,
    };
    Ok((fleet.standing(&key(device)), count))
}

/// What is told of A and of B, how many tables there are, and how many rows the first one has.
fn told_after(alloc: Global, asked: &[Ask]) -> Result<([Told; 2], usize, usize), Lack> {
    let requests = requests_of(alloc, asked)?;
    let (fleet, _) = run(alloc, profile(alloc)?, &requests)?;
    let told = [told(alloc, &fleet, A)?, told(alloc, &fleet, B)?];
    let tables = fleet.tables();
    Ok((told, tables.len(), tables.at(0).row_count()))
}

#[test]
fn standing_with_a_position(rt: HostRuntime) {
    let standing = Standing {
        events: 3,
        last: Some(3000),
        position: Position::new(525_200_000, 134_050_000),
        ..AVAILABLE
    };
    let told = [(Some(standing), Some(3)), (None, None)];
    assert_eq!(rt; told_after(rt.alloc(), WITH_A_POSITION), Ok((told, 1, 74)));
}
