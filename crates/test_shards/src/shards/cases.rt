//! The worked cases of vehicles, and tables that change at stated times, through a shard.
use super::first_other;
use mds_core::Outcome::Done;
use mds_core::{Event, Request};
use mds_shard::{KeptForm, PackedRequest, Shard};
use mds_table::State::{Available, Removed};
use std::alloc::{AllocError, Global};
use std::random::RandomSource;
use test_fixtures::Ask::{Register, Report};
use test_fixtures::{A, C, E0, E1, E2, Lack, key, profile, request_of, rows};
use test_steps::{
    CASES, DROPPED_OFF, FIRST_EVENT, STUCK_AVAILABLE, Step, WorkedCase, hasher, most_tables,
    tables_of, turns,
};

/// The name of the first case in which a shard that keeps its history so replies otherwise.
fn first_difference<K: KeptForm, R: RandomSource>(
    rt: &R,
    alloc: Global,
    cases: &[WorkedCase],
) -> Result<Option<&'static str>, Lack> {
    for (name, file, steps) in cases {
        let mut shard = Shard::<K>::open(alloc, tables_of(alloc, *file)?, hasher(rt)?);
        if first_other(&mut shard, steps)?.is_some() {
            return Ok(Some(*name));
        }
    }
    Ok(None)
}

#[test]
fn cases_of_vehicles(rt: HostRuntime) {
    let whole = first_difference::<Request, HostRuntime>(&rt, rt.alloc(), CASES);
    assert_eq!(rt; whole, Ok(None));
    let packed = first_difference::<PackedRequest, HostRuntime>(&rt, rt.alloc(), CASES);
    assert_eq!(rt; packed, Ok(None));
}

/// How many events the vehicle has, and the first one; nothing where it isn't registered.
type Events = Option<(usize, Option<Event>)>;

fn events_of(alloc: Global, shard: &Shard, device: u64) -> Result<Events, AllocError> {
    let events = shard.events(alloc, &key(device))?;
    Ok(events.map(|events| (events.len(), events.first().copied())))
}

/// What a shard tells.
#[derive(Debug, PartialEq, Drop)]
struct Told {
    /// The last entry of its history.
    last: Option<Request>,
    /// Its length.
    count: usize,
    of_a: Events,
    of_c: Events,
}

/// What a shard tells after these steps, in which it replies so.
fn told_after<R: RandomSource>(rt: &R, alloc: Global, steps: &[Step]) -> Result<Told, Lack> {
    let mut shard = Shard::<Request>::open(alloc, profile(alloc)?, hasher(rt)?);
    if first_other(&mut shard, steps)?.is_some() {
        return Err(Lack::Case);
    }
    let of_a = events_of(alloc, &shard, A)?;
    let of_c = events_of(alloc, &shard, C)?;
    Ok(Told {
        last: shard.history().last().copied(),
        count: shard.len(),
        of_a,
        of_c,
    })
}

#[test]
fn a_shard_after_a_first_event(rt: HostRuntime) {
    let event = request_of(&DROPPED_OFF).and_then(|report| report.event().copied());
    let told = Told {
        last: request_of(&DROPPED_OFF),
        count: 2,
        of_a: Some((1, event)),
        of_c: None,
    };
    assert_eq!(rt; told_after(&rt, rt.alloc(), FIRST_EVENT), Ok(told));
}

/// C's changes of three tables, after A's of all: two of them where the first one's time ends, one past all starts.
const AFTER_TURNS: &[Step] = rows! {
    (Register(C), 65, Done),
    (Report(C, E0, &["wake"], Available, 2999), 66, Done),
    (Report(C, E1, &["rest"], Removed, 2999), 67, STUCK_AVAILABLE),
    (Report(C, E2, &["rest"], Removed, 70_000), 67, Done),
};

/// The places of the first steps of A and of C in which a shard over as many tables as there may be replies otherwise.
fn over_most_tables<R: RandomSource>(rt: &R, alloc: Global) -> Result<[Option<usize>; 2], Lack> {
    let mut shard = Shard::<PackedRequest>::open(alloc, most_tables(alloc)?, hasher(rt)?);
    let steps = turns(alloc)?;
    Ok([
        first_other(&mut shard, &steps)?,
        first_other(&mut shard, AFTER_TURNS)?,
    ])
}

#[test]
fn most_tables_in_turn(rt: HostRuntime) {
    assert_eq!(rt; over_most_tables(&rt, rt.alloc()), Ok([None, None]));
}
