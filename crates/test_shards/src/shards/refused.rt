//! Each call that takes memory, made again where its growth is refused, and the calls that take none, while each
//! growth is refused (by `tests/refused-growths`).
use super::first_other;
use mds_core::Outcome::{self, Refused, Seen};
use mds_core::Refusal::{AlreadyRegistered, Unregistered};
use mds_core::{Reply, Request, Standing};
use mds_shard::{PackedRequest, Shard};
use mds_table::Tables;
use std::alloc::{AllocError, Global};
use std::hash::RandomState;
use std::random::RandomSource;
use test_fixtures::Ask::{Look, Register};
use test_fixtures::{A, C, Lack, again, fence, key, profile, profile_again, request_of, rows};
use test_steps::{DROPPED_OFF, NEW, Step, hasher};

/// Whether a shard accepts the request at this place; it's asked again where a growth is refused, which changes
/// nothing.
fn is_accepted(
    shard: &mut Shard<PackedRequest>,
    request: &Request,
    place: usize,
) -> Result<bool, AllocError> {
    let accepted = Reply {
        place,
        outcome: Outcome::Done,
    };
    let before = (shard.len(), shard.standing(request.key()));
    match shard.step(request) {
        Ok(reply) => Ok(reply == accepted),
        Err(_) => {
            let after = (shard.len(), shard.standing(request.key()));
            Ok(shard.step(request)? == accepted && after == before)
        }
    }
}

/// Whether a shard over these tables accepts the registration of A and its first event, and how many events A has then.
fn accepted_again(
    alloc: Global,
    tables: Tables,
    hasher: RandomState,
) -> Result<([bool; 2], Option<usize>), Lack> {
    let mut shard = Shard::open(alloc, tables, hasher);
    let report = request_of(&DROPPED_OFF).ok_or(Lack::Case)?;
    let registered = is_accepted(&mut shard, &Request::Register(key(A)), 0)?;
    let are_accepted = [registered, is_accepted(&mut shard, &report, 1)?];
    let events = again!(shard.events(alloc, &key(A)))?;
    Ok((are_accepted, events.map(|events| events.len())))
}

/// The same of a shard over the profile.
fn accepted_by_profile<R: RandomSource>(
    rt: &R,
    alloc: Global,
) -> Result<([bool; 2], Option<usize>), Lack> {
    accepted_again(alloc, profile_again(alloc)?, hasher(rt)?)
}

#[test]
fn step_succeeds_after_a_refused_growth(rt: HostRuntime) {
    assert_eq!(rt;
        accepted_by_profile(&rt, rt.alloc()),
        Ok(([true, true], Some(1)))
    );
}

/// What takes no memory where A is registered, and where nobody is.
const OF_ONE: &[Step] =
    rows! { (Look(A), 1, Seen(NEW)), (Register(A), 1, Refused(AlreadyRegistered)) };

const OF_NOBODY: &[Step] = rows! { (DROPPED_OFF, 0, Refused(Unregistered)) };

/// What a shard tells: the lengths of its history and the number of rows, where A stands, and whether C has no events.
fn told(alloc: Global, shard: &Shard) -> ([usize; 3], Option<Standing>, bool) {
    let rows = shard.tables().at(0).row_count();
    (
        [shard.len(), shard.history().len(), rows],
        shard.standing(&key(A)),
        matches!(shard.events(alloc, &key(C)), Ok(None)),
    )
}

/// What a shard in which A is registered tells; the places of the first steps in which it and one that was just
/// opened reply otherwise; and the length of that one's history.
type Between = (
    ([usize; 3], Option<Standing>, bool),
    [Option<usize>; 2],
    usize,
);

/// The same, between two fences.
fn told_between(
    alloc: Global,
    shard: &mut Shard,
    tables: Tables,
    hasher: RandomState,
) -> Result<Between, Lack> {
    let _begun = fence(alloc);
    let other = first_other(shard, OF_ONE)?;
    let mut new = Shard::<PackedRequest>::open(alloc, tables, hasher);
    let others = [other, first_other(&mut new, OF_NOBODY)?];
    let found = (told(alloc, shard), others, new.len());
    let _ended = fence(alloc);
    Ok(found)
}

/// The same of shards over the profile.
fn told_of_profile<R: RandomSource>(rt: &R, alloc: Global) -> Result<Between, Lack> {
    let hasher = hasher(rt)?;
    let mut shard = Shard::<Request>::open(alloc, profile(alloc)?, hasher);
    shard.step(&Request::Register(key(A)))?;
    told_between(alloc, &mut shard, profile(alloc)?, hasher)
}

#[test]
fn shards_are_told_of_with_every_growth_refused(rt: HostRuntime) {
    let told = ([1, 1, 74], Some(NEW), true);
    assert_eq!(rt;
        told_of_profile(&rt, rt.alloc()),
        Ok((told, [None, None], 0))
    );
}
