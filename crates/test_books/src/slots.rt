//! Slots: each call made again where its growth is refused, and those that take no memory while each growth is (by
//! `tests/refused-growths`).
ghost use Rattle.std.specs.Prelude.{◌≡◌};
ghost use Rattle.mds_core.specs.History.{key_of};
ghost use Rattle.mds_book.specs.Shards.{shard_of as number_of};

use mds_book::{Blank, NamedLedger, Part, Plain, ShardLedger, Slot};
use mds_core::Outcome::{Done, Refused, Seen};
use mds_core::{Key, Refusal, Reply, Request};
use mds_table::Tables;
use std::alloc::{AllocError, Global};
use std::hash::RandomState;
use std::marker::Brand;
use std::random::RandomSource;
use test_fixtures::Ask::{Look, Register};
use test_fixtures::{A, Ask, Lack, fence, profile_again, request_of};
use test_steps::{AVAILABLE, DROPPED_OFF, hasher};

/// The number of the shard that holds a vehicle.
fn shard_of(key: &Key) -> usize
    ensures { result ≡ number_of key.now }
{
    (key.device.as_u128() % 2) as usize
}

/// The reply of a slot to a request about a vehicle of its shard, which is asked again where there was no memory; and whether
/// that changed nothing.
fn step<L: ShardLedger>(
    slot: &mut Slot<L, 0>,
    part: &mut Part<L>,
    request: &Request,
) -> Result<(Reply, bool), AllocError>
    requires { number_of (key_of request.now) ≡ 0 }
{
    let about = request.key();
    let before = (slot.shard().len(), slot.shard().standing(about));
    if let Ok(reply) = slot.step(part, request) {
        return Ok((reply, true));
    }
    let after = (slot.shard().len(), slot.shard().standing(about));
    Ok((slot.step(part, request)?, after == before))
}

/// The replies of a slot, and the length of its history.
type Told = ([(Reply, bool); 2], usize);

/// What comes of two requests, or nothing where one is about a vehicle of the other shard.
fn two_steps<L: ShardLedger>(
    slot: &mut Slot<L, 0>,
    part: &mut Part<L>,
    requests: [Request; 2],
) -> Result<Option<Told>, AllocError> {
    let [first, second] = requests;
    if shard_of(first.key()) != 0 || shard_of(second.key()) != 0 {
        return Ok(None);
    }
    let replied = step(slot, part, &first)?;
    let replies = [replied, step(slot, part, &second)?];
    Ok(Some((replies, slot.shard().len())))
}

/// What comes in a new slot of two requests, and then, between two fences, of two more.
fn steps_in<L: NamedLedger>(
    alloc: Global,
    tables: Tables,
    requests: [Request; 2],
    quiet: [Request; 2],
    blank: Blank,
    hasher: RandomState,
) -> Result<[Option<Told>; 2], AllocError>
    requires blank { (blank.name ≡ L.name) × (blank.parts ≡ L.parts) × (blank.parts ≡ 1) }
    requires logs { (blank.log ≡ L.log) × (blank.marks ≡ L.marks) }
    requires tables { tables ≡ L.tables }
{
    let Some((mut slot, mut part)) = Slot::<Plain<L>, 0>::open_single(alloc, tables, blank, hasher)
    else {
        return Ok([None, None]);
    };
    let first = two_steps(&mut slot, &mut part, requests)?;
    let _begun = fence(alloc);
    let second = two_steps(&mut slot, &mut part, quiet)?;
    let _ended = fence(alloc);
    Ok([first, second])
}

/// The requests that are asked.
fn both_of(asked: [Ask; 2]) -> Result<[Request; 2], Lack> {
    let [first, second] = asked;
    let first = request_of(&first).ok_or(Lack::Case)?;
    Ok([first, request_of(&second).ok_or(Lack::Case)?])
}

/// What comes with a ledger of its own of a registration of A and its first event, and then of a look and the registration again.
fn stepped<R: RandomSource>(rt: &R, alloc: Global) -> Result<[Option<Told>; 2], Lack> {
    let requests = both_of([Register(A), DROPPED_OFF])?;
    let quiet = both_of([Look(A), Register(A)])?;
    let (tables, hasher) = (profile_again(alloc)?, hasher(rt)?);
    let blank = Blank::new(1);
    Ok(steps_in::<Brand>(alloc, tables, requests, quiet, blank, hasher)?)
}

/// Two replies, behind which so many requests were accepted, and that refused growths changed nothing.
fn told(replies: [Reply; 2], length: usize) -> Option<Told> {
    let [first, second] = replies;
    Some(([(first, true), (second, true)], length))
}

/// What has to come of it.
fn expected() -> [Option<Told>; 2] {
    let at = |place, outcome| Reply { place, outcome };
    let repeated = Refused(Refusal::AlreadyRegistered);
    [
        told([at(0, Done), at(1, Done)], 2),
        told([at(2, Seen(AVAILABLE)), at(2, repeated)], 2),
    ]
}

#[test]
fn slot_steps_after_a_refused_growth(rt: HostRuntime) {
    assert_eq!(rt; stepped(&rt, rt.alloc()), Ok(expected()));
}

#[test]
fn slots_are_told_of_with_every_growth_refused(rt: HostRuntime) {
    assert_eq!(rt; stepped(&rt, rt.alloc()), Ok(expected()));
}
