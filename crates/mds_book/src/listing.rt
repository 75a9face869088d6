//! A list of a vehicle's events. It is copied in pieces, between which the shard's lock is free: a long one keeps no other caller
//! waiting. A history only grows, so what is copied later is what was there when the list began.
ghost use Rattle.std.specs.Prelude.{◌≡◌, ◌≤◌, ◌+◌, None, Some, length, IfOk, IfNone, IfSome, OnErr, option_map};
ghost use Rattle.mds_core.specs.declared.key.Key.{Key as Told};
ghost use Rattle.mds_core.specs.Lawful.{IsLawful};
ghost use Rattle.mds_core.specs.Machine.{events_in as events_told};
ghost use Rattle.mds_log.specs.Log.{requests};
ghost use Rattle.mds_shard.specs.Walk.{IsWalkOf, steps_left};
ghost use Rattle.mds_book.specs.Shards.{shard_of as number_of, AreOfShard};
ghost use Rattle.mds_book.specs.Sights.{rules_in};
ghost use Rattle.mds_book.specs.Turns.{HasLooked};
ghost use Rattle.mds_book.specs.Books.{GivesEvents};
ghost use Rattle.mds_book.specs.Listing.{IsBegun};

use crate::{Part, ShardLedger, Slot};
use mds_core::Key;
use mds_log::Front;
use mds_past::KeptForm;
use mds_shard::{MAX_STEPS, Shard, TakesEvents};
use std::alloc::{AllocError, Global};
use std::sync::{Mutex, Wait};

/// A list that begins.
#[derive(Drop)]
struct Listing<E> {
    /// The place of the vehicle's last request.
    last: usize,
    /// Room for all its events, and for a piece more.
    events: E,
}

fn begin<K: KeptForm, E: TakesEvents>(
    alloc: Global,
    shard: &Shard<K>,
    key: &Key,
) -> Result<Option<Listing<E>>, AllocError>
    ensures some { IfOk result
        (λ listing. IfSome listing (IsBegun E.events E.room shard.now.history key.now)) }
    ensures none { IfOk result (λ listing.
        IfNone listing (events_told shard.now.history key.now ≡ None)) }
{
    let Some(start) = shard.walk_start(key) else {
        return Ok(None);
    };
    let Some(room) = start.events.checked_add(MAX_STEPS) else {
        return Err(AllocError);
    };
    let events = E::with_room(alloc, room)?;
    Ok(Some(Listing {
        last: start.last,
        events,
    }))
}

fn begin_seen<R: Wait, L: ShardLedger, E: TakesEvents, const N: usize>(
    rt: &R,
    alloc: Global,
    slot: &Mutex<Slot<L, N>>,
    part: &mut Part<L>,
    key: &Key,
) -> Result<Option<Listing<E>>, AllocError>
    ensures looked { IfOk result (λ listing.
        HasLooked (rules_in L.tables N) part.old part.new) }
    ensures some { IfOk result (λ listing.
        IfSome listing (IsBegun E.events E.room (requests part.new.sight.seen) key.now)) }
    ensures none { IfOk result (λ listing.
        IfNone listing (events_told (requests part.new.sight.seen) key.now ≡ None)) }
    ensures untold { OnErr result (part.new ≡ part.old) }
{
    let mut slot = slot.lock(rt);
    let listing = begin(alloc, slot.shard(), key)?;
    slot.see(part);
    Ok(listing)
}

/// For no seat: it shows a front of its own what the shard has accepted.
fn begin_unseated<R: Wait, L: ShardLedger, E: TakesEvents, const N: usize>(
    rt: &R,
    alloc: Global,
    slot: &Mutex<Slot<L, N>>,
    key: &Key,
) -> Result<(Front<L>, Option<Listing<E>>), AllocError>
    ensures lawful { IfOk result (λ begun. IsLawful L.tables (requests begun.0)) }
    ensures of_shard { IfOk result (λ begun. AreOfShard N (requests begun.0)) }
    ensures some { IfOk result
        (λ begun. IfSome begun.1 (IsBegun E.events E.room (requests begun.0) key.now)) }
    ensures none { IfOk result (λ begun.
        IfNone begun.1 (events_told (requests begun.0) key.now ≡ None)) }
{
    let slot = slot.lock(rt);
    let listing = begin(alloc, slot.shard(), key)?;
    Ok((slot.log(), listing))
}

/// Copies the next piece of a list, from this place on, and answers the place where the list goes on, if it does.
fn copy_piece<R: Wait, L: ShardLedger, E: TakesEvents, const N: usize>(
    rt: &R,
    slot: &Mutex<Slot<L, N>>,
    seen: &Front<L>,
    from: usize,
    events: &mut E,
) -> Option<usize>
    requires from { (key : Told)
        × IsWalkOf (requests seen.now) key (Some from) (E.events events.old) }
    requires room { MAX_STEPS ≤ E.room events.old }
    ensures walk { (key : Told) → IsWalkOf (requests seen.now) key (Some from) (E.events events.old)
        → IsWalkOf (requests seen.now) key result (E.events events.new) }
    ensures nears { steps_left result ≤ from }
    ensures room { E.room events.old + length (E.events events.old)
        ≤ E.room events.new + length (E.events events.new) }
{
    slot.lock(rt).walk_back(seen, from, events)
}

fn finish<R: Wait, L: ShardLedger, E: TakesEvents, const N: usize>(
    rt: &R,
    slot: &Mutex<Slot<L, N>>,
    seen: &Front<L>,
    listing: Listing<E>,
) -> E
    requires { (key : Told) × IsBegun E.events E.room (requests seen.now) key listing }
    ensures { (key : Told) → IsBegun E.events E.room (requests seen.now) key listing
        → Some (E.events result) ≡ events_told (requests seen.now) key }
{
    let Listing { last, mut events } = listing;
    let mut at = Some(last);
    while let Some(place) = at {
        at = copy_piece(rt, slot, seen, place, &mut events);
    }
    events.turn_round();
    events
}

pub(crate) fn events_in<R: Wait, L: ShardLedger, E: TakesEvents, const N: usize>(
    rt: &R,
    alloc: Global,
    slot: &Mutex<Slot<L, N>>,
    key: &Key,
) -> Result<Option<E>, AllocError>
    requires { number_of key.now ≡ N }
    ensures { IfOk result (λ found.
        GivesEvents L.tables key.now (option_map E.events found)) }
{
    let (seen, listing) = begin_unseated(rt, alloc, slot, key)?;
    match listing {
        Some(listing) => Ok(Some(finish(rt, slot, &seen, listing))),
        None => Ok(None),
    }
}

pub(crate) fn list_in<R: Wait, L: ShardLedger, E: TakesEvents, const N: usize>(
    rt: &R,
    alloc: Global,
    slot: &Mutex<Slot<L, N>>,
    part: &mut Part<L>,
    key: &Key,
) -> Result<Option<E>, AllocError>
    requires { number_of key.now ≡ N }
    ensures looked { IfOk result (λ found.
        HasLooked (rules_in L.tables N) part.old part.new) }
    ensures events { IfOk result (λ found. option_map E.events found
        ≡ events_told (requests part.new.sight.seen) key.now) }
    ensures untold { OnErr result (part.new ≡ part.old) }
{
    match begin_seen(rt, alloc, slot, part, key)? {
        Some(listing) => Ok(Some(finish(rt, slot, part.front(), listing))),
        None => Ok(None),
    }
}
