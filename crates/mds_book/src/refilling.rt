//! A book that is filled again with requests that were accepted before.
ghost use Rattle.std.specs.Prelude.{◌≡◌, ◌⊎◌, ◌<◌, ◌≤◌, ◌∷◌, [], length, Err, IfErr, OnOk};
ghost use Rattle.mds_log.specs.Log.{requests as requests_in};
ghost use Rattle.mds_book.specs.Sights.{rules_in};
ghost use Rattle.mds_book.specs.Refilling.{AreAccepted, AreKeptOf, Asks, HasAll, IsAsked, IsFilled, IsRefusedAt, IsRefusedIn, told_of};

use crate::book::call_in;
use crate::notes::Notes;
use crate::slot::shard_of;
use crate::{Book, NoteForm, Part, Seat, ShardLedger, SharedLedger, Slot};
use mds_core::{Outcome, Request};
use std::alloc::Global;
use std::sync::{Mutex, Wait};
use std::thread::{Threads, join_mut};

/// Why a request that was accepted before isn't known to be in a book again.
#[derive(Clone, Copy, Debug, PartialEq, Eq)]
pub enum RefillFault {
    /// There was no memory for it.
    Memory,
    /// The tables of the book don't accept it.
    Refused,
    /// Another seat has asked the book meanwhile. The request may just have been accepted.
    Shared,
}

/// Which of some requests isn't known to be in a book again, and why.
#[derive(Clone, Copy, Debug, PartialEq, Eq)]
pub struct RefillStop {
    /// How many of them stand before it.
    pub at: usize,
    /// Why it isn't.
    pub fault: RefillFault,
}

/// What came of asking a shard.
#[derive(Drop)]
struct ShardNotes<F: NoteForm> {
    /// The notes of what was accepted, in its order.
    notes: Notes<F>,
    /// Whether that is all.
    asked: Result<(), RefillStop>,
}

/// Asks one request of a shard that nobody else asks, if it is of the shard. It has to be accepted.
fn ask_again<R: Wait, L: ShardLedger, F: NoteForm, const N: usize>(
    rt: &R,
    slot: &Mutex<Slot<L, N>>,
    part: &mut Part<L>,
    notes: &mut Notes<F>,
    request: &Request,
) -> Result<(), RefillFault>
    requires all { part.old.count ≡ length part.old.sight.seen }
    requires shard { N < 2 }
    requires kept { AreKeptOf F.number F.is_within N part.old.sight.seen notes.old.list }
    ensures kept { AreKeptOf F.number F.is_within N part.new.sight.seen notes.new.list }
    ensures asks { Asks (rules_in L.tables N) (told_of F.number F.tells part.old notes.old.list)
        (request.now ∷ []) (told_of F.number F.tells part.new notes.new.list) }
    ensures accepted { OnOk result (AreAccepted N part.old (request.now ∷ []) part.new) }
    ensures refused { result ≡ Err RefillFault.Refused
        → IsRefusedIn L.tables N (requests_in part.old.sight.seen) (request.now ∷ []) 0 }
{
    if shard_of(request.key()) != N {
        return Ok(());
    }
    let expected = part.count();
    let Ok(reply) = call_in(rt, slot, part, notes, false, request) else {
        return Err(RefillFault::Memory);
    };
    if reply.place as u64 != expected {
        return Err(RefillFault::Shared);
    }
    let Outcome::Done = reply.outcome else {
        return Err(RefillFault::Refused);
    };
    Ok(())
}

/// Asks those of the requests that are of the shard, up to the first that isn't accepted.
fn ask_shard<R: Wait, L: ShardLedger, F: NoteForm, const N: usize>(
    rt: &R,
    alloc: Global,
    slot: &Mutex<Slot<L, N>>,
    part: &mut Part<L>,
    requests: &[Request],
) -> ShardNotes<F>
    requires all { part.old.count ≡ length part.old.sight.seen }
    requires shard { N < 2 }
    ensures kept { AreKeptOf F.number F.is_within N part.new.sight.seen result.notes.list }
    ensures asked { IsAsked (rules_in L.tables N) part.old requests.now
        (told_of F.number F.tells part.new result.notes.list) result.asked }
{
    let mut notes = Notes::new(alloc);
    let mut at = 0;
    for request in requests {
        match ask_again(rt, slot, part, &mut notes, request) {
            Ok(()) => {}
            Err(fault) => {
                let asked = Err(RefillStop { at, fault });
                return ShardNotes { notes, asked };
            }
        }
        at += 1;
    }
    ShardNotes {
        notes,
        asked: Ok(()),
    }
}

/// The stop that comes first, if any.
fn first_stop(one: Result<(), RefillStop>, other: Result<(), RefillStop>) -> Result<(), RefillStop>
    ensures ok { OnOk result ((one ≡ result) × (other ≡ result)) }
    ensures err { IfErr result (λ _. (result ≡ one) ⊎ (result ≡ other)) }
{
    match (one, other) {
        (Err(first), Err(second)) if second.at < first.at => Err(second),
        (Ok(()), other) => other,
        (one, _) => one,
    }
}

impl<L: SharedLedger, M: SharedLedger> Book<L, M> {
    /// Asks requests of the book that were accepted before, those of either shard by a thread, in their order. Each has to be
    /// accepted, and nobody else may have asked the book. The seat notes what was accepted: what is of the first shard before
    /// what is of the second. Where there are no requests, it answers at once, without threads.
    ///
    /// # Errors
    ///
    /// Of the first request at which a thread stops: `Memory` where there is none for it, `Refused` where the tables don't accept
    /// it behind those before it, `Shared` where another seat has asked its shard. `Memory` comes of the first of all, too, where
    /// there is none for the notes; then nothing was asked. What the threads had asked till they stopped is accepted: the other
    /// one goes on to its own stop, so requests behind the one that is told may be accepted as well.
    pub fn refill<R: Threads + Wait + Sync>(
        &self,
        rt: &R,
        alloc: Global,
        seat: &mut Seat<L, M>,
        requests: &[Request],
    ) -> Result<(), RefillStop>
        requires { HasAll seat.old }
        ensures keep { seat.new.keeps_all ≡ seat.old.keeps_all }
        ensures all { OnOk result (HasAll seat.new) }
        ensures filled { OnOk result (IsFilled seat.old requests.now seat.new) }
        ensures refused { IfErr result (λ stop. stop.fault ≡ RefillFault.Refused
            → IsRefusedAt self.now.tables seat.old requests.now stop.at) }
        ensures within { IfErr result (λ stop. stop.at ≤ length requests.now) }
    {
        if requests.is_empty() {
            return Ok(());
        }
        // This call's contract says that they tell the same where the seat has seen more.
        seat.notes.tell();
        let Ok(()) = seat.notes.reserve(requests.len()) else {
            return Err(RefillStop {
                at: 0,
                fault: RefillFault::Memory,
            });
        };
        let (ones, others) = self.ask_both(rt, alloc, &mut seat.first, &mut seat.second, requests);
        seat.notes.add(&ones.notes);
        seat.notes.add(&others.notes);
        first_stop(ones.asked, others.asked)
    }

    /// Asks both shards, either by a thread.
    fn ask_both<R: Threads + Wait + Sync>(
        &self,
        rt: &R,
        alloc: Global,
        first: &mut Part<L>,
        second: &mut Part<M>,
        requests: &[Request],
    ) -> (ShardNotes<L::SharedNote>, ShardNotes<L::SharedNote>)
        requires first { first.old.count ≡ length first.old.sight.seen }
        requires second { second.old.count ≡ length second.old.sight.seen }
        ensures tables { (self.now.tables ≡ L.tables) × (self.now.tables ≡ M.tables) }
        ensures first_kept { AreKeptOf L.SharedNote.number L.SharedNote.is_within 0 first.new.sight.seen
            result.0.notes.list }
        ensures second_kept { AreKeptOf L.SharedNote.number L.SharedNote.is_within 1 second.new.sight.seen
            result.1.notes.list }
        ensures first { IsAsked (rules_in L.tables 0) first.old requests.now
            (told_of L.SharedNote.number L.SharedNote.tells first.new result.0.notes.list)
            result.0.asked }
        ensures second { IsAsked (rules_in M.tables 1) second.old requests.now
            (told_of L.SharedNote.number L.SharedNote.tells second.new result.1.notes.list)
            result.1.asked }
    {
        let mut ask_first = || -> ShardNotes<L::SharedNote>
            requires { first.now.count ≡ length first.now.sight.seen }
        { ask_shard::<R, L, L::SharedNote, 0>(rt, alloc, &self.first, first, requests) };
        let mut ask_second = || -> ShardNotes<L::SharedNote>
            requires { second.now.count ≡ length second.now.sight.seen }
        { ask_shard::<R, M, L::SharedNote, 1>(rt, alloc, &self.second, second, requests) };
        join_mut(rt, &mut ask_first, &mut ask_second)
    }
}
