//! What stands behind a lock: a shard, the ledger that counts what it accepted, and the keeper of its log.
ghost use Rattle.std.specs.Prelude.{◌≡◌, [], Some, length, true, ◌<◌, ◌≤◌, ◌+◌, ◌^◌, IfOk, IfSome, OnOk, OnErr};
ghost use Rattle.mds_core.specs.declared.key.Key.{Key as Told};
ghost use Rattle.mds_core.specs.History.{key_of, requests_of};
ghost use Rattle.mds_core.specs.Machine.{Steps, LacksMemory};
ghost use mathlib.Core.List.{IsPrefix};
ghost use Rattle.mds_log.specs.Log.{requests};
ghost use Rattle.mds_shard.specs.Walk.{IsWalkOf, steps_left};
ghost use Rattle.mds_book.specs.Shards.{shard_of as number_of};
ghost use Rattle.mds_book.specs.Books.{IsShardOf};
ghost use Rattle.mds_book.specs.Sights.{next_turn};
ghost use Rattle.mds_book.specs.Turns.{IsShown};
ghost use Rattle.mds_book.specs.Copying.{AddsPiece, copied_requests, max_piece};

use crate::part::Parts;
use crate::{Blank, Copies, Part, Progress, ShardLedger};
use mds_core::{Key, Reply, Request};
use mds_log::{Front, Keeper};
use mds_shard::{MAX_STEPS, Shard, TakesEvents};
use mds_table::Tables;
use std::alloc::{AllocError, Global};
use std::hash::RandomState;
use std::marker::Model;
use std::sync::ledger::{Book, Share};

pub(crate) fn shard_of(key: &Key) -> usize
    ensures number { result ≡ number_of key.now }
    ensures small { result < 2 }
{
    (key.device.as_u128() % 2) as usize
}

/// The most requests that are copied while a shard's lock is held once.
const MAX_PIECE: usize = 256;

/// How many requests are copied of as many, from this place on.
fn piece_size(len: usize, from: usize) -> usize
    requires { from ≤ len }
    ensures within { from + result ≤ len }
    ensures short { result ≤ max_piece }
    ensures none { result ≡ 0 → from ≡ len }
{
    (len - from).min(MAX_PIECE)
}

/// What stands behind a lock of a book: the shard of number `N`, whose vehicles all have this number, the ledger that
/// has counted each request that it accepted, and the keeper of the log that has them all.
pub struct Slot<L: ShardLedger, const N: usize> {
    shard: Shard<L::Form>,
    accepted: Book<L>,
    keeper: Keeper<L>,
}

// By hand: crates above cite it.
impl<L: ShardLedger, const N: usize> Drop for Slot<L, N> {
    fn drop(self) {
        let Slot {
            shard: _,
            accepted: _,
            keeper: _,
        } = self;
    }
}

impl<L: ShardLedger, const N: usize> Model for Slot<L, N> {
    ghost use Rattle.std.specs.Prelude.{◌≡◌, ◌<◌, ◌^◌, length};
    ghost use Rattle.mds_core.specs.Machine.{Machine};
    ghost use Rattle.mds_core.specs.Lawful.{IsLawful};
    ghost use Rattle.mds_log.specs.Log.{requests};
    ghost use Rattle.mds_book.specs.Shards.{AreOfShard};

    ghost Value = { Machine };

    ghost view = { λ slot. slot.shard };

    ghost invariant = { λ slot. (slot.shard.tables ≡ L.tables)
        × AreOfShard N slot.shard.history
        × (slot.accepted.total ≡ length slot.shard.history)
        × (requests slot.keeper ≡ slot.shard.history)
        × IsLawful slot.shard.tables slot.shard.history
        × (length slot.shard.history < 2 ^ 63) };
}

impl<L: ShardLedger, const N: usize> Slot<L, N> {
    /// `None` would mean that another has written to its log: nobody does.
    pub(crate) fn open(
        alloc: Global,
        tables: Tables,
        blank: Blank,
        hasher: RandomState,
    ) -> Option<(Slot<L, N>, Parts<L>)>
        requires ledger { (blank.name ≡ L.name) × (blank.parts ≡ L.parts) }
        requires log { (blank.log ≡ L.log) × (blank.marks ≡ L.marks) }
        requires tables { tables ≡ L.tables }
        ensures slot { IfSome result
            (λ opened. opened.0 ≡ record { tables = tables; history = [] }) }
        ensures parts { IfSome result (λ opened. opened.1.share.parts ≡ L.parts) }
    {
        let Blank { ledger, log, marks } = blank;
        let (keeper, front) = log.with_name::<L>()?;
        let (accepted, share) = ledger.open::<L>();
        let slot = Slot {
            shard: Shard::open(alloc, tables, hasher),
            accepted,
            keeper,
        };
        let parts = Parts {
            share,
            front,
            marks: marks.with_name::<L>(),
        };
        Some((slot, parts))
    }

    /// A slot of no book, with nothing accepted, and its one part, which has seen nothing. `None` would mean that another has
    /// written to its log: nobody does.
    pub fn open_single(
        alloc: Global,
        tables: Tables,
        blank: Blank,
        hasher: RandomState,
    ) -> Option<(Slot<L, N>, Part<L>)>
        requires ledger { (blank.name ≡ L.name) × (blank.parts ≡ L.parts) × (blank.parts ≡ 1) }
        requires log { (blank.log ≡ L.log) × (blank.marks ≡ L.marks) }
        requires tables { tables ≡ L.tables }
        ensures slot { IfSome result
            (λ opened. opened.0 ≡ record { tables = tables; history = [] }) }
        ensures count { IfSome result (λ opened. opened.1.count ≡ 0) }
        ensures sight { IfSome result (λ opened. opened.1.sight ≡ record { seen = []; turns = 0 }) }
    {
        let (slot, mut parts) = Slot::open(alloc, tables, blank, hasher)?;
        Some((slot, parts.cut()))
    }

    /// The shard.
    pub fn shard(&self) -> &Shard<L::Form>
        ensures shard { result.now ≡ self.now }
        ensures is_shard { IsShardOf L.tables N self.now }
    {
        &self.shard
    }

    /// For its contract alone: it changes nothing.
    pub(crate) fn audit(&mut self, all: &mut Share<L>)
        requires { all.old.parts ≡ L.parts }
        ensures slot { self.new ≡ self.old }
        ensures total { length self.old.history ≡ all.old.amount }
        ensures parts { all.new.parts ≡ all.old.parts }
        ensures amount { all.new.amount ≡ all.old.amount }
    {
        self.accepted.audit(all);
    }

    pub(crate) fn log(&self) -> Front<L>
        ensures { requests result ≡ self.now.history }
    {
        self.keeper.front()
    }

    /// For its contract alone: it changes nothing.
    pub(crate) fn show(&mut self, whole: &Front<L>, front: &Front<L>)
        requires whole { length whole.now ≡ length self.old.history }
        ensures slot { self.new ≡ self.old }
        ensures begins { IsPrefix front.now whole.now }
    {
        self.keeper.tell_whole(whole);
        let mut shown = front.again();
        self.keeper.show(&mut shown);
    }

    /// Lets a seat's part have a turn at the log.
    pub(crate) fn see(&mut self, part: &mut Part<L>)
        ensures slot { self.new ≡ self.old }
        ensures begins { IsPrefix part.old.sight.seen part.new.sight.seen }
        ensures whole { requests part.new.sight.seen ≡ self.old.history }
        ensures turn { part.new.sight.turns ≡ next_turn part.old.sight.turns }
        ensures count { part.new.count ≡ part.old.count }
        ensures mark { part.new.mark ≡ part.old.mark }
    {
        part.look(&mut self.keeper);
    }

    /// At most [`MAX_PIECE`] requests.
    pub(crate) fn copy(
        &mut self,
        progress: &mut Progress<L>,
        copies: &mut Copies,
    ) -> Result<(), AllocError>
        ensures slot { self.new ≡ self.old }
        ensures copied { OnOk result
            (AddsPiece L.tables N progress.old copies.old copies.new progress.new) }
        ensures whole { OnOk result (progress.new.seen ≡ self.old.history) }
        ensures unchanged { OnErr result (progress.new ≡ progress.old) }
    {
        let mut seen = progress.front().again();
        self.keeper.show(&mut seen);
        let from = progress.count();
        let size = piece_size(self.shard.len(), from);
        copies.take(self.shard.past(), from, size)?;
        *progress = Progress::of(seen, from + size);
        Ok(())
    }

    /// As [`Shard::walk_back`], of a list that began when the front had seen all of the log.
    pub(crate) fn walk_back<E: TakesEvents>(
        &mut self,
        seen: &Front<L>,
        from: usize,
        events: &mut E,
    ) -> Option<usize>
        requires from { (key : Told)
            × IsWalkOf (requests seen.now) key (Some from) (E.events events.old) }
        requires room { MAX_STEPS ≤ E.room events.old }
        ensures slot { self.new ≡ self.old }
        ensures walk { (key : Told) → IsWalkOf (requests seen.now) key (Some from) (E.events events.old)
            → IsWalkOf (requests seen.now) key result (E.events events.new) }
        ensures nears { steps_left result ≤ from }
        ensures room { E.room events.old + length (E.events events.old)
            ≤ E.room events.new + length (E.events events.new) }
    {
        let mut shown = seen.again();
        self.keeper.show(&mut shown);
        self.shard.walk_back(from, events)
    }

    /// For its contract alone: it changes nothing.
    pub(crate) fn tell_begins(&mut self, progress: &Progress<L>)
        ensures slot { self.new ≡ self.old }
        ensures begins { IsPrefix progress.now.seen self.old.history }
    {
        let mut seen = progress.front().again();
        self.keeper.show(&mut seen);
    }

    pub(crate) fn has_copied(&mut self, seen: &Front<L>, progress: &Progress<L>, key: &Key) -> bool
        ensures slot { self.new ≡ self.old }
        ensures copied { result ≡ true → IsPrefix (requests_of (requests seen.now) key.now)
            (requests_of (copied_requests progress.now) key.now) }
    {
        let mut shown = seen.again();
        self.keeper.show(&mut shown);
        let end = self.shard.end_of(key);
        self.tell_begins(progress);
        end <= progress.count()
    }

    /// Answers a request about a vehicle of this shard, as [`Shard::step`] does, for a seat with this part of the
    /// shard, which has a turn at the log. Exactly where the request is accepted, the ledger moves one into the part's
    /// share, and the request is added to the log under the part's mark.
    ///
    /// # Errors
    ///
    /// `AllocError` where the request would be accepted and there is no memory to keep it; nothing has changed then.
    #[tactic(auto, using(crate::proofs::Slots::slot_steps))]
    pub fn step(&mut self, part: &mut Part<L>, request: &Request) -> Result<Reply, AllocError>
        requires number { number_of (key_of request.now) ≡ N }
        ensures step { IfOk result (λ reply. Steps self.old request.now reply self.new) }
        ensures is_shard { IsShardOf L.tables N self.old }
        ensures shown { IfOk result (λ reply.
            IsShown part.old self.old.history request.now reply part.new) }
        ensures room { IfOk result (λ reply. reply.place < 2 ^ 63) }
        ensures memory { OnErr result (LacksMemory self.old request.now self.new) }
        ensures untold { OnErr result (part.new ≡ part.old) }
    {
        let Slot {
            shard,
            accepted,
            keeper,
        } = self;
        // This call's contract says that the part's count is no more than the history's length.
        part.audit(accepted);
        let Ok(reply) = shard.step(request) else {
            return Err(AllocError);
        };
        part.keep(accepted, keeper, request, &reply.outcome);
        Ok(reply)
    }
}
