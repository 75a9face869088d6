//! What a seat has of one shard.
ghost use Rattle.std.specs.Prelude.{◌≡◌, ◌⊎◌, ◌<◌, ◌≤◌, ◌+◌, ◌^◌, [], length};
ghost use mathlib.Core.List.{IsPrefix};
ghost use Rattle.mds_core.specs.Headline.{is_done};
ghost use Rattle.mds_log.specs.Log.{requests};
ghost use Rattle.mds_book.specs.Shards.{count_of};
ghost use Rattle.mds_book.specs.Sights.{log_after, next_turn};

use crate::{Progress, ShardLedger, Sight};
use mds_core::{Outcome, Request};
use mds_log::{Front, Keeper, Mark, Marks};
use std::marker::Model;
use std::sync::ledger::{Book, Share};

/// What a seat has of one shard: a part of its ledger, the number that it stands for, what the seat saw of the log, and the
/// seat's mark there.
#[derive(Drop)]
pub struct Part<L: ShardLedger> {
    pub(crate) share: Share<L>,
    pub(crate) count: u64,
    pub(crate) sight: Sight<L>,
    pub(crate) mark: Mark<L>,
}

impl<L: ShardLedger> Model for Part<L> {
    ghost use Rattle.std.specs.Prelude.{◌≡◌};
    ghost use Rattle.mds_book.specs.Sights.{Parted};

    ghost Value = { Parted };

    ghost view = { λ part. record { count = part.count; sight = part.sight; mark = part.mark } };

    ghost invariant = { λ part. (part.share.parts ≡ 1) × (part.share.amount ≡ part.count) };
}

/// What the parts of a shard are made of: the share that has all parts left, a front that has seen nothing, and the marks.
#[derive(Drop)]
pub(crate) struct Parts<L: ShardLedger> {
    pub(crate) share: Share<L>,
    pub(crate) front: Front<L>,
    pub(crate) marks: Marks<L>,
    ghost amount: { share.amount ≡ 0 },
    ghost unseen: { front ≡ [] },
}

impl<L: ShardLedger> Parts<L> {
    pub(crate) fn cut(&mut self) -> Part<L>
        requires { 1 ≤ self.old.share.parts }
        ensures count { result.count ≡ 0 }
        ensures sight { result.sight ≡ record { seen = []; turns = 0 } }
        ensures parts { self.new.share.parts + 1 ≡ self.old.share.parts }
    {
        Part {
            share: self.share.split_off(1, 0),
            count: 0,
            sight: Sight::new(self.front.again()),
            mark: self.marks.mark(),
        }
    }
}

impl<L: ShardLedger> Part<L> {
    pub(crate) fn count(&self) -> u64
        ensures { result ≡ self.now.count }
    {
        self.count
    }

    pub(crate) fn front(&self) -> &Front<L>
        ensures { result.now ≡ self.now.sight.seen }
    {
        self.sight.front()
    }

    /// All that was seen, as if it were copied.
    pub(crate) fn progress(&self) -> Progress<L>
        ensures { result ≡ record {
          seen = requests self.now.sight.seen;
          count = length (requests self.now.sight.seen);
        } }
    {
        self.sight.progress()
    }

    /// Has a turn: is shown the whole log.
    pub(crate) fn look(&mut self, keeper: &mut Keeper<L>)
        requires room { length keeper.old < 2 ^ 63 }
        ensures log { keeper.new ≡ keeper.old }
        ensures begins { IsPrefix self.old.sight.seen keeper.old }
        ensures sight { self.new.sight
            ≡ record { seen = keeper.old; turns = next_turn self.old.sight.turns } }
        ensures count { self.new.count ≡ self.old.count }
        ensures mark { self.new.mark ≡ self.old.mark }
    {
        self.sight.look(keeper);
    }

    /// For its contract alone: it does nothing at run time.
    pub(crate) fn tell_order(&self, other: &Part<L>)
        ensures { IsPrefix self.now.sight.seen other.now.sight.seen
            ⊎ IsPrefix other.now.sight.seen self.now.sight.seen }
    {
        self.sight.tell_order(&other.sight);
    }

    /// For its contract alone: it changes nothing.
    pub(crate) fn audit(&mut self, accepted: &mut Book<L>)
        ensures part { self.new ≡ self.old }
        ensures total { accepted.new.total ≡ accepted.old.total }
        ensures bound { self.old.count ≤ accepted.old.total }
    {
        accepted.audit(&mut self.share);
    }

    pub(crate) fn keep(
        &mut self,
        accepted: &mut Book<L>,
        keeper: &mut Keeper<L>,
        request: &Request,
        outcome: &Outcome,
    )
        requires room { length keeper.old < 2 ^ 63 }
        requires bound { self.old.count ≤ length keeper.old }
        ensures count { self.new.count ≡ self.old.count + count_of outcome.now }
        ensures total { accepted.new.total ≡ accepted.old.total + count_of outcome.now }
        ensures seen { IsPrefix self.old.sight.seen keeper.old }
        ensures log { keeper.new
            ≡ log_after keeper.old self.old.mark request.now (is_done outcome.now) }
        ensures sight { self.new.sight
            ≡ record { seen = keeper.new; turns = next_turn self.old.sight.turns } }
        ensures mark { self.new.mark ≡ self.old.mark }
    {
        let Part {
            share,
            count,
            sight,
            mark,
        } = self;
        sight.look(keeper);
        if let Outcome::Done = outcome {
            accepted.add(share, 1);
            sight.add(keeper, mark, request);
            *count += 1;
        }
    }
}
