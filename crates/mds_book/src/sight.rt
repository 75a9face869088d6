//! What a seat saw of a shard's log.
ghost use Rattle.std.specs.Prelude.{◌≡◌, ◌⊎◌, ◌<◌, ◌++◌, ◌∷◌, ◌^◌, [], length};
ghost use mathlib.Core.List.{IsPrefix};
ghost use Rattle.mds_log.specs.Log.{requests};
ghost use Rattle.mds_book.specs.Sights.{next_turn};

use crate::{Progress, ShardLedger};
use mds_core::Request;
use mds_log::{Front, Keeper, Mark};
use std::marker::Model;

/// What a seat saw of a shard's log, and how many turns it had. A turn shows the whole log, and takes the log's keeper, which
/// lies under the shard's lock. There is no copy of a sight: so what had no turn under the lock knows nothing newer, and can't
/// tell that it had one.
#[derive(Drop)]
pub struct Sight<L: ShardLedger> {
    front: Front<L>,
    turns: u64,
}

impl<L: ShardLedger> Model for Sight<L> {
    ghost use Rattle.mds_book.specs.Sights.{Sighted};

    ghost Value = { Sighted };

    ghost view = { λ sight. record { seen = sight.front; turns = sight.turns } };
}

impl<L: ShardLedger> Sight<L> {
    pub(crate) fn new(front: Front<L>) -> Sight<L>
        requires { front ≡ [] }
        ensures { result ≡ record { seen = []; turns = 0 } }
    {
        Sight { front, turns: 0 }
    }

    /// Has a turn: is shown the whole log.
    pub(crate) fn look(&mut self, keeper: &mut Keeper<L>)
        requires room { length keeper.old < 2 ^ 63 }
        ensures log { keeper.new ≡ keeper.old }
        ensures begins { IsPrefix self.old.seen keeper.old }
        ensures sight { self.new ≡ record { seen = keeper.old; turns = next_turn self.old.turns } }
    {
        keeper.show(&mut self.front);
        self.turns = self.turns.wrapping_add(1);
    }

    pub(crate) fn add(&mut self, keeper: &mut Keeper<L>, mark: &Mark<L>, request: &Request)
        requires room { length keeper.old < 2 ^ 63 }
        ensures log { keeper.new
            ≡ keeper.old ++ record { tag = mark.now; request = request.now } ∷ [] }
        ensures sight { self.new ≡ record { seen = keeper.new; turns = self.old.turns } }
    {
        keeper.add(mark, request);
        self.front = keeper.front();
    }

    /// For its contract alone: it does nothing at run time.
    pub(crate) fn tell_order(&self, other: &Sight<L>)
        ensures { IsPrefix self.now.seen other.now.seen ⊎ IsPrefix other.now.seen self.now.seen }
    {
        self.front.tell_order(&other.front);
    }

    /// All that was seen, as if it were copied.
    pub(crate) fn progress(&self) -> Progress<L>
        ensures { result ≡ record {
          seen = requests self.now.seen;
          count = length (requests self.now.seen);
        } }
    {
        let front = self.front.again();
        let count = front.len() as usize;
        Progress::of(front, count)
    }

    pub(crate) fn front(&self) -> &Front<L>
        ensures { result.now ≡ self.now.seen }
    {
        &self.front
    }
}
