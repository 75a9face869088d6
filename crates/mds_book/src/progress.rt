//! How far a shard's history was copied.
ghost use Rattle.std.specs.Prelude.{◌≡◌, ◌≤◌, ◌+◌, true, length};
ghost use mathlib.Core.List.{IsPrefix};
ghost use Rattle.mds_log.specs.Log.{requests};
ghost use Rattle.mds_book.specs.Copying.{copied_requests};

use crate::ShardLedger;
use mds_log::Front;
use std::marker::Model;

/// A beginning of a shard's history that was seen, and how many of its requests were copied, from the first on. It comes of a
/// seat, and goes on by copies that are made under the shard's lock.
#[derive(Drop)]
pub struct Progress<L: ShardLedger> {
    front: Front<L>,
    count: usize,
}

impl<L: ShardLedger> Model for Progress<L> {
    ghost use Rattle.std.specs.Prelude.{◌≤◌, length};
    ghost use Rattle.mds_log.specs.Log.{requests};
    ghost use Rattle.mds_book.specs.Copying.{Progressed};

    ghost Value = { Progressed };

    ghost view = { λ progress. record { seen = requests progress.front; count = progress.count } };

    ghost invariant = { λ progress. progress.count ≤ length (requests progress.front) };
}

impl<L: ShardLedger> Progress<L> {
    pub(crate) fn of(front: Front<L>, count: usize) -> Progress<L>
        requires { count ≤ length (requests front) }
        ensures { result ≡ record { seen = requests front; count = count } }
    {
        Progress { front, count }
    }

    /// A copy. It takes no memory.
    pub fn again(&self) -> Progress<L>
        ensures { result ≡ self.now }
    {
        self.with_count(self.count)
    }

    /// What was seen, with so many requests of it counted as copied.
    pub fn with_count(&self, count: usize) -> Progress<L>
        requires { count ≤ length self.now.seen }
        ensures { result ≡ record { seen = self.now.seen; count = count } }
    {
        Progress {
            front: self.front.again(),
            count,
        }
    }

    /// How many requests were copied.
    pub fn count(&self) -> usize
        ensures count { result ≡ self.now.count }
        ensures within { self.now.count ≤ length self.now.seen }
    {
        self.count
    }

    pub(crate) fn front(&self) -> &Front<L>
        ensures { requests result.now ≡ self.now.seen }
    {
        &self.front
    }

    pub(crate) fn has(&self, front: &Front<L>) -> bool
        ensures { result ≡ true → IsPrefix (requests front.now) (copied_requests self.now) }
    {
        self.front.tell_order(front);
        front.len() <= self.count as u64
    }
}
