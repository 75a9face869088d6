//! What a worker knows to be recorded.
ghost use Rattle.std.specs.Prelude.{◌≡◌, true};
ghost use mathlib.Core.List.{IsPrefix};
ghost use Rattle.mds_log.specs.Log.{requests};
ghost use Rattle.mds_follow.specs.Parts.{Covers, CoversAbout, Follows};

use crate::RecordLog;
use mds_book::{Book, Progress, Seat, ShardLedger};
use mds_core::Key;
use mds_log::Front;
use std::marker::Model;
use std::sync::Wait;

/// Requests that are recorded, and how much of each shard's history they are. Contracts see it as these requests, each with the
/// moment at which it was recorded.
pub struct Receipt<L: ShardLedger, M: ShardLedger, J: RecordLog> {
    pub(crate) record: Front<J>,
    pub(crate) first: Progress<L>,
    pub(crate) second: Progress<M>,
}

// By hand: crates above cite it.
impl<L: ShardLedger, M: ShardLedger, J: RecordLog> Drop for Receipt<L, M, J> {
    fn drop(self) {
        let Receipt {
            record: _,
            first: _,
            second: _,
        } = self;
    }
}

impl<L: ShardLedger, M: ShardLedger, J: RecordLog> Model for Receipt<L, M, J> {
    ghost use Rattle.std.specs.Prelude.{List};
    ghost use Rattle.mds_log.specs.Log.{Acceptance, requests};
    ghost use Rattle.mds_follow.specs.Parts.{Follows};

    ghost Value = { List Acceptance };

    ghost view = { λ receipt. receipt.record };

    ghost invariant = { λ receipt. Follows 0 (requests receipt.record) receipt.first
        × Follows 1 (requests receipt.record) receipt.second };
}

impl<L: ShardLedger, M: ShardLedger, J: RecordLog> Receipt<L, M, J> {
    /// A copy. It takes no memory.
    pub fn again(&self) -> Receipt<L, M, J>
        ensures { result ≡ self.now }
    {
        Receipt {
            record: self.record.again(),
            first: self.first.again(),
            second: self.second.again(),
        }
    }

    /// Whether all that a seat has seen is recorded. It compares two pairs of numbers.
    pub fn covers(&self, seat: &Seat<L, M>) -> bool
        ensures { result ≡ true → Covers seat.now (requests self.now) }
    {
        seat.is_within(&self.first, &self.second)
    }

    /// Whether all that a seat has seen of a vehicle is recorded, or of every one where none is named. What was accepted about other
    /// vehicles need not be. Where the seat has seen more than is recorded, it waits for the lock of the vehicle's shard.
    pub fn covers_about<R: Wait>(
        &self,
        rt: &R,
        book: &Book<L, M>,
        seat: &Seat<L, M>,
        about: Option<Key>,
    ) -> bool
        ensures { result ≡ true → CoversAbout about seat.now (requests self.now) }
    {
        if self.covers(seat) {
            return true;
        }
        match about {
            Some(key) => book.has_copied(rt, seat, &key, &self.first, &self.second),
            None => false,
        }
    }

    /// Goes on to what another receipt has, where that is more.
    pub(crate) fn catch_up(&mut self, other: &Receipt<L, M, J>)
        ensures begins { IsPrefix self.old self.new }
        ensures has { IsPrefix other.now self.new }
    {
        self.record.tell_order(&other.record);
        if self.record.len() < other.record.len() {
            *self = other.again();
        }
    }
}
