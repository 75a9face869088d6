//! A follower that workers share.
ghost use Rattle.std.specs.Prelude.{◌≡◌, OnOk, OnErr};
ghost use mathlib.Core.List.{IsPrefix};
ghost use Rattle.mds_log.specs.Log.{requests};
ghost use Rattle.mds_follow.specs.Parts.{Covers, CoversAbout};

use crate::{Follower, Receipt, Record, RecordLog};
use mds_book::{Book, RecordFault, Seat, ShardLedger};
use mds_core::Key;
use std::sync::{Mutex, Wait};

/// A follower that workers share, and the newest receipt. One worker at a time follows the book. The lock of the receipt is held
/// for a copy alone, never while a file is written: who has seen nothing that isn't recorded doesn't wait for that.
pub struct SharedFollower<F: Record, L: ShardLedger, M: ShardLedger, J: RecordLog> {
    follower: Mutex<Follower<F, L, M, J>>,
    newest: Mutex<Receipt<L, M, J>>,
}

// By hand: crates above cite it.
impl<F: Record + Drop, L: ShardLedger, M: ShardLedger, J: RecordLog> Drop
    for SharedFollower<F, L, M, J> {
    fn drop(self) {
        let SharedFollower {
            follower: _,
            newest: _,
        } = self;
    }
}

impl<F: Record, L: ShardLedger, M: ShardLedger, J: RecordLog> SharedFollower<F, L, M, J> {
    /// A follower for workers to share.
    pub fn of(follower: Follower<F, L, M, J>) -> SharedFollower<F, L, M, J> {
        let newest = follower.receipt();
        SharedFollower {
            follower: Mutex::new(follower),
            newest: Mutex::new(newest),
        }
    }

    /// The newest receipt.
    pub fn receipt<R: Wait>(&self, rt: &R) -> Receipt<L, M, J> {
        self.newest.lock(rt).again()
    }

    /// Sees to it that all that a seat has seen of a vehicle is recorded, or of every one where none is named, and says so by the
    /// receipt. Where the receipt has all that the seat has seen, it takes no lock. Where the newest has what is wanted, it waits
    /// for no file: so who asked about one vehicle doesn't wait for what others report of other vehicles. Else it waits until it
    /// may follow the book itself: with what the seat has seen it records what others had accepted meanwhile.
    ///
    /// # Errors
    ///
    /// As [`Record::append`]. The receipt has then what it had, or more.
    pub fn commit<R: Wait>(
        &self,
        rt: &R,
        book: &Book<L, M>,
        seat: &Seat<L, M>,
        about: Option<Key>,
        receipt: &mut Receipt<L, M, J>,
    ) -> Result<(), RecordFault>
        ensures covers { OnOk result (CoversAbout about seat.now (requests receipt.new)) }
        ensures begins { IsPrefix receipt.old receipt.new }
    {
        if receipt.covers(seat) {
            return Ok(());
        }
        self.read(rt, receipt);
        if receipt.covers_about(rt, book, seat, about) {
            return Ok(());
        }
        self.follow(rt, book, seat, receipt)?;
        self.put_up(rt, receipt);
        Ok(())
    }

    /// Follows the book under the follower's lock, until all is recorded that a seat has seen.
    fn follow<R: Wait>(
        &self,
        rt: &R,
        book: &Book<L, M>,
        seat: &Seat<L, M>,
        receipt: &mut Receipt<L, M, J>,
    ) -> Result<(), RecordFault>
        ensures covers { OnOk result (Covers seat.now (requests receipt.new)) }
        ensures begins { IsPrefix receipt.old receipt.new }
        ensures unchanged { OnErr result (receipt.new ≡ receipt.old) }
    {
        let mut follower = self.follower.lock(rt);
        follower.follow(rt, book, seat)?;
        follower.show(receipt);
        Ok(())
    }

    /// Brings a receipt up to the newest, where that has more.
    fn read<R: Wait>(&self, rt: &R, receipt: &mut Receipt<L, M, J>)
        ensures { IsPrefix receipt.old receipt.new }
    {
        let newest = self.newest.lock(rt);
        receipt.catch_up(&newest);
    }

    /// Puts a receipt up, where it has more than the newest.
    fn put_up<R: Wait>(&self, rt: &R, receipt: &Receipt<L, M, J>) {
        let mut newest = self.newest.lock(rt);
        newest.catch_up(receipt);
    }

    /// The follower, once nobody shares it any more.
    pub fn into_follower(self) -> Follower<F, L, M, J> {
        let SharedFollower {
            follower,
            newest: _newest,
        } = self;
        follower.into_inner()
    }
}
