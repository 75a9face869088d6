//! What follows the histories of a book, and records them.
ghost use Rattle.std.specs.Prelude.{◌≡◌, ◌<◌, ◌≤◌, ◌^◌, [], length, OnOk, OnErr};
ghost use Rattle.std.specs.List.{All};
ghost use mathlib.Core.List.{IsPrefix};
ghost use Rattle.mds_log.specs.Log.{requests};
ghost use Rattle.mds_book.specs.Shards.{part};
ghost use Rattle.mds_follow.specs.Parts.{Covers};
ghost use Rattle.mds_follow.specs.Record.{IsDesk, IsSound};
ghost use Rattle.mds_follow.specs.Restart.{IsRead};
ghost use Rattle.mds_follow.specs.Group.{IsGroup};

use crate::desk::Desk;
use crate::{Receipt, Record, RecordLog};
use mds_book::{Book, Copies, Progress, RecordFault, Seat, Settled, ShardLedger};
use mds_log::Keeper;
use std::alloc::{AllocError, Global};
use std::marker::Model;
use std::sync::Wait;

/// A file of what a book accepted, and how much of each shard's history is in it. Contracts see it as the requests that are
/// recorded, each with the moment at which it was.
pub struct Follower<F: Record, L: ShardLedger, M: ShardLedger, J: RecordLog> {
    desk: Desk<F, J>,
    first: Progress<L>,
    second: Progress<M>,
    // What is copied to be recorded. It is kept for its room.
    group: Copies,
}

// By hand: crates above cite it.
impl<F: Record + Drop, L: ShardLedger, M: ShardLedger, J: RecordLog> Drop for Follower<F, L, M, J> {
    fn drop(self) {
        let Follower {
            desk: _,
            first: _,
            second: _,
            group: _,
        } = self;
    }
}

impl<F: Record, L: ShardLedger, M: ShardLedger, J: RecordLog> Model for Follower<F, L, M, J> {
    ghost use Rattle.std.specs.Prelude.{List};
    ghost use Rattle.mds_log.specs.Log.{Acceptance, requests};
    ghost use Rattle.mds_follow.specs.Parts.{Follows};
    ghost use Rattle.mds_follow.specs.Record.{IsDesk, IsSound};

    ghost Value = { List Acceptance };

    ghost view = { λ follower. follower.desk.keeper };

    ghost invariant = { λ follower.
        IsDesk F.is_sound F.is_true F.may_go_on F.stands F.tag F.left_since J.start J.held
        follower.desk.file follower.desk.keeper
        × Follows 0 (requests follower.desk.keeper) follower.first
        × Follows 1 (requests follower.desk.keeper) follower.second
        × (F.is_true follower.desk.file
        → IsSound (F.left_since follower.desk.file) J.start 0 follower.first.seen)
        × (F.is_true follower.desk.file
        → IsSound (F.left_since follower.desk.file) J.start 1 follower.second.seen) };
}

fn next_group<L: ShardLedger, M: ShardLedger, R: Wait>(
    rt: &R,
    book: &Book<L, M>,
    first: &mut Progress<L>,
    second: &mut Progress<M>,
    group: &mut Copies,
) -> Result<(), AllocError>
    ensures { OnOk result
        (IsGroup book.now.tables (first.old, second.old) group.new (first.new, second.new)) }
{
    group.clear();
    book.copy_first(rt, first, group)?;
    book.copy_second(rt, second, group)?;
    Ok(())
}

impl<F: Record, L: ShardLedger, M: ShardLedger, J: RecordLog> Follower<F, L, M, J> {
    /// A follower of a book of which so much was seen: what stands in the file, and nothing else. The keeper has the requests, in
    /// the order of the file.
    pub(crate) fn begin(
        alloc: Global,
        file: F,
        keeper: Keeper<J>,
        first: Progress<L>,
        second: Progress<M>,
    ) -> Follower<F, L, M, J>
        requires sound { F.is_sound file }
        requires short { length keeper < 2 ^ 63 }
        requires begun { F.is_true file → J.start ≤ F.tag file }
        requires stands { F.is_true file → F.may_go_on file → F.stands file (requests keeper) }
        requires read { F.is_true file → IsRead (F.left_since file) J.start keeper }
        requires held { F.is_true file → J.held (requests keeper) }
        requires first { first
            ≡ record { seen = part 0 (requests keeper); count = length (part 0 (requests keeper)) } }
        requires second { second
            ≡ record { seen = part 1 (requests keeper); count = length (part 1 (requests keeper)) } }
        ensures { result ≡ keeper }
    {
        Follower {
            desk: Desk { file, keeper },
            first,
            second,
            group: Copies::new(alloc),
        }
    }

    /// A receipt for all that is recorded.
    pub fn receipt(&self) -> Receipt<L, M, J>
        ensures { result ≡ self.now }
    {
        Receipt {
            record: self.desk.keeper.front(),
            first: self.first.again(),
            second: self.second.again(),
        }
    }

    /// The file, once the book is settled. What is recorded begins with what the file told at the start. What is recorded of each
    /// shard begins its history, and so does what a restart reads of it after any crash since the start.
    pub fn finish(self, settled: &mut Settled<L, M>) -> F
        ensures same { settled.new ≡ settled.old }
        ensures desk { IsDesk F.is_sound F.is_true F.may_go_on F.stands F.tag F.left_since J.start
            J.held result self }
        ensures first { IsPrefix (part 0 (requests self)) settled.old.first }
        ensures second { IsPrefix (part 1 (requests self)) settled.old.second }
        ensures first_sound { F.is_true result
            → IsSound (F.left_since result) J.start 0 settled.old.first }
        ensures second_sound { F.is_true result
            → IsSound (F.left_since result) J.start 1 settled.old.second }
    {
        let Follower {
            desk,
            first,
            second,
            group: _group,
        } = self;
        settled.tell_begins(&first, &second);
        desk.file
    }

    /// Records what the shards have accepted since, at most a piece of each.
    ///
    /// # Errors
    ///
    /// As [`Record::append`].
    fn pull<R: Wait>(&mut self, rt: &R, book: &Book<L, M>) -> Result<(), RecordFault>
        ensures begins { IsPrefix self.old self.new }
        ensures none { OnErr result (self.new ≡ self.old) }
    {
        let (mut first, mut second) = (self.first.again(), self.second.again());
        let Ok(()) = next_group(rt, book, &mut first, &mut second, &mut self.group) else {
            return Err(RecordFault::Memory);
        };
        // Where it stays open whether the group is recorded, a crash may leave it: so the histories with it have been seen.
        self.first = first.with_count(self.first.count());
        self.second = second.with_count(self.second.count());
        self.desk.put(self.group.as_slice())?;
        self.first = first;
        self.second = second;
        Ok(())
    }

    /// Records what the shards have accepted, until all is recorded that a seat has seen.
    ///
    /// # Errors
    ///
    /// As [`Record::append`].
    pub(crate) fn follow<R: Wait>(
        &mut self,
        rt: &R,
        book: &Book<L, M>,
        seat: &Seat<L, M>,
    ) -> Result<(), RecordFault>
        ensures begins { IsPrefix self.old self.new }
        ensures covers { OnOk result (Covers seat.now (requests self.new)) }
    {
        for _ in 0..u64::MAX {
            if seat.is_within(&self.first, &self.second) {
                return Ok(());
            }
            self.pull(rt, book)?;
        }
        // It never comes here: each round records a request more, and no history is as long.
        Err(RecordFault::NotKept)
    }

    /// Records what the shards have accepted, until all is recorded that each of these seats has seen.
    ///
    /// # Errors
    ///
    /// As [`Record::append`].
    pub fn follow_all<R: Wait>(
        &mut self,
        rt: &R,
        book: &Book<L, M>,
        seats: &[Seat<L, M>],
    ) -> Result<(), RecordFault>
        ensures begins { IsPrefix self.old self.new }
        ensures covers { OnOk result (All (λ seat. Covers seat (requests self.new)) seats.now) }
    {
        for seat in seats {
            self.follow(rt, book, seat)?;
        }
        Ok(())
    }

    pub(crate) fn show(&mut self, receipt: &mut Receipt<L, M, J>)
        ensures same { self.new ≡ self.old }
        ensures begins { IsPrefix receipt.old self.old }
        ensures receipt { receipt.new ≡ self.old }
    {
        let mut record = receipt.record.again();
        self.desk.keeper.show(&mut record);
        *receipt = Receipt {
            record,
            first: self.first.again(),
            second: self.second.again(),
        };
    }
}
