//! A file, and the log of what is recorded in it.
ghost use Rattle.std.specs.Prelude.{◌≡◌, ◌⊎◌, ◌<◌, ◌+◌, ◌^◌, ◌++◌, List, length, OnOk, OnErr};
ghost use mathlib.Core.List.{IsPrefix};
ghost use Rattle.mds_core.specs.declared.request.Request.{Request as Requested};
ghost use Rattle.mds_log.specs.Log.{requests};
ghost use Rattle.mds_follow.specs.Record.{GoesOn, IsBeforeOrAfter, IsDesk, recorded_at};

use crate::{Record, RecordLog};
use mds_book::RecordFault;
use mds_core::Request;
use mds_log::{Keeper, Tagged};

/// The most requests that are recorded, 2^62.
const MAX_RECORDED: u64 = 1 << 62;

/// A file, and the keeper of the log of what is recorded in it.
#[derive(Drop)]
pub(crate) struct Desk<F: Record, J: RecordLog> {
    pub(crate) file: F,
    pub(crate) keeper: Keeper<J>,
}

/// At run time it only counts.
pub(crate) fn note<F: Tagged, J: RecordLog>(keeper: &mut Keeper<J>, file: &F, group: &[Request])
    requires room { length keeper.old + length group.now < 2 ^ 63 }
    ensures { keeper.new ≡ keeper.old ++ recorded_at (F.tag file.now) group.now }
{
    for request in group {
        keeper.add(file, request);
    }
}

impl<F: Record, J: RecordLog> Desk<F, J> {
    /// Records a group of requests, all of them or none.
    ///
    /// # Errors
    ///
    /// As [`Record::append`]; and `NotKept` where the log, or the group, has 2^62 requests or more.
    pub(crate) fn put(&mut self, group: &[Request]) -> Result<(), RecordFault>
        requires { IsDesk F.is_sound F.is_true F.may_go_on F.stands F.tag F.left_since J.start
            J.held self.old.file self.old.keeper }
        ensures desk { IsDesk F.is_sound F.is_true F.may_go_on F.stands F.tag F.left_since J.start
            J.held self.new.file self.new.keeper }
        ensures recorded { OnOk result (requests self.new.keeper
            ≡ requests self.old.keeper ++ group.now) }
        ensures begins { IsPrefix self.old.keeper self.new.keeper }
        ensures none { OnErr result (self.new.keeper ≡ self.old.keeper) }
        ensures goes_on { GoesOn result (F.may_go_on self.old.file) (F.may_go_on self.new.file) }
        ensures was_true { F.is_true self.new.file → F.is_true self.old.file }
        // At any moment, also one within the call, a restart reads what it might have read before, or what is recorded and
        // all of the group or none.
        ensures any_moment { F.is_true self.new.file → (c : List Requested)
            → F.left_since self.new.file J.start c
            → F.left_since self.old.file J.start c
            ⊎ IsBeforeOrAfter (requests self.old.keeper) group.now c }
    {
        if self.keeper.front().len() >= MAX_RECORDED || group.len() as u64 >= MAX_RECORDED {
            return Err(RecordFault::NotKept);
        }
        self.file.append(group)?;
        note(&mut self.keeper, &self.file, group);
        Ok(())
    }
}
