//! A call of `mds_follow`.
ghost use Rattle.std.specs.Prelude.{◌≡◌, true};
ghost use mathlib.Core.List.{IsPrefix};
ghost use Rattle.mds_log.specs.Log.{requests};
ghost use Rattle.mds_follow.specs.Parts.{Covers};

use mds_book::{Book, Seat, ShardLedger};
use mds_follow::{Receipt, Record, RecordLog, SharedFollower};
use std::sync::Wait;

/// Sees to it that all that a seat has seen is in the journal, before its answers go out: whether it is.
pub fn keep<R: Wait, F: Record, L: ShardLedger, M: ShardLedger, J: RecordLog>(
    rt: &R,
    journal: &SharedFollower<F, L, M, J>,
    book: &Book<L, M>,
    seat: &Seat<L, M>,
    receipt: &mut Receipt<L, M, J>,
) -> bool
    ensures kept { result ≡ true → Covers seat.now (requests receipt.new) }
    ensures begins { IsPrefix receipt.old receipt.new }
{
    journal.commit(rt, book, seat, None, receipt).is_ok()
}
