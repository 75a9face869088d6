//! What records what a book accepts, before an answer that rests on it goes out.
ghost use Rattle.std.specs.Prelude.{◌≡◌, OnOk};

use mds_book::{Book, RecordFault, Seat, ShardLedger};
use mds_core::Key;
use mds_follow::{Receipt, Record, RecordLog, SharedFollower};
use std::sync::Wait;

/// What records what a book accepts, for any number of workers at once.
pub trait Recorder<L: ShardLedger, M: ShardLedger> {
    ghost use Rattle.std.specs.Prelude.{OnOk, Option};
    ghost use Rattle.mds_core.specs.declared.key.Key.{Key as About};
    ghost use Rattle.mds_book.specs.Seats.{Seated};

    /// What a worker knows to be recorded.
    type Receipt: Drop;

    /// By a receipt, all that a seat has seen of this vehicle is recorded, or, with none named, of every one.
    ghost covers: { Self.Receipt → Option About → Seated → Type 0 };

    /// A receipt for a worker that begins.
    fn receipt<R: Wait>(&self, rt: &R) -> Self::Receipt;

    /// Sees to it that all that a seat has seen of a vehicle is recorded, or, with none named, of every one, and says so by the
    /// receipt.
    ///
    /// # Errors
    ///
    /// [`RecordFault`] says when each comes.
    fn commit<R: Wait>(
        &self,
        rt: &R,
        book: &Book<L, M>,
        seat: &Seat<L, M>,
        about: Option<Key>,
        receipt: &mut Self::Receipt,
    ) -> Result<(), RecordFault>
        ensures { OnOk result (covers receipt.new about seat.now) };
}

/// Nothing is recorded, so no answer waits for that: all that the book accepts ends with the process.
#[derive(Clone, Copy, Debug)]
pub struct NoRecord;

impl<L: ShardLedger, M: ShardLedger> Recorder<L, M> for NoRecord {
    ghost use Rattle.std.specs.Prelude.{⊤};

    type Receipt = ();

    ghost covers = { λ _ _ _. ⊤ };

    fn receipt<R: Wait>(&self, _rt: &R) {}

    fn commit<R: Wait>(
        &self,
        _rt: &R,
        _book: &Book<L, M>,
        _seat: &Seat<L, M>,
        _about: Option<Key>,
        _receipt: &mut (),
    ) -> Result<(), RecordFault> {
        Ok(())
    }
}

/// Who is told that answers are held back.
pub trait Alarm {
    /// A write failed: what was accepted isn't recorded, and the answers that rest on it aren't given. It may be recorded later.
    /// It is called each time.
    fn tell_not_kept(&self);
}

/// A follower that records what a book accepts, and who is told where a write fails.
#[derive(Drop)]
pub(crate) struct Journal<'a, F: Record, L: ShardLedger, M: ShardLedger, J: RecordLog, A: Alarm> {
    pub(crate) follower: SharedFollower<F, L, M, J>,
    pub(crate) alarm: &'a A,
}

impl<F: Record, L: ShardLedger, M: ShardLedger, J: RecordLog, A: Alarm> Recorder<L, M>
    for Journal<'_, F, L, M, J, A> {
    ghost use Rattle.mds_log.specs.Log.{requests};
    ghost use Rattle.mds_follow.specs.Parts.{CoversAbout};

    type Receipt = Receipt<L, M, J>;

    ghost covers = { λ receipt about seat. CoversAbout about seat (requests receipt) };

    fn receipt<R: Wait>(&self, rt: &R) -> Receipt<L, M, J> {
        self.follower.receipt(rt)
    }

    fn commit<R: Wait>(
        &self,
        rt: &R,
        book: &Book<L, M>,
        seat: &Seat<L, M>,
        about: Option<Key>,
        receipt: &mut Receipt<L, M, J>,
    ) -> Result<(), RecordFault> {
        let committed = self.follower.commit(rt, book, seat, about, receipt);
        if matches!(committed, Err(RecordFault::NotKept)) {
            self.alarm.tell_not_kept();
        }
        committed
    }
}
