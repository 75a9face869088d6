//! A book that is served over a journal, from its opening to its settling.
ghost use Rattle.std.specs.Prelude.{◌≡◌, ℕ, List, IfOk, IfErr, Ok, vec_len};
ghost use Rattle.mds_table.specs.Tables.{Tables as Timed};
ghost use Rattle.mds_journal.specs.Device.{LeavesOnly};
ghost use Rattle.mds_journal.specs.Opening.{KeepsLines};
ghost use Rattle.mds_follow.specs.Reading.{IsAtFirstRequest, IsNotStarted};
ghost use Rattle.mds_follow.specs.Restart.{BeginsOver};
ghost use Rattle.mds_pool.specs.Recording.{IsRecordOf, IsRecordedStop};
ghost use Rattle.mds_pool.specs.Serving.{AreWorkers, Fits, IsEnded, IsSettledEnd, names_of};

use crate::pool::serve_round;
use crate::recorder::Journal;
use crate::serving::{open_book, settle};
use crate::{Alarm, FinalBook, Held, NewBook, Port, Stop};
use mds_book::{Book, Copies, OpenGate, RecordFault, Seat, Settled, ShardLedger, SharedLedger};
use mds_face::Face;
use mds_follow::{
    Aside, Disk, Follower, Record, RecordLog, RequestReader, SharedFollower, StartFault, resume,
};
use mds_journal::Device;
use mds_log::BlankLog;
use std::alloc::{AllocError, Global};
use std::marker::Model;
use std::sync::Wait;
use std::thread::Threads;

/// A book that was opened over a record, and holds what that tells. Contracts see its tables, and the number of its seats.
pub struct RecordedBook<F: Record, L: ShardLedger, M: ShardLedger, J: RecordLog> {
    book: Book<L, M>,
    seats: Vec<Seat<L, M>>,
    follower: Follower<F, L, M, J>,
}

// By hand: crates above cite it.
impl<F: Record + Drop, L: ShardLedger, M: ShardLedger, J: RecordLog> Drop
    for RecordedBook<F, L, M, J> {
    fn drop(self) {
        let RecordedBook {
            book: _,
            seats: _,
            follower: _,
        } = self;
    }
}

impl<F: Record, L: ShardLedger, M: ShardLedger, J: RecordLog> Model for RecordedBook<F, L, M, J> {
    ghost use Rattle.mds_book.specs.Books.{Opened};
    ghost use Rattle.mds_pool.specs.Recording.{AreResumed};
    ghost use Rattle.mds_pool.specs.Serving.{AreWorkers};

    ghost Value = { Opened };

    ghost view = { λ own. own.book };

    ghost invariant = { λ own. AreWorkers own.book.seats own.seats.items
        × AreResumed own.seats.items };
}

/// A settled book, and the file in which what it accepted is recorded.
#[derive(Drop)]
pub struct RecordedEnd<F: Record, L: ShardLedger, M: ShardLedger> {
    /// The settled book, and how many connections each of its workers answered.
    pub book: FinalBook<L, M>,
    /// The file.
    pub file: F,
}

/// Why no settled book was handed out.
#[derive(Clone, Copy, Debug, PartialEq, Eq)]
pub enum RecordedStop {
    /// As where nothing is recorded.
    Serve(Stop),
    /// What was accepted isn't all recorded, or that stays open: a write or a sync failed. No answer was given that rests on what
    /// isn't. Nothing was settled.
    Journal,
}

impl<D: Device + Send, L: SharedLedger, M: SharedLedger, J: RecordLog> RecordedBook<
    Disk<D>,
    L,
    M,
    J,
> {
    /// Opens a book over a journal. Its first seat asks all that the journal tells, and notes it like any other request; so it does
    /// a whole group that no gate opened. That is still to be [recorded](RecordedBook::record_all).
    ///
    /// # Errors
    ///
    /// As [`resume`]; and `Memory` where there is none for the book. Behind `CutOff` another book may be opened over the device.
    pub fn open<R: Threads + Wait + Sync, A: Aside>(
        rt: &R,
        alloc: Global,
        opening: NewBook,
        reader: RequestReader<D>,
        log: BlankLog,
        aside: &mut A,
    ) -> Result<RecordedBook<Disk<D>, L, M, J>, (StartFault, D)>
        requires fits { Fits (names_of L.name L.parts L.log L.marks L.tables)
            (names_of M.name M.parts M.log M.marks M.tables) opening }
        requires at_first { IsAtFirstRequest D.seen D.may_leave D.may_be_used D.is_true
            reader }
        requires log { log ≡ J.log }
        requires begins { BeginsOver J.start J.held (D.moment reader.opening.device)
            (D.seen reader.opening.device) }
        ensures opened { IfOk result (λ own. (own.tables ≡ opening.tables)
            × (own.seats ≡ opening.seats)) }
        ensures fault { IfErr result (λ error. D.is_true error.1 → IsNotStarted opening.tables
            (D.seen reader.opening.device) (D.seen error.1) error.0) }
        ensures any_moment_err { IfErr result (λ error. D.is_true error.1
            → LeavesOnly D.moment D.left_since reader.opening.device error.1
            (KeepsLines (D.seen reader.opening.device))) }
        ensures was_true { IfErr result (λ error. D.is_true error.1
            → D.is_true reader.opening.device) }
        ensures usable { IfErr result (λ error. error.0 ≡ StartFault.CutOff
            → D.may_be_used error.1) }
    {
        let (book, mut seats) = match open_book::<L, M>(alloc, opening) {
            Ok(opened) => opened,
            Err(AllocError) => return Err((StartFault::Memory, reader.into_device())),
        };
        match resume::<D, L, M, J, R, A>(rt, &book, &mut seats[0], reader, log, aside) {
            Ok(resumed) => Ok(RecordedBook {
                book,
                seats,
                follower: resumed.follow(alloc),
            }),
            Err(error) => Err(error),
        }
    }
}

impl<F: Record + Drop, L: SharedLedger, M: SharedLedger, J: RecordLog> RecordedBook<F, L, M, J> {
    /// Records what the book holds and isn't recorded yet: a group that stood whole behind the lines of a journal.
    ///
    /// # Errors
    ///
    /// As [`Record::append`].
    pub fn record_all<R: Wait>(&mut self, rt: &R) -> Result<(), RecordFault>
        ensures { self.new ≡ self.old }
    {
        self.follower
            .follow_all(rt, &self.book, self.seats.as_slice())
    }

    /// What the book holds. All of it is looked at.
    ///
    /// # Errors
    ///
    /// `AllocError` where there is no memory to look at it.
    pub fn held<R: Wait>(&self, rt: &R, alloc: Global) -> Result<Held, AllocError> {
        let mut held = Held::nothing();
        let Some(seat) = self.seats.first() else {
            return Ok(held);
        };
        let (first, second) = seat.progress();
        let (mut first, mut second) = (first.with_count(0), second.with_count(0));
        let mut copies = Copies::new(alloc);
        for _ in 0..u64::MAX {
            copies.clear();
            self.book.copy_first(rt, &mut first, &mut copies)?;
            self.book.copy_second(rt, &mut second, &mut copies)?;
            if copies.as_slice().is_empty() {
                break;
            }
            held.add_all(copies.as_slice());
        }
        Ok(held)
    }

    /// Serves a port over the book, by as many workers as the book has seats. Each worker answers `each` connections, and notes
    /// the calls that were accepted. No answer goes out before all is recorded that it rests on; where a write fails in place of
    /// it, the alarm is told. At the end all is recorded that was accepted, and the book is settled and handed out.
    ///
    /// # Errors
    ///
    /// [`RecordedStop`] says when each comes.
    pub fn serve<R: Threads + Wait + Sync, P: Port + Sync, A: Alarm + Sync>(
        self,
        rt: &R,
        alloc: Global,
        port: &P,
        each: usize,
        alarm: &A,
    ) -> Result<RecordedEnd<F, L, M>, RecordedStop>
    where
        P::In: Send,
        P::Out: Send,
        F: Send,
        J: Send + Sync,
        ensures ended { IfOk result (λ end. IsEnded self.tables self.seats each (Ok end.book)) }
        ensures stopped { IfErr result (IsRecordedStop self.tables self.seats each) }
        ensures recorded { IfOk result (λ end. IsRecordOf F.is_sound F.is_true F.may_go_on F.stands
            F.tag F.left_since J.start J.held end.file end.book.all) }
    {
        let RecordedBook {
            book,
            seats,
            follower,
        } = self;
        let Ok(face) = Face::open(alloc) else {
            return Err(RecordedStop::Serve(Stop::Memory));
        };
        let journal = Journal {
            follower: SharedFollower::of(follower),
            alarm,
        };
        let Ok(round) = serve_round(
            rt, alloc, &face, port, &book, seats, each, &OpenGate, &journal,
        ) else {
            return Err(RecordedStop::Serve(Stop::Memory));
        };
        // Nobody answers who comes now.
        port.stop();
        if round.is_lost {
            return Err(RecordedStop::Journal);
        }
        if round.failed {
            return Err(RecordedStop::Serve(Stop::Accept));
        }
        let Journal { follower, alarm: _ } = journal;
        let follower = follower.into_follower();
        match settle_recorded(rt, book, round.seats, follower) {
            Ok((settled, file)) => Ok(RecordedEnd {
                book: FinalBook {
                    settled,
                    answered: round.answered,
                },
                file,
            }),
            Err(stop) => Err(stop),
        }
    }
}

/// Records all that the seats of a book have seen, and settles the book.
///
/// # Errors
///
/// [`RecordedStop::Journal`] where not all is recorded, `Serve` by [`Stop::Memory`] where there was no memory for that.
fn settle_recorded<F: Record + Drop, L: ShardLedger, M: ShardLedger, J: RecordLog, R: Wait>(
    rt: &R,
    book: Book<L, M>,
    seats: Vec<Seat<L, M>>,
    mut follower: Follower<F, L, M, J>,
) -> Result<(Settled<L, M>, F), RecordedStop>
    requires { vec_len seats ≡ book.seats }
    ensures settled { IfOk result (λ end. IsSettledEnd book seats.items end.0) }
    ensures recorded { IfOk result (λ end. IsRecordOf F.is_sound F.is_true F.may_go_on F.stands
        F.tag F.left_since J.start J.held end.1 end.0) }
    ensures stopped { (tables : Timed) (workers each : ℕ)
        → IfErr result (IsRecordedStop tables workers each) }
{
    match follower.follow_all(rt, &book, seats.as_slice()) {
        Ok(()) => {}
        Err(RecordFault::Memory) => return Err(RecordedStop::Serve(Stop::Memory)),
        Err(RecordFault::NotKept | RecordFault::Lost) => return Err(RecordedStop::Journal),
    }
    let mut settled = settle(book, seats);
    let file = follower.finish(&mut settled);
    Ok((settled, file))
}
