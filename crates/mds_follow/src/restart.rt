//! A book that is filled again with what was recorded.
ghost use Rattle.std.specs.Prelude.{◌≡◌, ◌≢◌, ◌+◌, ◌<◌, ◌≤◌, ◌^◌, ◌++◌, [], List, length, drop, true, false, Ok, OnOk, IfOk, IfErr};
ghost use Rattle.mds_log.specs.Log.{Acceptance, requests as requests_of};
ghost use Rattle.mds_journal.specs.Device.{LeavesOnly};
ghost use Rattle.mds_journal.specs.Opening.{KeepsLines};
ghost use Rattle.mds_follow.specs.End.{EndsWith, HasRefused, IsCutOff, IsNoFileFault};
ghost use Rattle.mds_follow.specs.Record.{recorded_at};
ghost use Rattle.mds_follow.specs.Reading.{IsAtFirstRequest, IsAtRequest, IsNotStarted, IsReadOn, IsStartFault};
ghost use Rattle.mds_book.specs.Refilling.{HasAll, IsFilled};
ghost use Rattle.mds_follow.specs.Pieces.{IsFirstPiece, IsNext, requests_in};
ghost use Rattle.mds_follow.specs.Restart.{BeginsOver, HasAsked, IsAllTaken, IsAskFault, IsHalfway, IsRefilled, IsTaken, MayBeAsked, resuming};

use crate::ahead::Ahead;
use crate::aside::put_aside;
use crate::desk::note;
use crate::end::JournalEnd;
use crate::piece::Piece;
use crate::start_fault::of_journal;
use crate::{Aside, Disk, Follower, Record, RecordLog, RequestReader, StartFault};
use mds_book::{Book, Progress, RefillFault, Seat, SharedLedger};
use mds_core::Request;
use mds_journal::{Device, JournalFault};
use mds_log::{BlankLog, Keeper, Tagged};
use std::alloc::Global;
use std::marker::Model;
use std::mem::swap;
use std::sync::Wait;
use std::thread::{Threads, join_mut};

/// Asks requests of a book that nobody else asks. Their lines have these numbers, and maybe more. Each has to be accepted.
///
/// # Errors
///
/// `Refused`, with the number of its line, where the tables don't accept one behind those before it, `Memory`; and `Shared` where
/// another seat has asked the book.
fn ask_portion<L: SharedLedger, M: SharedLedger, R: Threads + Wait + Sync>(
    rt: &R,
    alloc: Global,
    book: &Book<L, M>,
    numbers: &[usize],
    requests: &[Request],
    seat: &mut Seat<L, M>,
) -> Result<(), StartFault>
    requires all { HasAll seat.old }
    requires numbered { length requests.now ≤ length numbers.now }
    ensures keep { seat.new.keeps_all ≡ seat.old.keeps_all }
    ensures filled { OnOk result (HasAll seat.new × IsFilled seat.old requests.now seat.new) }
    ensures fault { (told : List Acceptance) → IsRefilled seat.old told
        → IfErr result (IsAskFault book.now.tables (requests_of told) numbers.now requests.now) }
{
    let Err(stop) = book.refill(rt, alloc, seat, requests) else {
        return Ok(());
    };
    Err(match stop.fault {
        RefillFault::Memory => StartFault::Memory,
        RefillFault::Refused => of_journal(JournalFault::Refused(numbers[stop.at])),
        RefillFault::Shared => StartFault::Shared,
    })
}

/// As [`ask_portion`], a piece.
fn ask_piece<L: SharedLedger, M: SharedLedger, R: Threads + Wait + Sync>(
    rt: &R,
    alloc: Global,
    book: &Book<L, M>,
    piece: &Piece,
    seat: &mut Seat<L, M>,
) -> Result<(), StartFault>
    requires may { MayBeAsked seat.old piece.now }
    ensures keep { seat.new.keeps_all ≡ seat.old.keeps_all }
    ensures filled { OnOk result
        (HasAll seat.new × IsFilled seat.old (requests_in piece.now) seat.new) }
    ensures fault { (told : List Acceptance) → IsRefilled seat.old told
        → IfErr result (IsAskFault book.now.tables (requests_of told) piece.now.numbers.items
        (requests_in piece.now)) }
{
    let first = piece.first.requests.as_slice();
    match ask_portion(rt, alloc, book, &piece.numbers, first, seat) {
        Ok(()) => {}
        Err(fault) => return Err(fault),
    }
    let second = piece.second.requests.as_slice();
    let behind = &piece.numbers[first.len()..];
    ask_portion(rt, alloc, book, behind, second, seat)
}

/// Asks a piece, as [`ask_piece`] does, while other threads read the next one.
fn ask_and_read<'a, D: Device + Send, L: SharedLedger, M: SharedLedger, R: Threads + Wait + Sync>(
    rt: &'a R,
    book: &'a Book<L, M>,
    piece: &'a Piece,
    seat: &mut Seat<L, M>,
    ahead: &mut Ahead<D>,
) -> Result<(), StartFault>
    requires reading { IsAtRequest D.seen D.may_leave D.may_be_used D.is_true
        ahead.old.reader.opening }
    requires may { MayBeAsked seat.old piece.now }
    ensures keep { seat.new.keeps_all ≡ seat.old.keeps_all }
    ensures filled { OnOk result
        (HasAll seat.new × IsFilled seat.old (requests_in piece.now) seat.new) }
    ensures fault { (told : List Acceptance) → IsRefilled seat.old told
        → IfErr result (IsAskFault book.now.tables (requests_of told) piece.now.numbers.items
        (requests_in piece.now)) }
    ensures reading { IsAtRequest D.seen D.may_leave D.may_be_used D.is_true
        ahead.new.reader.opening }
    ensures read_on { IsReadOn D.seen D.may_leave D.is_true D.moment D.left_since
        ahead.old.reader.opening ahead.new.reader.opening }
    ensures next { IsNext D.seen D.is_true ahead.old.reader ahead.new.reader ahead.new.next }
{
    let alloc = ahead.reader.alloc;
    let mut read = ||
        requires { IsAtRequest D.seen D.may_leave D.may_be_used D.is_true
            ahead.now.reader.opening }
        ensures reading { IsAtRequest D.seen D.may_leave D.may_be_used D.is_true
            ahead.exit.now.reader.opening }
        ensures read_on { IsReadOn D.seen D.may_leave D.is_true D.moment D.left_since
            ahead.entry.now.reader.opening ahead.exit.now.reader.opening }
        ensures next { IsNext D.seen D.is_true ahead.entry.now.reader ahead.exit.now.reader
            ahead.exit.now.next }
    { ahead.read(rt) };
    let mut ask = || -> Result<(), StartFault>
        requires may { MayBeAsked seat.now piece.now }
        ensures keep { seat.exit.now.keeps_all ≡ seat.entry.now.keeps_all }
        ensures filled { OnOk result (HasAll seat.exit.now
            × IsFilled seat.entry.now (requests_in piece.entry.now) seat.exit.now) }
        ensures fault { (told : List Acceptance) → IsRefilled seat.entry.now told
            → IfErr result (IsAskFault book.entry.now.tables (requests_of told)
            piece.entry.now.numbers.items (requests_in piece.entry.now)) }
    { ask_piece(rt, alloc, book, piece, seat) };
    let ((), asked) = join_mut(rt, &mut read, &mut ask);
    asked
}

/// Notes the requests of a piece as recorded.
fn note_piece<F: Tagged, J: RecordLog>(keeper: &mut Keeper<J>, file: &F, piece: &Piece)
    requires { length keeper.old + length (requests_in piece.now) < 2 ^ 63 }
    ensures { keeper.new ≡ keeper.old ++ recorded_at (F.tag file.now) (requests_in piece.now) }
{
    note(keeper, file, piece.first.requests.as_slice());
    note(keeper, file, piece.second.requests.as_slice());
}

/// Asks a piece of a journal of a book that nobody else asks, while the next one is read, and notes its requests as recorded. The
/// next one comes into its place.
///
/// # Errors
///
/// As [`ask_portion`].
fn take_piece<
    D: Device + Send,
    L: SharedLedger,
    M: SharedLedger,
    J: RecordLog,
    R: Threads + Wait + Sync,
>(
    rt: &R,
    book: &Book<L, M>,
    seat: &mut Seat<L, M>,
    ahead: &mut Ahead<D>,
    keeper: &mut Keeper<J>,
    piece: &mut Piece,
) -> Result<(), StartFault>
    requires reading { IsAtRequest D.seen D.may_leave D.may_be_used D.is_true
        ahead.old.reader.opening }
    requires halfway { IsHalfway D.seen D.is_true
        (resuming ahead.old.reader seat.old keeper.old piece.old) }
    requires more { piece.old.end ≡ Ok true }
    ensures keep { seat.new.keeps_all ≡ seat.old.keeps_all }
    ensures reading { IsAtRequest D.seen D.may_leave D.may_be_used D.is_true
        ahead.new.reader.opening }
    ensures read_on { IsReadOn D.seen D.may_leave D.is_true D.moment D.left_since
        ahead.old.reader.opening ahead.new.reader.opening }
    ensures taken { OnOk result (IsTaken D.seen D.is_true D.moment
        (resuming ahead.old.reader seat.old keeper.old piece.old)
        (resuming ahead.new.reader seat.new keeper.new piece.new)) }
    ensures fault { IfErr result (λ fault. D.is_true ahead.new.reader.opening.device
        → IsStartFault book.now.tables (D.seen ahead.new.reader.opening.device) fault) }
{
    match ask_and_read(rt, book, piece, seat, ahead) {
        Ok(()) => {}
        Err(fault) => return Err(fault),
    }
    note_piece(keeper, ahead, piece);
    swap(piece, &mut ahead.next);
    Ok(())
}

/// Asks the last piece of a journal of a book that nobody else asks, and notes its requests as recorded.
///
/// # Errors
///
/// As [`ask_portion`], and then why the line behind the piece gives no request.
fn take_last<D: Device, L: SharedLedger, M: SharedLedger, J: RecordLog, R: Threads + Wait + Sync>(
    rt: &R,
    book: &Book<L, M>,
    seat: &mut Seat<L, M>,
    ahead: &Ahead<D>,
    keeper: &mut Keeper<J>,
    last: &Piece,
) -> Result<(), StartFault>
    requires halfway { IsHalfway D.seen D.is_true
        (resuming ahead.now.reader seat.old keeper.old last.now) }
    requires end { last.now.end ≢ Ok true }
    ensures keep { seat.new.keeps_all ≡ seat.old.keeps_all }
    ensures noted { OnOk result (keeper.new ≡ keeper.old
        ++ recorded_at (D.moment ahead.now.reader.opening.device) (requests_in last.now)) }
    ensures all { OnOk result (IsAllTaken D.seen D.is_true ahead.now.reader seat.new
        keeper.new) }
    ensures fault { IfErr result (λ fault. D.is_true ahead.now.reader.opening.device
        → IsStartFault book.now.tables (D.seen ahead.now.reader.opening.device) fault) }
{
    match ask_piece(rt, ahead.reader.alloc, book, last, seat) {
        Ok(()) => {}
        Err(fault) => return Err(fault),
    }
    note_piece(keeper, ahead, last);
    match last.end {
        Ok(_) => Ok(()),
        Err(fault) => Err(fault),
    }
}

/// Asks all requests that are left of a journal of a book that nobody has asked, one after the other, and notes them as recorded.
/// Each piece is read while the one before it is asked: the first one, while `piece` is, in which there is nothing.
///
/// # Errors
///
/// As [`take_piece`] and [`take_last`].
fn read_back<
    D: Device + Send,
    L: SharedLedger,
    M: SharedLedger,
    J: RecordLog,
    R: Threads + Wait + Sync,
>(
    rt: &R,
    book: &Book<L, M>,
    seat: &mut Seat<L, M>,
    ahead: &mut Ahead<D>,
    keeper: &mut Keeper<J>,
    mut piece: Piece,
) -> Result<(), StartFault>
    requires at_first { IsAtFirstRequest D.seen D.may_leave D.may_be_used D.is_true
        ahead.old.reader }
    requires none { (keeper.old ≡ []) × IsRefilled seat.old [] × IsFirstPiece piece }
    ensures keep { seat.new.keeps_all ≡ seat.old.keeps_all }
    ensures reading { IsAtRequest D.seen D.may_leave D.may_be_used D.is_true
        ahead.new.reader.opening }
    ensures read_on { IsReadOn D.seen D.may_leave D.is_true D.moment D.left_since
        ahead.old.reader.opening ahead.new.reader.opening }
    ensures all { OnOk result (IsAllTaken D.seen D.is_true ahead.new.reader seat.new
        keeper.new) }
    ensures at_start { OnOk result (D.is_true ahead.new.reader.opening.device
        → keeper.new
        ≡ recorded_at (D.moment ahead.old.reader.opening.device) (requests_of keeper.new)) }
    ensures fault { IfErr result (λ fault. D.is_true ahead.new.reader.opening.device
        → IsStartFault book.now.tables (D.seen ahead.old.reader.opening.device) fault) }
{
    'pieces: while let Ok(true) = piece.end {
        match take_piece(rt, book, seat, ahead, keeper, &mut piece) {
            Ok(()) => {}
            Err(fault) => return Err(fault),
        }
    }
    take_last(rt, book, seat, ahead, keeper, &piece)
}

/// What a start over a journal came to: the file, for more to be recorded in it, and how much of the book is. Contracts see the file,
/// what is recorded in it, and the requests that the book holds besides: those of a group that wasn't opened.
pub struct Resumed<F: Record, L: SharedLedger, M: SharedLedger, J: RecordLog> {
    file: F,
    keeper: Keeper<J>,
    first: Progress<L>,
    second: Progress<M>,
    group: Vec<Request>,
}

// By hand: crates above cite it.
impl<F: Record + Drop, L: SharedLedger, M: SharedLedger, J: RecordLog> Drop
    for Resumed<F, L, M, J> {
    fn drop(self) {
        let Resumed {
            file: _,
            keeper: _,
            first: _,
            second: _,
            group: _,
        } = self;
    }
}

impl<F: Record, L: SharedLedger, M: SharedLedger, J: RecordLog> Model for Resumed<F, L, M, J> {
    ghost use Rattle.std.specs.Prelude.{◌≡◌, ◌≤◌, ◌<◌, ◌^◌, length};
    ghost use Rattle.mds_log.specs.Log.{requests};
    ghost use Rattle.mds_book.specs.Shards.{part};
    ghost use Rattle.mds_follow.specs.Restart.{IsRead, Resumption};

    ghost Value = { Resumption F };

    ghost view = { λ own. record { file = own.file; told = own.keeper; group = own.group.items } };

    ghost invariant = { λ own.
        F.is_sound own.file
        × (length own.keeper < 2 ^ 63)
        × (F.is_true own.file → J.start ≤ F.tag own.file)
        × (F.is_true own.file → F.may_go_on own.file → F.stands own.file (requests own.keeper))
        × (F.is_true own.file → IsRead (F.left_since own.file) J.start own.keeper)
        × (F.is_true own.file → J.held (requests own.keeper))
        × (own.first ≡ record {
          seen = part 0 (requests own.keeper);
          count = length (part 0 (requests own.keeper));
        })
        × (own.second ≡ record {
          seen = part 1 (requests own.keeper);
          count = length (part 1 (requests own.keeper));
        }) };
}

impl<F: Record, L: SharedLedger, M: SharedLedger, J: RecordLog> Resumed<F, L, M, J> {
    /// What follows the book from now on.
    pub fn follow(self, alloc: Global) -> Follower<F, L, M, J>
        ensures { result ≡ self.told }
    {
        let Resumed {
            file,
            keeper,
            first,
            second,
            group: _group,
        } = self;
        Follower::begin(alloc, file, keeper, first, second)
    }
}

/// Asks the requests of a group that wasn't opened, and puts aside what is to be cut off. It says `false` where the tables don't
/// accept them all: then the group is to be cut off, too.
///
/// # Errors
///
/// `Device` where nothing can be put aside, `Memory`; and `Shared` where another seat has asked the book.
fn take_end<L: SharedLedger, M: SharedLedger, R: Threads + Wait + Sync, A: Aside>(
    rt: &R,
    alloc: Global,
    book: &Book<L, M>,
    seat: &mut Seat<L, M>,
    end: &JournalEnd,
    aside: &mut A,
) -> Result<bool, StartFault>
    requires { HasAll seat.old }
    ensures keep { seat.new.keeps_all ≡ seat.old.keeps_all }
    ensures filled { IfOk result (λ is_taken. is_taken ≡ true
        → HasAll seat.new × IsFilled seat.old end.now.requests.items seat.new) }
    ensures cut { IfOk result (λ is_taken. is_taken ≡ true
        → IsCutOff (A.stand aside.new) (drop end.now.place end.now.bytes.items)) }
    ensures refused { (told : List Acceptance) → IsRefilled seat.old told
        → IfOk result (λ is_taken. is_taken ≡ false
        → HasRefused book.now.tables (requests_of told) end.now.requests.items) }
    ensures all { IfOk result (λ is_taken. is_taken ≡ false
        → IsCutOff (A.stand aside.new) end.now.bytes.items) }
    ensures fault { IfErr result IsNoFileFault }
{
    let Err(stop) = book.refill(rt, alloc, seat, &end.requests) else {
        put_aside(aside, end.behind_group())?;
        return Ok(true);
    };
    match stop.fault {
        RefillFault::Memory => Err(StartFault::Memory),
        RefillFault::Shared => Err(StartFault::Shared),
        RefillFault::Refused => {
            put_aside(aside, end.whole())?;
            Ok(false)
        }
    }
}

/// Asks all requests of a journal of a book that nobody has asked, by a seat of it, and goes on with the journal as the record
/// of the book. What stands behind the lines that count is cut off last of all: till then the file isn't written. If a whole group
/// stands there that wasn't opened, its requests are asked behind the others: they aren't recorded yet. What else stands there, but
/// room, is put aside.
///
/// # Errors
///
/// `CutOff` where the tables don't accept that group: it was put aside and cut off, so the next start goes on without it.
/// [`StartFault::Journal`], with the number of the line, where a line tells no request, has too many bytes, or tells one that
/// the tables don't accept behind those before it, where a group isn't as it was written, and where more stands behind the lines
/// than a crash leaves: the file is as it was. `Device` where a call of the device failed, `Memory`; and `Shared` where another seat has asked the book. The device
/// comes back.
pub fn resume<
    D: Device + Send,
    L: SharedLedger,
    M: SharedLedger,
    J: RecordLog,
    R: Threads + Wait + Sync,
    A: Aside,
>(
    rt: &R,
    book: &Book<L, M>,
    seat: &mut Seat<L, M>,
    reader: RequestReader<D>,
    log: BlankLog,
    aside: &mut A,
) -> Result<Resumed<Disk<D>, L, M, J>, (StartFault, D)>
    requires at_first { IsAtFirstRequest D.seen D.may_leave D.may_be_used D.is_true reader }
    requires log { log ≡ J.log }
    requires begins { BeginsOver J.start J.held (D.moment reader.opening.device)
        (D.seen reader.opening.device) }
    requires fresh { IsRefilled seat.old [] }
    ensures keep { seat.new.keeps_all ≡ seat.old.keeps_all }
    ensures asked { IfOk result (λ resumed. HasAsked seat.new resumed.told resumed.group) }
    ensures end { IfOk result (λ resumed. D.is_true resumed.file.journal.device
        → EndsWith (D.seen reader.opening.device) (A.stand aside.new) resumed.group) }
    ensures fault { IfErr result (λ error. D.is_true error.1
        → D.is_true reader.opening.device × IsNotStarted book.now.tables
        (D.seen reader.opening.device) (D.seen error.1) error.0) }
    ensures usable { IfErr result (λ error. error.0 ≡ StartFault.CutOff
        → D.may_be_used error.1) }
    // A crash at any moment leaves the same lines, also where the start fails.
    ensures any_moment_err { IfErr result (λ error. D.is_true error.1
        → LeavesOnly D.moment D.left_since reader.opening.device error.1
        (KeepsLines (D.seen reader.opening.device))) }
{
    let Some((mut keeper, _front)) = log.with_name::<J>() else {
        return Err((StartFault::Shared, reader.into_device()));
    };
    let alloc = reader.alloc;
    let mut ahead = Ahead {
        reader,
        lines: Vec::new(alloc),
        next: Piece::new(alloc),
    };
    match read_back(rt, book, seat, &mut ahead, &mut keeper, Piece::new(alloc)) {
        Ok(()) => {}
        Err(fault) => return Err((fault, ahead.into_device())),
    }
    let (first, second) = seat.progress();
    // What the pieces took has to be there for the end.
    let Ahead { mut reader, .. } = ahead;
    let end = match reader.read_end() {
        Ok(end) => end,
        Err(fault) => return Err((fault, reader.into_device())),
    };
    let is_taken = match take_end(rt, alloc, book, seat, &end, aside) {
        Ok(is_taken) => is_taken,
        Err(fault) => return Err((fault, reader.into_device())),
    };
    let disk = match reader.into_disk() {
        Ok(disk) => disk,
        Err(error) => return Err(error),
    };
    if !is_taken {
        return Err((StartFault::CutOff, disk.into_device()));
    }
    Ok(Resumed {
        file: disk,
        keeper,
        first,
        second,
        group: end.requests,
    })
}
