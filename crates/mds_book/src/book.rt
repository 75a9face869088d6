//! The shards under their locks, and the calls that take them.
ghost use Rattle.std.specs.Prelude.{◌≡◌, ◌↔◌, ◌<◌, ◌≤◌, ◌+◌, ◌++◌, ◌^◌, true, false, Err, Some, replicate, vec_len, vec_capacity, IsOk, IfOk, OnOk, OnErr, option_map};
ghost use Rattle.std.specs.Fn.{FnOnceReturnsAt};
ghost use mathlib.Core.List.{IsPrefix};
ghost use Rattle.mds_core.specs.History.{key_of, requests_of};
ghost use Rattle.mds_core.specs.Headline.{is_done as outcome_is_done};
ghost use Rattle.mds_book.specs.Shards.{shard_of as number_of};
ghost use Rattle.mds_book.specs.Seats.{new_seat, keeps_all, is_look, accepted_in, seen_in, notes_of_call, IsCalled, IsListed};
ghost use Rattle.mds_book.specs.Sights.{rules_in};
ghost use Rattle.mds_book.specs.Turns.{IsStepped};
ghost use Rattle.mds_book.specs.Notes.{IsNoted};
ghost use Rattle.mds_book.specs.Books.{IsBadCount, GivesEvents, SeesShard, open_fault_text};
ghost use Rattle.mds_book.specs.Gathering.{IsGathered};
ghost use Rattle.mds_book.specs.Settling.{AreBeginnings, IsSettledBook};
ghost use Rattle.mds_book.specs.Copying.{AddsPiece, copied_requests, copied_in};
ghost use Rattle.mds_log.specs.Log.{requests};

use crate::gathered::Account;
use crate::listing::{events_in, list_in};
use crate::notes::{NoteForm, Notes, make_room, note_call};
use crate::part::Parts;
use crate::settling::{Closing, count_all, retire_all};
use crate::slot::shard_of;
use crate::{Blank, Copies, Gathered, Keep, Part, Progress, Seat, ShardLedger, Slot};
use mds_core::{Event, EventList, Key, Reply, Request};
use mds_log::{Front, Marks};
use mds_shard::{Shard, TakesEvents};
use mds_table::Tables;
use std::alloc::{AllocError, Global};
use std::error::Error;
use std::fmt;
use std::hash::RandomState;
use std::marker::Model;
use std::sync::{Mutex, Wait};

/// The most seats of a book, and so the most workers that serve it: more threads than a city's machine has processors gain
/// nothing.
pub const MAX_SEATS: usize = 64;

/// Why no book was opened.
#[derive(Clone, Copy, Debug, PartialEq, Eq)]
pub enum OpenFault {
    /// There is no memory for it.
    Memory,
    /// The number of seats isn't 1 to [`MAX_SEATS`].
    BadSeats,
}

impl fmt::Display for OpenFault {
    ghost output = { λ fault. Some (open_fault_text fault) };

    fn fmt<W: fmt::Write>(&self, f: &mut fmt::Formatter<W>) -> fmt::Result {
        f.write_str(match self {
            OpenFault::Memory => "memory",
            OpenFault::BadSeats => "bad_seats",
        })
    }
}

impl Error for OpenFault {}

/// Two shards, each under a lock of its own. A vehicle's calls stand in the shard of its number.
pub struct Book<L: ShardLedger, M: ShardLedger> {
    pub(crate) tables: Tables,
    pub(crate) seats: usize,
    pub(crate) first: Mutex<Slot<L, 0>>,
    pub(crate) second: Mutex<Slot<M, 1>>,
    pub(crate) first_marks: Marks<L>,
    pub(crate) second_marks: Marks<M>,
    // Room for what is left of the seats, so that settling takes no memory.
    pub(crate) room: Vec<Account<L, M>>,
}

// By hand: crates above cite it.
impl<L: ShardLedger, M: ShardLedger> Drop for Book<L, M> {
    fn drop(self) {
        let Book {
            tables: _,
            seats: _,
            first: _,
            second: _,
            first_marks: _,
            second_marks: _,
            room: _,
        } = self;
    }
}

impl<L: ShardLedger, M: ShardLedger> Model for Book<L, M> {
    ghost use Rattle.std.specs.Prelude.{◌≡◌, ◌<◌, ◌≤◌, vec_len, vec_capacity};
    ghost use Rattle.mds_book.specs.Books.{Opened};

    ghost Value = { Opened };

    ghost view = { λ book. record { tables = book.tables; seats = book.seats } };

    ghost invariant = { λ book. (book.tables ≡ L.tables) × (book.tables ≡ M.tables)
        × (book.seats ≡ L.parts) × (book.seats ≡ M.parts) × (0 < book.seats)
        × (vec_len book.room ≡ 0) × (book.seats ≤ vec_capacity book.room) };
}

fn seats_of<L: ShardLedger, M: ShardLedger>(
    alloc: Global,
    count: usize,
    keep: Keep,
    first: &mut Parts<L>,
    second: &mut Parts<M>,
) -> Result<Vec<Seat<L, M>>, AllocError>
    requires first { first.old.share.parts ≡ count }
    requires second { second.old.share.parts ≡ count }
    requires keep { keeps_all keep ≡ true → L.Note.notes_all ≡ true }
    ensures { IfOk result (λ seats. seats.items ≡ replicate count (new_seat (keeps_all keep))) }
{
    let mut seats = Vec::with_capacity(alloc, count)?;
    for _ in 0..count {
        seats.push(Seat::of(alloc, keep, first, second))?;
    }
    Ok(seats)
}

/// `AllocError` would come, too, where another had written to the log: nobody does.
fn open_slot<L: ShardLedger, const N: usize>(
    alloc: Global,
    tables: &Tables,
    blank: Blank,
    hasher: RandomState,
) -> Result<(Slot<L, N>, Parts<L>), AllocError>
    requires ledger { (blank.name ≡ L.name) × (blank.parts ≡ L.parts) }
    requires log { (blank.log ≡ L.log) × (blank.marks ≡ L.marks) }
    requires tables { tables.now ≡ L.tables }
    ensures parts { IfOk result (λ opened. opened.1.share.parts ≡ L.parts) }
{
    let copied = tables.copy(alloc)?;
    let Some((slot, parts)) = Slot::open(alloc, copied, blank, hasher) else {
        return Err(AllocError);
    };
    Ok((slot, parts))
}

/// The room is for what is left of the seats once they are settled.
fn places_of<L: ShardLedger, M: ShardLedger>(
    alloc: Global,
    count: usize,
    keep: Keep,
    first: &mut Parts<L>,
    second: &mut Parts<M>,
) -> Result<(Vec<Seat<L, M>>, Vec<Account<L, M>>), AllocError>
    requires first { first.old.share.parts ≡ count }
    requires second { second.old.share.parts ≡ count }
    requires keep { keeps_all keep ≡ true → L.Note.notes_all ≡ true }
    ensures seats { IfOk result (λ places.
        places.0.items ≡ replicate count (new_seat (keeps_all keep))) }
    ensures empty { IfOk result (λ places. vec_len places.1 ≡ 0) }
    ensures room { IfOk result (λ places. count ≤ vec_capacity places.1) }
{
    let seats = seats_of(alloc, count, keep, first, second)?;
    let room = Vec::with_capacity(alloc, count)?;
    Ok((seats, room))
}

/// Only the step is made under the lock.
pub(crate) fn step_in<R: Wait, L: ShardLedger, const N: usize>(
    rt: &R,
    slot: &Mutex<Slot<L, N>>,
    part: &mut Part<L>,
    request: &Request,
) -> Result<Reply, AllocError>
    requires { number_of (key_of request.now) ≡ N }
    ensures stepped { IfOk result (λ reply.
        IsStepped (rules_in L.tables N) part.old request.now reply part.new) }
    ensures room { IfOk result (λ reply. reply.place < 2 ^ 63) }
    ensures untold { OnErr result (part.new ≡ part.old) }
    ensures look { is_look request.now ≡ true → IsOk result }
{
    slot.lock(rt).step(part, request)
}

/// Makes a call in its shard, and puts its note behind the others, if it is to be noted.
pub(crate) fn call_in<R: Wait, L: ShardLedger, F: NoteForm, const N: usize>(
    rt: &R,
    slot: &Mutex<Slot<L, N>>,
    part: &mut Part<L>,
    notes: &mut Notes<F>,
    keeps_all: bool,
    request: &Request,
) -> Result<Reply, AllocError>
    requires number { number_of (key_of request.now) ≡ N }
    requires shard { N < 2 }
    requires may { keeps_all ≡ true → F.notes_all ≡ true }
    ensures stepped { IfOk result (λ reply.
        IsStepped (rules_in L.tables N) part.old request.now reply part.new) }
    ensures noted { IfOk result (λ reply. IsNoted F.number F.tells F.is_within keeps_all
        request.now reply notes.old.list notes.new.list) }
    ensures untold { OnErr result (part.new ≡ part.old) }
    ensures unnoted { OnErr result (notes.new.list ≡ notes.old.list) }
    ensures look { is_look request.now ≡ true → keeps_all ≡ false → IsOk result }
{
    let may_note = keeps_all || !matches!(request, Request::Look(_));
    make_room(notes, may_note)?;
    let reply = step_in(rt, slot, part, request)?;
    note_call(notes, keeps_all, N, request, &reply);
    Ok(reply)
}

fn copy_in<R: Wait, L: ShardLedger, const N: usize>(
    rt: &R,
    slot: &Mutex<Slot<L, N>>,
    progress: &mut Progress<L>,
    copies: &mut Copies,
) -> Result<(), AllocError>
    ensures copied { OnOk result
        (AddsPiece L.tables N progress.old copies.old copies.new progress.new) }
    ensures unchanged { OnErr result (progress.new ≡ progress.old) }
{
    slot.lock(rt).copy(progress, copies)
}

fn has_copied_in<R: Wait, L: ShardLedger, const N: usize>(
    rt: &R,
    slot: &Mutex<Slot<L, N>>,
    seen: &Front<L>,
    progress: &Progress<L>,
    key: &Key,
) -> bool
    ensures { result ≡ true → IsPrefix (requests_of (requests seen.now) key.now)
        (requests_of (copied_requests progress.now) key.now) }
{
    slot.lock(rt).has_copied(seen, progress, key)
}

fn with_slot<R: Wait, L: ShardLedger<Form = Request>, const N: usize, X, F: FnOnce(&Shard) -> X>(
    rt: &R,
    slot: &Mutex<Slot<L, N>>,
    f: F,
) -> X
    requires { F.IsAlwaysCallable f }
    ensures { SeesShard L.tables N (λ seen. FnOnceReturnsAt F.FnOnce f seen result) }
{
    f(slot.lock(rt).shard())
}

impl<L: ShardLedger, M: ShardLedger> Book<L, M> {
    /// A book over the tables with nothing accepted, and its seats, 1 to [`MAX_SEATS`], which were told nothing. What each
    /// shard is opened from is handed in blank, with a part for each seat. Each shard hashes by the hasher in its place. Where the
    /// seats keep their notes in a form that tells accepted calls alone, they can keep no others.
    ///
    /// # Errors
    ///
    /// [`OpenFault::BadSeats`] where the number of seats isn't 1 to [`MAX_SEATS`], before any growth, and else
    /// [`OpenFault::Memory`] where there is no memory. That would come too where another had written to a log of the blanks: nobody
    /// does, but no contract can say so.
    pub fn open(
        alloc: Global,
        tables: Tables,
        seats: usize,
        keep: Keep,
        first: Blank,
        second: Blank,
        hashers: [RandomState; 2],
    ) -> Result<(Book<L, M>, Vec<Seat<L, M>>), OpenFault>
        requires first { (first.name ≡ L.name) × (first.parts ≡ L.parts) × (first.parts ≡ seats) }
        requires second { (second.name ≡ M.name) × (second.parts ≡ M.parts)
            × (second.parts ≡ seats) }
        requires logs { (first.log ≡ L.log) × (first.marks ≡ L.marks) × (second.log ≡ M.log)
            × (second.marks ≡ M.marks) }
        requires tables { (tables ≡ L.tables) × (tables ≡ M.tables) }
        requires keep { keeps_all keep ≡ true → L.Note.notes_all ≡ true }
        ensures book { IfOk result (λ opened.
            opened.0 ≡ record { tables = tables; seats = seats }) }
        ensures seats { IfOk result (λ opened.
            opened.1.items ≡ replicate seats (new_seat (keeps_all keep))) }
        ensures range { (result ≡ Err OpenFault.BadSeats) ↔ IsBadCount seats }
    {
        if seats == 0 || seats > MAX_SEATS {
            return Err(OpenFault::BadSeats);
        }
        match Book::open_all(alloc, tables, seats, keep, first, second, hashers) {
            Ok(opened) => Ok(opened),
            Err(AllocError) => Err(OpenFault::Memory),
        }
    }

    fn open_all(
        alloc: Global,
        tables: Tables,
        seats: usize,
        keep: Keep,
        first: Blank,
        second: Blank,
        hashers: [RandomState; 2],
    ) -> Result<(Book<L, M>, Vec<Seat<L, M>>), AllocError>
        requires first { (first.name ≡ L.name) × (first.parts ≡ L.parts) × (first.parts ≡ seats) }
        requires second { (second.name ≡ M.name) × (second.parts ≡ M.parts)
            × (second.parts ≡ seats) }
        requires logs { (first.log ≡ L.log) × (first.marks ≡ L.marks) × (second.log ≡ M.log)
            × (second.marks ≡ M.marks) }
        requires tables { (tables ≡ L.tables) × (tables ≡ M.tables) }
        requires some { 0 < seats }
        requires keep { keeps_all keep ≡ true → L.Note.notes_all ≡ true }
        ensures book { IfOk result (λ opened.
            opened.0 ≡ record { tables = tables; seats = seats }) }
        ensures seats { IfOk result (λ opened.
            opened.1.items ≡ replicate seats (new_seat (keeps_all keep))) }
    {
        let [first_hasher, second_hasher] = hashers;
        let (first_slot, ones) = open_slot(alloc, &tables, first, first_hasher)?;
        let (second_slot, others) = open_slot(alloc, &tables, second, second_hasher)?;
        Book::with_seats(
            alloc,
            tables,
            seats,
            keep,
            first_slot,
            ones,
            second_slot,
            others,
        )
    }

    fn with_seats(
        alloc: Global,
        tables: Tables,
        seats: usize,
        keep: Keep,
        first: Slot<L, 0>,
        mut ones: Parts<L>,
        second: Slot<M, 1>,
        mut others: Parts<M>,
    ) -> Result<(Book<L, M>, Vec<Seat<L, M>>), AllocError>
        requires first { (ones.share.parts ≡ seats) × (L.parts ≡ seats) }
        requires second { (others.share.parts ≡ seats) × (M.parts ≡ seats) }
        requires tables { (tables ≡ L.tables) × (tables ≡ M.tables) }
        requires some { 0 < seats }
        requires keep { keeps_all keep ≡ true → L.Note.notes_all ≡ true }
        ensures book { IfOk result (λ opened.
            opened.0 ≡ record { tables = tables; seats = seats }) }
        ensures seats { IfOk result (λ opened.
            opened.1.items ≡ replicate seats (new_seat (keeps_all keep))) }
    {
        let (list, room) = places_of(alloc, seats, keep, &mut ones, &mut others)?;
        let book = Book::of(tables, seats, first, second, ones.marks, others.marks, room);
        Ok((book, list))
    }

    fn of(
        tables: Tables,
        seats: usize,
        first: Slot<L, 0>,
        second: Slot<M, 1>,
        first_marks: Marks<L>,
        second_marks: Marks<M>,
        room: Vec<Account<L, M>>,
    ) -> Book<L, M>
        requires tables { (tables ≡ L.tables) × (tables ≡ M.tables) }
        requires seats { (seats ≡ L.parts) × (seats ≡ M.parts) × (0 < seats) }
        requires room { (vec_len room ≡ 0) × (seats ≤ vec_capacity room) }
        ensures { result ≡ record { tables = tables; seats = seats } }
    {
        Book {
            tables,
            seats,
            first: Mutex::new(first),
            second: Mutex::new(second),
            first_marks,
            second_marks,
            room,
        }
    }

    /// The tables of the book, which judge each event by the one in force at its time.
    pub fn tables(&self) -> &Tables
        ensures { result.now ≡ self.now.tables }
    {
        &self.tables
    }

    /// The number of the shard that holds a vehicle: its device identifier as a number, modulo 2.
    pub fn shard_of(&self, key: &Key) -> usize
        ensures number { result ≡ number_of key.now }
        ensures small { result < 2 }
    {
        shard_of(key)
    }

    /// Answers a request, in the shard of its vehicle, for a caller's seat: after all that the shard has accepted by
    /// then. It waits for the shard's lock, and holds it for the step alone.
    ///
    /// # Errors
    ///
    /// `AllocError` where there is no memory for the note, or to keep a request that would be accepted; nothing has
    /// changed then, in the book or in the seat.
    pub fn call<R: Wait>(
        &self,
        rt: &R,
        seat: &mut Seat<L, M>,
        request: &Request,
    ) -> Result<Reply, AllocError>
        ensures called { IfOk result (λ reply.
            IsCalled self.now.tables seat.old request.now reply seat.new) }
        ensures place { IfOk result (λ reply.
            accepted_in seat.old (number_of (key_of request.now)) ≤ reply.place) }
        ensures unchanged { OnErr result (seat.new ≡ seat.old) }
        ensures look { is_look request.now ≡ true → seat.old.keeps_all ≡ false → IsOk result }
    {
        if shard_of(request.key()) == 0 {
            self.call_first(rt, seat, request)
        } else {
            self.call_second(rt, seat, request)
        }
    }

    fn call_first<R: Wait>(
        &self,
        rt: &R,
        seat: &mut Seat<L, M>,
        request: &Request,
    ) -> Result<Reply, AllocError>
        requires { number_of (key_of request.now) ≡ 0 }
        ensures called { IfOk result (λ reply.
            IsCalled self.now.tables seat.old request.now reply seat.new) }
        ensures place { IfOk result (λ reply. seat.old.first ≤ reply.place) }
        ensures unchanged { OnErr result (seat.new ≡ seat.old) }
        ensures look { is_look request.now ≡ true → seat.old.keeps_all ≡ false → IsOk result }
    {
        let keeps_all = seat.keeps_all;
        let (part, notes) = (&mut seat.first, &mut seat.notes);
        let reply = call_in(rt, &self.first, part, notes, keeps_all, request)?;
        Ok(reply)
    }

    fn call_second<R: Wait>(
        &self,
        rt: &R,
        seat: &mut Seat<L, M>,
        request: &Request,
    ) -> Result<Reply, AllocError>
        requires { number_of (key_of request.now) ≡ 1 }
        ensures called { IfOk result (λ reply.
            IsCalled self.now.tables seat.old request.now reply seat.new) }
        ensures place { IfOk result (λ reply. seat.old.second ≤ reply.place) }
        ensures unchanged { OnErr result (seat.new ≡ seat.old) }
        ensures look { is_look request.now ≡ true → seat.old.keeps_all ≡ false → IsOk result }
    {
        let keeps_all = seat.keeps_all;
        let (part, notes) = (&mut seat.second, &mut seat.notes);
        let reply = call_in(rt, &self.second, part, notes, keeps_all, request)?;
        Ok(reply)
    }

    /// The accepted events of the vehicle in their order, or `None` where it isn't registered. It waits for the shard's
    /// lock.
    ///
    /// # Errors
    ///
    /// `AllocError` where there is no memory for the list.
    pub fn vehicle_events<R: Wait>(
        &self,
        rt: &R,
        alloc: Global,
        key: &Key,
    ) -> Result<Option<Vec<Event>>, AllocError>
        ensures { IfOk result (λ found.
            GivesEvents self.now.tables key.now (option_map (λ events. events.items) found)) }
    {
        if shard_of(key) == 0 {
            events_in(rt, alloc, &self.first, key)
        } else {
            events_in(rt, alloc, &self.second, key)
        }
    }

    /// The accepted events of the vehicle in their order, or `None` where it isn't registered, for a caller's seat: of
    /// all that the shard has accepted by then, which the seat has then seen. It waits for the shard's lock, and lets
    /// it go between the pieces of a long list.
    ///
    /// # Errors
    ///
    /// `AllocError` where there is no memory for the list; the seat is as it was then.
    pub fn seat_events<R: Wait>(
        &self,
        rt: &R,
        alloc: Global,
        seat: &mut Seat<L, M>,
        key: &Key,
    ) -> Result<Option<Vec<Event>>, AllocError>
        ensures listed { IfOk result (λ found. IsListed self.now.tables seat.old key.now
            (option_map (λ events. events.items) found) seat.new) }
        ensures unchanged { OnErr result (seat.new ≡ seat.old) }
    {
        self.list_for(rt, alloc, seat, key)
    }

    /// As [`Book::seat_events`], in a list that takes little memory.
    ///
    /// # Errors
    ///
    /// Those of [`Book::seat_events`]; the seat is as it was then.
    pub fn seat_list<R: Wait>(
        &self,
        rt: &R,
        alloc: Global,
        seat: &mut Seat<L, M>,
        key: &Key,
    ) -> Result<Option<EventList>, AllocError>
        ensures listed { IfOk result (λ found. IsListed self.now.tables seat.old key.now
            (option_map (λ list. list.events) found) seat.new) }
        ensures unchanged { OnErr result (seat.new ≡ seat.old) }
    {
        self.list_for(rt, alloc, seat, key)
    }

    fn list_for<R: Wait, E: TakesEvents>(
        &self,
        rt: &R,
        alloc: Global,
        seat: &mut Seat<L, M>,
        key: &Key,
    ) -> Result<Option<E>, AllocError>
        ensures listed { IfOk result (λ found. IsListed self.now.tables seat.old key.now
            (option_map E.events found) seat.new) }
        ensures unchanged { OnErr result (seat.new ≡ seat.old) }
    {
        if shard_of(key) == 0 {
            self.list_first(rt, alloc, seat, key)
        } else {
            self.list_second(rt, alloc, seat, key)
        }
    }

    fn list_first<R: Wait, E: TakesEvents>(
        &self,
        rt: &R,
        alloc: Global,
        seat: &mut Seat<L, M>,
        key: &Key,
    ) -> Result<Option<E>, AllocError>
        requires { number_of key.now ≡ 0 }
        ensures listed { IfOk result (λ found. IsListed self.now.tables seat.old key.now
            (option_map E.events found) seat.new) }
        ensures unchanged { OnErr result (seat.new ≡ seat.old) }
    {
        // This call's contract says that they tell the same where the seat has seen more.
        seat.notes.tell();
        let found = list_in(rt, alloc, &self.first, &mut seat.first, key)?;
        Ok(found)
    }

    fn list_second<R: Wait, E: TakesEvents>(
        &self,
        rt: &R,
        alloc: Global,
        seat: &mut Seat<L, M>,
        key: &Key,
    ) -> Result<Option<E>, AllocError>
        requires { number_of key.now ≡ 1 }
        ensures listed { IfOk result (λ found. IsListed self.now.tables seat.old key.now
            (option_map E.events found) seat.new) }
        ensures unchanged { OnErr result (seat.new ≡ seat.old) }
    {
        // This call's contract says that they tell the same where the seat has seen more.
        seat.notes.tell();
        let found = list_in(rt, alloc, &self.second, &mut seat.second, key)?;
        Ok(found)
    }

    /// Copies the next requests of the first shard's history behind those that were copied, at most 256 of them; none
    /// where all were. It waits for the shard's lock, and holds it for the copy alone.
    ///
    /// # Errors
    ///
    /// `AllocError` where there is no memory for them; the progress is as it was then, and the copies may be any.
    pub fn copy_first<R: Wait>(
        &self,
        rt: &R,
        progress: &mut Progress<L>,
        copies: &mut Copies,
    ) -> Result<(), AllocError>
        ensures copied { OnOk result
            (AddsPiece self.now.tables 0 progress.old copies.old copies.new progress.new) }
        ensures unchanged { OnErr result (progress.new ≡ progress.old) }
    {
        copy_in(rt, &self.first, progress, copies)
    }

    /// As [`Book::copy_first`], of the second shard's history.
    pub fn copy_second<R: Wait>(
        &self,
        rt: &R,
        progress: &mut Progress<M>,
        copies: &mut Copies,
    ) -> Result<(), AllocError>
        ensures copied { OnOk result
            (AddsPiece self.now.tables 1 progress.old copies.old copies.new progress.new) }
        ensures unchanged { OnErr result (progress.new ≡ progress.old) }
    {
        copy_in(rt, &self.second, progress, copies)
    }

    /// Whether all requests about a vehicle that a seat has seen were copied of its shard. It may say no where others about the
    /// vehicle were accepted meanwhile. It costs the same whatever the shard holds, and waits for its lock.
    pub fn has_copied<R: Wait>(
        &self,
        rt: &R,
        seat: &Seat<L, M>,
        key: &Key,
        first: &Progress<L>,
        second: &Progress<M>,
    ) -> bool
        ensures { result ≡ true
            → IsPrefix (requests_of (seen_in seat.now (number_of key.now)) key.now)
            (requests_of (copied_in first.now second.now (number_of key.now)) key.now) }
    {
        if shard_of(key) == 0 {
            self.has_copied_first(rt, seat, key, first)
        } else {
            self.has_copied_second(rt, seat, key, second)
        }
    }

    fn has_copied_first<R: Wait>(
        &self,
        rt: &R,
        seat: &Seat<L, M>,
        key: &Key,
        first: &Progress<L>,
    ) -> bool
        ensures { result ≡ true → IsPrefix (requests_of seat.now.first_seen key.now)
            (requests_of (copied_requests first.now) key.now) }
    {
        has_copied_in(rt, &self.first, seat.first.front(), first, key)
    }

    fn has_copied_second<R: Wait>(
        &self,
        rt: &R,
        seat: &Seat<L, M>,
        key: &Key,
        second: &Progress<M>,
    ) -> bool
        ensures { result ≡ true → IsPrefix (requests_of seat.now.second_seen key.now)
            (requests_of (copied_requests second.now) key.now) }
    {
        has_copied_in(rt, &self.second, seat.second.front(), second, key)
    }

    /// Opens the locks of a book all of whose seats are handed in, and takes the seats back.
    pub(crate) fn gather(self, mut seats: Vec<Seat<L, M>>) -> Gathered<L, M>
        requires { vec_len seats ≡ self.seats }
        ensures gathered { IsGathered self seats.items result }
        ensures settled { IsSettledBook result }
        ensures beginnings { AreBeginnings result }
    {
        let Book {
            tables,
            seats: _,
            first,
            second,
            first_marks,
            second_marks,
            room,
        } = self;
        let mut first = Closing::of(first.into_inner(), first_marks);
        let mut second = Closing::of(second.into_inner(), second_marks);
        count_all(&mut first.slot, &mut second.slot, seats.as_mut_slice());
        let accounts = retire_all(&mut first, &mut second, room, seats);
        let gathered = Gathered {
            tables,
            first: first.slot,
            second: second.slot,
            seats: accounts,
        };
        gathered.tell();
        gathered
    }
}

impl<L: ShardLedger<Form = Request>, M: ShardLedger<Form = Request>> Book<L, M> {
    /// What a function answers on the shard of this number, while it is locked. It waits for the shard's lock; a call on
    /// the same shard from within the function may wait for ever.
    pub fn with_shard<R: Wait, X, F: FnOnce(&Shard) -> X>(&self, rt: &R, shard: usize, f: F) -> X
        requires shard { shard < 2 }
        requires f { F.IsAlwaysCallable f }
        ensures { SeesShard self.now.tables shard (λ seen. FnOnceReturnsAt F.FnOnce f seen result) }
    {
        if shard == 0 {
            with_slot(rt, &self.first, f)
        } else {
            with_slot(rt, &self.second, f)
        }
    }
}
