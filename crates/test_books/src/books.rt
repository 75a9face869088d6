//! What no clause says of a book: what its seats are told, and that each call can succeed, also behind a growth that was
//! refused and while each one is (by `tests/refused-growths`).
ghost use Rattle.std.specs.Prelude.{◌≡◌};

mod cases;
mod copies;
mod locks;
mod threads;

use copies::{copied_of, copy_once};
use mds_book::{
    Blank, Book, Keep, NamedLedger, Note, OpenFault, Plain, Progress, Seat, SettleFault, Settled,
    ShardLedger, SharedLedger, reconcile,
};
use mds_core::Outcome::{Done, Seen};
use mds_core::{Key, Reply, Request};
use mds_table::Tables;
use std::alloc::{AllocError, Global};
use std::hash::RandomState;
use std::marker::Brand;
use std::random::RandomSource;
use std::sync::Wait;
use std::thread;
use std::thread::Threads;
use test_fixtures::Ask::{Look, Register};
use test_fixtures::{A, B, C, Lack, again, fence, key, profile_again, request_of};
use test_steps::{DROPPED_OFF, NEW, Step, hasher};

/// What is asked of a book of so many seats: steps, each by the next seat; then lists, each by a seat and in a thread of its
/// own; and then steps that take no memory.
#[derive(Clone, Copy)]
struct Asking<'a> {
    seats: usize,
    keep: Keep,
    steps: &'a [Step],
    each: &'a [Vec<Request>],
    quiet: &'a [Step],
}

/// What a book tells without memory: the places of the first steps with other replies; the shards of A and of B; how long
/// the shards' histories are, and how much of them was copied; whether all that the first seat saw was copied, before the copy
/// and after it; the number of rows; and what the first seat counted and noted.
#[derive(Clone, Copy, Debug, PartialEq, Eq)]
struct Shown {
    others: [Option<usize>; 2],
    shards: [usize; 2],
    lengths: [usize; 2],
    copied: [usize; 2],
    within: [bool; 2],
    rows: usize,
    counts: [u64; 3],
    noted: usize,
}

/// What it tells so once it is settled: how many calls were accepted; how long its histories are, and the notes of its first
/// seats; and the number of rows.
#[derive(Clone, Copy, Debug, PartialEq, Eq)]
struct End {
    accepted: u128,
    histories: [Option<usize>; 3],
    notes: [Option<usize>; 2],
    rows: usize,
}

/// All that a book tells: how many events A, B and C have, and what its shards and its seats, in turn, hold at last.
#[derive(Drop)]
struct Told {
    shown: Shown,
    events: [Option<usize>; 3],
    end: End,
    first: Vec<Request>,
    second: Vec<Request>,
    notes: Vec<Note>,
}

/// The reply to a request. It is asked while the other shard is locked, and doesn't wait for that one.
fn reply_beside<
    L: ShardLedger<Form = Request, Note = Note>,
    M: ShardLedger<Form = Request>,
    R: Wait,
>(
    rt: &R,
    book: &Book<L, M>,
    seat: &mut Seat<L, M>,
    request: &Request,
) -> Result<Reply, AllocError> {
    let other = 1 - book.shard_of(request.key());
    book.with_shard(rt, other, |_| book.call(rt, seat, request))
}

/// How long the histories of the shards are.
fn lengths_of<L: ShardLedger<Form = Request, Note = Note>, M: ShardLedger<Form = Request>, R: Wait>(
    rt: &R,
    book: &Book<L, M>,
) -> [usize; 2] {
    [
        book.with_shard(rt, 0, |shard| shard.len()),
        book.with_shard(rt, 1, |shard| shard.len()),
    ]
}

/// The reply to a request, which is asked again where there was no memory. That changed nothing then.
fn reply_to<L: ShardLedger<Form = Request, Note = Note>, M: ShardLedger<Form = Request>, R: Wait>(
    rt: &R,
    book: &Book<L, M>,
    seat: &mut Seat<L, M>,
    request: &Request,
) -> Result<Reply, Lack> {
    let before = (lengths_of(rt, book), seat.accepted(0), seat.notes().len());
    if let Ok(reply) = reply_beside(rt, book, seat, request) {
        return Ok(reply);
    }
    if (lengths_of(rt, book), seat.accepted(0), seat.notes().len()) != before {
        return Err(Lack::Case);
    }
    Ok(reply_beside(rt, book, seat, request)?)
}

/// The place of the first step, each taken by the next seat, with another reply.
fn first_other<
    L: ShardLedger<Form = Request, Note = Note>,
    M: ShardLedger<Form = Request>,
    R: Wait,
>(
    rt: &R,
    book: &Book<L, M>,
    seats: &mut [Seat<L, M>],
    steps: &[Step],
) -> Result<Option<usize>, Lack> {
    for (at, (asked, place, outcome)) in steps.iter().enumerate() {
        let turn = at.checked_rem(seats.len()).ok_or(Lack::Case)?;
        let seat = seats.get_mut(turn).ok_or(Lack::Case)?;
        let request = request_of(asked).ok_or(Lack::Case)?;
        let expected = Reply {
            place: *place,
            outcome: *outcome,
        };
        if reply_to(rt, book, seat, &request)? != expected {
            return Ok(Some(at));
        }
    }
    Ok(None)
}

/// Asks the requests in turn, up to the first that finds no memory.
fn ask<L: ShardLedger<Form = Request, Note = Note>, M: ShardLedger<Form = Request>, R: Wait>(
    rt: &R,
    book: &Book<L, M>,
    seat: &mut Seat<L, M>,
    requests: &[Request],
) {
    for request in requests {
        if book.call(rt, seat, request).is_err() {
            return;
        }
    }
}

/// Lets each seat ask its list in a thread of its own.
fn ask_in_threads<
    L: SharedLedger<SharedForm = Request, SharedNote = Note>,
    M: SharedLedger<SharedForm = Request>,
    R: Threads + Wait + Sync,
>(rt: &R, book: &Book<L, M>, seats: &mut [Seat<L, M>], each: &[Vec<Request>]) {
    thread::for_each_mut(
        rt,
        seats,
        each.len().max(1),
        &|place: usize, seat: &mut Seat<L, M>| {
            if let Some(requests) = each.get(place) {
                ask(rt, book, seat, requests);
            }
        },
    );
}

/// How many events a vehicle has, if it is registered. A list for the seat has the same as one for nobody, and as many as the
/// one that takes little memory.
fn count_of<L: ShardLedger<Form = Request, Note = Note>, M: ShardLedger<Form = Request>, R: Wait>(
    rt: &R,
    alloc: Global,
    book: &Book<L, M>,
    seat: &mut Seat<L, M>,
    key: &Key,
) -> Result<Option<usize>, Lack> {
    let listed = book.seat_events(rt, alloc, seat, key)?;
    let events = book.vehicle_events(rt, alloc, key)?;
    let list = book.seat_list(rt, alloc, seat, key)?;
    let count = events.as_ref().map(|events| events.len());
    if listed != events || list.map(|list| list.len()) != count {
        return Err(Lack::Case);
    }
    Ok(count)
}

/// The same. The lists are asked for while the other shard is locked, and don't wait for that one.
fn events_of<L: ShardLedger<Form = Request, Note = Note>, M: ShardLedger<Form = Request>, R: Wait>(
    rt: &R,
    alloc: Global,
    book: &Book<L, M>,
    seat: &mut Seat<L, M>,
    device: u64,
) -> Result<Option<usize>, Lack> {
    let key = key(device);
    let other = 1 - book.shard_of(&key);
    again!(book.with_shard(rt, other, |_| count_of(rt, alloc, book, seat, &key)))
}

/// What a book tells without memory.
fn shown_by<L: ShardLedger<Form = Request, Note = Note>, M: ShardLedger<Form = Request>, R: Wait>(
    rt: &R,
    book: &Book<L, M>,
    seat: &Seat<L, M>,
    others: [Option<usize>; 2],
    first: &Progress<L>,
    second: &Progress<M>,
    was_within: bool,
) -> Shown {
    let lengths = lengths_of(rt, book);
    Shown {
        others,
        shards: [book.shard_of(&key(A)), book.shard_of(&key(B))],
        lengths,
        copied: copied_of(first, second),
        within: [was_within, seat.is_within(first, second)],
        rows: book.tables().at(0).row_count(),
        counts: [seat.accepted(0), seat.accepted(1), seat.accepted(2)],
        noted: seat.notes().len(),
    }
}

/// The book and the seats again, which were handed in and aren't all.
fn handed_back<L: ShardLedger<Form = Request, Note = Note>, M: ShardLedger<Form = Request>>(
    book: Book<L, M>,
    seats: Vec<Seat<L, M>>,
) -> Option<(Book<L, M>, Vec<Seat<L, M>>)> {
    match reconcile(book, seats) {
        Err(SettleFault::Missing { book, seats }) => Some((book, seats)),
        _ => None,
    }
}

/// The same, with the seat that was left out behind the others.
fn joined_again<L: ShardLedger<Form = Request, Note = Note>, M: ShardLedger<Form = Request>>(
    back: Option<(Book<L, M>, Vec<Seat<L, M>>)>,
    seat: Seat<L, M>,
) -> Option<(Book<L, M>, Vec<Seat<L, M>>)> {
    let (book, mut seats) = back?;
    match seats.push(seat) {
        Ok(()) => Some((book, seats)),
        Err(_) => None,
    }
}

/// The settled book, where its seats are all handed in.
fn settled<L: ShardLedger<Form = Request, Note = Note>, M: ShardLedger<Form = Request>>(
    back: Option<(Book<L, M>, Vec<Seat<L, M>>)>,
) -> Option<Settled<L, M>> {
    let (book, seats) = back?;
    match reconcile(book, seats) {
        Ok(settled) => Some(settled),
        Err(_) => None,
    }
}

/// The same, once the first seat was left out and missed; it is the last one then.
fn missed_first<L: ShardLedger<Form = Request, Note = Note>, M: ShardLedger<Form = Request>>(
    back: Option<(Book<L, M>, Vec<Seat<L, M>>)>,
) -> Option<(Book<L, M>, Vec<Seat<L, M>>)> {
    let (book, mut seats) = back?;
    if seats.is_empty() {
        return None;
    }
    let seat = seats.remove(0);
    joined_again(handed_back(book, seats), seat)
}

/// The settled book, once each of its seats was left out and missed.
fn settled_once_missed<L: ShardLedger<Form = Request, Note = Note>, M: ShardLedger<Form = Request>>(
    book: Book<L, M>,
    seats: Vec<Seat<L, M>>,
) -> Option<Settled<L, M>> {
    let count = seats.len();
    let mut back = Some((book, seats));
    for _ in 0..count {
        back = missed_first(back);
    }
    settled(back)
}

/// How long a list is, if it is there.
fn length_of<T>(list: Option<&[T]>) -> Option<usize> {
    list.map(|list| list.len())
}

/// What a settled book tells without memory.
fn end_of<L: ShardLedger<Form = Request, Note = Note>, M: ShardLedger<Form = Request>>(
    settled: &Settled<L, M>,
) -> End {
    End {
        accepted: settled.accepted(),
        histories: [
            length_of(settled.history(0)),
            length_of(settled.history(1)),
            length_of(settled.history(2)),
        ],
        notes: [length_of(settled.notes(0)), length_of(settled.notes(1))],
        rows: settled.tables().at(0).row_count(),
    }
}

/// What the seats noted, one behind the other.
fn notes_of<L: ShardLedger<Form = Request, Note = Note>, M: ShardLedger<Form = Request>>(
    alloc: Global,
    settled: &Settled<L, M>,
    seats: usize,
) -> Result<Vec<Note>, Lack> {
    let mut notes = Vec::new(alloc);
    for seat in 0..seats {
        notes.extend_from_slice(settled.notes(seat).ok_or(Lack::Case)?)?;
    }
    Ok(notes)
}

/// What the shard of this number accepted.
fn history_of<L: ShardLedger<Form = Request, Note = Note>, M: ShardLedger<Form = Request>>(
    alloc: Global,
    settled: &Settled<L, M>,
    shard: usize,
) -> Result<Vec<Request>, Lack> {
    Ok(Vec::from_slice(alloc, settled.history(shard).ok_or(Lack::Case)?)?)
}

/// What is told at these seats before the book is settled: without memory, and how many events A, B and C have.
fn seen_at<
    L: SharedLedger<SharedForm = Request, SharedNote = Note>,
    M: SharedLedger<SharedForm = Request>,
    R: Threads + Wait + Sync,
>(
    rt: &R,
    alloc: Global,
    book: &Book<L, M>,
    seats: &mut [Seat<L, M>],
    asking: Asking<'_>,
    first: &mut Progress<L>,
    second: &mut Progress<M>,
) -> Result<(Shown, [Option<usize>; 3]), Lack> {
    let other = first_other(rt, book, seats, asking.steps)?;
    ask_in_threads(rt, book, seats, asking.each);
    let events = events_at(rt, alloc, book, seats.first_mut().ok_or(Lack::Case)?)?;
    let within = seats.first().ok_or(Lack::Case)?.is_within(first, second);
    copy_once(rt, alloc, book, first, second)?;
    let _begun = fence(alloc);
    let others = [other, first_other(rt, book, seats, asking.quiet)?];
    let seat = seats.first().ok_or(Lack::Case)?;
    let shown = shown_by(rt, book, seat, others, first, second, within);
    Ok((shown, events))
}

/// How many events A, B and C have.
fn events_at<L: ShardLedger<Form = Request, Note = Note>, M: ShardLedger<Form = Request>, R: Wait>(
    rt: &R,
    alloc: Global,
    book: &Book<L, M>,
    seat: &mut Seat<L, M>,
) -> Result<[Option<usize>; 3], Lack> {
    Ok([
        events_of(rt, alloc, book, seat, A)?,
        events_of(rt, alloc, book, seat, B)?,
        events_of(rt, alloc, book, seat, C)?,
    ])
}

/// What a settled book holds, with what was seen before.
fn held_in<L: ShardLedger<Form = Request, Note = Note>, M: ShardLedger<Form = Request>>(
    alloc: Global,
    seen: (Shown, [Option<usize>; 3]),
    settled: &Settled<L, M>,
    seats: usize,
) -> Result<Told, Lack> {
    let (shown, events) = seen;
    let end = end_of(settled);
    let _ended = fence(alloc);
    Ok(Told {
        shown,
        events,
        end,
        first: history_of(alloc, settled, 0)?,
        second: history_of(alloc, settled, 1)?,
        notes: notes_of(alloc, settled, seats)?,
    })
}

/// What is told at these seats, all of the book.
fn told_at<
    L: SharedLedger<SharedForm = Request, SharedNote = Note>,
    M: SharedLedger<SharedForm = Request>,
    R: Threads + Wait + Sync,
>(
    rt: &R,
    alloc: Global,
    book: Book<L, M>,
    mut seats: Vec<Seat<L, M>>,
    asking: Asking<'_>,
) -> Result<Told, Lack> {
    let (mut first, mut second) = seats.first().ok_or(Lack::Case)?.progress();
    let seen = seen_at(
        rt,
        alloc,
        &book,
        &mut seats,
        asking,
        &mut first,
        &mut second,
    );
    match (seen, settled_once_missed(book, seats)) {
        (Ok(seen), Some(mut settled)) => {
            settled.tell_begins(&first, &second);
            held_in(alloc, seen, &settled, asking.seats)
        }
        (Ok(_), None) => Err(Lack::Case),
        (Err(lack), _) => Err(lack),
    }
}

/// What a new book over the tables tells; nothing where it can't have so many seats.
fn told_in<L: NamedLedger + Send + Sync, M: NamedLedger + Send + Sync, R: Threads + Wait + Sync>(
    rt: &R,
    alloc: Global,
    tables: Tables,
    asking: Asking<'_>,
    hashers: [RandomState; 2],
    first: Blank,
    second: Blank,
) -> Result<Option<Told>, Lack>
    requires first { (first.name ≡ L.name) × (first.parts ≡ L.parts)
        × (first.parts ≡ asking.seats) }
    requires second { (second.name ≡ M.name) × (second.parts ≡ M.parts)
        × (second.parts ≡ asking.seats) }
    requires first_log { (first.log ≡ L.log) × (first.marks ≡ L.marks) }
    requires second_log { (second.log ≡ M.log) × (second.marks ≡ M.marks) }
    requires tables { (tables ≡ L.tables) × (tables ≡ M.tables) }
{
    let Asking { seats, keep, .. } = asking;
    match Book::<Plain<L>, Plain<M>>::open(alloc, tables, seats, keep, first, second, hashers) {
        Ok((book, seats)) => Ok(Some(told_at(rt, alloc, book, seats, asking)?)),
        Err(OpenFault::BadSeats) => Ok(None),
        Err(OpenFault::Memory) => Err(Lack::Memory),
    }
}

/// The same with ledgers of its own.
fn told_anew<R: Threads + Wait + RandomSource + Sync>(
    rt: &R,
    alloc: Global,
    tables: Tables,
    asking: Asking<'_>,
) -> Result<Option<Told>, Lack> {
    let hashers = [hasher(rt)?, hasher(rt)?];
    let parts = asking.seats as u64;
    let (first, second) = (Blank::new(parts), Blank::new(parts));
    told_in::<Brand, Brand, R>(rt, alloc, tables, asking, hashers, first, second)
}

/// What a book over the profile tells, of so many seats that note what is accepted. It is opened again for want of memory.
fn told_again<R: Threads + Wait + RandomSource + Sync>(
    rt: &R,
    alloc: Global,
    seats: usize,
    steps: &[Step],
    quiet: &[Step],
) -> Result<Option<(Shown, End, [Option<usize>; 3])>, Lack> {
    let asking = Asking {
        seats,
        keep: Keep::Accepted,
        steps,
        each: &[],
        quiet,
    };
    let Some(told) = again!(told_anew(rt, alloc, profile_again(alloc)?, asking))? else {
        return Ok(None);
    };
    let events = told.events;
    Ok(Some((told.shown, told.end, events)))
}

/// A registration of A and its first event, and a look between them.
const REGISTERED: &[Step] = &[(Register(A), 0, Done)];

const REPORTED: &[Step] = &[(Register(A), 0, Done), (DROPPED_OFF, 1, Done)];

const LOOKED: &[Step] = &[(Look(A), 1, Seen(NEW))];

/// What is told where the first seat made so many calls, all of them accepted and about A, which then has so many events.
fn after(calls: u64, events: usize) -> Option<(Shown, End, [Option<usize>; 3])> {
    let count = calls as usize;
    let shown = Shown {
        others: [None, None],
        shards: [0, 1],
        lengths: [count, 0],
        copied: [count, 0],
        within: [count == 0, true],
        rows: 74,
        counts: [calls, 0, 0],
        noted: count,
    };
    let end = End {
        accepted: u128::from(calls),
        histories: [Some(count), Some(0), None],
        notes: [Some(count), None],
        rows: 74,
    };
    Some((shown, end, [Some(events), None, None]))
}

#[test]
fn calls_succeed_after_a_refused_growth(rt: HostRuntime) {
    let told = told_again(&rt, rt.alloc(), 1, REPORTED, &[]);
    assert_eq!(rt; told, Ok(after(2, 1)));
}

#[test]
fn books_are_told_of_with_every_growth_refused(rt: HostRuntime) {
    let told = told_again(&rt, rt.alloc(), 1, REGISTERED, LOOKED);
    assert_eq!(rt; told, Ok(after(1, 0)));
}

/// Whether there are books of so many seats.
fn are_opened<R: Threads + Wait + RandomSource + Sync>(
    rt: &R,
    alloc: Global,
    counts: &[usize; 4],
) -> Result<[bool; 4], Lack> {
    let mut opened = [false; 4];
    for (seats, is_opened) in counts.iter().zip(opened.iter_mut()) {
        *is_opened = told_again(rt, alloc, *seats, &[], &[])?.is_some();
    }
    Ok(opened)
}

#[test]
fn seats_of_a_book(rt: HostRuntime) {
    let opened = are_opened(&rt, rt.alloc(), &[0, 1, 64, 65]);
    assert_eq!(rt; opened, Ok([false, true, true, false]));
}
