//! Calls of a desk, and exchanges with a caller's seat at a book.
ghost use Rattle.std.specs.Prelude.{◌≡◌};

use super::answers::{AMONG_THREE, fleet_over};
use super::{Exchange, first_other};
use crate::cases::{PROFILE, WAKE_AND_REST, tables_of};
use mds_book::{Blank, Book, Keep, NamedLedger, Plain, Seat, ShardLedger};
use mds_core::{Outcome, Reply};
use mds_face::{Desk, Face, SeatDesk};
use mds_table::{State, Tables};
use std::alloc::Global;
use std::hash::RandomState;
use std::marker::Brand;
use std::random::RandomSource;
use std::sync::Wait;
use test_fixtures::{A, Ask, E1, Lack, again, key, request_of};

/// The reply to a request, made again where there was no memory.
fn reply_to<D: Desk>(desk: &mut D, asked: &Ask) -> Result<Reply, Lack> {
    let request = request_of(asked).ok_or(Lack::Case)?;
    Ok(again!(desk.call(&request))?)
}

/// What a desk tells: two replies, how many events A has then, by each kind of list, and the start of the last table with the
/// number of its rows.
type Told = ([Reply; 2], [Option<usize>; 2], Option<(u64, usize)>);

/// What a desk tells of a registration of A and its first event, each call made again where there was no memory.
fn told_at<D: Desk>(desk: &mut D) -> Result<Told, Lack> {
    let first = reply_to(desk, &Ask::Register(A))?;
    let second = reply_to(desk, &Ask::Report(A, E1, &["wake"], State::Available, 1000))?;
    let counts = [
        again!(desk.events(&key(A)))?.map(|events| events.len()),
        again!(desk.event_list(&key(A)))?.map(|list| list.len()),
    ];
    let tables = again!(desk.rows())?;
    let last = tables.last().map(|last| (last.0, last.1.len()));
    Ok(([first, second], counts, last))
}

/// What a desk over the two tables is to tell.
fn whole() -> Told {
    let done = |place: usize| Reply {
        place,
        outcome: Outcome::Done,
    };
    ([done(0), done(1)], [Some(1), Some(1)], Some((2000, 1)))
}

/// What a fleet over the two tables tells.
fn told_at_a_fleet(alloc: Global) -> Result<Told, Lack> {
    told_at(&mut fleet_over(alloc, WAKE_AND_REST)?)
}

#[test]
fn a_fleet_answers_after_a_refused_growth(rt: HostRuntime) {
    assert_eq!(rt; told_at_a_fleet(rt.alloc()), Ok(whole()));
}

/// The place of the first of these exchanges that a caller of a seat is answered otherwise; and what the seat tells as a desk,
/// where it was asked for none.
type Seen = (Option<usize>, Option<Told>);

/// What is seen at a seat.
fn seen_at<L: ShardLedger, M: ShardLedger, R: Wait>(
    rt: &R,
    alloc: Global,
    book: &Book<L, M>,
    mut seat: Seat<L, M>,
    exchanges: &[Exchange],
) -> Result<Seen, Lack> {
    let mut desk = SeatDesk {
        alloc,
        rt,
        book,
        seat: &mut seat,
    };
    if exchanges.is_empty() {
        return Ok((None, Some(told_at(&mut desk)?)));
    }
    let face = again!(Face::open(alloc))?;
    Ok((first_other(alloc, &face, &mut desk, exchanges, 16)?, None))
}

/// What is seen at the seat of a book that is opened over the tables.
fn seen_in<L: NamedLedger, M: NamedLedger, R: Wait>(
    rt: &R,
    alloc: Global,
    tables: Tables,
    exchanges: &[Exchange],
    hashers: [RandomState; 2],
    first: Blank,
    second: Blank,
) -> Result<Seen, Lack>
    requires first { (first.name ≡ L.name) × (first.parts ≡ L.parts) × (first.parts ≡ 1) }
    requires second { (second.name ≡ M.name) × (second.parts ≡ M.parts) × (second.parts ≡ 1) }
    requires first_log { (first.log ≡ L.log) × (first.marks ≡ L.marks) }
    requires second_log { (second.log ≡ M.log) × (second.marks ≡ M.marks) }
    requires tables { (tables ≡ L.tables) × (tables ≡ M.tables) }
{
    let opened = Book::<Plain<L>, Plain<M>>::open(
        alloc,
        tables,
        1,
        Keep::All,
        first,
        second,
        hashers,
    );
    let Ok((book, mut seats)) = opened else {
        return Err(Lack::Memory);
    };
    match seats.pop() {
        Some(seat) => seen_at(rt, alloc, &book, seat, exchanges),
        None => Err(Lack::Case),
    }
}

/// The same over the tables of this file, with ledgers of its own.
fn seen_over<R: Wait + RandomSource>(
    rt: &R,
    alloc: Global,
    file: &str,
    exchanges: &[Exchange],
) -> Result<Seen, Lack> {
    let tables = tables_of(alloc, file)?;
    let (Ok(one), Ok(other)) = (RandomState::new(rt), RandomState::new(rt)) else {
        return Err(Lack::Case);
    };
    let (first, second) = (Blank::new(1), Blank::new(1));
    seen_in::<Brand, Brand, R>(rt, alloc, tables, exchanges, [one, other], first, second)
}

#[test]
fn a_book_answers_as_a_fleet(rt: HostRuntime) {
    let seen = seen_over(&rt, rt.alloc(), PROFILE, AMONG_THREE);
    assert_eq!(rt; seen, Ok((None, None)));
}

/// What a seat tells as a desk, of a second book where there was no memory for the first.
fn told_at_a_seat<R: Wait + RandomSource>(rt: &R, alloc: Global) -> Result<Seen, Lack> {
    again!(seen_over(rt, alloc, WAKE_AND_REST, &[]))
}

#[test]
fn a_seat_answers_after_a_refused_growth(rt: HostRuntime) {
    assert_eq!(rt; told_at_a_seat(&rt, rt.alloc()), Ok((None, Some(whole()))));
}
