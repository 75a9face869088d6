//! A book that serves a port, from its opening to its settling.
ghost use Rattle.std.specs.Prelude.{◌≡◌, false, replicate, IfOk, vec_len};
ghost use Rattle.mds_book.specs.Seats.{new_seat};
ghost use Rattle.mds_pool.specs.Serving.{Fits, IsEnded, IsSettledEnd, names_of};

use crate::pool::serve_round;
use crate::{AnswerCount, NoRecord, Port};
use mds_book::{
    Blank, Book, Keep, OpenFault, OpenGate, Seat, SettleFault, Settled, ShardLedger, SharedLedger,
    reconcile,
};
use mds_face::Face;
use mds_table::Tables;
use std::alloc::{AllocError, Global};
use std::hash::RandomState;
use std::marker::Model;
use std::sync::Wait;
use std::thread::Threads;

/// Why no settled book was handed out.
#[derive(Clone, Copy, Debug, PartialEq, Eq)]
pub enum Stop {
    /// There was no memory to begin, and no connection was taken; or, over a journal, none at the end to record what the last
    /// answers left.
    Memory,
    /// A worker could take no further connection, and answered fewer than it was to. The others went on to their ends. Nothing
    /// was settled.
    Accept,
}

/// What a book is opened with.
#[derive(Drop)]
pub struct NewBook {
    /// Its tables.
    pub tables: Tables,
    /// The number of its seats.
    pub seats: usize,
    /// What the first shard is opened from, with a part for each seat.
    pub first: Blank,
    /// What the second shard is opened from, likewise.
    pub second: Blank,
    /// What each shard hashes by.
    pub hashers: [RandomState; 2],
}

impl NewBook {
    /// A book over these tables with so many seats, ledgers that were cut for them, and these hashers.
    pub fn of(tables: Tables, seats: usize, hashers: [RandomState; 2]) -> NewBook
        ensures tables { result.tables ≡ tables }
        ensures seats { result.seats ≡ seats }
        ensures parts { (result.first.parts ≡ seats) × (result.second.parts ≡ seats) }
        ensures hashers { result.hashers ≡ hashers }
    {
        NewBook {
            tables,
            seats,
            first: Blank::new(seats as u64),
            second: Blank::new(seats as u64),
            hashers,
        }
    }
}

/// A settled book, and how many connections each of its workers answered.
pub struct FinalBook<L: ShardLedger, M: ShardLedger> {
    /// The settled book. It tells how many requests were accepted in all.
    pub settled: Settled<L, M>,
    /// How many connections each worker answered, in the order of the seats.
    pub answered: Vec<AnswerCount>,
}

// By hand: crates above cite it.
impl<L: ShardLedger, M: ShardLedger> Drop for FinalBook<L, M> {
    fn drop(self) {
        let FinalBook {
            settled: _,
            answered: _,
        } = self;
    }
}

impl<L: ShardLedger, M: ShardLedger> Model for FinalBook<L, M> {
    ghost use Rattle.mds_pool.specs.Serving.{AtEnd};

    ghost Value = { AtEnd };

    ghost view = { λ book. record { all = book.settled; answered = book.answered.items } };
}

/// Its seats note the calls that are accepted.
pub(crate) fn open_book<L: ShardLedger, M: ShardLedger>(
    alloc: Global,
    opening: NewBook,
) -> Result<(Book<L, M>, Vec<Seat<L, M>>), AllocError>
    requires fits { Fits (names_of L.name L.parts L.log L.marks L.tables)
        (names_of M.name M.parts M.log M.marks M.tables) opening }
    ensures book { IfOk result (λ opened.
        opened.0 ≡ record { tables = opening.tables; seats = opening.seats }) }
    ensures seats { IfOk result (λ opened.
        opened.1.items ≡ replicate opening.seats (new_seat false)) }
{
    let NewBook {
        tables,
        seats,
        first,
        second,
        hashers,
    } = opening;
    match Book::<L, M>::open(alloc, tables, seats, Keep::Accepted, first, second, hashers) {
        Ok(opened) => Ok(opened),
        Err(OpenFault::Memory) => Err(AllocError),
        Err(OpenFault::BadSeats) => unreachable!(),
    }
}

/// Opens a book and serves a port over it, by as many workers as the book has seats. Each worker answers `each`
/// connections, and notes the calls that were accepted. At the end the book is settled and handed out, with how many
/// connections each worker answered.
///
/// # Errors
///
/// [`Stop`] says when each comes. The requests that were answered until then were answered as ever.
pub fn serve_and_settle<R: Threads + Wait + Sync, P: Port + Sync, L: SharedLedger, M: SharedLedger>(
    rt: &R,
    alloc: Global,
    opening: NewBook,
    port: &P,
    each: usize,
) -> Result<FinalBook<L, M>, Stop>
where
    P::In: Send,
    P::Out: Send,
    requires fits { Fits (names_of L.name L.parts L.log L.marks L.tables)
        (names_of M.name M.parts M.log M.marks M.tables) opening }
    ensures { IsEnded opening.tables opening.seats each result }
{
    let (book, list) = match open_book::<L, M>(alloc, opening) {
        Ok(opened) => opened,
        Err(AllocError) => return Err(Stop::Memory),
    };
    let Ok(face) = Face::open(alloc) else {
        return Err(Stop::Memory);
    };
    let gate = OpenGate;
    match serve_round(rt, alloc, &face, port, &book, list, each, &gate, &NoRecord) {
        Ok(round) => {
            // Nobody answers who comes now.
            port.stop();
            if round.failed {
                return Err(Stop::Accept);
            }
            Ok(FinalBook {
                settled: settle(book, round.seats),
                answered: round.answered,
            })
        }
        Err(_) => Err(Stop::Memory),
    }
}

/// Settles a book all of whose seats are handed in.
pub(crate) fn settle<L: ShardLedger, M: ShardLedger>(
    book: Book<L, M>,
    seats: Vec<Seat<L, M>>,
) -> Settled<L, M>
    requires { vec_len seats ≡ book.seats }
    ensures { IsSettledEnd book seats.items result }
{
    match reconcile(book, seats) {
        Ok(settled) => settled,
        Err(SettleFault::Missing { .. } | SettleFault::Torn { .. }) => unreachable!(),
    }
}
