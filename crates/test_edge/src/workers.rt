//! What no clause says: that workers work side by side, and what comes of their connections.
mod gates;
mod journals;
mod loopback;

ghost use Rattle.std.specs.Prelude.{◌≡◌, IfOk};
ghost use Rattle.mds_pool.specs.Serving.{Fits, names_of};

use mds_book::{
    Book, Gate, Keep, NamedLedger, OpenGate, Packed, Seat, ShardLedger, SharedLedger, reconcile,
};
use mds_face::Face;
use mds_pool::{Ending, NewBook, PoolCause, Port, PortFault, Stop, serve, serve_and_settle};
use std::alloc::Global;
use std::hash::RandomState;
use std::io::{self, Write};
use std::marker::Brand;
use std::random::RandomSource;
use std::sync::Wait;
use std::sync::atomic::{AtomicUsize, Ordering};
use std::thread::Threads;
use test_fixtures::{Lack, MeetingGate, again, fence, profile_again, rows};

/// Requests that register two vehicles, of different shards.
const A: &[u8] =
    b"POST /vehicles HTTP/1.1\r\nContent-Length: 105\r\n\r\n{\"provider_id\":\"00000000-0000-4000-8000-000000000001\",\"device_id\":\"00000000-0000-4000-8000-00000000000a\"}";

const B: &[u8] =
    b"POST /vehicles HTTP/1.1\r\nContent-Length: 105\r\n\r\n{\"provider_id\":\"00000000-0000-4000-8000-000000000001\",\"device_id\":\"00000000-0000-4000-8000-00000000000b\"}";

/// A writer that takes so many bytes and then fails, and counts the answers of status 200 that begin.
#[derive(Drop)]
struct Answer<'a> {
    room: usize,
    good: &'a AtomicUsize,
}

impl Write for Answer<'_> {
    fn write(&mut self, bytes: &[u8]) -> io::Result<usize> {
        let count = bytes.len().min(self.room);
        if count == 0 {
            return Err(io::Error::from(io::ErrorKind::BrokenPipe));
        }
        if bytes.starts_with(b"HTTP/1.1 200 OK\r\n") {
            self.good.fetch_add(1, Ordering::SeqCst);
        }
        self.room -= count;
        Ok(count)
    }

    fn flush(&mut self) -> io::Result<()> {
        Ok(())
    }
}

/// What a port in memory gives: requests, each with the number of bytes that its writer takes.
type Requests = &'static [(&'static [u8], usize)];

/// How many answers of status 200 were begun, how many connections ended at once, and how many in stages.
#[derive(Drop)]
struct Counts {
    good: AtomicUsize,
    at_once: AtomicUsize,
    in_stages: AtomicUsize,
}

impl Counts {
    fn new() -> Counts {
        Counts {
            good: AtomicUsize::new(0),
            at_once: AtomicUsize::new(0),
            in_stages: AtomicUsize::new(0),
        }
    }
}

/// A port in memory: these requests, but that it fails once at each without bytes; then it fails. Once it is stopped, it gives
/// none.
#[derive(Drop)]
struct Listed<'a> {
    list: Requests,
    next: AtomicUsize,
    counts: &'a Counts,
}

impl<'a> Listed<'a> {
    fn new(list: Requests, counts: &'a Counts) -> Listed<'a> {
        let next = AtomicUsize::new(0);
        Listed { list, next, counts }
    }
}

impl<'a> Port for Listed<'a> {
    type In = &'static [u8];

    type Out = Answer<'a>;

    fn accept(&self) -> Result<(&'static [u8], Answer<'a>), PortFault> {
        let place = self.next.fetch_add(1, Ordering::SeqCst);
        let Some(request) = self.list.get(place).filter(|request| !request.0.is_empty()) else {
            return Err(PortFault);
        };
        let counts = self.counts;
        let (room, good) = (request.1, &counts.good);
        Ok((request.0, Answer { room, good }))
    }

    fn end(&self, _input: &'static [u8], _output: Answer<'a>, ending: Ending) {
        let ends = match ending {
            Ending::AtOnce => &self.counts.at_once,
            Ending::InStages => &self.counts.in_stages,
        };
        ends.fetch_add(1, Ordering::SeqCst);
    }

    fn stop(&self) {
        self.next.store(self.list.len(), Ordering::SeqCst);
    }
}

/// What serving came to: why it ended before its end, if it did; how many seats came back; and how many requests were accepted,
/// where their notes fit.
type Came = (Option<PoolCause>, usize, Option<u128>);

/// How a port is served: by so many seats, of which each answers so many connections in each of so many rounds.
type Turns = (usize, usize, usize);

/// The routes, where memory allows at once or at a second try.
fn routes(alloc: Global) -> Result<Face, Lack> {
    Ok(again!(Face::open(alloc))?)
}

/// A port, and how it is served.
#[derive(Drop)]
struct Pool<'a, R, P, G> {
    rt: &'a R,
    alloc: Global,
    port: &'a P,
    gate: &'a G,
    turns: Turns,
}

impl<R: Threads + Wait + Sync, P: Port + Sync, G: Gate + Sync> Pool<'_, R, P, G>
where
    P::In: Send,
    P::Out: Send,
{
    /// Serves the port with a new book, and settles it. It serves between two fences.
    fn serve_new<L: NamedLedger + Send + Sync, M: NamedLedger + Send + Sync>(
        &self,
        opening: NewBook,
    ) -> Result<Came, Lack>
        requires first { (opening.first.name ≡ L.name) × (opening.first.parts ≡ L.parts) }
        requires second { (opening.second.name ≡ M.name) × (opening.second.parts ≡ M.parts) }
        requires first_log { (opening.first.log ≡ L.log) × (opening.first.marks ≡ L.marks) }
        requires second_log { (opening.second.log ≡ M.log) × (opening.second.marks ≡ M.marks) }
        requires parts { (opening.first.parts ≡ opening.seats)
            × (opening.second.parts ≡ opening.seats) }
        requires tables { (opening.tables ≡ L.tables) × (opening.tables ≡ M.tables) }
    {
        let face = routes(self.alloc)?;
        let NewBook {
            tables,
            seats,
            first,
            second,
            hashers,
        } = opening;
        let (alloc, keep) = (self.alloc, Keep::Accepted);
        let opened = Book::<Packed<L>, Packed<M>>::open(
            alloc, tables, seats, keep, first, second, hashers,
        );
        let Ok((book, list)) = opened else {
            return Err(Lack::Memory);
        };
        let (cause, list) = self.serve_in_rounds(&face, &book, list);
        let count = list.len();
        Ok((cause, count, accepted_in(book, list)))
    }

    /// Serves the port in rounds, between two fences, each tried again where there was no memory for its workers: why one ended
    /// before its end, if one did, and the seats.
    fn serve_in_rounds<L: SharedLedger, M: SharedLedger>(
        &self,
        face: &Face,
        book: &Book<L, M>,
        mut list: Vec<Seat<L, M>>,
    ) -> (Option<PoolCause>, Vec<Seat<L, M>>) {
        let mut cause = None;
        let _begun = fence(self.alloc);
        for _ in 0..self.turns.2 {
            let came = self.serve_once(face, book, list);
            let (why, back) = if came.0 == Some(PoolCause::Memory) {
                self.serve_once(face, book, came.1)
            } else {
                came
            };
            cause = why.or(cause);
            list = back;
        }
        let _ended = fence(self.alloc);
        (cause, list)
    }

    /// Serves the port once: why it ended before its end, if it did, and the seats.
    fn serve_once<L: SharedLedger, M: SharedLedger>(
        &self,
        face: &Face,
        book: &Book<L, M>,
        list: Vec<Seat<L, M>>,
    ) -> (Option<PoolCause>, Vec<Seat<L, M>>) {
        let (rt, alloc, port, gate) = (self.rt, self.alloc, self.port, self.gate);
        match serve(rt, alloc, face, port, book, list, self.turns.1, gate) {
            Ok(back) => (None, back),
            Err(fault) => (Some(fault.cause), fault.seats),
        }
    }
}

/// How many requests the settled book accepted, if it is settled.
fn accepted_in<L: ShardLedger, M: ShardLedger>(
    book: Book<L, M>,
    list: Vec<Seat<L, M>>,
) -> Option<u128> {
    match reconcile(book, list) {
        Ok(settled) => Some(settled.accepted()),
        Err(_) => None,
    }
}

/// What a book over the profile is opened with.
fn opening<R: RandomSource>(rt: &R, alloc: Global, seats: usize) -> Result<NewBook, Lack>
    ensures seats { IfOk result (λ opening. opening.seats ≡ seats) }
    ensures parts { IfOk result (λ opening.
        (opening.first.parts ≡ opening.seats) × (opening.second.parts ≡ opening.seats)) }
{
    let (Ok(one), Ok(other)) = (RandomState::new(rt), RandomState::new(rt)) else {
        return Err(Lack::Case);
    };
    Ok(NewBook::of(profile_again(alloc)?, seats, [one, other]))
}

/// What serving the port comes to, of a book over the profile with ledgers of its own.
fn served<R: Threads + Wait + RandomSource + Sync, P: Port + Sync, G: Gate + Sync>(
    rt: &R,
    alloc: Global,
    port: &P,
    gate: &G,
    turns: Turns,
) -> Result<Came, Lack>
where
    P::In: Send,
    P::Out: Send,
{
    let opening = opening(rt, alloc, turns.0)?;
    let pool = Pool {
        rt,
        alloc,
        port,
        gate,
        turns,
    };
    pool.serve_new::<Brand, Brand>(opening)
}

/// The same of these requests; how many answers of status 200 were begun; and how many connections ended at once, and in stages.
fn came_of<R: Threads + Wait + RandomSource + Sync, G: Gate + Sync>(
    rt: &R,
    alloc: Global,
    gate: &G,
    list: Requests,
    turns: Turns,
) -> Result<(Came, [usize; 3]), Lack> {
    let counts = Counts::new();
    let came = served(rt, alloc, &Listed::new(list, &counts), gate, turns)?;
    let good = counts.good.load(Ordering::SeqCst);
    let at_once = counts.at_once.load(Ordering::SeqCst);
    let in_stages = counts.in_stages.load(Ordering::SeqCst);
    Ok((came, [good, at_once, in_stages]))
}

#[test]
fn two_workers_meet(rt: HostRuntime) {
    let gate = MeetingGate::new(&rt);
    let list = &[(A, 999), (B, 999)];
    let came = came_of(&rt, rt.alloc(), &gate, list, (2, 1, 1));
    let expected = Ok(((None, 2, Some(2)), [2, 2, 0]));
    assert_eq!(rt; (came, gate.gave_up()), (expected, false));
}

/// A case: the requests, how they are served, and what serving comes to.
type Case = (Requests, Turns, (Came, [usize; 3]));

/// A worker could take no further connection.
const FAILED: Option<PoolCause> = Some(PoolCause::Accept);

/// No connections; a peer that stops reading; a port that fails at once, one that fails once its requests are taken, and one
/// that fails once, and goes on.
const CASES: &[Case] = rows! {
    (&[], (1, 0, 1), ((None, 1, Some(0)), [0, 0, 0])),
    (&[(A, 10), (B, 999)], (1, 2, 1), ((None, 1, Some(2)), [2, 1, 1])),
    (&[], (1, 1, 1), ((FAILED, 1, Some(0)), [0, 0, 0])),
    (&[(A, 999), (B, 999)], (2, 2, 1), ((FAILED, 2, Some(2)), [2, 2, 0])),
    (&[(b"", 0), (A, 999)], (1, 1, 2), ((FAILED, 1, Some(1)), [1, 1, 0])),
};

/// The place of the first of these cases to which serving doesn't come, if there is one.
fn first_other<R: Threads + Wait + RandomSource + Sync>(
    rt: &R,
    alloc: Global,
    cases: &[Case],
) -> Result<Option<usize>, Lack> {
    for (place, case) in cases.iter().enumerate() {
        let (list, turns, expected) = *case;
        if came_of(rt, alloc, &OpenGate, list, turns)? != expected {
            return Ok(Some(place));
        }
    }
    Ok(None)
}

#[test]
fn connections_come_to_this(rt: HostRuntime) {
    assert_eq!(rt; first_other(&rt, rt.alloc(), CASES), Ok(None));
}

/// Whether as many workers as there may be stopped before their ends, at a port that fails at once; and what comes of their seats.
fn stopped<R: Threads + Wait + RandomSource + Sync>(
    rt: &R,
    alloc: Global,
) -> Result<(bool, usize, Option<u128>), Lack> {
    let (came, _) = came_of(rt, alloc, &OpenGate, &[], (64, 1, 1))?;
    Ok((came.0.is_some(), came.1, came.2))
}

/// With memory the port fails them; without, there are no workers.
#[test]
fn seats_come_back_with_every_growth_refused(rt: HostRuntime) {
    assert_eq!(rt; stopped(&rt, rt.alloc()), Ok((true, 64, Some(0))));
}

/// Registrations of A and of B, and the same again.
const TWICE: Requests = &[(A, 999), (B, 999), (A, 999), (B, 999)];

/// What a book of two seats came to that served these connections in two rounds; it is opened again where there was no memory.
fn served_in_two_rounds<R: Threads + Wait + RandomSource + Sync>(
    rt: &R,
    alloc: Global,
) -> Result<Came, Lack> {
    Ok(again!(came_of(rt, alloc, &OpenGate, TWICE, (2, 1, 2)))?.0)
}

/// By `tests/refused-growths`, as the other of such a name.
#[test]
fn workers_serve_after_a_refused_growth(rt: HostRuntime) {
    let came = served_in_two_rounds(&rt, rt.alloc());
    assert_eq!(rt; came, Ok((None, 2, Some(2))));
}

/// How many connections each worker of a book answered that served the port, and how many requests the book accepted.
fn ended<
    R: Threads + Wait + Sync,
    P: Port + Sync,
    L: NamedLedger + Send + Sync,
    M: NamedLedger + Send + Sync,
>(rt: &R, alloc: Global, port: &P, opening: NewBook) -> Result<(usize, usize, u128), Stop>
where
    P::In: Send,
    P::Out: Send,
    requires fits { Fits (names_of L.name L.parts L.log L.marks L.tables)
        (names_of M.name M.parts M.log M.marks M.tables) opening }
{
    match serve_and_settle::<R, P, Packed<L>, Packed<M>>(rt, alloc, opening, port, 2) {
        Ok(book) => {
            let least = book.answered.iter().map(|count| count.get()).min();
            Ok((
                book.answered.len(),
                least.unwrap_or(0),
                book.settled.accepted(),
            ))
        }
        Err(stop) => Err(stop),
    }
}

/// The same of the connections and a new book of two seats with ledgers of its own.
fn ended_anew<R: Threads + Wait + RandomSource + Sync>(
    rt: &R,
    alloc: Global,
) -> Result<Result<(usize, usize, u128), Stop>, Lack> {
    let counts = Counts::new();
    let port = Listed::new(TWICE, &counts);
    let opening = opening(rt, alloc, 2)?;
    Ok(ended::<R, Listed<'_>, Brand, Brand>(rt, alloc, &port, opening))
}

/// The same, with a second book where there was no memory to begin.
fn ended_again<R: Threads + Wait + RandomSource + Sync>(
    rt: &R,
    alloc: Global,
) -> Result<Result<(usize, usize, u128), Stop>, Lack> {
    match ended_anew(rt, alloc)? {
        Err(Stop::Memory) => ended_anew(rt, alloc),
        ended => Ok(ended),
    }
}

#[test]
fn a_book_is_settled_after_a_refused_growth(rt: HostRuntime) {
    assert_eq!(rt; ended_again(&rt, rt.alloc()), Ok(Ok((2, 2, 2))));
}
