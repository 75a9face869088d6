//! Workers that answer the connections of a port.
ghost use Rattle.std.specs.Prelude.{◌≡◌, ◌<◌, false, length, replicate, Some, IfOk, IfErr, IsOk, vec_len};
ghost use Rattle.std.specs.List.{AllZip};
ghost use Rattle.mds_face.specs.Seats.{HasGrown};
ghost use Rattle.mds_pool.specs.Pool.{pool_cause_text};
ghost use Rattle.mds_pool.specs.Workers.{HasWorked};

use crate::answering::{Answer, Connection};
use crate::counting::Counter;
use crate::recorded_desk::RecordedDesk;
use crate::worker::{Round, Shift, ShiftFault, Worker, workers_at};
use crate::{AnswerCount, NoRecord, Port, Recorder};
use mds_book::{Book, Gate, Seat, ShardLedger, SharedLedger};
use mds_face::{Face, Room, SeatDesk};
use std::alloc::Global;
use std::fmt;
use std::sync::Wait;
use std::thread::{self, Threads};

/// Why workers didn't answer all connections that they were to answer.
#[derive(Clone, Copy, Debug, PartialEq, Eq)]
pub enum PoolCause {
    /// There was no memory for the workers. None was made, and no connection was taken.
    Memory,
    /// A worker could take no further connection, and answered fewer than it was to.
    Accept,
}

impl fmt::Display for PoolCause {
    ghost output = { λ cause. Some (pool_cause_text cause) };

    fn fmt<W: fmt::Write>(&self, f: &mut fmt::Formatter<W>) -> fmt::Result {
        f.write_str(match self {
            PoolCause::Memory => "memory",
            PoolCause::Accept => "accept",
        })
    }
}

/// Not all connections were answered that the workers were to answer. The seats come back with what was answered.
#[derive(Drop)]
pub struct PoolFault<L: ShardLedger, M: ShardLedger> {
    /// Why.
    pub cause: PoolCause,
    /// The seats, each in its place.
    pub seats: Vec<Seat<L, M>>,
}

/// Answers connections of the port, `each` by each of as many workers as there are seats, and gives the seats back, each in
/// its place. A worker takes a connection, enters the gate, answers for its seat, leaves the gate, and takes the next; a
/// connection that ends with a fault counts as answered. The workers are threads, as far as threads can be made; the others
/// work one after another.
///
/// # Errors
///
/// [`PoolFault`] by [`PoolCause::Memory`] where there is no memory for the workers, before any connection is taken; and by
/// [`PoolCause::Accept`] where a worker could take no further connection: that worker ended there, and the others went on.
pub fn serve<
    R: Threads + Wait + Sync,
    P: Port + Sync,
    L: SharedLedger,
    M: SharedLedger,
    G: Gate + Sync,
>(
    rt: &R,
    alloc: Global,
    face: &Face,
    port: &P,
    book: &Book<L, M>,
    seats: Vec<Seat<L, M>>,
    each: usize,
    gate: &G,
) -> Result<Vec<Seat<L, M>>, PoolFault<L, M>>
where
    P::In: Send,
    P::Out: Send,
    ensures ok { IfOk result (λ back. AllZip HasGrown seats.items back.items) }
    ensures err { IfErr result (λ fault. AllZip HasGrown seats.items fault.seats.items) }
    ensures memory { IfErr result (λ fault. fault.cause ≡ PoolCause.Memory
        → fault.seats.items ≡ seats.items) }
    ensures none { vec_len seats ≡ 0 → IsOk result }
{
    if seats.is_empty() {
        return Ok(seats);
    }
    match serve_round(rt, alloc, face, port, book, seats, each, gate, &NoRecord) {
        Ok(round) => {
            if round.failed {
                return Err(PoolFault {
                    cause: PoolCause::Accept,
                    seats: round.seats,
                });
            }
            Ok(round.seats)
        }
        Err(seats) => Err(PoolFault {
            cause: PoolCause::Memory,
            seats,
        }),
    }
}

/// As [`serve`], of at least one seat, and by what records what the book accepts: no answer goes out before what it rests on is
/// recorded. It hands out how many connections each worker answered, and whether one ended before it had answered all. Where it
/// stays open what is recorded, the workers end.
///
/// # Errors
///
/// The seats, where there is no memory for the workers and for what they come to.
pub(crate) fn serve_round<
    R: Threads + Wait + Sync,
    P: Port + Sync,
    L: SharedLedger,
    M: SharedLedger,
    G: Gate + Sync,
    K: Recorder<L, M> + Sync,
>(
    rt: &R,
    alloc: Global,
    face: &Face,
    port: &P,
    book: &Book<L, M>,
    seats: Vec<Seat<L, M>>,
    each: usize,
    gate: &G,
    recorder: &K,
) -> Result<Round<L, M>, Vec<Seat<L, M>>>
where
    P::In: Send,
    P::Out: Send,
    K::Receipt: Send,
    requires { 0 < vec_len seats }
    ensures grown { IfOk result (λ round. AllZip HasGrown seats.items round.seats.items) }
    ensures answered { IfOk result (λ round. round.failed ≡ false
        → round.answered.items ≡ replicate (vec_len seats) each) }
    ensures memory { IfErr result (λ back. back.items ≡ seats.items) }
{
    let count = seats.len();
    let room: Result<Vec<Worker<L, M>>, _> = Vec::with_capacity(alloc, count);
    let back: Result<Vec<Seat<L, M>>, _> = Vec::with_capacity(alloc, count);
    let answered: Result<Vec<AnswerCount>, _> = Vec::with_capacity(alloc, count);
    let (Ok(room), Ok(back), Ok(answered)) = (room, back, answered) else {
        return Err(seats);
    };
    let crew = Crew {
        rt,
        alloc,
        port,
        gate,
        recorder,
    };
    let workers = work_through(rt, &crew, face, book, workers_at(seats, room), each);
    Ok(Round::of(workers, back, answered))
}

/// What the workers of a port share, beside the face and the book.
#[derive(Drop)]
struct Crew<'a, R: Wait, P: Port, G: Gate, K> {
    rt: &'a R,
    alloc: Global,
    port: &'a P,
    gate: &'a G,
    recorder: &'a K,
}

/// What is done for each worker, by a face and at a book. Worker and book are types of their own here, so that of what threads
/// share each is looked at by itself.
trait Works<X, B> {
    ghost use Rattle.std.specs.Prelude.{ℕ};

    /// What a worker comes to that was to answer so many connections.
    ghost worked: { ℕ → X → X → Type 0 };

    /// One worker's work: it takes so many connections and answers them for its seat. Where it can take no further one it ends,
    /// and where it stays open what is recorded, it ends and stops the port.
    fn work(&self, face: &Face, book: &B, worker: &mut X, number: usize, each: usize)
        ensures { worked each worker.old worker.new };
}

impl<R: Wait, P: Port, L: ShardLedger, M: ShardLedger, G: Gate, K: Recorder<L, M>> Works<
    Worker<L, M>,
    Book<L, M>,
> for Crew<'_, R, P, G, K> {
    ghost use Rattle.mds_pool.specs.Workers.{HasWorked};

    ghost worked = { HasWorked };

    fn work(
        &self,
        face: &Face,
        book: &Book<L, M>,
        worker: &mut Worker<L, M>,
        number: usize,
        each: usize,
    ) {
        let counter = Counter::of(self.port.tally(number));
        let station = Station {
            rt: self.rt,
            alloc: self.alloc,
            port: self.port,
            book,
            gate: self.gate,
            recorder: self.recorder,
            counter: &counter,
        };
        worker.shift = station.work(face, &mut worker.seat, number, each);
    }
}

fn work_through<R: Threads + Wait + Sync, X: Send, B: Sync, W: Works<X, B> + Sync>(
    rt: &R,
    crew: &W,
    face: &Face,
    book: &B,
    mut workers: Vec<X>,
    each: usize,
) -> Vec<X>
    requires { 0 < vec_len workers }
    ensures items { AllZip (W.worked each) workers.items result.items }
    ensures len { vec_len result ≡ vec_len workers }
{
    work_all(rt, crew, face, book, workers.as_mut_slice(), each);
    workers
}

fn work_all<R: Threads + Wait + Sync, X: Send, B: Sync, W: Works<X, B> + Sync>(
    rt: &R,
    crew: &W,
    face: &Face,
    book: &B,
    workers: &mut [X],
    each: usize,
)
    requires { 0 < length workers.old }
    ensures { AllZip (W.worked each) workers.old workers.new }
{
    let count = workers.len();
    let job = |number: usize, worker: &mut X|
        ensures { W.worked each worker.old worker.new }
    {
        crew.work(face, book, worker, number, each);
    };
    thread::for_each_mut(rt, workers, count, &job);
}

/// What one worker works with.
#[derive(Drop)]
struct Station<'a, R: Wait, P: Port, L: ShardLedger, M: ShardLedger, G: Gate, K: Recorder<L, M>> {
    rt: &'a R,
    alloc: Global,
    port: &'a P,
    book: &'a Book<L, M>,
    gate: &'a G,
    recorder: &'a K,
    counter: &'a Counter<'a>,
}

impl<R: Wait, P: Port, L: ShardLedger, M: ShardLedger, G: Gate, K: Recorder<L, M>> Station<
    '_,
    R,
    P,
    L,
    M,
    G,
    K,
> {
    /// As [`Works::work`].
    #[tactic(auto, using(crate::proofs::SeatGrowth::seat_growth))]
    fn work(&self, face: &Face, seat: &mut Seat<L, M>, number: usize, each: usize) -> Shift
        ensures grown { HasGrown seat.old seat.new }
        ensures each { result.fault ≡ None → result.answered ≡ each }
    {
        let mut answered = AnswerCount::new();
        let mut receipt = self.recorder.receipt(self.rt);
        let mut room = Room::new(self.alloc);
        for nth in 0..each {
            let Ok(connection) = Connection::take(self.port) else {
                return Shift {
                    answered,
                    fault: Some(ShiftFault::Accept),
                };
            };
            self.gate.enter(number, nth);
            let answer = self.answer(face, seat, &mut receipt, &mut room, connection);
            answer.count_instead(self.counter);
            let is_lost = answer.is_lost();
            answered.add(self.port, answer);
            self.gate.leave(number, nth);
            if is_lost {
                self.port.stop();
                return Shift {
                    answered,
                    fault: Some(ShiftFault::Lost),
                };
            }
        }
        Shift {
            answered,
            fault: None,
        }
    }

    fn answer(
        &self,
        face: &Face,
        seat: &mut Seat<L, M>,
        receipt: &mut K::Receipt,
        room: &mut Room,
        connection: Connection<P>,
    ) -> Answer<P>
        ensures { HasGrown seat.old seat.new }
    {
        let mut desk = RecordedDesk {
            desk: SeatDesk {
                alloc: self.alloc,
                rt: self.rt,
                book: self.book,
                seat,
            },
            recorder: self.recorder,
            receipt,
            counter: self.counter,
        };
        let answer = answer_at_seat(self.alloc, face, self.port, connection, room, &mut desk);
        let RecordedDesk {
            desk: SeatDesk {
                alloc: _,
                rt: _,
                book: _,
                seat: _,
            },
            recorder: _,
            receipt: _,
            counter: _,
        } = desk;
        answer
    }
}

fn answer_at_seat<R: Wait, P: Port, L: ShardLedger, M: ShardLedger, K: Recorder<L, M>>(
    alloc: Global,
    face: &Face,
    port: &P,
    connection: Connection<P>,
    room: &mut Room,
    desk: &mut RecordedDesk<'_, R, L, M, K>,
) -> Answer<P>
    ensures same_seat { desk.new.desk.seat.ghost_name ≡ desk.old.desk.seat.ghost_name }
    ensures grown { HasGrown desk.old.desk.seat.now desk.new.desk.seat.now }
{
    connection.answer_at(alloc, face, port, room, desk)
}
