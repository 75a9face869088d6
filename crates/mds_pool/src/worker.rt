//! Workers: each with its seat, and with what it came to.
ghost use Rattle.std.specs.Prelude.{◌≡◌, ◌≤◌, map, vec_len, vec_capacity};
ghost use Rattle.std.specs.List.{list_any};
ghost use Rattle.mds_pool.specs.Workers.{AtWork, idle_worker};

use crate::AnswerCount;
use mds_book::{Seat, ShardLedger};
use std::marker::Model;

/// Why a worker ended before it had answered all connections that it was to answer.
#[derive(Clone, Copy, Debug, PartialEq, Eq)]
pub(crate) enum ShiftFault {
    /// The port gave no further connection.
    Accept,
    /// It stays open what is recorded of the book.
    Lost,
}

/// What a worker came to: how many connections it answered, and why it ended before it had answered all, if it did.
#[derive(Drop)]
pub(crate) struct Shift {
    pub(crate) answered: AnswerCount,
    pub(crate) fault: Option<ShiftFault>,
}

/// A worker: its seat, and what it came to.
#[derive(Drop)]
pub(crate) struct Worker<L: ShardLedger, M: ShardLedger> {
    pub(crate) seat: Seat<L, M>,
    pub(crate) shift: Shift,
}

impl<L: ShardLedger, M: ShardLedger> Model for Worker<L, M> {
    ghost use Rattle.std.specs.Prelude.{is_some};
    ghost use Rattle.mds_pool.specs.Workers.{AtWork};

    ghost Value = { AtWork };

    ghost view = { λ worker. record {
      seat = worker.seat;
      answered = worker.shift.answered;
      failed = is_some worker.shift.fault;
    } };
}

impl<L: ShardLedger, M: ShardLedger> Worker<L, M> {
    /// A worker at this seat that has answered no connection.
    fn at(seat: Seat<L, M>) -> Worker<L, M>
        ensures { result ≡ idle_worker seat }
    {
        let shift = Shift {
            answered: AnswerCount::new(),
            fault: None,
        };
        Worker { seat, shift }
    }
}

/// A worker at each of these seats, in room that was made for them.
pub(crate) fn workers_at<L: ShardLedger, M: ShardLedger>(
    seats: Vec<Seat<L, M>>,
    mut room: Vec<Worker<L, M>>,
) -> Vec<Worker<L, M>>
    requires { (vec_len room ≡ 0) × (vec_len seats ≤ vec_capacity room) }
    ensures { result.items ≡ map idle_worker seats.items }
{
    for seat in seats {
        room.push_reserved(Worker::at(seat));
    }
    room
}

/// What workers came to: their seats, how many connections each answered, whether one of them ended before it had answered all,
/// and whether one ended since it stays open what is recorded.
#[derive(Drop)]
pub(crate) struct Round<L: ShardLedger, M: ShardLedger> {
    pub(crate) seats: Vec<Seat<L, M>>,
    pub(crate) answered: Vec<AnswerCount>,
    pub(crate) failed: bool,
    pub(crate) is_lost: bool,
}

impl<L: ShardLedger, M: ShardLedger> Round<L, M> {
    /// What these workers came to, in room that was made for it.
    pub(crate) fn of(
        workers: Vec<Worker<L, M>>,
        mut seats: Vec<Seat<L, M>>,
        mut answered: Vec<AnswerCount>,
    ) -> Round<L, M>
        requires seats { (vec_len seats ≡ 0) × (vec_len workers ≤ vec_capacity seats) }
        requires answered { (vec_len answered ≡ 0) × (vec_len workers ≤ vec_capacity answered) }
        ensures seats { result.seats.items ≡ map (λ (one : AtWork). one.seat) workers.items }
        ensures answered { result.answered.items
            ≡ map (λ (one : AtWork). one.answered) workers.items }
        ensures failed { result.failed ≡ list_any (λ (one : AtWork). one.failed) workers.items }
    {
        let (mut failed, mut is_lost) = (false, false);
        for worker in workers {
            let Worker { seat, shift } = worker;
            let Shift {
                answered: count,
                fault,
            } = shift;
            seats.push_reserved(seat);
            answered.push_reserved(count);
            failed = failed || fault.is_some();
            is_lost = is_lost || fault == Some(ShiftFault::Lost);
        }
        Round {
            seats,
            answered,
            failed,
            is_lost,
        }
    }
}
