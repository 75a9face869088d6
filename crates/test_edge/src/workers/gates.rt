//! What a gate is told, and when: after the connection was taken and before its answer, and after the answer.
use super::{A, served};
use mds_book::Gate;
use mds_pool::{Port, PortFault};
use std::alloc::Global;
use std::io::{self, Write};
use std::random::RandomSource;
use std::sync::atomic::{AtomicBool, Ordering};
use std::sync::{Mutex, Wait};
use std::thread::Threads;
use test_fixtures::Lack;

/// One thing that happened.
#[derive(Clone, Copy, Debug, PartialEq, Eq)]
enum Step {
    /// A connection was taken.
    Taken,
    /// A worker entered the gate before the piece of this number.
    Entered { worker: usize, nth: usize },
    /// An answer was written.
    Written,
    /// A worker left the gate after the piece of this number.
    Left { worker: usize, nth: usize },
}

/// How many workers there are, and how many connections each answers.
const WORKERS: usize = 2;

const EACH: usize = 2;

/// All that happened, in its order: room for each step of each connection.
#[derive(Drop)]
struct Record<'a, R: Wait> {
    rt: &'a R,
    steps: Mutex<Vec<Step>>,
    lacked_memory: AtomicBool,
}

impl<R: Wait> Record<'_, R> {
    /// Notes that this happened.
    fn note(&self, step: Step) {
        if self.steps.lock(self.rt).push(step).is_err() {
            self.lacked_memory.store(true, Ordering::SeqCst);
        }
    }
}

impl<R: Wait> Gate for Record<'_, R> {
    fn enter(&self, worker: usize, nth: usize) {
        self.note(Step::Entered { worker, nth });
    }

    fn leave(&self, worker: usize, nth: usize) {
        self.note(Step::Left { worker, nth });
    }
}

/// A port in memory that records each connection that is taken, and each answer.
#[derive(Drop)]
struct Recorded<'a, R: Wait> {
    record: &'a Record<'a, R>,
}

/// A writer that takes an answer in one call, and records it.
#[derive(Drop)]
struct Answered<'a, R: Wait> {
    record: &'a Record<'a, R>,
}

impl<R: Wait> Write for Answered<'_, R> {
    fn write(&mut self, bytes: &[u8]) -> io::Result<usize> {
        self.record.note(Step::Written);
        Ok(bytes.len())
    }

    fn flush(&mut self) -> io::Result<()> {
        Ok(())
    }
}

impl<'a, R: Wait> Port for Recorded<'a, R> {
    type In = &'static [u8];

    type Out = Answered<'a, R>;

    fn accept(&self) -> Result<(&'static [u8], Answered<'a, R>), PortFault> {
        let record = self.record;
        record.note(Step::Taken);
        Ok((A, Answered { record }))
    }
}

/// Whether, after each step, no more workers entered than took a connection, no more answers were written than workers entered,
/// and no more workers left than wrote an answer.
fn is_always_in_order(steps: &[Step]) -> bool {
    let (mut taken, mut entered, mut written, mut left) = (0u32, 0u32, 0u32, 0u32);
    for step in steps {
        match step {
            Step::Taken => taken = taken.saturating_add(1),
            Step::Entered { .. } => entered = entered.saturating_add(1),
            Step::Written => written = written.saturating_add(1),
            Step::Left { .. } => left = left.saturating_add(1),
        }
        if left > written || written > entered || entered > taken {
            return false;
        }
    }
    true
}

/// How often this happened.
fn times(steps: &[Step], step: Step) -> usize {
    steps.iter().filter(|one| **one == step).count()
}

/// Whether each worker entered and left once for each of its connections.
fn are_all_told(steps: &[Step]) -> bool {
    for piece in 0..WORKERS * EACH {
        let (worker, nth) = (piece / EACH, piece % EACH);
        let entered = times(steps, Step::Entered { worker, nth });
        let left = times(steps, Step::Left { worker, nth });
        if (entered, left) != (1, 1) {
            return false;
        }
    }
    true
}

/// Whether both workers served to their ends with memory for all steps, how many steps there were, whether they were in order,
/// and whether all were told.
fn steps_of_serving<R: Threads + Wait + RandomSource + Sync>(
    rt: &R,
    alloc: Global,
) -> Result<(bool, usize, bool, bool), Lack> {
    let record = Record {
        rt,
        steps: Mutex::new(Vec::new(alloc)),
        lacked_memory: AtomicBool::new(false),
    };
    let port = Recorded { record: &record };
    let came = served(rt, alloc, &port, &record, (WORKERS, EACH, 1))?;
    let is_whole = came == (None, WORKERS, Some(1)) && !record.lacked_memory.load(Ordering::SeqCst);
    let steps = record.steps.into_inner();
    let told = (is_always_in_order(&steps), are_all_told(&steps));
    Ok((is_whole, steps.len(), told.0, told.1))
}

#[test]
fn gate_is_entered_and_left_around_each_answer(rt: HostRuntime) {
    let all = 4 * WORKERS * EACH;
    let found = steps_of_serving(&rt, rt.alloc());
    assert_eq!(rt; found, Ok((true, all, true, true)));
}
