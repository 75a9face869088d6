//! Gates: how a worker passes one with a piece of its work, and that the open gate takes no memory.
use mds_io::{Gate, OpenGate, pass};
use std::alloc::{AllocError, Global};
use std::sync::{Mutex, Wait};
use test_fixtures::fence;

/// One thing that happened.
#[derive(Clone, Copy, Debug, PartialEq, Eq)]
enum Step {
    /// A worker entered the gate before the piece of this number.
    Entered { worker: usize, nth: usize },
    /// A piece was done.
    Done,
    /// A worker left the gate after the piece of this number.
    Left { worker: usize, nth: usize },
}

/// All that happened, in its order.
#[derive(Drop)]
struct Record<'a, R: Wait> {
    rt: &'a R,
    steps: Mutex<Vec<Step>>,
}

impl<R: Wait> Record<'_, R> {
    /// Notes that this happened.
    fn note(&self, step: Step) {
        let _ = self.steps.lock(self.rt).push(step);
    }
}

impl<R: Wait> Gate for Record<'_, R> {
    fn enter(&self, worker: usize, nth: usize) {
        self.note(Step::Entered { worker, nth });
    }

    fn leave(&self, worker: usize, nth: usize) {
        self.note(Step::Left { worker, nth });
    }
}

/// Whether a worker that passes a gate enters, does its piece and leaves, in this order, and hands out what it did. Room for
/// what happens is made before.
fn passes_in_order<R: Wait>(rt: &R, alloc: Global) -> Result<bool, AllocError> {
    let record = Record {
        rt,
        steps: Mutex::new(Vec::with_capacity(alloc, 3)?),
    };
    let done = pass(&record, 3, 8, || {
        record.note(Step::Done);
        5
    });
    let (worker, nth) = (3, 8);
    let all = [
        Step::Entered { worker, nth },
        Step::Done,
        Step::Left { worker, nth },
    ];
    Ok(done == 5 && record.steps.into_inner().as_slice() == all.as_slice())
}

#[test]
fn a_gate_is_entered_before_a_piece_and_left_after_it(rt: HostRuntime) {
    assert_eq!(rt; passes_in_order(&rt, rt.alloc()), Ok(true));
}

#[test]
fn the_open_gate_is_passed_with_every_growth_refused(rt: HostRuntime) {
    let _begun = fence(rt.alloc());
    for nth in 0..100 {
        pass(&OpenGate, 3, nth, || {});
    }
    let _ended = fence(rt.alloc());
}
