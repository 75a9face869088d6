//! A gate at which two workers meet.
use mds_io::Gate;
use std::sync::atomic::{AtomicBool, Ordering};
use std::thread;
use std::time::{Clock, Duration};

/// Holds the first worker that enters until one has left, at most 10000 turns of one millisecond.
#[derive(Drop)]
pub struct MeetingGate<'a, C: Clock> {
    clock: &'a C,
    is_held: AtomicBool,
    has_left: AtomicBool,
    gave_up: AtomicBool,
}

impl<'a, C: Clock> MeetingGate<'a, C> {
    /// A gate where nobody was.
    pub fn new(clock: &'a C) -> Self {
        MeetingGate {
            clock,
            is_held: AtomicBool::new(false),
            has_left: AtomicBool::new(false),
            gave_up: AtomicBool::new(false),
        }
    }

    /// Whether a worker was let in though nobody had left.
    pub fn gave_up(&self) -> bool {
        self.gave_up.load(Ordering::SeqCst)
    }
}

impl<C: Clock> Gate for MeetingGate<'_, C> {
    fn enter(&self, _worker: usize, _nth: usize) {
        if self.is_held.swap(true, Ordering::SeqCst) {
            return;
        }
        for _ in 0..10_000 {
            if self.has_left.load(Ordering::SeqCst) {
                return;
            }
            thread::sleep(self.clock, Duration::from_millis(1));
        }
        self.gave_up.store(true, Ordering::SeqCst);
    }

    fn leave(&self, _worker: usize, _nth: usize) {
        self.has_left.store(true, Ordering::SeqCst);
    }
}
