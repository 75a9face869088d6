//! Replays by several workers: what they come to, their gate, their number, and want of memory in one of them.
use crate::replays::{CASES, Case, five_again};
use crate::told::{Expected, FIVE, FIVE_REPORT, is_report, items_of, items_over};
use mds_batch::{EventItems, TakesItems};
use mds_io::{Gate, OpenGate};
use mds_trace::{Opening, Report, WithFault, replay_items_with, replay_with};
use std::alloc::{AllocError, Global};
use std::sync::atomic::{AtomicBool, AtomicU64, Ordering};
use std::thread::Threads;
use std::time::Clock;
use test_fixtures::{Lack, MeetingGate, fence, profile, profile_again, rows};

/// Whether so many workers come to what is expected, through this gate.
fn comes_through<R: Threads + Sync, G: Gate + Sync>(
    rt: &R,
    alloc: Global,
    (told, opening, expected): Case,
    workers: usize,
    gate: &G,
) -> Result<bool, Lack> {
    let items = items_over(alloc, told, expected.0.len())?;
    let tables = profile(alloc)?;
    let end = replay_with(rt, alloc, &tables, &items, opening, workers, gate);
    is_expected(end, expected)
}

/// Whether a replay comes to the report that is expected.
fn is_expected(end: Result<Report, WithFault>, expected: &Expected) -> Result<bool, Lack> {
    match end {
        Ok(report) => Ok(is_report(&report, expected)),
        Err(WithFault::Memory) => Err(Lack::Memory),
        Err(WithFault::BadWorkers) => Ok(false),
    }
}

/// Whether two workers come to what is expected, of items that are kept close together.
fn comes_close_together<R: Threads + Sync>(
    rt: &R,
    alloc: Global,
    (told, opening, expected): Case,
) -> Result<bool, Lack> {
    let mut items = EventItems::new(alloc);
    for item in items_over(alloc, told, expected.0.len())?.as_slice() {
        items.take(item)?;
    }
    let tables = profile(alloc)?;
    let end = replay_items_with(rt, alloc, &tables, &items, opening, 2, &OpenGate);
    is_expected(end, expected)
}

/// The place of the first case that two workers come out of otherwise, or of which one gives up to wait for the other.
fn first_alone<R: Threads + Clock + Sync>(rt: &R, alloc: Global) -> Result<Option<usize>, Lack> {
    for (at, case) in CASES.iter().enumerate() {
        let gate = MeetingGate::new(rt);
        let comes = comes_through(rt, alloc, *case, 2, &gate)?;
        if !comes || gate.gave_up() || !comes_close_together(rt, alloc, *case)? {
            return Ok(Some(at));
        }
    }
    Ok(None)
}

#[test]
fn two_workers_meet(rt: HostRuntime) {
    assert_eq!(rt; first_alone(&rt, rt.alloc()), Ok(None));
}

/// Who has entered and who has left, a bit for each worker, and who did so more than once.
#[derive(Drop)]
struct Counting {
    entered: AtomicU64,
    left: AtomicU64,
    again: AtomicU64,
}

impl Counting {
    /// Nobody has been there.
    fn new() -> Counting {
        Counting {
            entered: AtomicU64::new(0),
            left: AtomicU64::new(0),
            again: AtomicU64::new(0),
        }
    }

    /// Who has entered, who has left, and who did so more than once.
    fn counted(&self) -> [u64; 3] {
        [
            self.entered.load(Ordering::SeqCst),
            self.left.load(Ordering::SeqCst),
            self.again.load(Ordering::SeqCst),
        ]
    }

    /// Notes a worker. One with a piece that isn't the first, or past the sixty-fourth, counts as one that did so more than once.
    fn note(&self, seen: &AtomicU64, worker: usize, nth: usize) {
        let bit = first_bits(worker.saturating_add(1)) & !first_bits(worker);
        let before = seen.fetch_or(bit, Ordering::SeqCst);
        let again = if nth == 0 && bit != 0 {
            before & bit
        } else {
            u64::MAX
        };
        self.again.fetch_or(again, Ordering::SeqCst);
    }
}

/// The bits of so many workers, at most 64.
fn first_bits(workers: usize) -> u64 {
    let mut bits = 0;
    for _ in 0..workers.min(64) {
        bits = bits << 1 | 1;
    }
    bits
}

impl Gate for Counting {
    fn enter(&self, worker: usize, nth: usize) {
        self.note(&self.entered, worker, nth);
    }

    fn leave(&self, worker: usize, nth: usize) {
        self.note(&self.left, worker, nth);
    }
}

/// Numbers of workers, and a bit for each of them.
const NUMBERS: &[(usize, u64)] = rows! {
    (1, 0x1), (2, 0x3), (3, 0x7), (4, 0xf), (5, 0x1f), (64, 0xffff_ffff_ffff_ffff),
};

/// The first of these numbers of workers that come to something else, or don't all enter once and leave once.
fn other_number<R: Threads + Sync>(
    rt: &R,
    alloc: Global,
    case: Case,
) -> Result<Option<usize>, Lack> {
    for (workers, bits) in NUMBERS {
        let gate = Counting::new();
        let comes = comes_through(rt, alloc, case, *workers, &gate)?;
        if !comes || gate.counted() != [*bits, *bits, 0] {
            return Ok(Some(*workers));
        }
    }
    Ok(None)
}

/// The place of the first case of which there is such a number, and that.
fn first_other<R: Threads + Sync>(rt: &R, alloc: Global) -> Result<Option<(usize, usize)>, Lack> {
    for (at, case) in CASES.iter().enumerate() {
        if let Some(workers) = other_number(rt, alloc, *case)? {
            return Ok(Some((at, workers)));
        }
    }
    Ok(None)
}

#[test]
fn each_worker_enters_and_leaves(rt: HostRuntime) {
    assert_eq!(rt; first_other(&rt, rt.alloc()), Ok(None));
}

/// A gate between whose two ends growths may be refused, and whether one was.
#[derive(Drop)]
struct Fencing {
    alloc: Global,
    is_refused: AtomicBool,
}

impl Gate for Fencing {
    fn enter(&self, _worker: usize, _nth: usize) {
        let _begun = fence(self.alloc);
    }

    fn leave(&self, _worker: usize, _nth: usize) {
        let growth: Result<Vec<u8>, AllocError> = Vec::with_capacity(self.alloc, 1);
        self.is_refused.store(growth.is_err(), Ordering::SeqCst);
        let _ended = fence(self.alloc);
    }
}

/// Whether a single worker that replays the five events through this gate has no memory, and whether a growth was refused there.
fn fenced<R: Threads + Sync>(rt: &R, alloc: Global) -> Result<(bool, bool), Lack> {
    let gate = Fencing {
        alloc,
        is_refused: AtomicBool::new(false),
    };
    let (items, tables) = (items_of(alloc, FIVE)?, profile(alloc)?);
    let report = replay_with(rt, alloc, &tables, &items, Opening::Removed, 1, &gate);
    Ok((report.is_err(), gate.is_refused.load(Ordering::SeqCst)))
}

/// Whether both are the same.
fn agree<R: Threads + Sync>(rt: &R, alloc: Global) -> Result<bool, Lack> {
    let (wants_memory, is_refused) = fenced(rt, alloc)?;
    Ok(wants_memory == is_refused)
}

/// A part is replayed behind the gate's entry and before its end: where growths are refused between these, and nowhere else, the
/// replay has no memory.
#[test]
fn a_part_is_within_its_gate_with_every_growth_refused(rt: HostRuntime) {
    assert_eq!(rt; agree(&rt, rt.alloc()), Ok(true));
}

/// Whether four workers come to the report of the five events, asked again where a growth is refused, and whether as many
/// have left the gate as have entered it, a worker that finds no memory among them.
fn replayed_again<R: Threads + Sync>(rt: &R, alloc: Global) -> Result<(bool, bool), Lack> {
    let (items, tables) = (five_again(alloc)?, profile_again(alloc)?);
    let (opening, gate) = (Opening::Any, Counting::new());
    let report = match replay_with(rt, alloc, &tables, &items, opening, 4, &gate) {
        Err(WithFault::Memory) => replay_with(rt, alloc, &tables, &items, opening, 4, &OpenGate),
        end => end,
    };
    let [entered, left, _again] = gate.counted();
    match report {
        Ok(report) => Ok((is_report(&report, &FIVE_REPORT), entered == left)),
        Err(_) => Err(Lack::Memory),
    }
}

#[test]
fn replay_with_succeeds_after_a_refused_growth(rt: HostRuntime) {
    assert_eq!(rt; replayed_again(&rt, rt.alloc()), Ok((true, true)));
}

/// The first of these numbers of workers that there may be, looked for between two fences.
fn first_taken<R: Threads + Sync>(
    rt: &R,
    alloc: Global,
    numbers: &[usize],
) -> Result<Option<usize>, Lack> {
    let (items, tables) = (items_of(alloc, FIVE)?, profile(alloc)?);
    let (opening, mut taken) = (Opening::Removed, None);
    let _begun = fence(alloc);
    for workers in numbers {
        let end = replay_with(rt, alloc, &tables, &items, opening, *workers, &OpenGate);
        if end.err() != Some(WithFault::BadWorkers) {
            taken = Some(*workers);
        }
    }
    let _ended = fence(alloc);
    Ok(taken)
}

/// A bad number of workers is told of without memory.
#[test]
fn numbers_are_looked_at_with_every_growth_refused(rt: HostRuntime) {
    assert_eq!(rt;
        first_taken(&rt, rt.alloc(), &[0, 65, usize::MAX]),
        Ok(None)
    );
}
