//! The replay of a file's items by several workers at once.
ghost use Rattle.std.specs.Prelude.{◌≡◌, ◌<◌, ◌↔◌, Some, Err, vec_len, IfOk, IfErr, OnOk};
ghost use Rattle.mds_trace.specs.Replay.{IsReport};
ghost use Rattle.mds_trace.specs.ReplayLaws.{AreOutcomes};
ghost use Rattle.mds_trace.specs.Parts.{AreParts, IsPart};
ghost use Rattle.mds_trace.specs.WithFault.{with_fault_text, IsBadCount, IsWorkerCount};

use crate::collect::collect;
use crate::part::{Part, replay_part};
use crate::{Opening, Report};
use mds_batch::{EventItem, EventItems, TakesItems};
use mds_io::{Gate, pass};
use mds_table::Tables;
use std::alloc::{AllocError, Global};
use std::error::Error;
use std::thread::Threads;
use std::{fmt, thread};

/// How many workers there may be.
pub const MAX_WORKERS: usize = 64;

/// Why items weren't replayed by several workers.
#[derive(Clone, Copy, Debug, PartialEq, Eq)]
pub enum WithFault {
    /// There was no memory for the report, or for what is kept of the vehicles on the way.
    Memory,
    /// The number of workers isn't 1 to [`MAX_WORKERS`].
    BadWorkers,
}

impl Error for WithFault {}

impl fmt::Display for WithFault {
    ghost output = { λ fault. Some (with_fault_text fault) };

    fn fmt<W: fmt::Write>(&self, f: &mut fmt::Formatter<W>) -> fmt::Result {
        f.write_str(match self {
            WithFault::Memory => "out of memory",
            WithFault::BadWorkers => "bad_workers",
        })
    }
}

impl From<AllocError> for WithFault {
    ghost use Rattle.std.specs.Prelude.{◌≡◌};
    ghost use Rattle.mds_trace.specs.declared.workers.WithFault.TheVariants.{Memory};

    ghost from_gives = { λ _ fault. fault ≡ Memory };

    fn from(_refused: AllocError) -> WithFault {
        WithFault::Memory
    }
}

/// Replays the items as [`replay`](crate::replay) does, by several workers at once, each of which goes over the events of
/// its own vehicles: the worker of a vehicle is the device's identifier, as a number, modulo the number of workers. The
/// workers are threads, as far as threads can be made; the others work one after another. Each worker, numbered from 0,
/// enters the gate once before its part and leaves it once behind it, also where it has no events.
///
/// # Errors
///
/// [`WithFault::BadWorkers`] where the number of workers isn't 1 to [`MAX_WORKERS`], before any growth, and else
/// [`WithFault::Memory`] where there is no memory for the report, or for what is kept of the vehicles on the way.
pub fn replay_with<R: Threads + Sync, G: Gate + Sync>(
    rt: &R,
    alloc: Global,
    tables: &Tables,
    items: &[EventItem],
    opening: Opening,
    workers: usize,
    gate: &G,
) -> Result<Report, WithFault>
    ensures report { IfOk result (IsReport opening tables.now items.now) }
    // With `Removed` the verdicts are the outcomes of the machine, asked anything that reports the same events, each behind
    // a registration of its vehicle.
    ensures runs { IfOk result (λ report.
        opening ≡ Opening.Removed → AreOutcomes tables.now items.now report.lines.items) }
    ensures range { (result ≡ Err WithFault.BadWorkers) ↔ IsBadCount workers }
{
    check_count(workers)?;
    let items = close_together(alloc, items)?;
    Ok(report_by(rt, alloc, tables, &items, opening, workers, gate)?)
}

/// Replays items that are kept close together, as [`replay_with`] does.
///
/// # Errors
///
/// [`WithFault::BadWorkers`] where the number of workers isn't 1 to [`MAX_WORKERS`], before any growth, and else
/// [`WithFault::Memory`] where there is no memory for the report, or for what is kept of the vehicles on the way.
pub fn replay_items_with<R: Threads + Sync, G: Gate + Sync>(
    rt: &R,
    alloc: Global,
    tables: &Tables,
    items: &EventItems,
    opening: Opening,
    workers: usize,
    gate: &G,
) -> Result<Report, WithFault>
    ensures report { IfOk result (IsReport opening tables.now items.now) }
    // With `Removed` the verdicts are the outcomes of the machine, asked anything that reports the same events, each behind
    // a registration of its vehicle.
    ensures runs { IfOk result (λ report.
        opening ≡ Opening.Removed → AreOutcomes tables.now items.now report.lines.items) }
    ensures range { (result ≡ Err WithFault.BadWorkers) ↔ IsBadCount workers }
{
    check_count(workers)?;
    Ok(report_by(rt, alloc, tables, items, opening, workers, gate)?)
}

fn check_count(workers: usize) -> Result<(), WithFault>
    ensures ok { OnOk result (IsWorkerCount workers) }
    ensures fault { IfErr result (λ fault. (fault ≡ WithFault.BadWorkers) × IsBadCount workers) }
{
    if workers == 0 || workers > MAX_WORKERS {
        return Err(WithFault::BadWorkers);
    }
    Ok(())
}

fn close_together(alloc: Global, items: &[EventItem]) -> Result<EventItems, AllocError>
    ensures { IfOk result (λ kept. kept ≡ items.now) }
{
    let mut kept = EventItems::new(alloc);
    for item in items {
        kept.take(item)?;
    }
    Ok(kept)
}

fn report_by<R: Threads + Sync, G: Gate + Sync>(
    rt: &R,
    alloc: Global,
    tables: &Tables,
    items: &EventItems,
    opening: Opening,
    workers: usize,
    gate: &G,
) -> Result<Report, AllocError>
    requires { 0 < workers }
    ensures report { IfOk result (IsReport opening tables.now items.now) }
    ensures runs { IfOk result (λ report.
        opening ≡ Opening.Removed → AreOutcomes tables.now items.now report.lines.items) }
{
    let parts = replay_parts(rt, alloc, tables, items, opening, workers, gate)?;
    collect(alloc, items, opening, &parts)
}

fn replay_parts<R: Threads + Sync, G: Gate + Sync>(
    rt: &R,
    alloc: Global,
    tables: &Tables,
    items: &EventItems,
    opening: Opening,
    workers: usize,
    gate: &G,
) -> Result<Vec<Part>, AllocError>
    requires { 0 < workers }
    ensures count { IfOk result (λ parts. vec_len parts ≡ workers) }
    ensures parts { IfOk result (λ parts. AreParts opening tables.now items.now parts.items) }
{
    let job = |worker: usize| -> Result<Part, AllocError>
        requires { 0 < workers }
        ensures { IfOk result (IsPart opening tables.entry.now items.entry.now workers worker) }
    {
        pass(gate, worker, 0, || {
            replay_part(alloc, tables, items, opening, workers, worker)
        })
    };
    let results = thread::map_indices(rt, alloc, workers, &job)?;
    let mut parts = Vec::with_capacity(alloc, workers)?;
    for result in results {
        parts.push(result?)?;
    }
    Ok(parts)
}
