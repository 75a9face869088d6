//! The figures of a server, as they are kept.
ghost use Rattle.std.specs.Prelude.{◌≡◌, ◌*◌, ◌-◌, ◌^◌, max, min};

use crate::figure::{Count, Gauge};
use crate::line::Source;
use std::alloc::{AllocError, Global};
use std::sync::atomic::{AtomicU64, Ordering};

/// The figures of a server.
#[derive(Drop)]
pub struct Board {
    /// The version of the program.
    version: &'static str,
    tallies: Vec<Tally>,
    gauges: Vec<AtomicU64>,
}

/// What one worker counts. Only that worker adds to it, so no other waits for it.
#[derive(Drop)]
pub struct Tally {
    counts: Vec<AtomicU64>,
    /// The time of the newest event that the worker saw accepted, in milliseconds since the Unix epoch.
    newest: AtomicU64,
}

impl Board {
    /// Figures of a program of this version, all of them 0, with a tally for each of so many workers.
    ///
    /// # Errors
    ///
    /// `AllocError` where there is no memory for them.
    pub fn new(alloc: Global, version: &'static str, workers: usize) -> Result<Board, AllocError> {
        let mut tallies = Vec::new(alloc);
        for _ in 0..workers {
            let tally = Tally {
                counts: zeros(alloc, Count::COUNT)?,
                newest: AtomicU64::new(0),
            };
            tallies.push(tally)?;
        }
        let gauges = zeros(alloc, Gauge::COUNT)?;
        Ok(Board {
            version,
            tallies,
            gauges,
        })
    }

    /// The version of the program.
    pub fn version(&self) -> &'static str {
        self.version
    }

    /// The tally of the worker of this number, if there is one.
    pub fn tally(&self, worker: usize) -> Option<&Tally> {
        self.tallies.get(worker)
    }

    /// What a figure is now.
    pub fn get(&self, gauge: Gauge) -> u64 {
        cell_at(&self.gauges, gauge as usize)
    }

    /// Sets a figure.
    pub fn set(&self, gauge: Gauge, value: u64) {
        if let Some(cell) = self.gauges.get(gauge as usize) {
            cell.store(value, Ordering::SeqCst);
        }
    }

    /// Sets a figure: what it was before.
    pub fn swap(&self, gauge: Gauge, value: u64) -> u64 {
        match self.gauges.get(gauge as usize) {
            Some(cell) => cell.swap(value, Ordering::SeqCst),
            None => 0,
        }
    }

    /// Adds to a figure.
    pub fn add(&self, gauge: Gauge, more: u64) {
        if let Some(cell) = self.gauges.get(gauge as usize) {
            cell.fetch_add(more, Ordering::SeqCst);
        }
    }

    /// What all workers counted of this.
    fn counted(&self, count: Count) -> u64 {
        let mut sum = 0u64;
        for tally in &self.tallies {
            sum = sum.saturating_add(cell_at(&tally.counts, count as usize));
        }
        sum
    }

    /// The time of the newest event that was accepted, in microseconds.
    fn newest(&self) -> u64 {
        let mut newest = 0;
        for tally in &self.tallies {
            newest = tally.newest.load(Ordering::SeqCst).max(newest);
        }
        newest_of(newest, self.get(Gauge::FirstNewest))
    }

    /// What is counted under the numbers from the first to the last one.
    fn counted_to(&self, first: Count, last: Count) -> u64 {
        let mut sum = 0u64;
        for tally in &self.tallies {
            for at in first as usize..=last as usize {
                sum = sum.saturating_add(cell_at(&tally.counts, at));
            }
        }
        sum
    }

    fn set_to(&self, first: Gauge, last: Gauge) -> u64 {
        let mut sum = 0u64;
        for at in first as usize..=last as usize {
            sum = sum.saturating_add(cell_at(&self.gauges, at));
        }
        sum
    }

    /// What comes from there now.
    pub(crate) fn read(&self, source: Source) -> u64 {
        match source {
            Source::One => 1,
            Source::Counted(count) => self.counted(count),
            Source::CountedTo(first, last) => self.counted_to(first, last),
            Source::Set(gauge) => self.get(gauge),
            Source::SetTo(first, last) => self.set_to(first, last),
            Source::Vehicles => self
                .get(Gauge::FirstVehicles)
                .saturating_add(self.counted(Count::AcceptedRegistrations)),
            Source::Requests => self
                .get(Gauge::FirstRequests)
                .saturating_add(self.counted(Count::AcceptedRegistrations))
                .saturating_add(self.counted(Count::AcceptedEvents)),
            Source::Newest => self.newest(),
        }
    }
}

/// The time of the newest event in microseconds, of the newest one that was accepted, in milliseconds, and of those before: it never
/// goes back.
fn newest_of(newest: u64, before: u64) -> u64
    ensures { result ≡ max (min (newest * 1000) (2 ^ 64 - 1)) before }
{
    newest.saturating_mul(1_000).max(before)
}

impl Tally {
    /// Counts so many.
    pub fn add(&self, count: Count, more: u64) {
        if let Some(cell) = self.counts.get(count as usize) {
            cell.fetch_add(more, Ordering::SeqCst);
        }
    }

    /// Counts so many of each, in the order of [`Count`].
    pub fn add_all(&self, more: &[u64]) {
        for (cell, more) in self.counts.iter().zip(more) {
            if *more > 0 {
                cell.fetch_add(*more, Ordering::SeqCst);
            }
        }
    }

    /// Notes the time of an event that was accepted, in milliseconds since the Unix epoch.
    pub fn note_event(&self, time: u64) {
        if self.newest.load(Ordering::SeqCst) < time {
            self.newest.store(time, Ordering::SeqCst);
        }
    }
}

fn zeros(alloc: Global, count: usize) -> Result<Vec<AtomicU64>, AllocError> {
    let mut cells = Vec::with_capacity(alloc, count)?;
    for _ in 0..count {
        cells.push(AtomicU64::new(0))?;
    }
    Ok(cells)
}

fn cell_at(cells: &[AtomicU64], at: usize) -> u64 {
    match cells.get(at) {
        Some(cell) => cell.load(Ordering::SeqCst),
        None => 0,
    }
}
