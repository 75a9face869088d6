//! The file of a server's journal, of which figures are kept, and how far it is read is told.
ghost use Rattle.std.specs.Prelude.{◌≡◌};

use crate::progress::{Progress, Teller};
use mds_journal::{Device, DeviceError};
use mds_metrics::{Board, Gauge};
use std::alloc::Global;
use std::io::Write;
use std::sync::Arc;
use std::time::{Clock, Duration};

/// What opens the gate before a group of lines.
const OPEN_GATE: &[u8] = b" ";

/// Eight line feeds; of each of eight bytes all bits but the highest; and that one.
const LINE_FEEDS: u64 = 0x0A0A_0A0A_0A0A_0A0A;

const LOW_BITS: u64 = 0x7F7F_7F7F_7F7F_7F7F;

const HIGH_BITS: u64 = 0x8080_8080_8080_8080;

/// A file, and the board on which its figures stand. What is answered is what the file answers.
///
/// A group of lines is written behind a closed gate, and synced; then the gate is opened, and that synced too. So a group is kept
/// once an open gate was synced.
#[derive(Drop)]
pub struct WatchedFile<D: Device, C: Clock + Drop, W: Write + Drop> {
    file: D,
    board: Arc<Board>,
    /// How far it is read at the start; and where it is told that the journal isn't kept, and that it is again.
    progress: Progress<C, W>,
    /// How many bytes it had when that was asked last.
    size: u64,
    reading: Reading,
    /// The lines, and the end, of the group that was written last.
    group: Group,
    /// Whether a gate was written last.
    is_gate: bool,
}

/// What was written behind a gate.
#[derive(Clone, Copy)]
struct Group {
    lines: u64,
    end: u64,
}

/// What was read of a file. Its bytes are read one after the other, from the first one on. Then those behind the lines that count are
/// read once more, to the end.
#[derive(Clone, Copy)]
struct Reading {
    /// Up to where it was read.
    end: u64,
    /// The line feeds up to there, without those that were read once more: of a file that was read to its end, the lines that count.
    lines: u64,
    /// Whether bytes were read once more.
    is_again: bool,
}

impl Reading {
    fn nothing() -> Reading {
        Reading {
            end: 0,
            lines: 0,
            is_again: false,
        }
    }

    /// Takes what was read there, and says whether that goes on further. At the first byte another reading begins.
    fn take(&mut self, at: usize, bytes: &[u8]) -> bool {
        let at = at as u64;
        if at == 0 {
            *self = Reading::nothing();
        }
        let before = self.end;
        if at < before {
            self.is_again = true;
            let again = before.saturating_sub(at) as usize;
            let known = bytes.get(..again).unwrap_or(bytes);
            self.lines = self.lines.saturating_sub(line_feeds(known));
        } else if !self.is_again {
            self.lines = self.lines.saturating_add(line_feeds(bytes));
        }
        self.end = before.max(at.saturating_add(bytes.len() as u64));
        self.end > before
    }
}

impl<D: Device, C: Clock + Drop, W: Write + Drop> WatchedFile<D, C, W> {
    /// This file, on this board.
    pub fn new(
        alloc: Global,
        file: D,
        board: Arc<Board>,
        teller: Teller<C, W>,
    ) -> WatchedFile<D, C, W>
        ensures { result.file ≡ file }
    {
        WatchedFile {
            file,
            board,
            progress: Progress::new(alloc, teller),
            size: 0,
            reading: Reading::nothing(),
            group: Group { lines: 0, end: 0 },
            is_gate: false,
        }
    }

    /// Notes so many bytes at the front of a buffer, which were read there. Where that was further than before, it is told, if it is due.
    fn note_read(&mut self, at: usize, buffer: &[u8], count: usize)
        ensures { self.new.file ≡ self.old.file }
    {
        let bytes = buffer.get(..count).unwrap_or(buffer);
        if self.reading.take(at, bytes) {
            self.board.set(Gauge::ReadBytes, self.reading.end);
            self.progress.tell_if_due(self.reading.end, self.size);
        }
    }

    /// Notes what was written there.
    fn note_written(&mut self, at: usize, bytes: &[u8])
        ensures { self.new.file ≡ self.old.file }
    {
        self.is_gate = bytes == OPEN_GATE;
        if !self.is_gate {
            self.group = Group {
                lines: line_feeds(bytes),
                end: (at as u64).saturating_add(bytes.len() as u64),
            };
        }
    }

    /// Notes that what was to be written wasn't. Room that isn't written ahead, which is line feeds alone, is no fault. Of a fault
    /// before the port listens, the start tells; and of a gate that can't be opened, the end.
    fn note_unwritten(&mut self, bytes: &[u8])
        ensures { self.new.file ≡ self.old.file }
    {
        let is_room = line_feeds(bytes) == bytes.len() as u64;
        if is_room || bytes == OPEN_GATE || self.board.get(Gauge::Listens) == 0 {
            return;
        }
        self.board.add(Gauge::FailedGroups, 1);
        if self.board.swap(Gauge::NotKept, 1) == 0 {
            self.progress.tell_line(b"mds_city: journal not kept\n");
        }
    }

    /// Notes a sync that took so long. Behind a gate, a group is kept.
    fn note_synced(&mut self, took: Option<Duration>)
        ensures { self.new.file ≡ self.old.file }
    {
        if let Some(took) = took {
            let micros = u64::try_from(took.as_micros()).unwrap_or(u64::MAX);
            self.board.add(bucket_of(micros), 1);
            self.board.add(Gauge::SyncMicros, micros);
        }
        if !self.is_gate {
            return;
        }
        self.is_gate = false;
        self.board.add(Gauge::Groups, 1);
        self.board.add(Gauge::JournalLines, self.group.lines);
        self.board.set(Gauge::JournalBytes, self.group.end);
        if self.board.swap(Gauge::NotKept, 0) == 1 {
            self.progress.tell_line(b"mds_city: journal kept again\n");
        }
    }
}

impl<D: Device, C: Clock + Drop, W: Write + Drop> Device for WatchedFile<D, C, W> {
    ghost seen = { λ f. D.seen f.file };

    ghost may_leave = { λ f. D.may_leave f.file };

    ghost moment = { λ f. D.moment f.file };

    ghost left_since = { λ f. D.left_since f.file };

    ghost faults = { λ f. D.faults f.file };

    ghost may_be_used = { λ f. D.may_be_used f.file };

    ghost is_true = { λ f. D.is_true f.file };

    ghost counts_now = { λ f t c le now. D.counts_now f.file t c le now };

    ghost only_now = { λ f c was. D.only_now f.file c was };

    fn size(&mut self) -> Result<usize, DeviceError> {
        let size = self.file.size();
        if let Ok(size) = size {
            self.size = size as u64;
            self.board.set(Gauge::AllBytes, size as u64);
            self.board.set(Gauge::JournalBytes, size as u64);
        }
        size
    }

    fn read_at(&mut self, at: usize, buffer: &mut [u8]) -> Result<usize, DeviceError> {
        let read = self.file.read_at(at, buffer);
        if let Ok(count) = read {
            self.note_read(at, buffer, count);
        }
        read
    }

    fn write_at(&mut self, at: usize, bytes: &[u8]) -> Result<(), DeviceError> {
        let written = self.file.write_at(at, bytes);
        match written {
            Ok(()) => self.note_written(at, bytes),
            Err(_) => self.note_unwritten(bytes),
        }
        written
    }

    /// It comes first once all was read.
    fn cut(&mut self, size: usize) -> Result<(), DeviceError> {
        self.progress.end();
        let cut = self.file.cut(size);
        if cut.is_ok() {
            self.board.set(Gauge::JournalBytes, size as u64);
            self.board.set(Gauge::JournalLines, self.reading.lines);
        }
        cut
    }

    fn sync(&mut self) -> Result<(), DeviceError> {
        let begun = self.progress.clock().monotonic().ok();
        let synced = self.file.sync();
        if synced.is_ok() {
            let took = time_between(begun, self.progress.clock().monotonic().ok());
            self.note_synced(took);
        }
        synced
    }
}

fn time_between(begun: Option<Duration>, ended: Option<Duration>) -> Option<Duration> {
    Some(ended?.saturating_sub(begun?))
}

/// How many line feeds there are. Eight bytes are looked at at a time: a start counts those of the whole journal, and each group has some.
fn line_feeds(bytes: &[u8]) -> u64 {
    let (eights, rest) = bytes.as_chunks::<8>();
    let mut count = rest.iter().filter(|byte| **byte == b'\n').count() as u64;
    for eight in eights {
        count = count.saturating_add(line_feeds_of(*eight));
    }
    count
}

/// How many of eight bytes are line feeds.
fn line_feeds_of(eight: [u8; 8]) -> u64 {
    let word = u64::from_le_bytes(eight) ^ LINE_FEEDS;
    // A byte that isn't 0 has its highest bit then: its own, or a carry of its others, which goes no further.
    let others = (word & LOW_BITS).wrapping_add(LOW_BITS) | word;
    u64::from((!others & HIGH_BITS).count_ones())
}

/// The syncs among which one counts that took so many microseconds.
fn bucket_of(micros: u64) -> Gauge {
    match micros {
        0..=500 => Gauge::SyncsTo500Micros,
        501..=1_000 => Gauge::SyncsTo1Milli,
        1_001..=2_000 => Gauge::SyncsTo2Millis,
        2_001..=5_000 => Gauge::SyncsTo5Millis,
        5_001..=10_000 => Gauge::SyncsTo10Millis,
        10_001..=20_000 => Gauge::SyncsTo20Millis,
        20_001..=50_000 => Gauge::SyncsTo50Millis,
        50_001..=100_000 => Gauge::SyncsTo100Millis,
        100_001..=200_000 => Gauge::SyncsTo200Millis,
        200_001..=500_000 => Gauge::SyncsTo500Millis,
        500_001..=1_000_000 => Gauge::SyncsTo1Second,
        _ => Gauge::LongerSyncs,
    }
}
