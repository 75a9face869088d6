//! What tells how far it is, where reading takes long.
use mds_io::{MAX_CALLS, write_all_of};
use std::alloc::Global;
use std::fmt::Write as _;
use std::io::{self, Read, Write};
use std::time::{Clock, Duration, Instant};

/// How many seconds a file is read until something is told, and from then on how many until the next time.
const PERIOD_SECONDS: u64 = 5;

/// What is told, and where.
#[derive(Drop)]
pub struct Teller<C: Clock + Drop, W: Write + Drop> {
    /// What tells the time.
    pub clock: C,
    /// To what it is told.
    pub faults: W,
    /// Whether that is a terminal, on which each line takes the place of the one before.
    pub is_terminal: bool,
}

impl<C: Clock + Drop, W: Write + Drop> Teller<C, W> {
    /// Tells these bytes. Where they don't go out, nothing is told of that.
    fn tell(&mut self, bytes: &[u8]) {
        let mut calls = MAX_CALLS;
        let _ = write_all_of(&mut self.faults, bytes, &mut calls);
    }
}

/// How far a file is read, which is told each 5 seconds.
pub struct Progress<C: Clock + Drop, W: Write + Drop> {
    alloc: Global,
    teller: Teller<C, W>,
    /// When it was told last, or else when reading began.
    told: Option<Instant>,
    /// Whether a line stands on the terminal that the next one would take the place of.
    is_line_open: bool,
}

impl<C: Clock + Drop, W: Write + Drop> Progress<C, W> {
    /// Reading begins.
    pub fn new(alloc: Global, teller: Teller<C, W>) -> Progress<C, W> {
        let told = Instant::now(&teller.clock).ok();
        Progress {
            alloc,
            teller,
            told,
            is_line_open: false,
        }
    }

    /// Tells that so many bytes were read of so many, where the time for that has come.
    pub fn tell_if_due(&mut self, read: u64, size: u64) {
        let Some(told) = self.told else {
            return;
        };
        match told.elapsed(&self.teller.clock) {
            Ok(passed) => if passed >= Duration::from_secs(PERIOD_SECONDS) {
                self.tell(read, size);
                self.told = Instant::now(&self.teller.clock).ok();
            },
            Err(_) => {}
        }
    }

    /// Where there is no memory for the line, nothing is told of that.
    fn tell(&mut self, read: u64, size: u64) {
        let (begin, end) = if self.teller.is_terminal {
            ("\r", "")
        } else {
            ("", "\n")
        };
        let mut line = String::new(self.alloc);
        if write!(line, "{begin}mds_city: read {read} of {size} bytes{end}").is_err() {
            return;
        }
        self.teller.tell(line.as_bytes());
        self.is_line_open = self.teller.is_terminal;
    }

    /// Reading is over: a line that stands on the terminal is ended, so that what is told next has a line of its own.
    pub fn end(&mut self) {
        if self.is_line_open {
            self.teller.tell(b"\n");
            self.is_line_open = false;
        }
    }

    /// Tells a line of something else.
    pub fn tell_line(&mut self, line: &[u8]) {
        self.end();
        self.teller.tell(line);
    }

    /// What tells the time.
    pub fn clock(&self) -> &C {
        &self.teller.clock
    }
}

impl<C: Clock + Drop, W: Write + Drop> Drop for Progress<C, W> {
    fn drop(mut self) {
        self.end();
        let Progress {
            alloc: _,
            teller: _,
            told: _,
            is_line_open: _,
        } = self;
    }
}

/// A reader that tells how many of its bytes were read. One whose size isn't known tells nothing.
#[derive(Drop)]
pub struct ToldReader<R: Read + Drop, C: Clock + Drop, W: Write + Drop> {
    reader: R,
    /// How many bytes it has, or `None` where that isn't known.
    size: Option<u64>,
    read: u64,
    progress: Progress<C, W>,
}

impl<R: Read + Drop, C: Clock + Drop, W: Write + Drop> ToldReader<R, C, W> {
    /// A reader of so many bytes, of which none was read.
    pub fn new(
        alloc: Global,
        reader: R,
        size: Option<u64>,
        teller: Teller<C, W>,
    ) -> ToldReader<R, C, W> {
        ToldReader {
            reader,
            size,
            read: 0,
            progress: Progress::new(alloc, teller),
        }
    }
}

impl<R: Read + Drop, C: Clock + Drop, W: Write + Drop> Read for ToldReader<R, C, W> {
    fn read(&mut self, buf: &mut [u8]) -> io::Result<usize> {
        let count = self.reader.read(buf)?;
        self.read = self.read.saturating_add(count as u64);
        if let Some(size) = self.size {
            self.progress.tell_if_due(self.read, size);
        }
        Ok(count)
    }
}
