//! Devices that pause, stop and fail, and a writer of which a text is expected.
ghost use Rattle.std.specs.Prelude.{◌≡◌, ◌≤◌, IfOk};

use std::io::{self, Error, ErrorKind, Read, Write};

/// How a device goes on behind the bytes that it gives or takes: it's at its end, or fails so each time.
pub type Last = Option<ErrorKind>;

pub const ENDS: Last = None;

pub const FAILS: Last = Some(ErrorKind::BrokenPipe);

/// It's interrupted, again and again.
pub const PAUSES: Last = Some(ErrorKind::Interrupted);

/// What it answers then.
pub fn ending(last: Last) -> io::Result<usize>
    ensures { IfOk result (λ count. count ≡ 0) }
{
    match last {
        Some(kind) => Err(Error::from(kind)),
        None => Ok(0),
    }
}

/// How many bytes a device gives or takes in all, and in a call; whether it's interrupted before each; and how it goes on.
pub type Plan = (usize, usize, bool, Last);

/// A device that gives and takes bytes, and counts the calls.
#[derive(Drop)]
pub struct Stream {
    pub left: usize,
    most: usize,
    has_pauses: bool,
    last: Last,
    pub calls: u32,
}

impl Stream {
    pub fn new(plan: Plan) -> Stream {
        let (left, most, has_pauses, last) = plan;
        Stream {
            left,
            most,
            has_pauses,
            last,
            calls: 0,
        }
    }

    /// How many of so many bytes go over.
    fn turn(&mut self, asked: usize) -> io::Result<usize>
        ensures { IfOk result (λ count. count ≤ asked) }
    {
        self.calls = self.calls.saturating_add(1);
        if self.has_pauses && self.calls % 2 == 1 {
            return ending(PAUSES);
        }
        if self.left == 0 {
            return ending(self.last);
        }
        let count = asked.min(self.most).min(self.left);
        self.left -= count;
        Ok(count)
    }
}

impl Read for Stream {
    fn read(&mut self, buf: &mut [u8]) -> io::Result<usize> {
        self.turn(buf.len())
    }
}

impl Write for Stream {
    fn write(&mut self, buf: &[u8]) -> io::Result<usize> {
        self.turn(buf.len())
    }

    fn flush(&mut self) -> io::Result<()> {
        Ok(())
    }
}

/// A reader that gives its bytes, at most so many a call, and goes on so behind them; it counts the calls.
#[derive(Drop)]
pub struct Pieces<'a> {
    pub bytes: &'a [u8],
    pub piece: usize,
    pub last: Last,
    pub reads: u32,
}

/// A reader of which nothing was read.
pub fn pieces_of(bytes: &[u8], piece: usize, last: Last) -> Pieces<'_> {
    Pieces {
        bytes,
        piece,
        last,
        reads: 0,
    }
}

impl Read for Pieces<'_> {
    fn read(&mut self, buf: &mut [u8]) -> io::Result<usize> {
        self.reads = self.reads.saturating_add(1);
        let count = buf.len().min(self.piece).min(self.bytes.len());
        if count == 0 {
            return ending(self.last);
        }
        let (first, rest) = self.bytes.split_at(count);
        buf[..count].copy_from_slice(first);
        self.bytes = rest;
        Ok(count)
    }
}

/// A writer that takes this text alone, and no memory; behind it, and at any other byte, it fails.
#[derive(Drop)]
pub struct Expects<'a> {
    pub rest: &'a [u8],
}

impl Write for Expects<'_> {
    fn write(&mut self, buf: &[u8]) -> io::Result<usize> {
        let count = buf.len().min(self.rest.len());
        let (wanted, rest) = self.rest.split_at(count);
        if count == 0 || &buf[..count] != wanted {
            return ending(FAILS);
        }
        self.rest = rest;
        Ok(count)
    }

    fn flush(&mut self) -> io::Result<()> {
        Ok(())
    }
}
