//! The lines of a reader, one after the other, however many there are.
use mds_io::{MAX_CALLS, ReadError, read_more};
use mds_table::MAX_BYTES;
use memchr::memchr;
use std::alloc::{AllocError, Global};
use std::io::Read;

/// How many bytes are read at a time at most.
const PIECE_BYTES: usize = 16_384;

/// How often is read for a line at most: each time gives a byte of it at least, until it has too many or ends.
const MAX_PIECES: usize = MAX_BYTES + 2;

/// Why the next line can't be had.
#[derive(Clone, Copy, Debug, PartialEq, Eq)]
pub enum LineError {
    /// There was no memory for it.
    Memory,
    /// A read failed, or the calls ran out.
    Read,
    /// It has more than [`MAX_BYTES`](mds_table::MAX_BYTES) bytes.
    TooLong,
}

impl From<AllocError> for LineError {
    fn from(_refused: AllocError) -> LineError {
        LineError::Memory
    }
}

/// The lines of a reader, each without its line feed. It holds a piece of them.
#[derive(Drop)]
pub struct UnlimitedLines<R: Read> {
    reader: R,
    /// What was read last.
    bytes: Vec<u8>,
    /// From here on it isn't handed out.
    next: usize,
}

impl<R: Read> UnlimitedLines<R> {
    pub fn new(alloc: Global, reader: R) -> UnlimitedLines<R> {
        UnlimitedLines {
            reader,
            bytes: Vec::new(alloc),
            next: 0,
        }
    }

    /// Puts the next line into `line`, or says `false` where there is none. What is behind the last line feed is a line where
    /// it has a byte.
    ///
    /// After an error `line` may hold anything, and some of the lines may be lost.
    pub fn next_line(&mut self, line: &mut Vec<u8>) -> Result<bool, LineError> {
        line.clear();
        for _ in 0..MAX_PIECES {
            if self.move_line(line)? {
                return Ok(true);
            }
            if line.len() > MAX_BYTES {
                return Err(LineError::TooLong);
            }
            if self.read_on()? {
                return Ok(!line.is_empty());
            }
        }
        Err(LineError::TooLong)
    }

    /// Moves what is at hand behind `line`, up to the first line feed, and says whether there is one. That is passed over.
    fn move_line(&mut self, line: &mut Vec<u8>) -> Result<bool, AllocError> {
        let from = self.next.min(self.bytes.len());
        let held = &self.bytes[from..];
        match memchr(b'\n', held) {
            Some(at) => {
                line.extend_from_slice(&held[..at])?;
                self.next = from + at + 1;
                Ok(true)
            }
            None => {
                line.extend_from_slice(held)?;
                self.next = self.bytes.len();
                Ok(false)
            }
        }
    }

    /// Reads a piece in the place of the one before it, of which nothing is left, and says whether the reader is at its end.
    fn read_on(&mut self) -> Result<bool, LineError> {
        self.bytes.clear();
        self.next = 0;
        let mut room = [0u8; PIECE_BYTES];
        let mut calls = MAX_CALLS;
        let read = read_more(
            &mut self.reader,
            &mut self.bytes,
            &mut room,
            PIECE_BYTES,
            &mut calls,
        );
        match read {
            Ok(is_end) => Ok(is_end),
            Err(ReadError::Memory) => Err(LineError::Memory),
            Err(ReadError::Device | ReadError::TooManyTurns) => Err(LineError::Read),
        }
    }
}
