//! The lines of a file, read from any reader: in pieces, without a device and its lock, also while a journal is written.
ghost use Rattle.std.specs.Prelude.{◌≡◌, ◌⊎◌, ◌+◌, ◌^◌, ◌<◌, ◌≤◌, true, false, length, take, drop};
ghost use Rattle.std.specs.Prelude.{OnOk, OnErr, IfOk, IfErr, IfSome, IfNone, MatchBool};
ghost use Rattle.std.specs.Io.KnownBytes.{Consumes, IsAtEnd, Keeps};
ghost use Rattle.mds_journal.specs.Opening.{IsFound, IfMore};
ghost use Rattle.mds_journal.specs.Stream.{IsStream, IsStreamFault, HandsOut, OpensGate, StandsForNothing, lines_of_stream};
ghost use Rattle.mds_journal.specs.Stream.{unread_of, held_by, most_of, lines_given};

use crate::group::OPEN_GATE;
use crate::opening::{CHUNK_BYTES, Found, find_line, join};
use std::alloc::Global;
use std::io::{ErrorKind, Read};

/// How many lines a stream hands out at most, 2^62.
const MAX_LINES: usize = 1 << 62;

/// How often a read that is interrupted is made again.
const MAX_TRIES: u32 = 1_000;

/// Why the lines of a stream can't be read on.
#[derive(Clone, Copy, Debug, PartialEq, Eq)]
pub enum StreamError {
    /// There was no memory.
    Memory,
    /// A read failed.
    Read,
    /// The line of this number has more bytes than was allowed. The first one is 0.
    TooLong(usize),
    /// There are more than 2^62 lines.
    Full,
}

/// The lines that count in the bytes of a reader. It holds a line and a piece of the next ones at a time.
#[derive(Drop)]
pub struct LineStream<R: Read> {
    reader: R,
    alloc: Global,
    longest: usize,
    count: usize,
    bytes: Vec<u8>,
    next: usize,
}

impl<R: Read> LineStream<R> {
    /// The lines of what a reader gives, with texts of at most `longest` bytes.
    pub fn new(alloc: Global, reader: R, longest: usize) -> LineStream<R>
        requires { longest < 2 ^ 62 }
        ensures stream { IsStream result }
        ensures all { Keeps (R.remaining reader) (unread_of R.remaining result) }
        ensures limit { most_of result ≡ longest }
        ensures number { lines_given result ≡ 0 }
    {
        LineStream {
            reader,
            alloc,
            longest,
            count: 0,
            bytes: Vec::new(alloc),
            next: 0,
        }
    }

    /// Puts the text of the next line into `line`, without its gate and its line feed, or says `false` where no more lines
    /// count: at a gate that isn't open, and where the reader ends, also within a line.
    ///
    /// # Errors
    ///
    /// `TooLong` with the number of the line where its text has more bytes than `longest`, `Read` where a read failed,
    /// `Full`, `Memory`. The next call tries the same line again. `line` may then hold anything.
    pub fn next_line(&mut self, line: &mut Vec<u8>) -> Result<bool, StreamError>
        requires { IsStream self.old }
        ensures stream { IsStream self.new }
        ensures line { IfOk result (λ more. more ≡ true
            → HandsOut (unread_of R.remaining self.old)
            line.new.items (unread_of R.remaining self.new)) }
        ensures done { IfOk result (λ more. more ≡ false
            → StandsForNothing (unread_of R.remaining self.old)
            × Keeps (unread_of R.remaining self.old) (unread_of R.remaining self.new)) }
        ensures within { IfOk result (λ more. more ≡ true
            → length line.new.items ≤ most_of self.old) }
        ensures err { OnErr result
            (Keeps (unread_of R.remaining self.old) (unread_of R.remaining self.new)) }
        ensures cause { IfErr result (IsStreamFault (lines_given self.old)
            (most_of self.old) (unread_of R.remaining self.old)) }
        ensures limit { most_of self.new ≡ most_of self.old }
        ensures number { lines_given self.new ≡ lines_given self.old + lines_of_stream result }
    {
        match self.find() {
            Ok(Found::Line(size)) => self.take_line(size, line),
            Ok(Found::Shut) => Ok(false),
            Ok(Found::More) => Ok(false),
            Err(error) => Err(error),
        }
    }

    /// The number of the line that comes next. The first one is 0.
    pub fn number(&self) -> usize
        ensures { result ≡ lines_given self.now }
    {
        self.count
    }

    /// Takes the gate of the next line for open, whatever it is. So what stands behind a closed gate is handed out as lines,
    /// though it doesn't count.
    ///
    /// # Errors
    ///
    /// Those of [`LineStream::next_line`].
    pub fn open_gate(&mut self) -> Result<(), StreamError>
        requires { IsStream self.old }
        ensures stream { IsStream self.new }
        ensures open { OnOk result
            (OpensGate (unread_of R.remaining self.old) (unread_of R.remaining self.new)) }
        ensures err { OnErr result
            (Keeps (unread_of R.remaining self.old) (unread_of R.remaining self.new)) }
        ensures cause { IfErr result (IsStreamFault (lines_given self.old)
            (most_of self.old) (unread_of R.remaining self.old)) }
        ensures limit { most_of self.new ≡ most_of self.old }
        ensures number { lines_given self.new ≡ lines_given self.old }
    {
        self.find()?;
        if self.next < self.bytes.len() {
            self.bytes[self.next] = OPEN_GATE;
        }
        Ok(())
    }

    /// Reads on until it can say what line comes next.
    fn find(&mut self) -> Result<Found, StreamError>
        requires { IsStream self.old }
        ensures stream { IsStream self.new }
        ensures found { IfOk result (λ found. IsFound (held_by self.new) found) }
        ensures whole { IfOk result
            (λ found. IfMore found (IsAtEnd (R.remaining self.new.reader))) }
        ensures kept { Keeps (unread_of R.remaining self.old) (unread_of R.remaining self.new) }
        ensures limit { self.new.longest ≡ self.old.longest }
        ensures number { self.new.count ≡ self.old.count }
        ensures cause { IfErr result (IsStreamFault (lines_given self.old)
            (most_of self.old) (unread_of R.remaining self.old)) }
    {
        'reads: loop {
            match find_line(&self.bytes[self.next..]) {
                Found::Line(size) => return Ok(Found::Line(size)),
                Found::Shut => return Ok(Found::Shut),
                Found::More => {}
            }
            if self.bytes.len() - self.next > self.longest + 1 {
                return Err(StreamError::TooLong(self.count));
            }
            match self.read_on() {
                Ok(true) => {}
                Ok(false) => return Ok(Found::More),
                Err(error) => return Err(error),
            }
        }
    }

    /// Reads what comes behind the bytes at hand, and says whether there was any.
    ///
    /// The memory is there before the reader gives anything, so that nothing is lost.
    fn read_on(&mut self) -> Result<bool, StreamError>
        requires stream { IsStream self.old }
        requires few { length (held_by self.old) ≤ self.old.longest + 1 }
        ensures stream { IsStream self.new }
        ensures more { IfOk result (λ more. MatchBool more
            (length (held_by self.old) < length (held_by self.new))
            (held_by self.new ≡ held_by self.old)) }
        ensures end { IfOk result (λ more. more ≡ false → IsAtEnd (R.remaining self.new.reader)) }
        ensures kept { Keeps (unread_of R.remaining self.old) (unread_of R.remaining self.new) }
        ensures limit { self.new.longest ≡ self.old.longest }
        ensures number { self.new.count ≡ self.old.count }
        ensures only { IfErr result
            (λ error. (error ≡ StreamError.Memory) ⊎ (error ≡ StreamError.Read)) }
    {
        let start = self.bytes.len() - self.next;
        let room = [0u8; CHUNK_BYTES];
        let mut bytes = match join(self.alloc, &self.bytes[self.next..], &room) {
            Ok(bytes) => bytes,
            Err(_) => return Err(StreamError::Memory),
        };
        match read_behind(&mut self.reader, bytes.as_mut_slice(), start) {
            Some(0) => Ok(false),
            Some(count) => {
                bytes.truncate(start + count);
                self.bytes = bytes;
                self.next = 0;
                Ok(true)
            }
            None => Err(StreamError::Read),
        }
    }

    fn take_line(&mut self, size: usize, line: &mut Vec<u8>) -> Result<bool, StreamError>
        requires stream { IsStream self.old }
        requires found { IsFound (held_by self.old) (Found.Line size) }
        requires room { self.old.next + size + 2 ≤ length self.old.bytes.items }
        ensures stream { IsStream self.new }
        ensures ok { IfOk result (λ more. more ≡ true) }
        ensures line { OnOk result (HandsOut (unread_of R.remaining self.old)
            line.new.items (unread_of R.remaining self.new)) }
        ensures within { OnOk result (length line.new.items ≤ self.old.longest) }
        ensures limit { self.new.longest ≡ self.old.longest }
        ensures number { self.new.count ≡ self.old.count + lines_of_stream result }
        ensures err { OnErr result (self.new ≡ self.old) }
        ensures cause { IfErr result (IsStreamFault (lines_given self.old)
            (most_of self.old) (unread_of R.remaining self.old)) }
    {
        if size > self.longest {
            return Err(StreamError::TooLong(self.count));
        }
        if self.count >= MAX_LINES {
            return Err(StreamError::Full);
        }
        let text = self.next + 1;
        line.clear();
        if line
            .extend_from_slice(&self.bytes[text..text + size])
            .is_err()
        {
            return Err(StreamError::Memory);
        }
        self.next += size + 2;
        self.count += 1;
        Ok(true)
    }
}

fn read_behind<R: Read>(reader: &mut R, bytes: &mut [u8], start: usize) -> Option<usize>
    requires { start < length bytes.old }
    ensures front { take start bytes.new ≡ take start bytes.old }
    ensures within { IfSome result (λ count. start + count ≤ length bytes.new) }
    ensures given { IfSome result (λ count. Consumes (R.remaining reader.old)
        (R.remaining reader.new) (take count (drop start bytes.new))) }
    ensures end { IfSome result (λ count. count ≡ 0 → IsAtEnd (R.remaining reader.new)) }
    ensures none { IfNone result (Keeps (R.remaining reader.old) (R.remaining reader.new)) }
{
    read_some(reader, &mut bytes[start..])
}

/// How many bytes a reader puts into the room, none only at its end, or `None` where the read failed. One that is
/// interrupted is made again.
fn read_some<R: Read>(reader: &mut R, room: &mut [u8]) -> Option<usize>
    requires { 0 < length room.old }
    ensures within { IfSome result (λ count. count ≤ length room.new) }
    ensures given { IfSome result (λ count.
        Consumes (R.remaining reader.old) (R.remaining reader.new) (take count room.new)) }
    ensures end { IfSome result (λ count. count ≡ 0 → IsAtEnd (R.remaining reader.new)) }
    ensures none { IfNone result (Keeps (R.remaining reader.old) (R.remaining reader.new)) }
{
    for _ in 0..MAX_TRIES {
        match reader.read(room) {
            Ok(count) => return Some(count),
            Err(error) => if error.kind() != ErrorKind::Interrupted {
                return None;
            },
        }
    }
    None
}
