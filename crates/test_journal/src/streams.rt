//! The lines of readers that give pieces, are interrupted or fail.
use mds_journal::{LineStream, StreamError};
use std::alloc::Global;
use std::io;
use std::io::{ErrorKind, Read};

/// A reader that gives at most so many bytes a call, and fails once where so many are left. It is interrupted before each call
/// that does either.
#[derive(Drop)]
struct Pieces<'a> {
    bytes: &'a [u8],
    most: usize,
    fails_with: Option<usize>,
    is_interrupted: bool,
}

impl Read for Pieces<'_> {
    fn read(&mut self, buf: &mut [u8]) -> io::Result<usize> {
        self.is_interrupted = !self.is_interrupted;
        if self.is_interrupted {
            return Err(io::Error::from(ErrorKind::Interrupted));
        }
        let before = self
            .bytes
            .len()
            .saturating_sub(self.fails_with.unwrap_or(0));
        if before == 0 && self.fails_with.is_some() {
            self.fails_with = None;
            return Err(io::Error::from(ErrorKind::Other));
        }
        let count = self.most.min(before).min(buf.len());
        let (given, left) = self.bytes.split_at(count);
        buf[..count].copy_from_slice(given);
        self.bytes = left;
        Ok(count)
    }
}

/// The lines of a reader with texts of at most 8 bytes, each behind a bar, up to their end or the second error. Where there is
/// no memory for a line, it is asked for again.
fn tell(alloc: Global, reader: Pieces<'_>) -> Option<String> {
    let mut stream = LineStream::new(alloc, reader, 8);
    let mut line = Vec::new(alloc);
    let mut text = String::new(alloc);
    let mut errors = 0u8;
    for _ in 0..20 {
        match stream.next_line(&mut line) {
            Ok(true) => {
                text.push('|').ok()?;
                text.push_str(str::from_utf8(&line).ok()?).ok()?;
            }
            Ok(false) => return Some(text),
            Err(StreamError::Memory) => {}
            Err(error) => {
                text.push_str(&format!(in alloc; "!{error:?}").ok()?).ok()?;
                errors = errors.saturating_add(1);
            }
        }
        if errors == 2 {
            return Some(text);
        }
    }
    None
}

/// The bytes of a reader, how many of them are left when a read fails, and what is told of its lines.
type Case = (&'static [u8], Option<usize>, &'static str);

const CASES: &[Case] = &[
    (b"", None, ""),
    (b"#", None, ""),
    (b" one\n two\n#", None, "|one|two"),
    (b" one\n#two\n three\n#", None, "|one"),
    (b" one\n tw", None, "|one"),
    (b" one\n\n two\n", None, "|one"),
    (b" \n 12345678\n#", None, "||12345678"),
    (
        b" one\n 123456789\n two\n#",
        None,
        "|one!TooLong(1)!TooLong(1)",
    ),
    (b" 1234567890", None, "!TooLong(0)!TooLong(0)"),
    (b" one\n two\n#", Some(4), "|one!Read|two"),
    (b" one\n tw", Some(0), "|one!Read"),
];

/// How many bytes a reader gives at a call.
const SIZES: &[usize] = &[1, 2, 5, 100];

/// Whether all sizes of the pieces come to what is wanted, at once or at a second try.
fn is_so(alloc: Global, case: &Case) -> bool {
    let (bytes, fails_with, wanted) = case;
    SIZES.iter().all(|most| {
        let reader = || Pieces {
            bytes,
            most: *most,
            fails_with: *fails_with,
            is_interrupted: false,
        };
        let found = tell(alloc, reader()).or_else(|| tell(alloc, reader()));
        found.is_some_and(|found| found.as_str() == *wanted)
    })
}

/// The place of the first case that comes to something else.
fn first_other(alloc: Global, cases: &[Case]) -> Option<usize> {
    for (at, case) in cases.iter().enumerate() {
        if !is_so(alloc, case) {
            return Some(at);
        }
    }
    None
}

#[test]
fn a_reader_is_read_after_a_refused_growth(rt: HostRuntime) {
    assert_eq!(rt; first_other(rt.alloc(), CASES), None);
}

/// Whether a line behind a closed gate comes, whether it does once that is taken for open, and its text.
fn behind_a_gate(alloc: Global) -> Option<(bool, bool, Vec<u8>)> {
    let mut stream = LineStream::new(alloc, b" one\n#two\n".as_slice(), 8);
    let mut line = Vec::new(alloc);
    stream.next_line(&mut line).ok()?;
    let is_there = stream.next_line(&mut line).ok()?;
    stream.open_gate().ok()?;
    let comes = stream.next_line(&mut line).ok()?;
    Some((is_there, comes, line))
}

#[test]
fn a_gate_is_opened_after_a_refused_growth(rt: HostRuntime) {
    let alloc = rt.alloc();
    let is_so = match behind_a_gate(alloc).or_else(|| behind_a_gate(alloc)) {
        Some((false, true, line)) => line.as_slice() == b"two".as_slice(),
        _ => false,
    };
    assert!(rt; is_so);
}
