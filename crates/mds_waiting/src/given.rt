//! Bytes that came, for a reader.
ghost use Rattle.std.specs.Prelude.{◌≡◌, ◌↔◌, ◌⊎◌, ◌++◌, [], IsTrue, IfSome, length, min, take, Some, None};
ghost use Rattle.mds_http.specs.HeadStatus.{IsHead};
ghost use Rattle.mds_waiting.specs.Requests.{BeginsWith, IsRequestAlone};

use mds_http::Head;
use memchr::memchr;
use std::io::{self, Read};
use std::marker::Model;

/// Bytes that are given from the first one on, each once. A clause sees those that are left.
#[derive(Drop)]
pub struct Given {
    bytes: Vec<u8>,
    count: usize,
    /// The head with which they begin, where it is known.
    head: Option<Head>,
}

impl Model for Given {
    ghost use Rattle.std.specs.Prelude.{◌≤◌, ℕ, List, drop, vec_len};
    ghost use Rattle.mds_waiting.specs.Requests.{BeginsWith};

    ghost Value = { List ℕ };

    ghost view = { λ given. drop given.count given.bytes.items };

    ghost invariant = { λ given. (given.count ≤ vec_len given.bytes)
        × BeginsWith given.bytes.items given.head };
}

impl Given {
    /// These bytes, none of which is given yet, and the head with which they begin, where it is known.
    pub fn new(bytes: Vec<u8>, head: Option<Head>) -> Given
        requires { BeginsWith bytes.items head }
        ensures { result ≡ bytes.items }
    {
        Given {
            bytes,
            count: 0,
            head,
        }
    }

    /// The bytes that are left, and the head with which they begin, where it is known.
    pub fn bytes_with_head(&self) -> Option<(&[u8], Head)>
        ensures bytes { IfSome result (λ found. found.0.now ≡ self.now) }
        ensures head { IfSome result (λ found. IsHead found.0.now found.1) }
    {
        match self.head {
            Some(head) if self.count == 0 => Some((&self.bytes, head)),
            _ => None,
        }
    }

    /// Whether none is left behind the request.
    pub fn is_over(&self) -> bool
        ensures over { IsTrue result → (self.now ≡ []) ⊎ IsRequestAlone self.now }
        ensures none { self.now ≡ [] → IsTrue result }
    {
        match self.head {
            Some(head) if self.count == 0 => self.bytes.len() <= head.start + head.len,
            _ => self.count == self.bytes.len(),
        }
    }

    /// Whether the head announces a body, and the request has none: a GET may come with one (RFC 9110, section 9.3.1), which isn't
    /// waited for.
    pub fn announces_body(&self) -> bool {
        match self.head {
            Some(head) if head.len == 0 => match self.bytes.get(..head.start) {
                Some(lines) => announces_body(lines),
                None => false,
            },
            _ => false,
        }
    }

    /// The list of all bytes, given or not: its room can be used again.
    pub fn into_bytes(self) -> Vec<u8> {
        let Given { bytes, .. } = self;
        bytes
    }

    /// Gives the next bytes into the room, as many as there is room for: how many they are.
    pub fn give(&mut self, room: &mut [u8]) -> usize
        ensures count { result ≡ min (length room.old) (length self.old) }
        ensures given { take result room.new ++ self.new ≡ self.old }
        ensures room { length room.new ≡ length room.old }
    {
        let rest = &self.bytes[self.count..];
        let count = room.len().min(rest.len());
        room[..count].copy_from_slice(&rest[..count]);
        self.count += count;
        count
    }
}

impl Read for Given {
    ghost use Rattle.std.specs.Prelude.{Some};

    ghost remaining = { λ given. Some given };

    fn read(&mut self, buf: &mut [u8]) -> io::Result<usize> {
        Ok(self.give(buf))
    }
}

/// The field that says how many bytes a body has (RFC 9110, section 8.6).
const LENGTH_FIELD: &[u8] = b"content-length";

/// Whether one of the lines says that a body has some bytes.
fn announces_body(lines: &[u8]) -> bool {
    let mut rest = lines;
    while let Some(at) = memchr(b'\n', rest) {
        if is_length_of_some(&rest[..at]) {
            return true;
        }
        rest = match rest[at..].split_first() {
            Some((_, later)) => later,
            None => return false,
        };
    }
    false
}

fn is_length_of_some(line: &[u8]) -> bool {
    match (
        line.get(..LENGTH_FIELD.len()),
        line.get(LENGTH_FIELD.len()..),
    ) {
        (Some(name), Some(value)) => {
            name.eq_ignore_ascii_case(LENGTH_FIELD)
                && value.iter().any(|byte| matches!(*byte, b'1'..=b'9'))
        }
        _ => false,
    }
}
