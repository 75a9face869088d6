//! The end of a connection that takes its answer.
ghost use Rattle.std.specs.Prelude.{◌≡◌, vec_len, OnOk, false};
ghost use Rattle.std.specs.Io.{WritesAtMost};
ghost use Rattle.std.specs.Io.KnownBytes.{WriteAppends, append_known};

use crate::peer::{Came, Peer, send};
use std::alloc::{AllocError, Global};
use std::io::{self, ErrorKind, Write};

/// The end of a connection that takes its answer. What the client doesn't take at once is kept for it, behind what it was sent.
#[derive(Drop)]
pub struct Outgoing<S> {
    /// The client.
    pub peer: S,
    /// What it hasn't taken yet.
    pub rest: Vec<u8>,
    /// Whether a part of the answer is lost.
    pub is_lost: bool,
}

impl<S: Peer> Outgoing<S> {
    /// The end of a connection whose client was sent nothing yet.
    pub fn new(alloc: Global, peer: S) -> Outgoing<S>
        ensures peer { result.peer ≡ peer }
        ensures rest { vec_len result.rest ≡ 0 }
        ensures lost { result.is_lost ≡ false }
    {
        Outgoing {
            peer,
            rest: Vec::new(alloc),
            is_lost: false,
        }
    }

    /// Sends what the client takes of these bytes at once, unless earlier ones wait for it: how many.
    ///
    /// # Errors
    ///
    /// The connection is lost.
    fn send_first(&mut self, bytes: &[u8]) -> io::Result<usize>
        ensures bound { WritesAtMost result bytes.now }
        ensures sent { WriteAppends (append_known (S.sent self.old.peer) self.old.rest.items)
            (append_known (S.sent self.new.peer) self.new.rest.items) result bytes.now }
        ensures rest { self.new.rest.items ≡ self.old.rest.items }
        ensures lost { OnOk result (self.new.is_lost ≡ self.old.is_lost) }
    {
        if !self.rest.is_empty() {
            return Ok(0);
        }
        match send(&mut self.peer, bytes) {
            Came::Bytes(count) => Ok(count),
            Came::Nothing => Ok(0),
            Came::Ended | Came::Lost => {
                self.is_lost = true;
                Err(io::Error::from(ErrorKind::BrokenPipe))
            }
        }
    }
}

impl<S: Peer> Write for Outgoing<S> {
    ghost contents = { λ outgoing. append_known (S.sent outgoing.peer) outgoing.rest.items };

    fn write(&mut self, buf: &[u8]) -> io::Result<usize> {
        let count = self.send_first(buf)?;
        match self.rest.extend_from_slice(&buf[count..]) {
            Ok(()) => Ok(buf.len()),
            Err(AllocError) if 0 < count => Ok(count),
            Err(AllocError) => {
                self.is_lost = true;
                Err(io::Error::from(ErrorKind::OutOfMemory))
            }
        }
    }

    fn flush(&mut self) -> io::Result<()> {
        Ok(())
    }
}
