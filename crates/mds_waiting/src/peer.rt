//! The other side of a connection, which is asked for bytes, and given them, without waiting for it.
ghost use Rattle.std.specs.Prelude.{◌≡◌, ℕ, List, Option, None, length, IfErr, IfOk};
ghost use Rattle.std.specs.Io.{ReadsAtMost, WritesAtMost};
ghost use Rattle.std.specs.Io.KnownBytes.{Keeps, ReadConsumes, WriteAppends};
ghost use Rattle.std.specs.IoError.{error_kind};
ghost use Rattle.mds_waiting.specs.Peers.{Receives, Sends, came_by, came_without};

use std::io::{self, ErrorKind};

/// The other side of a connection. No call at it waits, but the first one may, a moment.
pub trait Peer: Drop {
    // the bytes that it gives from here on, where they are known
    ghost coming: { Self → Option (List ℕ) } = { λ _. None };

    // the bytes that it was sent, where they are known
    ghost sent: { Self → Option (List ℕ) } = { λ _. None };

    /// Puts bytes that came into the room: how many. 0 where it has ended its side.
    ///
    /// # Errors
    ///
    /// `WouldBlock` where none came yet; others where the connection is lost.
    fn receive(&mut self, room: &mut [u8]) -> io::Result<usize>
        ensures bound { ReadsAtMost result room.new }
        ensures bytes { ReadConsumes (coming self.old) (coming self.new) result room.new }
        ensures sent { Keeps (sent self.old) (sent self.new) };

    /// Sends bytes, as many of the first ones as there is room for at once: how many.
    ///
    /// # Errors
    ///
    /// `WouldBlock` where there is room for none; others where the connection is lost.
    fn send(&mut self, bytes: &[u8]) -> io::Result<usize>
        ensures bound { WritesAtMost result bytes.now }
        ensures bytes { WriteAppends (sent self.old) (sent self.new) result bytes.now };

    /// Tells it that nothing more is sent.
    ///
    /// # Errors
    ///
    /// The connection is lost.
    fn end_sending(&mut self) -> io::Result<()>
        ensures sent { Keeps (sent self.old) (sent self.new) };
}

/// What a call came to that waits for nothing.
#[derive(Clone, Copy, Debug, PartialEq, Eq)]
pub(crate) enum Came {
    /// So many bytes, at least one.
    Bytes(usize),
    /// No byte: the other side takes, or gives, no more.
    Ended,
    /// No byte yet.
    Nothing,
    /// The connection is lost.
    Lost,
}

fn came_of(called: io::Result<usize>) -> Came
    ensures ok { IfOk called (λ count. result ≡ came_by count) }
    ensures failed { IfErr called (λ error. result ≡ came_without (error_kind error)) }
{
    match called {
        Ok(0) => Came::Ended,
        Ok(count) => Came::Bytes(count),
        Err(error) => came_without(error.kind()),
    }
}

fn came_without(kind: ErrorKind) -> Came
    ensures { result ≡ came_without kind }
{
    match kind {
        ErrorKind::WouldBlock | ErrorKind::Interrupted => Came::Nothing,
        _ => Came::Lost,
    }
}

pub(crate) fn receive<S: Peer>(peer: &mut S, room: &mut [u8]) -> Came
    ensures came { Receives result (S.coming peer.old) (S.coming peer.new) room.new }
    ensures sent { Keeps (S.sent peer.old) (S.sent peer.new) }
    ensures room { length room.new ≡ length room.old }
{
    came_of(peer.receive(room))
}

pub(crate) fn send<S: Peer>(peer: &mut S, bytes: &[u8]) -> Came
    ensures { Sends result (S.sent peer.old) (S.sent peer.new) bytes.now }
{
    came_of(peer.send(bytes))
}
