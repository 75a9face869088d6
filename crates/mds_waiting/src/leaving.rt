//! An answer that leaves, and the end of its connection behind it.
ghost use Rattle.std.specs.Prelude.{◌≡◌, ◌≢◌, ◌⊎◌, ◌≤◌, length, IfSome, Some};
ghost use Rattle.std.specs.Io.KnownBytes.{Keeps};
ghost use Rattle.mds_waiting.specs.Limits.{max_last};
ghost use Rattle.mds_waiting.specs.Looks.{IfDone};
ghost use Rattle.mds_waiting.specs.Peers.{SendsPart, TakesOf};

use crate::look::{Look, MAX_CALLS};
use crate::part::Part;
use crate::peer::{Came, Peer, receive, send};

/// How many bytes that a client sends after the answer are thrown away at most.
const MAX_LAST_BYTES: usize = 16_777_216;

/// How many of them one call asks for. The room is filled anew at each look, also at one that throws nothing away.
const ROOM_BYTES: usize = 4_096;

/// An answer that leaves.
#[derive(Drop)]
pub struct Leaving<S> {
    /// Its client.
    pub peer: S,
    /// Whether its last byte was sent: [`Part::Answer`], or [`Part::Last`] behind that.
    pub part: Part,
    /// Whether nothing more is expected of the client behind that.
    is_read: bool,
    /// How many of its bytes were sent.
    sent: usize,
    /// How many bytes of the client are thrown away yet, at most.
    left: usize,
}

impl<S: Peer> Leaving<S> {
    /// An answer of which nothing was sent yet, to a request that was read to its end, or may not have been.
    pub fn new(peer: S, is_read: bool) -> Leaving<S>
        ensures peer { result.peer ≡ peer }
        ensures sent { result.sent ≡ 0 }
        ensures part { result.part ≡ Part.Answer }
        ensures left { result.left ≡ max_last }
    {
        Leaving {
            peer,
            part: Part::Answer,
            is_read,
            sent: 0,
            left: MAX_LAST_BYTES,
        }
    }

    /// How many bytes were sent, and thrown away behind the answer: more, where the client did something.
    pub fn progress(&self) -> usize {
        self.sent
            .saturating_add(MAX_LAST_BYTES.saturating_sub(self.left))
    }

    /// Sends what the client takes of the answer, which has these bytes, and ends the connection behind that.
    pub fn look(&mut self, bytes: &[u8]) -> Look
        ensures sent { SendsPart (S.sent self.old.peer) (S.sent self.new.peer) bytes.now
            self.old.sent self.new.sent }
        ensures last { self.new.part ≡ Part.Last →
            (self.old.part ≡ Part.Last) ⊎ (length bytes.now ≤ self.new.sent) }
        ensures part { (self.new.part ≡ self.old.part) ⊎ (self.new.part ≡ Part.Last) }
        ensures thrown { self.old.part ≡ Part.Last → result ≢ Look.Gone →
            TakesOf (S.coming self.old.peer) (S.coming self.new.peer) self.old.left self.new.left }
        ensures never_done { IfDone result (λ _. ⊥) }
    {
        for _ in 0..MAX_CALLS {
            if let Some(look) = self.look_once(bytes) {
                return look;
            }
        }
        Look::Waits
    }

    /// Makes one call for bytes. `None` where the client may take or give more.
    fn look_once(&mut self, bytes: &[u8]) -> Option<Look>
        ensures sent { SendsPart (S.sent self.old.peer) (S.sent self.new.peer) bytes.now
            self.old.sent self.new.sent }
        ensures last { self.new.part ≡ Part.Last →
            (self.old.part ≡ Part.Last) ⊎ (length bytes.now ≤ self.new.sent) }
        ensures part { (self.new.part ≡ self.old.part) ⊎ (self.new.part ≡ Part.Last) }
        ensures thrown { self.old.part ≡ Part.Last → result ≢ Some Look.Gone →
            TakesOf (S.coming self.old.peer) (S.coming self.new.peer) self.old.left self.new.left }
        ensures never_done { IfSome result (λ look. IfDone look (λ _. ⊥)) }
    {
        if self.part == Part::Last {
            return self.throw_away();
        }
        if bytes.len() <= self.sent {
            return self.end();
        }
        match send(&mut self.peer, &bytes[self.sent..]) {
            Came::Bytes(count) => {
                self.sent += count;
                None
            }
            Came::Nothing => Some(Look::Waits),
            Came::Ended | Came::Lost => Some(Look::Gone),
        }
    }

    /// Ends the connection behind the answer: at once where nothing more is expected of the client, and nothing came, or else
    /// in stages, so that the client can read the answer (RFC 9112, section 9.6). The answer's end is sent, and then what the
    /// client still sends is read and thrown away until it ends too. Closed with bytes unread, a connection would be reset, and
    /// the client could lose the answer.
    fn end(&mut self) -> Option<Look>
        ensures sent { Keeps (S.sent self.old.peer) (S.sent self.new.peer) }
        ensures count { self.new.sent ≡ self.old.sent }
        ensures part { (self.new.part ≡ self.old.part) ⊎ (self.new.part ≡ Part.Last) }
        ensures never_done { IfSome result (λ look. IfDone look (λ _. ⊥)) }
    {
        if self.is_read && !matches!(receive(&mut self.peer, &mut [0u8; 1]), Came::Bytes(_)) {
            return Some(Look::Gone);
        }
        if self.peer.end_sending().is_err() {
            return Some(Look::Gone);
        }
        self.part = Part::Last;
        None
    }

    /// One call for bytes behind the answer. `None` where more may come.
    fn throw_away(&mut self) -> Option<Look>
        ensures sent { Keeps (S.sent self.old.peer) (S.sent self.new.peer) }
        ensures count { self.new.sent ≡ self.old.sent }
        ensures part { self.new.part ≡ self.old.part }
        ensures thrown { result ≢ Some Look.Gone →
            TakesOf (S.coming self.old.peer) (S.coming self.new.peer) self.old.left self.new.left }
        ensures never_done { IfSome result (λ look. IfDone look (λ _. ⊥)) }
    {
        match receive(&mut self.peer, &mut [0u8; ROOM_BYTES]) {
            Came::Bytes(count) if count < self.left => {
                self.left -= count;
                None
            }
            Came::Nothing => Some(Look::Waits),
            Came::Bytes(_) | Came::Ended | Came::Lost => Some(Look::Gone),
        }
    }
}
