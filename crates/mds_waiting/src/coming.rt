//! A request that comes: as soon as how many bytes are there it is whole, and a look for further ones.
ghost use Rattle.std.specs.Prelude.{◌≡◌, ◌≢◌, ◌⊎◌, ◌<◌, ◌≤◌, ◌+◌, ◌++◌, drop, length, max, IfSome, None, Some, false};
ghost use Rattle.std.specs.Io.KnownBytes.{Keeps};
ghost use Rattle.mds_waiting.specs.Peers.{Grows};
ghost use Rattle.mds_http.specs.Head.{max_head};
ghost use Rattle.mds_http.specs.HeadStatus.{IsInReach};
ghost use Rattle.mds_waiting.specs.Looks.{IfDone, IsWholeOrEnded};
ghost use Rattle.mds_waiting.specs.Requests.{BeginsWith, IsWhole, NoLineEnds, head_in, max_request, total_by};

use crate::look::{Look, MAX_CALLS};
use crate::part::Part;
use crate::peer::{Came, Peer, receive};
use mds_http::{Face, Head, HeadStatus, MAX_HEAD};

/// How many bytes one call takes in where the room for them is as large, and how many are taken in at most of a request whose
/// head isn't there.
pub const ROOM_BYTES: usize = 65_536;

/// A request that comes.
#[derive(Drop)]
pub struct Coming<S> {
    /// Its client.
    pub peer: S,
    /// Whether its head is there: [`Part::Head`], or [`Part::Request`] behind that.
    pub part: Part,
    /// So many of its bytes are read at most.
    total: usize,
    /// How many bytes were there when the reader of requests was last asked about the head.
    asked: usize,
    ghost bounded: { total ≤ max_request },
}

impl<S: Peer> Coming<S> {
    /// A request of which nothing came yet.
    pub fn new(peer: S) -> Coming<S>
        ensures peer { result.peer ≡ peer }
        ensures part { result.part ≡ Part.Head }
    {
        Coming {
            peer,
            part: Part::Head,
            total: ROOM_BYTES,
            asked: 0,
        }
    }

    /// Takes in what came of the request, behind the bytes that are there, by way of the room. `Done` where it is whole, or its
    /// client has ended.
    pub fn look(&mut self, face: &Face, bytes: &mut Vec<u8>, room: &mut [u8]) -> Look
        ensures whole { IfDone result (IsWholeOrEnded bytes.new.items (S.coming self.new.peer)) }
        ensures head { IfDone result (BeginsWith bytes.new.items) }
        ensures grows { result ≢ Look.Gone → Grows (S.coming self.old.peer) (S.coming self.new.peer)
            bytes.old.items bytes.new.items }
        ensures sent { Keeps (S.sent self.old.peer) (S.sent self.new.peer) }
        ensures bound { length bytes.new.items ≤ max (length bytes.old.items) max_request }
        ensures room { length room.new ≡ length room.old }
        ensures part { (self.new.part ≡ self.old.part) ⊎ (self.new.part ≡ Part.Request) }
    {
        for _ in 0..MAX_CALLS {
            if let Some(look) = self.look_once(face, bytes, room) {
                return look;
            }
        }
        Look::Waits
    }

    /// The same with one call, for as many bytes as there is room for. `None` where more may be there.
    #[tactic(auto, using(crate::proofs::PeerLemmas::grows_nothing))]
    fn look_once(&mut self, face: &Face, bytes: &mut Vec<u8>, room: &mut [u8]) -> Option<Look>
        ensures whole { IfSome result
            (λ look. IfDone look (IsWholeOrEnded bytes.new.items (S.coming self.new.peer))) }
        ensures head { IfSome result (λ look. IfDone look (BeginsWith bytes.new.items)) }
        ensures grows { result ≢ Some Look.Gone
            → Grows (S.coming self.old.peer) (S.coming self.new.peer)
            bytes.old.items bytes.new.items }
        ensures sent { Keeps (S.sent self.old.peer) (S.sent self.new.peer) }
        ensures bound { length bytes.new.items ≤ max (length bytes.old.items) max_request }
        ensures room { length room.new ≡ length room.old }
        ensures part { (self.new.part ≡ self.old.part) ⊎ (self.new.part ≡ Part.Request) }
    {
        let asked = room.len().min(self.total.saturating_sub(bytes.len()));
        if asked == 0 {
            return Some(self.judge_last(face, bytes));
        }
        match receive(&mut self.peer, &mut room[..asked]) {
            Came::Bytes(count) => match self.take_in(face, bytes, &room[..count]) {
                Look::Waits if count == asked => None,
                look => Some(look),
            },
            Came::Ended => Some(Look::Done(None)),
            Came::Nothing => Some(Look::Waits),
            Came::Lost => Some(Look::Gone),
        }
    }

    /// Takes in these bytes, behind those that are there. `Gone` where there is no memory for them.
    fn take_in(&mut self, face: &Face, bytes: &mut Vec<u8>, new: &[u8]) -> Look
        ensures whole { IfDone result (IsWhole bytes.new.items) }
        ensures head { IfDone result (BeginsWith bytes.new.items) }
        ensures grows { result ≢ Look.Gone → bytes.new.items ≡ bytes.old.items ++ new.now }
        ensures bound { length bytes.new.items ≤ length bytes.old.items + length new.now }
        ensures peer { self.new.peer ≡ self.old.peer }
        ensures part { (self.new.part ≡ self.old.part) ⊎ (self.new.part ≡ Part.Request) }
    {
        let from = bytes.len();
        if bytes.extend_from_slice(new).is_err() {
            return Look::Gone;
        }
        if self.may_be_whole(bytes, from) {
            return self.judge(face, bytes);
        }
        Look::Waits
    }

    /// What a look comes to where no more is read.
    fn judge_last(&mut self, face: &Face, bytes: &[u8]) -> Look
        ensures whole { IfDone result (IsWhole bytes.now) }
        ensures head { IfDone result (BeginsWith bytes.now) }
        ensures peer { self.new.peer ≡ self.old.peer }
        ensures part { (self.new.part ≡ self.old.part) ⊎ (self.new.part ≡ Part.Request) }
    {
        match self.judge(face, bytes) {
            Look::Waits => Look::Gone,
            look => look,
        }
    }

    /// Whether it may be whole, of which these bytes are there, those from that place on being new. A head ends where a line
    /// does. What becomes no head is found out at the end of a line too, or at twice the bytes. So what comes byte by byte is
    /// parsed few times.
    fn may_be_whole(&self, bytes: &[u8], from: usize) -> bool
        ensures head { result ≡ false → self.now.part ≡ Part.Head
            → (length bytes.now < max_head) × NoLineEnds (drop from bytes.now) }
        ensures body { result ≡ false → self.now.part ≡ Part.Request
            → length bytes.now < self.now.total }
    {
        if self.part != Part::Head {
            return self.total <= bytes.len();
        }
        MAX_HEAD <= bytes.len()
            || self.asked <= bytes.len() / 2
            || bytes.get(from..).is_some_and(|new| new.contains(&b'\n'))
    }

    /// Whether it is whole, of which these bytes are there, or goes on waiting: the reader of requests is asked.
    fn judge(&mut self, face: &Face, bytes: &[u8]) -> Look
        ensures whole { IfDone result (IsWhole bytes.now) }
        ensures head { IfDone result (BeginsWith bytes.now) }
        ensures peer { self.new.peer ≡ self.old.peer }
        ensures part { (self.new.part ≡ self.old.part) ⊎ (self.new.part ≡ Part.Request) }
    {
        self.asked = bytes.len();
        let status = face.head_status(bytes);
        let Some(total) = total_by(&status, bytes) else {
            return Look::Waits;
        };
        self.part = Part::Request;
        self.total = total;
        if total <= bytes.len() {
            return Look::Done(head_of(&status));
        }
        Look::Waits
    }
}

/// The head of which the reader said this, where it is there and has no fault.
fn head_of(status: &HeadStatus) -> Option<Head>
    ensures { result ≡ head_in status.now }
{
    match status {
        HeadStatus::Complete { aim, start, len } => Some(Head {
            aim: *aim,
            start: *start,
            len: *len,
        }),
        HeadStatus::Partial | HeadStatus::Invalid | HeadStatus::Rejected(_) => None,
    }
}

/// As soon as how many bytes are there a request is whole of which these are there, of whose head the reader said this. `None`
/// where its head may yet come.
fn total_by(status: &HeadStatus, bytes: &[u8]) -> Option<usize>
    requires { IsInReach bytes.now status.now }
    ensures total { result ≡ total_by bytes.now status.now }
    ensures bound { IfSome result (λ total. total ≤ max_request) }
{
    match status {
        HeadStatus::Complete { start, len, .. } => Some(start + len),
        HeadStatus::Invalid | HeadStatus::Rejected(_) => Some(0),
        HeadStatus::Partial if MAX_HEAD <= bytes.len() => Some(MAX_HEAD),
        HeadStatus::Partial => None,
    }
}
