//! Connections whose clients are played: requests that come, and answers that leave.
use LookOutcome::{Done, Gone, Waits};
use mds_http::Face;
use mds_waiting::{Coming, Given, Leaving, Look, Outgoing, Part, Peer};
use std::alloc::{AllocError, Global};
use std::io::{self, ErrorKind, Write};
use test_fixtures::rows;

/// What a client does at one call.
#[derive(Clone, Copy)]
pub(crate) enum Act {
    /// It gives these bytes, or ends where there are none.
    Gives(&'static [u8]),
    /// It takes so many bytes at most.
    Takes(usize),
    /// It does nothing yet, or is lost, as the call fails in this way.
    Fails(ErrorKind),
}

/// A client that does these things, one at each call, and then nothing. It holds what it was sent, and counts the ends of that.
#[derive(Drop)]
pub(crate) struct Played {
    acts: &'static [Act],
    at: usize,
    sent: [u8; 8],
    count: usize,
    ends: usize,
}

impl Played {
    pub(crate) fn new(acts: &'static [Act]) -> Played {
        Played {
            acts,
            at: 0,
            sent: [0; 8],
            count: 0,
            ends: 0,
        }
    }

    /// What it does at the next call.
    fn next(&mut self) -> Act {
        let act = self.acts.get(self.at).copied();
        self.at = self.at.saturating_add(1);
        act.unwrap_or(Act::Fails(ErrorKind::WouldBlock))
    }
}

impl Peer for Played {
    fn receive(&mut self, room: &mut [u8]) -> io::Result<usize> {
        match self.next() {
            Act::Gives(bytes) => {
                let count = room.len().min(bytes.len());
                room[..count].copy_from_slice(&bytes[..count]);
                Ok(count)
            }
            Act::Takes(_) => Err(io::Error::from(ErrorKind::WouldBlock)),
            Act::Fails(kind) => Err(io::Error::from(kind)),
        }
    }

    fn send(&mut self, bytes: &[u8]) -> io::Result<usize> {
        match self.next() {
            Act::Takes(most) => {
                let count = most.min(bytes.len()).min(8 - self.count.min(8));
                let start = self.count.min(8);
                self.sent[start..start + count].copy_from_slice(&bytes[..count]);
                self.count = start + count;
                Ok(count)
            }
            Act::Gives(_) => Err(io::Error::from(ErrorKind::WouldBlock)),
            Act::Fails(kind) => Err(io::Error::from(kind)),
        }
    }

    fn end_sending(&mut self) -> io::Result<()> {
        self.ends = self.ends.saturating_add(1);
        Ok(())
    }
}

const HEAD: &[u8] = b"POST /events HTTP/1.1\r\ncontent-length: 4\r\n\r\n";

pub(crate) const LOST: Act = Act::Fails(ErrorKind::ConnectionReset);

pub(crate) const LATER: Act = Act::Fails(ErrorKind::WouldBlock);

/// What one look came to. Of a head only how many bytes it and its body have are told.
#[derive(Clone, Copy, PartialEq, Eq)]
enum LookOutcome {
    Done(Option<[usize; 2]>),
    Waits,
    Gone,
}

fn outcome_of(look: Look) -> LookOutcome {
    match look {
        Look::Done(Some(head)) => LookOutcome::Done(Some([head.start, head.len])),
        Look::Done(None) => LookOutcome::Done(None),
        Look::Waits => LookOutcome::Waits,
        Look::Gone => LookOutcome::Gone,
    }
}

/// What a client does, what becomes of one look at its request, whether its head is there then, and how many bytes are.
type Request = (&'static [Act], LookOutcome, Part, usize);

const REQUESTS: &[Request] = rows! {
    (&[Act::Gives(b"GET / HTTP/1.1\r\n\r\n")], Done(None), Part::Request, 18),
    (&[Act::Gives(b"GET / HTTP/1.1\r\n\r\nmore")], Done(None), Part::Request, 22),
    (&[Act::Gives(b"nothing\r\n")], Done(None), Part::Request, 9),
    (&[Act::Gives(b"GET /")], Waits, Part::Head, 5),
    (&[LATER], Waits, Part::Head, 0),
    (&[Act::Fails(ErrorKind::Interrupted)], Waits, Part::Head, 0),
    (&[Act::Gives(b"")], Done(None), Part::Head, 0),
    (&[LOST], Gone, Part::Head, 0),
    (&[Act::Gives(HEAD)], Waits, Part::Request, 44),
};

/// The place of the first request of which something else becomes.
fn other_request(alloc: Global) -> Result<Option<usize>, AllocError> {
    let face = Face::open(alloc)?;
    for (at, (acts, look, part, count)) in REQUESTS.iter().copied().enumerate() {
        let (mut coming, mut bytes) = (Coming::new(Played::new(acts)), Vec::new(alloc));
        let found = outcome_of(coming.look(&face, &mut bytes, &mut [0u8; 64]));
        if found != look || coming.part != part || bytes.len() != count {
            return Ok(Some(at));
        }
    }
    Ok(None)
}

#[test]
fn requests_come_as_their_clients_give_them(rt: HostRuntime) {
    assert_eq!(rt; other_request(rt.alloc()), Ok(None));
}

/// What a client does; whether its request is handed on with its head, and whether nothing came behind it then.
type Handed = (&'static [Act], bool, bool);

const HANDED: &[Handed] = rows! {
    (&[Act::Gives(b"GET /table HTTP/1.1\r\n\r\n")], true, true),
    (&[Act::Gives(b"GET /table HTTP/1.1\r\n\r\nmore")], true, false),
    (&[Act::Gives(HEAD), Act::Gives(b"1234")], true, true),
    // Its client has ended before, or its head has a fault: it is read by the worker.
    (&[Act::Gives(HEAD), Act::Gives(b"")], false, false),
    (&[Act::Gives(b"GET / HTTP/1.1\r\n\r\n")], false, false),
};

/// What becomes of a request that is there after two looks.
fn handed(alloc: Global, face: &Face, acts: &'static [Act]) -> Option<(bool, bool)> {
    let (mut coming, mut bytes) = (Coming::new(Played::new(acts)), Vec::new(alloc));
    for _ in 0..2 {
        if let Look::Done(head) = coming.look(face, &mut bytes, &mut [0u8; 64]) {
            let given = Given::new(bytes, head);
            return Some((given.bytes_with_head().is_some(), given.is_over()));
        }
    }
    None
}

/// The place of the first request that is handed on otherwise.
fn other_handed(alloc: Global) -> Result<Option<usize>, AllocError> {
    let face = Face::open(alloc)?;
    for (at, (acts, is_whole, is_over)) in HANDED.iter().copied().enumerate() {
        if handed(alloc, &face, acts) != Some((is_whole, is_over)) {
            return Ok(Some(at));
        }
    }
    Ok(None)
}

#[test]
fn requests_are_handed_on_with_their_heads(rt: HostRuntime) {
    assert_eq!(rt; other_handed(rt.alloc()), Ok(None));
}

/// What a client does, and what each of four looks at its request comes to; and how many bytes are there then.
type Pieces = (&'static [Act], [LookOutcome; 4], usize);

const CUT: [LookOutcome; 4] = [Waits, Waits, Gone, Gone];

const FOUND: [LookOutcome; 4] = [Waits, Waits, Waits, Done(None)];

/// The same of a request whose head has no fault.
const WHOLE: [LookOutcome; 4] = [Waits, Waits, Waits, Done(Some([44, 4]))];

const PIECES: &[Pieces] = rows! {
    // A body comes in pieces, with nothing between, or is lost.
    (&[Act::Gives(HEAD), LATER, Act::Gives(b"12"), Act::Gives(b"345")], WHOLE, 48),
    (&[Act::Gives(HEAD), Act::Gives(b"12"), LOST, LOST], CUT, 46),
    // So does a head: its last byte comes alone, or it has a line that is no field; one that is none is found out at twice its bytes.
    (&[Act::Gives(b"GET / HTTP/1.1\r\n"), Act::Gives(b"a:b\r\n"), Act::Gives(b"\r"), Act::Gives(b"\n")], FOUND, 23),
    (&[Act::Gives(b"GET / HTTP/1.1\r\n"), Act::Gives(b"a "), Act::Gives(b"b"), Act::Gives(b"\r\n")], FOUND, 21),
    (&[Act::Gives(b"GET /"), Act::Gives(b" y"), LATER, Act::Gives(b"yyy")], FOUND, 10),
};

/// What each of four looks at a request comes to, and how many bytes are there then.
fn looks(alloc: Global, acts: &'static [Act]) -> Result<([LookOutcome; 4], usize), AllocError> {
    let face = Face::open(alloc)?;
    let (mut coming, mut bytes) = (Coming::new(Played::new(acts)), Vec::new(alloc));
    let mut looks = [Waits; 4];
    for at in 0..4 {
        looks[at] = outcome_of(coming.look(&face, &mut bytes, &mut [0u8; 64]));
    }
    Ok((looks, bytes.len()))
}

/// The place of the first of these requests of which something else becomes.
fn other_pieces(alloc: Global) -> Result<Option<usize>, AllocError> {
    for (at, (acts, expected, count)) in PIECES.iter().copied().enumerate() {
        if looks(alloc, acts)? != (expected, count) {
            return Ok(Some(at));
        }
    }
    Ok(None)
}

#[test]
fn requests_come_in_pieces(rt: HostRuntime) {
    assert_eq!(rt; other_pieces(rt.alloc()), Ok(None));
}

/// What a client does at an answer of five bytes, whether its request was read to its end, what each of two looks comes to, how many
/// bytes it was sent, and how often that was ended.
type Answer = (&'static [Act], bool, [LookOutcome; 2], (usize, usize));

const ANSWERS: &[Answer] = rows! {
    (&[Act::Takes(5), LATER], true, [Gone, Gone], (5, 0)),
    (&[Act::Takes(2), LATER, Act::Takes(3), LATER], true, [Waits, Gone], (5, 0)),
    (&[Act::Takes(2), LOST, Act::Fails(ErrorKind::BrokenPipe)], true, [Gone, Gone], (2, 0)),
    (&[Act::Takes(0)], true, [Gone, Waits], (0, 0)),
    (&[LATER, LATER], true, [Waits, Waits], (0, 0)),
    (&[Act::Takes(5), LATER, Act::Gives(b"")], false, [Waits, Gone], (5, 1)),
    (&[Act::Takes(2), LATER, Act::Takes(3), LATER], false, [Waits, Waits], (5, 1)),
    (&[Act::Takes(5), Act::Gives(b"more"), LATER, LOST], true, [Waits, Gone], (5, 1)),
};

/// The place of the first answer of which something else becomes.
fn other_answer() -> Option<usize> {
    for (at, (acts, is_read, looks, counts)) in ANSWERS.iter().copied().enumerate() {
        let mut leaving = Leaving::new(Played::new(acts), is_read);
        let first = outcome_of(leaving.look(b"12345"));
        let found = [first, outcome_of(leaving.look(b"12345"))];
        let is_front = leaving.peer.sent.get(..counts.0) == b"12345".get(..counts.0);
        if found != looks || (leaving.peer.count, leaving.peer.ends) != counts || !is_front {
            return Some(at);
        }
    }
    None
}

#[test]
fn answers_leave_as_their_clients_take_them(rt: HostRuntime) {
    assert_eq!(rt; other_answer(), None);
}

/// Writes five bytes in two pieces to a client: how many bytes it was sent, how many are kept, and whether all are in order.
fn written(alloc: Global, acts: &'static [Act]) -> io::Result<(usize, usize, bool)> {
    let mut outgoing = Outgoing::new(alloc, Played::new(acts));
    outgoing.write_all(b"123")?;
    outgoing.write_all(b"45")?;
    let count = outgoing.peer.count;
    let is_front = outgoing.peer.sent.get(..count) == b"12345".get(..count);
    let is_rest = b"12345".get(count..) == Some(outgoing.rest.as_slice());
    Ok((count, outgoing.rest.len(), is_front && is_rest))
}

/// What a client does, and how many of the bytes it is sent, and how many are kept.
const WRITTEN: &[(&[Act], (usize, usize, bool))] = rows! {
    (&[Act::Takes(2)], (2, 3, true)),
    (&[LATER], (0, 5, true)),
    (&[Act::Takes(3), Act::Takes(8)], (5, 0, true)),
};

/// The place of the first client to which something else is written.
fn other_written(alloc: Global) -> Option<usize> {
    for (at, (acts, expected)) in WRITTEN.iter().enumerate() {
        if written(alloc, *acts).ok() != Some(*expected) {
            return Some(at);
        }
    }
    None
}

/// Whether a client that is lost is told of at once, and isn't behind the first bytes that it took.
fn is_lost(alloc: Global) -> bool {
    written(alloc, &[LOST]).is_err() && written(alloc, &[Act::Takes(2), LOST]).is_ok()
}

#[test]
fn what_a_client_does_not_take_is_kept(rt: HostRuntime) {
    let found = (other_written(rt.alloc()), is_lost(rt.alloc()));
    assert_eq!(rt; found, (None, true));
}

/// Whether a request comes whole, and what a client doesn't take of an answer is kept.
fn comes_and_is_kept(alloc: Global) -> bool {
    matches!(other_request(alloc), Ok(None)) && matches!(written(alloc, &[LATER]), Ok((0, 5, true)))
}

#[test]
fn requests_come_after_a_refused_growth(rt: HostRuntime) {
    let alloc = rt.alloc();
    assert!(rt; comes_and_is_kept(alloc) || comes_and_is_kept(alloc));
}
