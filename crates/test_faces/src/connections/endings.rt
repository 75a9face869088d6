//! Readers and writers that fail, end or are interrupted: what is told, what is written, and how many calls it takes.
use super::answers::fleet_over;
use super::kept::Recorded;
use super::{answer_of, peer_of};
use crate::cases::{Answer, BAD_HEAD, CUT_SHORT, EMPTY, NONE_DONE, PROFILE, answer_text};
use mds_face::{Face, KeptFault, ServeFault, Served, serve_kept, serve_one};
use std::alloc::Global;
use test_fixtures::{ENDS, FAILS, Lack, Last, PAUSES, pieces_of};

/// The bytes that a client sends, with so many times a letter or a space behind them, how many a call, and what it does then;
/// the answer, in how many calls it is read, and how many bytes the client has left.
type Way = (
    &'static str,
    (&'static str, usize),
    usize,
    Last,
    Answer,
    u32,
    usize,
);

const BARE: (&str, usize) = ("", 0);

const WHOLE: usize = usize::MAX;

/// A request that comes at once or byte by byte, and has bytes behind it that say nothing of what is asked for; a long body, 40048
/// bytes with its head, of which a call asks for 4096, and one that ends a byte before; and a head that is too long.
const WAYS: &[Way] = &[
    (EMPTY, BARE, WHOLE, FAILS, NONE_DONE, 1, 0),
    (EMPTY, ("x", 2), 1, FAILS, NONE_DONE, 46, 2),
    (BODY, (" ", 40_001), WHOLE, FAILS, NONE_DONE, 10, 3),
    (BODY, (" ", 39_997), WHOLE, ENDS, CUT_SHORT, 11, 0),
    ("", ("a", 16_385), WHOLE, FAILS, BAD_HEAD, 4, 1),
    ("", ("a", 16_385), 1, FAILS, BAD_HEAD, 16_384, 1),
];

const BODY: &str = "POST /events HTTP/1.1\r\nContent-Length: 40000\r\n\r\n[]";

/// What comes of a connection: what is told, how many calls of `read` and of `write` were made, what was written, and
/// how many bytes the client has left.
type Came = (Result<Served, ServeFault>, (u32, u32), Vec<u8>, usize);

/// The routes, and a fleet that has taken nothing in, whose answers are recorded.
type Server = (Face, Recorded);

fn server_of(alloc: Global) -> Result<Server, Lack> {
    let (fleet, end) = (fleet_over(alloc, PROFILE)?, Ok(()));
    Ok((Face::open(alloc)?, Recorded { fleet, end }))
}

/// What a client sends, how many bytes a call, and what it does then.
type Client<'a> = (&'a [u8], usize, Last);

/// What comes of this client's connection, where so many bytes of the answer are taken, and then this is done. It is
/// the same at a desk that keeps what answers rest on, which is asked where there aren't thousands of reads.
fn came_of(
    alloc: Global,
    server: &mut Server,
    client: Client<'_>,
    room: usize,
    last: Last,
) -> Result<Came, Lack> {
    let came = came_by(alloc, server, client, room, last, false)?;
    if came.1.0 < 1000 && came_by(alloc, server, client, room, last, true)? != came {
        return Err(Lack::Case);
    }
    Ok(came)
}

/// The same at one of these two desks.
fn came_by(
    alloc: Global,
    server: &mut Server,
    client: Client<'_>,
    room: usize,
    last: Last,
    is_kept: bool,
) -> Result<Came, Lack> {
    let (mut client, mut peer) = (pieces_of(client.0, client.1, client.2), peer_of(alloc)?);
    peer.room = room;
    peer.last = last;
    let told = if is_kept {
        match serve_kept(alloc, &server.0, &mut client, &mut peer, &mut server.1) {
            Ok(served) => Ok(served),
            Err(KeptFault::Serve(fault)) => Err(fault),
            Err(_) => return Err(Lack::Case),
        }
    } else {
        serve_one(alloc, &server.0, &mut client, &mut peer, &mut server.1)
    };
    let calls = (client.reads, peer.writes);
    Ok((told, calls, peer.taken, client.bytes.len()))
}

/// The place of the first way of which something else comes, and what.
fn first_other(alloc: Global, ways: &[Way]) -> Result<Option<(usize, Came)>, Lack> {
    let mut server = server_of(alloc)?;
    for (place, way) in ways.iter().enumerate() {
        let (front, (filling, times), piece, last, answer, reads, left) = *way;
        let mut bytes = filling.repeat(alloc, times)?;
        bytes.insert_str(0, front)?;
        let expected = answer_text(alloc, answer)?;
        let client = (bytes.as_bytes(), piece, last);
        let came = came_of(alloc, &mut server, client, WHOLE, ENDS)?;
        let is_it = came.0.is_ok() && came.2.as_slice() == expected.as_bytes();
        if !is_it || (came.1, came.3) != ((reads, 1), left) {
            return Ok(Some((place, came)));
        }
    }
    Ok(None)
}

#[test]
fn ways_that_connections_end(rt: HostRuntime) {
    assert_eq!(rt; first_other(rt.alloc(), WAYS), Ok(None));
}

/// What is told, the calls, and how many bytes are written, where a client sends this, so many bytes a call, and
/// takes so many, at the desk that keeps what answers rest on, if so; each side is then interrupted again and again.
fn turns_of(
    alloc: Global,
    front: &str,
    piece: usize,
    room: usize,
    is_kept: bool,
) -> Result<(Result<Served, ServeFault>, (u32, u32), usize), Lack> {
    let mut server = server_of(alloc)?;
    let client = (front.as_bytes(), piece, PAUSES);
    let (told, calls, taken, _) = came_by(alloc, &mut server, client, room, PAUSES, is_kept)?;
    Ok((told, calls, taken.len()))
}

/// Turns run out in a head, in a body, whose calls count together with those of the head, and in an answer.
#[test]
fn turns_run_out(rt: HostRuntime) {
    let body = "POST /events HTTP/1.1\r\nContent-Length: 2\r\n\r\n[";
    let found = [
        turns_of(rt.alloc(), "", 1, WHOLE, false),
        turns_of(rt.alloc(), body, 1, WHOLE, false),
        turns_of(rt.alloc(), body, 1, WHOLE, true),
        turns_of(rt.alloc(), EMPTY, 46, 0, false),
    ];
    let told = Err(ServeFault::TooManyTurns { sent: 0 });
    let reads = Ok((told, (5_000_000, 0), 0));
    assert_eq!(rt; found, [reads, reads, reads, Ok((told, (1, 5_000_000), 0))]);
}

/// The first number of bytes of the empty batch, from this one on, behind which something else than this is told or
/// written, where they come one by one, and the client then fails or ends.
fn first_other_read(
    alloc: Global,
    from: usize,
    last: Last,
    told: Result<Served, ServeFault>,
    answer: Option<Answer>,
) -> Result<Option<usize>, Lack> {
    let mut server = server_of(alloc)?;
    let expected = match answer {
        Some(answer) => answer_text(alloc, answer)?,
        None => String::new(alloc),
    };
    for count in from..47 {
        let front = EMPTY.as_bytes().get(..count).unwrap_or(b"none");
        let client = (front, 1, last);
        let came = came_of(alloc, &mut server, client, WHOLE, ENDS)?;
        if came.0 != told || came.2.as_slice() != expected.as_bytes() {
            return Ok(Some(count));
        }
    }
    Ok(None)
}

/// The request has 46 bytes, of which 44 are its head.
#[test]
fn reads_that_fail_or_end(rt: HostRuntime) {
    let failed = first_other_read(rt.alloc(), 0, FAILS, Err(ServeFault::Read), None);
    let no_head = first_other_read(rt.alloc(), 0, ENDS, answer_of(400, 0), Some(BAD_HEAD));
    let no_body = first_other_read(rt.alloc(), 44, ENDS, answer_of(400, 0), Some(CUT_SHORT));
    let counts = [Ok(Some(46)), Ok(Some(44)), Ok(Some(46))];
    assert_eq!(rt; [failed, no_head, no_body], counts);
}

/// How many bytes of an answer the peer has to take before it does this, so that anything but a fault of a write
/// behind them is told; and what is told then.
fn first_other_write(
    alloc: Global,
    last: Last,
) -> Result<Option<(usize, Result<Served, ServeFault>)>, Lack> {
    let mut server = server_of(alloc)?;
    for sent in 0..200 {
        let client = (EMPTY.as_bytes(), 46, ENDS);
        let (told, _, taken, _) = came_of(alloc, &mut server, client, sent, last)?;
        if told != Err(ServeFault::Write { sent }) || taken.len() != sent {
            return Ok(Some((sent, told)));
        }
    }
    Ok(None)
}

/// The answer has 127 bytes.
#[test]
fn writes_that_fail(rt: HostRuntime) {
    let failed = first_other_write(rt.alloc(), FAILS);
    let refused = first_other_write(rt.alloc(), ENDS);
    let whole = Ok(Some((127, answer_of(200, 0))));
    assert_eq!(rt; [failed, refused], [whole, whole]);
}
