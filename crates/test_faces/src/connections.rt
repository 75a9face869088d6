//! One connection: its answers, and what becomes of it where a device fails or there is no memory.
mod answers;
mod endings;
mod growths;
mod kept;
mod quiet;
mod seats;

use crate::cases::{Answer, answer_text};
use mds_face::{Desk, Face, ServeFault, Served, serve_one};
use std::alloc::{AllocError, Global};
use std::io::{self, Write};
use test_fixtures::{ENDS, Last, again, ending, pieces_of};

/// A client's other side, which takes so many bytes, and so many of them a call at most.
#[derive(Drop)]
pub struct Peer {
    pub taken: Vec<u8>,
    pub room: usize,
    pub piece: usize,
    pub last: Last,
    pub writes: u32,
}

/// One that takes all bytes, and takes no memory for the first 4096; made again where its growth is refused.
pub fn peer_of(alloc: Global) -> Result<Peer, AllocError> {
    Ok(Peer {
        taken: again!(Vec::with_capacity(alloc, 4096))?,
        room: usize::MAX,
        piece: usize::MAX,
        last: ENDS,
        writes: 0,
    })
}

impl Write for Peer {
    fn write(&mut self, buf: &[u8]) -> io::Result<usize> {
        self.writes = self.writes.saturating_add(1);
        let count = buf.len().min(self.room).min(self.piece);
        if count == 0 {
            return ending(self.last);
        }
        self.taken.extend_from_slice(&buf[..count])?;
        self.room -= count;
        Ok(count)
    }

    fn flush(&mut self) -> io::Result<()> {
        Ok(())
    }
}

/// A request, and the answer to it.
pub type Exchange = (&'static str, Answer);

/// What is said of a connection, and what was written.
pub type Ending = (Result<Served, ServeFault>, Vec<u8>);

/// An answer of this status to so many accepted requests.
pub fn answer_of(status: u16, accepted: usize) -> Result<Served, ServeFault> {
    Ok(Served { status, accepted })
}

/// What the desk answers to these bytes, sent so many a call.
pub fn answered<D: Desk>(
    alloc: Global,
    face: &Face,
    desk: &mut D,
    bytes: &[u8],
    piece: usize,
) -> Result<Ending, AllocError> {
    let mut client = pieces_of(bytes, piece, ENDS);
    let mut peer = peer_of(alloc)?;
    let served = serve_one(alloc, face, &mut client, &mut peer, desk);
    Ok((served, peer.taken))
}

/// The place of the first request that a desk answers otherwise, if there is one. Each comes so many bytes a call.
pub fn first_other<D: Desk>(
    alloc: Global,
    face: &Face,
    desk: &mut D,
    exchanges: &[Exchange],
    piece: usize,
) -> Result<Option<usize>, AllocError> {
    for (place, (request, answer)) in exchanges.iter().enumerate() {
        let expected = answer_text(alloc, *answer)?;
        let (_, written) = answered(alloc, face, desk, request.as_bytes(), piece)?;
        if written.as_slice() != expected.as_bytes() {
            return Ok(Some(place));
        }
    }
    Ok(None)
}
