//! A call of `mds_pool`.
ghost use Rattle.std.specs.Prelude.{◌≡◌, IfSome};
ghost use Rattle.std.specs.List.{AllZip};
ghost use Rattle.mds_book.specs.Settling.{IsSettledBook};
ghost use Rattle.mds_face.specs.Seats.{HasGrown};

use mds_book::{Book, OpenGate, Seat, Settled, SharedLedger, reconcile};
use mds_face::Face;
use mds_pool::{Port, serve};
use std::alloc::Global;
use std::sync::Wait;
use std::thread::Threads;

/// Has a worker at each seat answer one connection of a port, and settles the book: what all seats noted fits.
pub fn serve_once<R: Threads + Wait + Sync, P: Port + Sync, L: SharedLedger, M: SharedLedger>(
    rt: &R,
    alloc: Global,
    face: &Face,
    port: &P,
    book: Book<L, M>,
    seats: Vec<Seat<L, M>>,
) -> Option<Settled<L, M>>
where
    P::In: Send,
    P::Out: Send,
    ensures { IfSome result (λ all. IsSettledBook all × AllZip HasGrown seats.items all.seats) }
{
    let back = serve(rt, alloc, face, port, &book, seats, 1, &OpenGate).ok()?;
    reconcile(book, back).ok()
}
