//! The parts of a batch, each read by a thread.
ghost use denote.Param.Send.{IsSync};
ghost use Rattle.std.specs.Prelude.{◌≡◌, ◌<◌, ◌≤◌, length, IfSome};
ghost use Rattle.mds_table.specs.Json.{max_bytes};
ghost use Rattle.mds_pieces.specs.Pieces.{AreBetween, IsCut};

use crate::cut::cut_behind;
use crate::join::both;
use crate::piece::read_pieces;
use mds_batch::EventItems;
use std::alloc::Global;
use std::thread::{Threads, join};

/// The items between these places, read by so many threads: one half of them reads up to a place between, and the other one from
/// there on.
#[cycle(halves)]
pub(crate) fn read_part<R: Threads + Sync>(
    rt: &R,
    alloc: Global,
    bytes: &[u8],
    from: usize,
    to: usize,
    readers: usize,
) -> Option<EventItems>
    requires short { length bytes.now ≤ max_bytes }
    requires order { from ≤ to }
    requires cut { IsCut bytes.now to }
    ensures { IfSome result (AreBetween bytes.now from to) }
{
    if readers < 2 {
        return read_pieces(alloc, bytes, from, to);
    }
    let low = readers / 2;
    let high = readers - low;
    let middle = middle_of(bytes, from, to);
    let front = move || -> Option<EventItems>
        requires { IsSync R.row × (length bytes.now ≤ max_bytes) × (from ≤ middle) × IsCut bytes.now middle }
        ensures { IfSome result (AreBetween bytes.entry.now from middle) }
    { read_part(rt, alloc, bytes, from, middle, low) };
    let back = move || -> Option<EventItems>
        requires { IsSync R.row × (length bytes.now ≤ max_bytes) × (middle ≤ to) × IsCut bytes.now to }
        ensures { IfSome result (AreBetween bytes.entry.now middle to) }
    { read_part(rt, alloc, bytes, middle, to, high) };
    let (first, second) = join(rt, front, back);
    both(bytes, from, middle, to, first?, second?)
}

/// A cut half-way between these places.
fn middle_of(bytes: &[u8], from: usize, to: usize) -> usize
    requires order { from ≤ to }
    requires cut { IsCut bytes.now to }
    ensures cut { IsCut bytes.now result }
    ensures order { from ≤ result }
    ensures within { result ≤ to }
{
    cut_behind(bytes, from + (to - from) / 2).min(to)
}
