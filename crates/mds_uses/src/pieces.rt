//! A call of `mds_pieces`.
ghost use Rattle.std.specs.Prelude.{◌≡◌, IfOk};

use mds_batch::{BatchFault, EventItems, read_event_items};
use mds_pieces::read_event_items_by;
use std::alloc::Global;
use std::thread::Threads;

/// The items of a batch, as one thread reads them and as two do: they are the same.
pub fn read_twice<R: Threads + Sync>(
    rt: &R,
    alloc: Global,
    text: &[u8],
) -> Result<(EventItems, EventItems), BatchFault>
    ensures { IfOk result (λ read. read.0 ≡ read.1) }
{
    let alone = read_event_items(alloc, text)?;
    let shared = read_event_items_by(rt, alloc, text, 2)?;
    Ok((alone, shared))
}
