//! A whole batch.
ghost use Rattle.std.specs.Prelude.{◌≡◌, IfOk, IfErr, IfSome};
ghost use Rattle.mds_batch.specs.Items.{IsEventItem};
ghost use Rattle.mds_batch.specs.Batch.{HasItems, HasFault};

use crate::part::read_part;
use mds_batch::{BatchFault, BatchItems, EventItems, MAX_ITEMS, read_event_items};
use mds_table::MAX_BYTES;
use simdutf8::compat::from_utf8;
use std::alloc::Global;
use std::thread::Threads;

/// The events that a text of JSON lists, as [`read_event_items`] has them, close together, read by so many threads at once, as far
/// as threads can be made. One reads alone where the text begins with no bracket, or where a piece of it isn't as was guessed.
///
/// # Errors
///
/// Those of [`read_event_items`].
pub fn read_event_items_by<R: Threads + Sync>(
    rt: &R,
    alloc: Global,
    bytes: &[u8],
    readers: usize,
) -> Result<EventItems, BatchFault>
    ensures items { IfOk result (HasItems IsEventItem bytes.now) }
    ensures fault { IfErr result (HasFault bytes.now) }
{
    match read_parts(rt, alloc, bytes, readers) {
        Some(items) => Ok(items),
        None => read_event_items(alloc, bytes),
    }
}

/// The items of a batch that is as guessed.
fn read_parts<R: Threads + Sync>(
    rt: &R,
    alloc: Global,
    bytes: &[u8],
    readers: usize,
) -> Option<EventItems>
    ensures { IfSome result (HasItems IsEventItem bytes.now) }
{
    if bytes.len() > MAX_BYTES || bytes.len() < 2 || bytes[0] != b'[' {
        return None;
    }
    from_utf8(bytes).ok()?;
    let items = read_part(rt, alloc, bytes, 0, bytes.len(), readers)?;
    if items.count() > MAX_ITEMS {
        return None;
    }
    Some(items)
}
