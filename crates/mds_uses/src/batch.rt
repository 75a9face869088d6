//! A call of `mds_batch`.
ghost use Rattle.std.specs.Prelude.{◌≡◌, IfErr, IfOk, List, option_and_then, slice_get};
ghost use Rattle.mds_batch.specs.declared.item.EventItem.{EventItem as Item};
ghost use Rattle.mds_batch.specs.Asking.{event_fault};
ghost use Rattle.mds_batch.specs.Batch.{HasFault, HasItems};
ghost use Rattle.mds_batch.specs.Items.{IsEventItem};

use mds_batch::{BatchFault, BatchItem, ItemFault, read_events};
use std::alloc::Global;

/// What is wrong with the item at this place of a batch of events, if anything is.
pub fn fault_at(alloc: Global, text: &[u8], at: usize) -> Result<Option<ItemFault>, BatchFault>
    ensures item { IfOk result (λ found. (items : List Item)
        × HasItems IsEventItem text.now items
        × (found ≡ option_and_then event_fault (slice_get items at))) }
    ensures fault { IfErr result (HasFault text.now) }
{
    let items = read_events(alloc, text)?;
    Ok(items.get(at).and_then(|item| item.fault()))
}
