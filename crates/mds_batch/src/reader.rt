//! Readers of events, which keep what they need for the next text.
ghost use Rattle.std.specs.Prelude.{IfOk, IfErr};
ghost use Rattle.mds_batch.specs.Items.{IsEventItem};
ghost use Rattle.mds_batch.specs.Batch.{HasItems, HasFault, IsItemText, HasItemFault};

use crate::batch::{each_item_by, text_of};
use crate::event::EventFields;
use crate::list::{ItemFields, ItemList};
use crate::tokens::read_whole;
use crate::{BatchFault, EventItem, EventItems};
use json::Scratch;
use std::alloc::Global;

/// A reader of texts of JSON that are an item of events each. What it needs to read one it keeps for the next.
pub struct ItemReader {
    scratch: Scratch,
    fields: EventFields,
    item: EventItem,
}

// By hand: crates above cite it.
impl Drop for ItemReader {
    fn drop(self) {
        let ItemReader {
            scratch: _,
            fields: _,
            item: _,
        } = self;
    }
}

impl ItemReader {
    /// A reader that has read nothing.
    pub fn new(alloc: Global) -> ItemReader {
        ItemReader {
            scratch: Scratch::new(alloc),
            fields: EventFields::new(),
            item: EventFields::no_object(),
        }
    }

    /// The item that a whole text is: the event that it reports, or what is wrong with it. A list is no object. It lies in
    /// the reader until the next text is read.
    ///
    /// # Errors
    ///
    /// [`BatchFault::TooLong`], else [`BatchFault::NotJson`]; [`BatchFault::Memory`] comes as soon as a growth is
    /// refused, and then says nothing of the bytes. The reader can be used again.
    pub fn read(&mut self, bytes: &[u8]) -> Result<&EventItem, BatchFault>
        ensures item { IfOk result (λ item. IsItemText IsEventItem bytes.now item.now) }
        ensures fault { IfErr result (HasItemFault bytes.now) }
    {
        let text = text_of(bytes)?;
        read_whole(text, &mut self.scratch, &mut self.fields, &mut self.item)?;
        Ok(&self.item)
    }
}

/// How many bytes a batch has at most whose room a reader keeps: as one of a hundred events. A longer one is rare, and its
/// room would stay with each reader.
const MAX_KEPT_BYTES: usize = 32_768;

/// A reader of batches of events. What it needs to read one it keeps for the next.
pub struct BatchReader {
    scratch: Scratch,
    list: ItemList<EventFields>,
}

// By hand: crates above cite it.
impl Drop for BatchReader {
    fn drop(self) {
        let BatchReader {
            scratch: _,
            list: _,
        } = self;
    }
}

impl BatchReader {
    /// A reader that has read nothing. It takes no memory.
    pub fn new(alloc: Global) -> BatchReader {
        BatchReader {
            scratch: Scratch::new(alloc),
            list: ItemList::new(),
        }
    }

    /// The events that a text of JSON lists, as [`read_event_items`](crate::read_event_items) has them.
    ///
    /// # Errors
    ///
    /// Those of [`read_event_items`](crate::read_event_items). The reader can be used again.
    pub fn read(&mut self, alloc: Global, bytes: &[u8]) -> Result<EventItems, BatchFault>
        ensures items { IfOk result (λ items. HasItems IsEventItem bytes.now items) }
        ensures fault { IfErr result (HasFault bytes.now) }
    {
        let mut items = EventItems::new(alloc);
        let read = each_item_by(&mut self.scratch, &mut self.list, bytes, &mut items);
        self.let_go(alloc, bytes.len());
        match read {
            Ok(()) => Ok(items),
            Err(fault) => Err(fault),
        }
    }

    /// Lets the room of a batch of so many bytes go, if it was long.
    fn let_go(&mut self, alloc: Global, len: usize) {
        if len > MAX_KEPT_BYTES {
            self.scratch = Scratch::new(alloc);
        }
    }
}

/// As [`ItemReader::read`], by a reader of its own.
pub fn read_item(alloc: Global, bytes: &[u8]) -> Result<EventItem, BatchFault>
    ensures item { IfOk result (IsItemText IsEventItem bytes.now) }
    ensures fault { IfErr result (HasItemFault bytes.now) }
{
    let mut reader = ItemReader::new(alloc);
    Ok(*reader.read(bytes)?)
}
