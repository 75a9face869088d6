//! The lines of a stream that have ended, whose items are handed on.
ghost use Rattle.std.specs.Prelude.{◌≡◌, ◌<◌, ◌≤◌, ◌+◌, ◌∷◌, ◌++◌, [], List, ℕ, length, take, IfErr, OnOk};
ghost use Rattle.std.specs.List.{list_all};
ghost use Rattle.mds_table.specs.Json.{max_bytes};
ghost use Rattle.mds_batch.specs.declared.item.EventItem.{EventItem as Item};
ghost use Rattle.mds_batch.specs.Items.{IsEventItem};
ghost use Rattle.mds_batch.specs.Batch.{IsItemText, max_items};
ghost use Rattle.mds_lines.specs.Stream.{is_blank, HoldItems, IsFaultyWith};
ghost use Rattle.mds_lines.specs.LineReading.{AreRead, AreTaken, TakesOn, IsFaultOfLine, IsFaultyAtEnd};

use crate::LineFault;
use mds_batch::{BatchFault, EventItem, ItemReader, MAX_ITEMS, TakesItems};
use memchr::memchr;
use std::alloc::Global;

/// The lines that have ended, whose items were handed on, and the reader of the next ones.
#[derive(Drop)]
pub(crate) struct Lines {
    reader: ItemReader,
    /// How many items were handed on.
    pub(crate) taken: usize,
    /// Where the line begins that hasn't ended.
    pub(crate) ended: usize,
    /// How many lines have ended.
    pub(crate) count: usize,
}

impl Lines {
    pub(crate) fn new(alloc: Global) -> Lines
        ensures { AreRead [] result.ended result.count result.taken [] }
    {
        Lines {
            reader: ItemReader::new(alloc),
            taken: 0,
            ended: 0,
            count: 0,
        }
    }

    /// Reads on in these bytes from this place, up to which they are read, and hands on the items of the lines that end.
    pub(crate) fn read<T: TakesItems<Item = EventItem>>(
        &mut self,
        bytes: &[u8],
        from: usize,
        taker: &mut T,
    ) -> Result<(), LineFault>
        requires within { from ≤ length bytes.now }
        requires short { length bytes.now ≤ max_bytes }
        requires read { (items : List Item)
            × AreRead (take from bytes.now) self.old.ended self.old.count self.old.taken items }
        ensures taken { (items : List Item)
            → AreRead (take from bytes.now) self.old.ended self.old.count self.old.taken items
            → (all : List Item) × TakesOn T.took items taker.old all taker.new
            × OnOk result (AreRead bytes.now self.new.ended self.new.count self.new.taken all) }
        ensures fault { IfErr result (IsFaultyWith bytes.now) }
    {
        let mut next = from;
        while let Some(at) = memchr(b'\n', &bytes[next..]) {
            self.end_line(&bytes[..next + at], taker)?;
            next += at + 1;
        }
        Ok(())
    }

    fn end_line<T: TakesItems<Item = EventItem>>(
        &mut self,
        bytes: &[u8],
        taker: &mut T,
    ) -> Result<(), LineFault>
        requires short { length bytes.now < max_bytes }
        requires read { (items : List Item)
            × AreRead bytes.now self.old.ended self.old.count self.old.taken items }
        ensures taken { (items : List Item)
            → AreRead bytes.now self.old.ended self.old.count self.old.taken items
            → (all : List Item) × TakesOn T.took items taker.old all taker.new
            × OnOk result
            (AreRead (bytes.now ++ 10 ∷ []) self.new.ended self.new.count self.new.taken all) }
        ensures fault { IfErr result (IsFaultyWith (bytes.now ++ 10 ∷ [])) }
    {
        self.take_last(bytes, taker)?;
        self.ended = bytes.len() + 1;
        self.count += 1;
        Ok(())
    }

    pub(crate) fn take_last<T: TakesItems<Item = EventItem>>(
        &mut self,
        bytes: &[u8],
        taker: &mut T,
    ) -> Result<(), LineFault>
        requires short { length bytes.now ≤ max_bytes }
        requires read { (items : List Item)
            × AreRead bytes.now self.old.ended self.old.count self.old.taken items }
        ensures ended { self.new.ended ≡ self.old.ended }
        ensures count { self.new.count ≡ self.old.count }
        ensures taken { (items : List Item)
            → AreRead bytes.now self.old.ended self.old.count self.old.taken items
            → (all : List Item) × TakesOn T.took items taker.old all taker.new
            × OnOk result (AreTaken bytes.now self.old.ended self.old.count self.new.taken all) }
        ensures fault { IfErr result (IsFaultyAtEnd bytes.now) }
    {
        let from = self.ended;
        self.take(&bytes[from..], taker)?;
        Ok(())
    }

    fn take<T: TakesItems<Item = EventItem>>(
        &mut self,
        line: &[u8],
        taker: &mut T,
    ) -> Result<(), LineFault>
        requires short { length line.now ≤ max_bytes }
        requires few { self.old.taken ≤ max_items }
        ensures ended { self.new.ended ≡ self.old.ended }
        ensures count { self.new.count ≡ self.old.count }
        ensures taken { (lines : List (List ℕ)) (items : List Item)
            → HoldItems lines items → self.old.taken ≡ length items
            → (all : List Item) × TakesOn T.took items taker.old all taker.new
            × OnOk result (HoldItems (lines ++ line.now ∷ []) all × (self.new.taken ≡ length all)) }
        ensures fault { IfErr result (IsFaultOfLine self.old.count line.now self.old.taken) }
    {
        if is_blank(line) {
            return Ok(());
        }
        let item = match self.reader.read(line) {
            Ok(item) => item,
            Err(BatchFault::Memory) => return Err(LineFault::Memory),
            Err(_) => return Err(LineFault::NotJson { line: self.count }),
        };
        if self.taken == MAX_ITEMS {
            return Err(LineFault::TooMany);
        }
        if taker.take(item).is_err() {
            return Err(LineFault::Memory);
        }
        self.taken += 1;
        Ok(())
    }
}

pub(crate) fn is_blank(line: &[u8]) -> bool
    ensures { result ≡ is_blank line.now }
{
    line.iter()
        .all(|byte| *byte == b' ' || *byte == b'\t' || *byte == b'\r')
}
