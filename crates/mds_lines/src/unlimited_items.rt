//! The items of a reader's lines, one after the other, however many there are.
use crate::lines::is_blank;
use crate::unlimited_lines::{LineError, UnlimitedLines};
use mds_batch::{BatchFault, EventItem, ItemReader};
use std::alloc::Global;
use std::io::Read;

/// Why the next item can't be had.
#[derive(Clone, Copy, Debug, PartialEq, Eq)]
pub enum ItemsFault {
    /// There was no memory.
    Memory,
    /// A read failed, or the calls ran out.
    Read,
    /// A line has more than [`MAX_BYTES`](mds_table::MAX_BYTES) bytes.
    TooLong,
    /// A line isn't a text of JSON in UTF-8, or it nests lists and objects more than 127 deep.
    NotJson {
        /// The number of the line, from 0.
        line: usize,
    },
}

/// The items of a reader's lines, in their order. A line of spaces, tabs and carriage returns alone holds none, and is
/// counted like the others. The last line may end without a line feed.
///
/// It holds one line, one item and a piece of what comes next, whatever was before.
#[derive(Drop)]
pub struct UnlimitedItems<R: Read> {
    lines: UnlimitedLines<R>,
    line: Vec<u8>,
    /// The number of the line that comes next.
    number: usize,
    reader: ItemReader,
}

impl<R: Read> UnlimitedItems<R> {
    /// The items of all that a reader gives.
    pub fn new(alloc: Global, reader: R) -> UnlimitedItems<R> {
        UnlimitedItems {
            lines: UnlimitedLines::new(alloc, reader),
            line: Vec::new(alloc),
            number: 0,
            reader: ItemReader::new(alloc),
        }
    }

    /// The next item, or `None` where no line is left that holds one. It lies here until the next is asked for.
    ///
    /// # Errors
    ///
    /// [`ItemsFault::TooLong`] or [`ItemsFault::NotJson`] for the first line that isn't blank, [`ItemsFault::Read`] where a
    /// read failed, [`ItemsFault::Memory`]. Nothing should be asked for behind an error.
    pub fn next_item(&mut self) -> Result<Option<&EventItem>, ItemsFault> {
        if !self.find_line()? {
            return Ok(None);
        }
        match self.reader.read(&self.line) {
            Ok(item) => Ok(Some(item)),
            Err(BatchFault::Memory) => Err(ItemsFault::Memory),
            Err(BatchFault::TooLong) => Err(ItemsFault::TooLong),
            Err(_) => Err(ItemsFault::NotJson {
                line: self.number.saturating_sub(1),
            }),
        }
    }

    /// Goes on to the next line that isn't blank, and says whether there is one.
    fn find_line(&mut self) -> Result<bool, ItemsFault> {
        for _ in 0..u64::MAX {
            match self.lines.next_line(&mut self.line) {
                Ok(true) => self.number = self.number.saturating_add(1),
                Ok(false) => return Ok(false),
                Err(LineError::Memory) => return Err(ItemsFault::Memory),
                Err(LineError::Read) => return Err(ItemsFault::Read),
                Err(LineError::TooLong) => return Err(ItemsFault::TooLong),
            }
            if !is_blank(&self.line) {
                return Ok(true);
            }
        }
        Err(ItemsFault::Read)
    }
}
