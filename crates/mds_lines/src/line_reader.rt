//! Streams that are fed in pieces.
ghost use Rattle.std.specs.Prelude.{◌≡◌, ◌≤◌, ◌++◌, [], List, Some, None, length, IfErr, OnOk, Err};
ghost use Rattle.mds_table.specs.Json.{max_bytes};
ghost use Rattle.mds_batch.specs.declared.item.EventItem.{EventItem as Item};
ghost use Rattle.mds_lines.specs.declared.line_fault.LineFault.{LineFault as Fault};
ghost use Rattle.mds_lines.specs.Stream.{HasEndedItems, HasLineItems, HasLineFault, IsFaultyWith};
ghost use Rattle.mds_lines.specs.LineReading.{AreRead, TakesOn};

use crate::LineFault;
use crate::lines::Lines;
use mds_batch::{EventItem, TakesItems};
use mds_table::MAX_BYTES;
use std::alloc::Global;
use std::marker::Model;

/// A stream of lines that is fed in pieces. It keeps the bytes that it was fed, and no item: the item of each line goes to
/// a taker as the line ends.
#[derive(Drop)]
pub struct LineReader {
    bytes: Vec<u8>,
    lines: Lines,
    fault: Option<LineFault>,
}

impl Model for LineReader {
    ghost use Rattle.mds_lines.specs.Fed.{Fed};
    ghost use Rattle.mds_lines.specs.LineReading.{IsKept};

    ghost Value = { Fed };

    ghost view = { λ reader. record { bytes = reader.bytes.items; fault = reader.fault } };

    ghost invariant = { λ reader. IsKept reader.fault reader.bytes.items reader.lines.ended
        reader.lines.count reader.lines.taken };
}

impl LineReader {
    /// A stream of which nothing has come.
    pub fn open(alloc: Global) -> LineReader
        ensures { result ≡ record { bytes = []; fault = None } }
    {
        LineReader {
            bytes: Vec::new(alloc),
            lines: Lines::new(alloc),
            fault: None,
        }
    }

    /// Takes in the next bytes of the stream, and hands the items of the lines that end in them to a taker, in their
    /// order.
    ///
    /// # Errors
    ///
    /// The first fault of the stream, as far as it has come: every stream that begins so has it. It is told as soon as
    /// its line has ended, or its byte has come. Each later call answers it too. A taker that has no memory for an item
    /// is [`LineFault::Memory`]. The items of the lines before the fault may have been taken by then.
    pub fn feed<T: TakesItems<Item = EventItem>>(
        &mut self,
        piece: &[u8],
        taker: &mut T,
    ) -> Result<(), LineFault>
        ensures fed { OnOk result
            (self.new ≡ record { bytes = self.old.bytes ++ piece.now; fault = None }) }
        // A taker that had taken the items of the lines before has taken those of all lines that have ended.
        ensures taken { (before : T) (items : List Item)
            → HasEndedItems self.old.bytes items → T.took before items taker.old
            → (all : List Item)
            × T.took before all taker.new × OnOk result (HasEndedItems self.new.bytes all) }
        // Whatever the taker had taken, each line that has ended holds its item, and no byte is too many.
        ensures ended { OnOk result ((items : List Item) × HasEndedItems self.new.bytes items) }
        ensures whole { OnOk result (self.old.fault ≡ None) }
        ensures fault { IfErr result (IsFaultyWith (self.old.bytes ++ piece.now)) }
        ensures kept { IfErr result (λ fault. self.new.fault ≡ Some fault) }
        ensures again { (fault : Fault) → self.old.fault ≡ Some fault
            → (result ≡ Err fault) × (self.new ≡ self.old) × (taker.new ≡ taker.old) }
    {
        if let Some(fault) = self.fault {
            return Err(fault);
        }
        if let Err(fault) = feed(&mut self.bytes, &mut self.lines, piece, taker) {
            self.fault = Some(fault);
            return Err(fault);
        }
        Ok(())
    }

    /// Hands the item of the last line to a taker, if it has one and didn't end with a line feed: the stream ends here.
    ///
    /// # Errors
    ///
    /// The first fault of the stream.
    pub fn finish<T: TakesItems<Item = EventItem>>(self, taker: &mut T) -> Result<(), LineFault>
        ensures taken { (before : T) (items : List Item)
            → HasEndedItems self.bytes items → T.took before items taker.old
            → (all : List Item)
            × T.took before all taker.new × OnOk result (HasLineItems self.bytes all) }
        ensures whole { OnOk result (self.fault ≡ None) }
        ensures fault { IfErr result (HasLineFault self.bytes) }
        ensures again { (fault : Fault) → self.fault ≡ Some fault
            → (result ≡ Err fault) × (taker.new ≡ taker.old) }
    {
        if let Some(fault) = self.fault {
            return Err(fault);
        }
        let lines = self.lines;
        take_last(self.bytes.as_slice(), lines, taker)
    }
}

fn take_last<T: TakesItems<Item = EventItem>>(
    bytes: &[u8],
    mut lines: Lines,
    taker: &mut T,
) -> Result<(), LineFault>
    requires short { length bytes.now ≤ max_bytes }
    requires read { (items : List Item)
        × AreRead bytes.now lines.ended lines.count lines.taken items }
    ensures taken { (items : List Item)
        → AreRead bytes.now lines.ended lines.count lines.taken items
        → (all : List Item)
        × TakesOn T.took items taker.old all taker.new × OnOk result (HasLineItems bytes.now all) }
    ensures fault { IfErr result (HasLineFault bytes.now) }
{
    lines.take_last(bytes, taker)?;
    Ok(())
}

/// Of a piece that is too long one byte over the limit is kept.
fn feed<T: TakesItems<Item = EventItem>>(
    bytes: &mut Vec<u8>,
    lines: &mut Lines,
    piece: &[u8],
    taker: &mut T,
) -> Result<(), LineFault>
    requires short { length bytes.old.items ≤ max_bytes }
    requires read { (items : List Item)
        × AreRead bytes.old.items lines.old.ended lines.old.count lines.old.taken items }
    ensures fed { OnOk result (bytes.new.items ≡ bytes.old.items ++ piece.now) }
    ensures short { OnOk result (length bytes.new.items ≤ max_bytes) }
    ensures taken { (items : List Item)
        → AreRead bytes.old.items lines.old.ended lines.old.count lines.old.taken items
        → (all : List Item) × TakesOn T.took items taker.old all taker.new
        × OnOk result
        (AreRead bytes.new.items lines.new.ended lines.new.count lines.new.taken all) }
    ensures kept { IfErr result (IsFaultyWith bytes.new.items) }
    ensures fault { IfErr result (IsFaultyWith (bytes.old.items ++ piece.now)) }
{
    let from = bytes.len();
    let kept = piece.len().min(MAX_BYTES + 1 - from);
    if bytes.extend_from_slice(&piece[..kept]).is_err() {
        return Err(LineFault::Memory);
    }
    let to = bytes.len().min(MAX_BYTES);
    lines.read(&bytes[..to], from, taker)?;
    if bytes.len() > MAX_BYTES {
        return Err(LineFault::TooLong);
    }
    Ok(())
}
