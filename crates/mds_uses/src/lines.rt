//! A call of `mds_lines`.
ghost use Rattle.std.specs.Prelude.{◌++◌, IfErr, IfOk};
ghost use Rattle.mds_lines.specs.Stream.{HasLineFault, HasLineItems};

use mds_batch::EventItem;
use mds_lines::{LineFault, LineReader};
use std::alloc::Global;

/// The items of a stream of lines that comes in two pieces, wherever it is cut.
pub fn items_of(alloc: Global, front: &[u8], rest: &[u8]) -> Result<Vec<EventItem>, LineFault>
    ensures items { IfOk result (λ items. HasLineItems (front.now ++ rest.now) items.items) }
    ensures fault { IfErr result (HasLineFault (front.now ++ rest.now)) }
{
    let mut items = Vec::new(alloc);
    let mut reader = LineReader::open(alloc);
    reader.feed(front, &mut items)?;
    reader.feed(rest, &mut items)?;
    reader.finish(&mut items)?;
    Ok(items)
}
