//! The pieces of a batch, each read as a batch of its own.
ghost use Rattle.std.specs.Prelude.{◌≡◌, ◌<◌, ◌≤◌, ◌+◌, ◌-◌, ◌++◌, ◌∷◌, [], length, take, drop, IfSome, OnOk, if◌then◌else◌};
ghost use Rattle.mds_table.specs.Json.{max_bytes};
ghost use Rattle.mds_pieces.specs.Pieces.{AreBetween, IsCut};

use crate::cut::cut_behind;
use crate::join::both;
use mds_batch::{BatchItems, BatchReader, EventItems};
use std::alloc::{AllocError, Global};

/// How many bytes a piece has at least, but for the last of a part. A thread holds the text of one piece at a time. With some events
/// more it is a batch whose room a reader keeps for the next one.
const PIECE: usize = 28_672;

/// Makes the text of a piece: it stands between brackets. The last piece has its closing one.
fn put_text(text: &mut Vec<u8>, piece: &[u8], is_last: bool) -> Result<(), AllocError>
    ensures { OnOk result (text.new.items
        ≡ 91 ∷ (piece.now ++ (if is_last then [] else 93 ∷ []))) }
{
    text.clear();
    text.push(b'[')?;
    text.extend_from_slice(piece)?;
    if !is_last {
        text.push(b']')?;
    }
    Ok(())
}

/// The items between these places. There are none where the piece is no batch, or has no items.
fn read_piece(
    alloc: Global,
    bytes: &[u8],
    from: usize,
    to: usize,
    text: &mut Vec<u8>,
    reader: &mut BatchReader,
) -> Option<EventItems>
    requires order { from < to }
    requires cut { IsCut bytes.now to }
    ensures { IfSome result (AreBetween bytes.now from to) }
{
    if to - from < 2 {
        return None;
    }
    put_text(text, &bytes[from + 1..to], to == bytes.len()).ok()?;
    let items = reader.read(alloc, text).ok()?;
    let count = items.count();
    if count == 0 {
        return None;
    }
    Some(items)
}

/// The items between these places, read piece by piece.
#[tactic(auto, using(crate::proofs::Between::none_between))]
pub(crate) fn read_pieces(alloc: Global, bytes: &[u8], from: usize, to: usize) -> Option<EventItems>
    requires short { length bytes.now ≤ max_bytes }
    requires order { from ≤ to }
    requires cut { IsCut bytes.now to }
    ensures { IfSome result (AreBetween bytes.now from to) }
{
    let mut items = EventItems::new(alloc);
    let (mut text, mut reader) = (Vec::new(alloc), BatchReader::new(alloc));
    let mut begin = from;
    while begin < to {
        let end = end_of(bytes, begin, to);
        let more = read_piece(alloc, bytes, begin, end, &mut text, &mut reader)?;
        items = both(bytes, from, begin, end, items, more)?;
        begin = end;
    }
    Some(items)
}

/// Where the piece ends that begins at this place, up to the end of the part.
fn end_of(bytes: &[u8], begin: usize, to: usize) -> usize
    requires order { begin < to }
    requires short { length bytes.now ≤ max_bytes }
    requires cut { IsCut bytes.now to }
    ensures cut { IsCut bytes.now result }
    ensures behind { begin < result }
    ensures within { result ≤ to }
{
    if to - begin <= PIECE {
        return to;
    }
    cut_behind(bytes, begin + PIECE).min(to)
}
