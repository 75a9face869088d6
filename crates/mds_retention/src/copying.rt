//! The texts that stay, copied as they stand.
ghost use Rattle.std.specs.Prelude.{◌≡◌, ℕ, List, [], length, OnOk, IfErr};
ghost use Rattle.mds_retention.specs.Draft.{IsDraftOf};
ghost use Rattle.mds_retention.specs.Copying.{HasKept};
ghost use Rattle.mds_retention.specs.Compacting.{IsWriteFault};

use crate::draft::Draft;
use crate::error::{CompactError, LinesError};
use crate::texts::TextLines;
use mds_journal::Device;
use std::alloc::Global;
use std::io::Read;

/// Writes the texts of a reader's lines that are marked, as they stand. The first mark is that of the first request. What stands
/// behind the group of the last one that has a mark isn't looked at.
///
/// # Errors
///
/// `Old` with `Fault` where the first line names no form, a group isn't as it was written, or a line is too long; with `Changed`
/// where there are fewer texts than marks; with `Read` and `Memory`. `New` where the texts can't be written.
pub fn kept_lines<R: Read + Drop, D: Device + Drop>(
    alloc: Global,
    reader: R,
    marks: &[bool],
    draft: &mut Draft<D>,
) -> Result<(), CompactError>
    requires usable { D.may_be_used draft.old.file }
    requires draft { IsDraftOf D.seen D.may_leave D.is_true [] draft.old }
    ensures usable { OnOk result (D.may_be_used draft.new.file) }
    ensures kept { OnOk result ((texts : List (List ℕ))
        × HasKept (R.remaining reader) marks.now texts
        × IsDraftOf D.seen D.may_leave D.is_true texts draft.new) }
    ensures fault { IfErr result (IsWriteFault (R.remaining reader) (length marks.now)) }
{
    let mut lines = TextLines::open(alloc, reader);
    for mark in marks {
        if !lines.next()? {
            return Err(CompactError::Old(LinesError::Changed));
        }
        draft.add_text_if(*mark, lines.text())?;
    }
    Ok(())
}
