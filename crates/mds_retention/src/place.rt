//! How far the lines of a journal were read.
ghost use Rattle.std.specs.Prelude.{◌≡◌, ◌+◌, ◌∷◌, [], length, IfOk, IfErr};
ghost use Rattle.mds_journal.specs.Lines.{open_lines};

use crate::error::LinesError;
use mds_groups::JournalForm;

/// How many bytes a line has beside its text: the gate and the line feed.
const BYTES_AROUND: usize = 2;

/// How far the lines of a journal were read.
#[derive(Clone, Copy, Debug, PartialEq, Eq)]
pub struct Place {
    /// What the lines are. It's known once all of them were read.
    pub form: JournalForm,
    /// How many bytes the lines have so far.
    pub bytes: usize,
    /// How many lines these are.
    pub lines: usize,
}

impl Place {
    /// Before the first line.
    pub(crate) fn start() -> Place
        ensures bytes { result.bytes ≡ 0 }
        ensures lines { result.lines ≡ 0 }
    {
        Place {
            form: JournalForm::Plain,
            bytes: 0,
            lines: 0,
        }
    }

    /// The place behind one line more.
    pub(crate) fn behind(self, text: &[u8]) -> Result<Place, LinesError>
        ensures bytes { IfOk result
            (λ next. next.bytes ≡ self.bytes + length (open_lines (text.now ∷ []))) }
        ensures lines { IfOk result (λ next. next.lines ≡ self.lines + 1) }
        ensures cause { IfErr result (λ error. error ≡ LinesError.Read) }
    {
        let Some(line) = text.len().checked_add(BYTES_AROUND) else {
            return Err(LinesError::Read);
        };
        let Some(bytes) = self.bytes.checked_add(line) else {
            return Err(LinesError::Read);
        };
        let Some(lines) = self.lines.checked_add(1) else {
            return Err(LinesError::Read);
        };
        Ok(Place {
            form: self.form,
            bytes,
            lines,
        })
    }
}
