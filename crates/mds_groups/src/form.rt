//! The forms of a journal, and its lines before the first group.
ghost use Rattle.std.specs.Prelude.{◌≡◌, ◌≢◌, [], ◌∷◌, IfSome, IfNone};
ghost use Rattle.mds_groups.specs.declared.form.JournalForm.{JournalForm as Form};
ghost use Rattle.mds_groups.specs.declared.form.JournalForm.TheVariants.{Checked};
ghost use Rattle.mds_groups.specs.Form.{check_of, first_line};

use mds_check::checksum;
use mds_check::form::{CHECK_BYTES, check_text};
use mds_entries::{form_text, is_form};

/// What the first line names where groups are checked: the form, and its second version.
const CHECKED: &str = "{\"form\":\"mds_city\",\"version\":2}";

/// The same as it stands in a file.
const CHECKED_LINE: &[u8] = b" {\"form\":\"mds_city\",\"version\":2}\n";

/// What the lines of a journal are. Its first line names it.
#[derive(Clone, Copy, Debug, PartialEq, Eq)]
pub enum JournalForm {
    /// Version 1: no line is a check.
    Plain,
    /// Version 2: the lines stand in groups, and the last line of each is its check. The first line and its check are one.
    Checked,
}

impl JournalForm {
    /// The text of the first line.
    pub fn first_line(self) -> &'static str
        ensures { result.now ≡ first_line self }
    {
        match self {
            JournalForm::Plain => form_text(),
            JournalForm::Checked => CHECKED,
        }
    }

    /// The form that a line names, if it names one.
    pub fn of_line(line: &[u8]) -> Option<JournalForm>
        ensures some { IfSome result (λ form. line.now ≡ first_line form) }
        ensures none { IfNone result ((form : Form) → line.now ≢ first_line form) }
    {
        if is_form(line) {
            Some(JournalForm::Plain)
        } else if line == CHECKED.as_bytes() {
            Some(JournalForm::Checked)
        } else {
            None
        }
    }
}

/// The text of the second line where groups are checked: the check of the first.
pub fn form_check() -> [u8; CHECK_BYTES]
    ensures { result ≡ check_of (first_line Checked ∷ []) }
{
    check_text(checksum(CHECKED_LINE))
}
