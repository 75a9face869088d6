//! The first line of a journal.
ghost use Rattle.std.specs.Prelude.{◌≡◌, ◌↔◌, IsTrue};
ghost use Rattle.mds_entries.specs.Form.{form_line};

/// What the first line names: the form and its version.
const FORM: &str = "{\"form\":\"mds_city\",\"version\":1}";

/// The text of the first line.
pub fn form_text() -> &'static str
    ensures { result.now ≡ form_line }
{
    FORM
}

/// Whether a line names this form and this version.
pub fn is_form(line: &[u8]) -> bool
    ensures { IsTrue result ↔ (line.now ≡ form_line) }
{
    line == FORM.as_bytes()
}
