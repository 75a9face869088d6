//! The lines of a file, taken one by one: whether each fits behind those before it.
ghost use Rattle.std.specs.Prelude.{◌≡◌, ◌↔◌, [], ◌∷◌, ◌++◌, ℕ, List, length, map, IsTrue};
ghost use Rattle.std.specs.Bool.{OnTrue, OnFalse};
ghost use Rattle.mds_journal.specs.Lines.{open_lines};
ghost use Rattle.mds_check.specs.Crc.{after_bytes};
ghost use Rattle.mds_check.specs.Form.{IsText, IsChecked, IsCheckOf, HasTaken, behind_text, between_groups};

use crate::crc::{START, update, update_by_bytes};
use crate::form::{CHECK_BYTES, is_check};
use std::marker::Model;

/// How far the check of a group has come.
///
/// Contracts see its state and whether a text of the group has been taken, and say by these two
/// which lines have been taken in all: `HasTaken`.
#[derive(Debug, Drop)]
pub struct GroupCheck {
    state: u32,
    begun: bool,
}

impl Model for GroupCheck {
    ghost use Rattle.mds_check.specs.Form.{CheckState};

    ghost Value = { CheckState };

    ghost view = { λ check. record { state = check.state; begun = check.begun } };
}

impl GroupCheck {
    /// No line has been taken yet.
    pub fn new() -> GroupCheck
        ensures taken { HasTaken result [] }
        ensures start { result ≡ between_groups }
    {
        GroupCheck {
            state: START,
            begun: false,
        }
    }

    /// Takes a line, without its gate and its line feed, and says whether it fits behind those that
    /// have been taken. A text always does. A line that doesn't fit isn't taken: whatever came
    /// behind it, the lines wouldn't be checked.
    pub fn take(&mut self, line: &[u8]) -> bool
        ensures fits { OnTrue result ((lines : List (List ℕ))
            → HasTaken self.old lines → HasTaken self.new (lines ++ line.now ∷ [])) }
        ensures unfit { OnFalse result ((lines later : List (List ℕ))
            → HasTaken self.old lines → IsChecked (lines ++ line.now ∷ later) → ⊥) }
        ensures unchanged { OnFalse result (self.new ≡ self.old) }
        ensures text { IsText line.now
            → IsTrue result × (self.new ≡ behind_text self.old line.now) }
        ensures check { length line.now ≡ 20 → (IsTrue result ↔ IsCheckOf self.old line.now) }
        ensures ended { length line.now ≡ 20 → IsTrue result → self.new ≡ between_groups }
    {
        if line.len() != CHECK_BYTES {
            self.state = behind_text(self.state, line);
            self.begun = true;
            return true;
        }
        let fits = is_check(line, self.state ^ START);
        if fits {
            self.state = START;
            self.begun = false;
        }
        fits
    }

    /// Whether no group is begun: then the lines that have been taken are whole groups, and each
    /// check fits.
    pub fn is_between(&self) -> bool
        ensures { (lines : List (List ℕ))
            → HasTaken self.now lines → IsTrue result ↔ IsChecked lines }
    {
        !self.begun
    }
}

fn behind_text(state: u32, text: &[u8]) -> u32
    ensures { result ≡ after_bytes state (open_lines (text.now ∷ [])) }
{
    let gate = update_by_bytes(state, b" ");
    update_by_bytes(update(gate, text), b"\n")
}

/// Whether these are the lines of whole groups, and each check fits.
pub fn is_checked(lines: &[Vec<u8>]) -> bool
    ensures { IsTrue result ↔ IsChecked (map (λ line. line.items) lines.now) }
{
    let mut check = GroupCheck::new();
    for line in lines {
        if !check.take(line) {
            return false;
        }
    }
    check.is_between()
}
