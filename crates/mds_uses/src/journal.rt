//! A call of `mds_journal`.
ghost use Rattle.std.specs.Prelude.{◌≡◌, ◌++◌, ◌∷◌, [], IfSome, List, ℕ};
ghost use Rattle.mds_journal.specs.Lines.{recovered_texts};

use mds_journal::{Device, Group, Journal, read_all};
use std::alloc::Global;

/// Adds a text to a file, as a line behind those that it has. Each crash from then on leaves it there.
pub fn add_text<D: Device + Drop>(alloc: Global, file: D, text: &[u8]) -> Option<Journal<D>>
    requires { D.may_be_used file }
    ensures { IfSome result (λ journal. D.is_true journal.device
        → (left : List ℕ) → D.may_leave journal.device left
        → recovered_texts left ≡ recovered_texts (D.seen file) ++ text.now ∷ []) }
{
    let mut group = Group::new(alloc).ok()?;
    group.push(text).ok()?;
    let (mut journal, _) = read_all(alloc, file, 4096).ok()?;
    journal.append(&group).ok()?;
    Some(journal)
}
