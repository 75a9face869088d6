//! A call of `mds_commands`.
ghost use Rattle.std.specs.Prelude.{◌≡◌, ◌∷◌, [], IfSome};
ghost use Rattle.mds_table.specs.Profile.{profile_rows};
ghost use Rattle.mds_commands.specs.Text.{table_text};

use mds_commands::{Source, Status, table_to};
use std::alloc::Global;

/// What the command `table` prints where no file is given: the profile's table.
pub fn profile_text(alloc: Global) -> Option<Vec<u8>>
    ensures { IfSome result (λ text. text.items ≡ table_text ((0, profile_rows) ∷ [])) }
{
    let no_file: Option<Source<'_, &[u8]>> = None;
    let (mut text, mut faults) = (Vec::new(alloc), Vec::new(alloc));
    match table_to(alloc, no_file, &mut text, &mut faults) {
        Status::Done => Some(text),
        _ => None,
    }
}
