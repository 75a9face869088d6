//! A call of `mds_check`.
ghost use Rattle.std.specs.Prelude.{◌≡◌, ◌↔◌, IsTrue};
ghost use Rattle.mds_check.specs.Crc.{crc32};
ghost use Rattle.mds_check.specs.Form.{check_text};

use mds_check::{checksum, form};

/// Whether a text is the check of these bytes.
pub fn fits(bytes: &[u8], text: &[u8]) -> bool
    ensures { IsTrue result ↔ (text.now ≡ check_text (crc32 bytes.now)) }
{
    form::is_check(text, checksum(bytes))
}
