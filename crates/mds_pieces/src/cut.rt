//! Where a batch may be cut.
ghost use Rattle.std.specs.Prelude.{◌≡◌, ◌≤◌, length, min};
ghost use Rattle.mds_pieces.specs.Pieces.{IsCut};

use memchr::memchr;

/// The first place behind this one at which a comma stands behind a closing brace, or the number of bytes where there is none.
pub(crate) fn cut_behind(bytes: &[u8], from: usize) -> usize
    requires { from ≤ length bytes.now }
    ensures cut { IsCut bytes.now result }
    ensures behind { from ≤ result }
{
    let mut next = from;
    while let Some(at) = memchr(b'}', &bytes[next..]) {
        next += at + 1;
        if next < bytes.len() && bytes[next] == b',' {
            return next;
        }
    }
    bytes.len()
}
