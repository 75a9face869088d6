//! A call of `mds_io`.
ghost use Rattle.std.specs.Prelude.{take, IfSome};
ghost use Rattle.std.specs.Bool.{OnTrue};
ghost use Rattle.std.specs.Io.KnownBytes.{Appends};

use mds_io::{MAX_CALLS, read_front, write_all_of};
use std::alloc::Global;
use std::io::{Read, Write};

/// Writes the first `limit` bytes that a file has, or all of them, in [`MAX_CALLS`] calls at most.
pub fn copy_front<R: Read, W: Write>(alloc: Global, file: &mut R, limit: usize, out: &mut W) -> bool
    ensures { OnTrue result (IfSome (R.remaining file.old) (λ bytes.
        Appends (W.contents out.old) (W.contents out.new) (take limit bytes))) }
{
    let mut calls = MAX_CALLS;
    match read_front(alloc, file, limit, &mut calls) {
        Ok(front) => write_all_of(out, &front, &mut calls).is_ok(),
        Err(_) => false,
    }
}
