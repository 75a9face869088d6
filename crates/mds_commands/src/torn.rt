//! What tells where notes don't fit.
ghost use Rattle.std.specs.Prelude.{◌≡◌, ◌+◌, ◌≤◌, ◌++◌, length, decimal};
ghost use Rattle.arrayvec.specs.ArrayString.{array_string_len};
ghost use Rattle.mds_commands.specs.Torn.{TellsTorn, torn_text};

use crate::Status;
use arrayvec::ArrayString;
use itoa::Buffer;
use mds_io::{MAX_CALLS, write_all_of};
use std::io::Write;

/// The most bytes of the line: its words, two numbers of at most 20 digits, the space between them and the line feed.
const MAX_LINE: usize = 57;

/// Tells, in one line, the shard, and the place in its history, that notes don't fit. It answers `Torn`, or `Fault` where
/// the writer failed. It takes no memory.
pub fn torn_to<E: Write>(faults: &mut E, shard: usize, place: usize) -> Status
    ensures { TellsTorn shard place result (E.contents faults.old) (E.contents faults.new) }
{
    let line = torn_line(shard, place);
    let mut calls = MAX_CALLS;
    match write_all_of(faults, line.as_bytes(), &mut calls) {
        Ok(()) => Status::Torn,
        Err(_) => Status::Fault,
    }
}

/// It takes no memory.
fn torn_line(shard: usize, place: usize) -> ArrayString<57>
    ensures { result.bytes ≡ torn_text shard place }
{
    let mut line = ArrayString::new();
    line.push_str("mds_city: torn ");
    add_number(&mut line, shard);
    line.push_str(" ");
    add_number(&mut line, place);
    line.push_str("\n");
    line
}

fn add_number(line: &mut ArrayString<57>, number: usize)
    requires { array_string_len line.old + 20 ≤ MAX_LINE }
    ensures bytes { line.new.bytes ≡ line.old.bytes ++ decimal number }
    ensures len { array_string_len line.new ≤ array_string_len line.old + 20 }
{
    let mut digits = Buffer::new();
    line.push_str(digits.format(number));
}
