//! A call of `mds_entries`.
ghost use Rattle.std.specs.Prelude.{◌≡◌, IfOk};

use mds_core::Request;
use mds_entries::{EntryFault, EntryReader};
use std::alloc::Global;

/// A request that is laid out as a line and read from it again: it is the same.
pub fn lay_out_and_read(alloc: Global, request: &Request) -> Result<Request, EntryFault>
    ensures { IfOk result (λ read. read ≡ request.now) }
{
    let mut writer = EntryReader::new(alloc);
    let line = writer.text_of(request)?;
    EntryReader::new(alloc).read(line.as_bytes())
}
