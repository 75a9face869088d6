//! A call of `mds_file`.
ghost use Rattle.std.specs.Prelude.{◌≡◌, length, IfOk};
ghost use Rattle.mds_file.specs.Calls.{AreAnswers};
ghost use Rattle.mds_file.specs.DiskFile.{calls_of};

use mds_file::{DiskFile, FileFault, Origin, open_file};
use mds_journal::Device;

/// Opens a file, and measures it. Where the system answers as a file that keeps what it is given, the number is that of the
/// bytes which the file had.
pub fn open_and_measure<O: Origin>(
    rt: &HostRuntime,
    path: &str,
) -> Result<(DiskFile<O>, usize), FileFault>
    ensures { IfOk result (λ opened. AreAnswers O.first O.left (calls_of opened.0)
        → opened.1 ≡ length O.first) }
{
    let mut file = open_file(rt, path)?;
    match file.size() {
        Ok(size) => Ok((file, size)),
        Err(_) => Err(FileFault::CannotRead),
    }
}
