//! The file of a path, which is opened or made, and locked.
ghost use Rattle.std.specs.Prelude.{◌≡◌, [], IfOk};
ghost use Rattle.mds_file.specs.DiskFile.{calls_of};

use crate::{DiskFile, FileFault, Origin};
use std::fs::{self, File, OpenOptions};
use std::io::{self, ErrorKind};
use std::os::fd::AsRawFd;
use std::os::unix::fs::MetadataExt;

/// The highest descriptor of the standard streams.
const LAST_STREAM: i32 = 2;

/// Opens the file of a path for reading and writing, and makes it where there is none. A link is followed.
///
/// It is locked, and stays so until it is dropped: who opens it meanwhile is told `InUse`. What an earlier process wrote is
/// put on the disk, and so is its name in its folder.
///
/// # Errors
///
/// `InUse` where another has it, `Memory` where there is no memory, else `CannotRead`: so of a folder, a pipe or a device
/// too. The bytes of the file are as they were.
pub fn open_file<O: Origin>(rt: &HostRuntime, path: &str) -> Result<DiskFile<O>, FileFault>
    ensures { IfOk result (λ file. calls_of file ≡ []) }
{
    let file = locked_file(rt, path)?;
    settle(rt, path, &file)?;
    Ok(DiskFile::new(file))
}

/// The file of a path, under its lock.
fn locked_file(rt: &HostRuntime, path: &str) -> Result<File, FileFault> {
    if !may_be_opened(rt, path)? {
        return Err(FileFault::CannotRead);
    }
    let file = OpenOptions::new()
        .read(true)
        .write(true)
        .create(true)
        .open(rt, path)?;
    let file = above_streams(file)?;
    file.try_lock()?;
    if !stands_at(rt, path, &file)? {
        return Err(FileFault::CannotRead);
    }
    Ok(file)
}

/// Whether a regular file stands at a path, or nothing. To open a device can do something, and to open a pipe can wait.
pub(crate) fn may_be_opened(rt: &HostRuntime, path: &str) -> io::Result<bool> {
    match fs::metadata(rt, path) {
        Ok(found) => Ok(found.is_file()),
        Err(error) if error.kind() == ErrorKind::NotFound => Ok(true),
        Err(error) => Err(error),
    }
}

/// Whether a file is a regular one, and the one that stands at a path: another may have come there since it was opened.
pub(crate) fn stands_at(rt: &HostRuntime, path: &str, file: &File) -> io::Result<bool> {
    let (found, named) = (file.metadata()?, fs::metadata(rt, path)?);
    Ok(found.is_file() && found.dev() == named.dev() && found.ino() == named.ino())
}

/// The same file under a descriptor of its own. Where a standard stream was closed the system gives a file its number, and
/// what is printed would go into the file.
pub(crate) fn above_streams(file: File) -> io::Result<File> {
    if file.as_raw_fd() > LAST_STREAM {
        return Ok(file);
    }
    file.try_clone()
}

/// Puts all that was written to a file on the disk, and its name in its folder. A sync that failed may have left the system
/// with other bytes than the disk: so its copies are dropped, and what is read then is what the disk has.
fn settle(rt: &HostRuntime, path: &str, file: &File) -> io::Result<()> {
    file.sync_all()?;
    let advised = libc::posix_fadvise(file.as_raw_fd(), 0, 0, libc::POSIX_FADV_DONTNEED);
    if advised != 0 {
        return Err(io::Error::from_raw_os_error(advised));
    }
    sync_folder(rt, path)
}

/// Puts the name of a file on the disk, in its folder.
pub(crate) fn sync_folder(rt: &HostRuntime, path: &str) -> io::Result<()> {
    let mut folder = fs::canonicalize(rt, path)?;
    folder.pop();
    File::open(rt, folder.as_str())?.sync_all()
}
