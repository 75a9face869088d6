//! Why a file isn't opened.
use std::fmt;
use std::fs::TryLockError;
use std::io::{self, ErrorKind};

/// Why a file isn't opened. Nothing of it was changed.
#[derive(Clone, Copy, Debug, PartialEq, Eq)]
pub enum FileFault {
    /// It can't be opened, made or read, or it is no regular file.
    CannotRead,
    /// Another process has it open, or this one.
    InUse,
    /// There was no memory.
    Memory,
}

impl fmt::Display for FileFault {
    ghost use Rattle.std.specs.Prelude.{Some};
    ghost use Rattle.mds_file.specs.Fault.{fault_text};

    ghost output = { λ fault. Some (fault_text fault) };

    fn fmt<W: fmt::Write>(&self, f: &mut fmt::Formatter<W>) -> fmt::Result {
        match self {
            FileFault::CannotRead => f.write_str("cannot read"),
            FileFault::InUse => f.write_str("in use"),
            FileFault::Memory => f.write_str("out of memory"),
        }
    }
}

impl From<io::Error> for FileFault {
    ghost use Rattle.std.specs.Prelude.{◌≡◌, ◌≢◌};
    ghost use Rattle.std.specs.IoError.{error_kind};
    ghost use Rattle.std.specs.declared.io.ErrorKind.TheVariants.{OutOfMemory};
    ghost use Rattle.mds_file.specs.declared.fault.FileFault.TheVariants.{CannotRead, Memory};

    ghost from_gives = { λ error fault. (error_kind error ≡ OutOfMemory → fault ≡ Memory)
        × (error_kind error ≢ OutOfMemory → fault ≡ CannotRead) };

    fn from(error: io::Error) -> FileFault {
        match error.kind() {
            ErrorKind::OutOfMemory => FileFault::Memory,
            _ => FileFault::CannotRead,
        }
    }
}

impl From<TryLockError> for FileFault {
    fn from(error: TryLockError) -> FileFault {
        match error {
            TryLockError::WouldBlock => FileFault::InUse,
            TryLockError::Error(error) => FileFault::from(error),
        }
    }
}
