//! A journal that is read on while another process may add lines to it.
ghost use Rattle.std.specs.Prelude.{◌≡◌, ℕ, List, Option, None, IfOk, IsTrue, OnOk};
ghost use Rattle.mds_file.specs.Followed.{Grows, IsHeld, IsRest, WasHeld, follow_calls_in};

use crate::FileFault;
use crate::lock::may_be_opened;
use crate::record::Record;
use std::fs::{self, File, TryLockError};
use std::io::{Read, Seek, SeekFrom};
use std::thread;
use std::time::Duration;

/// How many milliseconds it is waited until a lock is tried again.
const PAUSE: u64 = 100;

/// Which call was made, in a record.
const LOCK: u64 = 0;

const LOOK: u64 = 1;

/// Whether the lock is had.
const OTHERS: u64 = 0;

const HAD: u64 = 1;

/// A journal that another process may add lines to.
pub trait Followed {
    /// What reads it from some byte on.
    type Rest: Read + Drop;

    /// The bytes that it had when it was looked at last, where they are known.
    ghost content: { Self → Option (List ℕ) };

    /// No other process has it, nor can have it.
    ghost left: { Self → Type 0 };

    /// None had it when it was looked at last: what it had then is all that ever comes.
    ghost is_all: { Self → Type 0 };

    /// What it has now, from this byte on.
    ///
    /// # Errors
    ///
    /// `CannotRead` where it can't be read, `Memory` where there is no memory.
    fn rest(&mut self, from: usize) -> Result<Self::Rest, FileFault>
        ensures rest { IfOk result (λ rest. IsRest from (content self.new) (Self.Rest.remaining rest)) }
        ensures grows { Grows (content self.old) (content self.new) }
        ensures all { OnOk result (left self.old → is_all self.new) };

    /// Whether no other process has it. Then none can have it until this value is dropped. Where one has it, that is told only a
    /// moment later.
    ///
    /// # Errors
    ///
    /// `CannotRead` where that isn't known, `Memory` where there is no memory.
    fn is_left(&mut self) -> Result<bool, FileFault>
        ensures same { content self.new ≡ content self.old }
        ensures left { IfOk result (λ is_left. IsTrue is_left → left self.new) };
}

/// A journal in a file of the system. No contract knows what the file has.
#[derive(Drop)]
pub struct FollowedFile {
    rt: HostRuntime,
    file: File,
    calls: Record,
}

impl FollowedFile {
    /// Opens the file of a path. A link is followed.
    ///
    /// # Errors
    ///
    /// `CannotRead` where it can't be opened, also as a folder, a pipe or a device; `Memory` where there is no memory.
    pub fn open(rt: HostRuntime, path: &str) -> Result<FollowedFile, FileFault> {
        if !may_be_opened(&rt, path)? {
            return Err(FileFault::CannotRead);
        }
        let file = fs::open(&rt, path)?;
        let calls = Record::new();
        Ok(FollowedFile { rt, file, calls })
    }
}

impl Followed for FollowedFile {
    type Rest = File;

    ghost content = { λ _. None };

    ghost left = { λ f. IsHeld (follow_calls_in f.calls.made) };

    ghost is_all = { λ f. WasHeld (follow_calls_in f.calls.made) };

    fn rest(&mut self, from: usize) -> Result<File, FileFault> {
        let mut rest = self.file.try_clone()?;
        rest.seek(SeekFrom::Start(from as u64))?;
        self.calls.note(&[LOOK, 0], &[]);
        Ok(rest)
    }

    fn is_left(&mut self) -> Result<bool, FileFault> {
        match self.file.try_lock() {
            Ok(()) => {
                self.calls.note(&[LOCK, HAD], &[]);
                Ok(true)
            }
            Err(TryLockError::WouldBlock) => {
                self.calls.note(&[LOCK, OTHERS], &[]);
                thread::sleep(&self.rt, Duration::from_millis(PAUSE));
                Ok(false)
            }
            Err(error) => Err(FileFault::from(error)),
        }
    }
}
