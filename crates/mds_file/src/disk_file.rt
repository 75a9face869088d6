//! A file of the system. Each method makes one call of it, and then notes that call with its answer.
ghost use Rattle.std.specs.Prelude.{◌≡◌, ◌≤◌, ℕ, Bool, false, List, [], length, IfOk};
ghost use Rattle.mds_file.specs.Calls.{AreAnswers, IsSynced, LeftSince, Outcome};
ghost use Rattle.mds_file.specs.Calls.{contents, failures, moment_of, left_now, left_last};

use crate::record::Record;
use mds_journal::{Device, DeviceError};
use std::fs::File;
use std::io::{self, ErrorKind};
use std::marker::{Brand, PhantomData};
use std::os::unix::fs::FileExt;

/// Which call was made, in a record.
const MEASURE: u64 = 0;

const READ: u64 = 1;

const WRITE: u64 = 2;

const CUT: u64 = 3;

const SYNC: u64 = 4;

/// How it ended.
const FAILED: u64 = 0;

const DONE: u64 = 1;

/// How often a read that is interrupted is tried.
const MAX_TRIES: u32 = 5_000_000;

/// What a file had when it was opened, what its calls that failed have left, and what had the name of a new file. No code can
/// read it. So what is proved of a file holds whatever these are.
pub trait Origin {
    /// The bytes when it was opened, all of them on the disk.
    ghost first: { List ℕ };

    /// The bytes behind a write or a cut that failed, by the number of calls before it.
    ghost left: { ℕ → List ℕ };

    /// Whether something has the name of a new file, by the number of calls of the name before.
    ghost taken: { ℕ → Bool };
}

impl Origin for Brand {
    ghost first = { [] };

    ghost left = { λ _. [] };

    ghost taken = { λ _. false };
}

/// An open file of the system.
#[derive(Drop)]
pub struct DiskFile<O: Origin> {
    file: File,
    calls: Record,
    origin: PhantomData<O>,
}

impl<O: Origin> DiskFile<O> {
    ghost use Rattle.mds_file.specs.DiskFile.{calls_of};

    pub(crate) fn new(file: File) -> DiskFile<O>
        ensures { calls_of result ≡ [] }
    {
        DiskFile {
            file,
            calls: Record::new(),
            origin: PhantomData,
        }
    }
}

impl<O: Origin> Device for DiskFile<O> {
    ghost use Rattle.mds_file.specs.DiskFile.{calls_of};

    ghost seen = { λ f. contents O.first O.left (calls_of f) };

    ghost may_leave = { λ f. Outcome O.first O.left (calls_of f) };

    ghost moment = { λ f. moment_of (calls_of f) };

    ghost left_since = { λ f. LeftSince O.first O.left (calls_of f) };

    ghost faults = { λ f. failures (calls_of f) };

    ghost may_be_used = { λ f. IsSynced (calls_of f) };

    ghost is_true = { λ f. AreAnswers O.first O.left (calls_of f) };

    ghost counts_now = { λ f t c le now. left_now O.first O.left (calls_of f) t c le now };

    ghost only_now = { λ f c was. left_last O.first O.left (calls_of f) c was };

    fn size(&mut self) -> Result<usize, DeviceError> {
        match self.file.metadata() {
            Ok(found) => {
                let size = found.len();
                self.calls.note(&[MEASURE, DONE, size, 0], &[]);
                Ok(size as usize)
            }
            Err(_) => {
                self.calls.note(&[MEASURE, FAILED, 0, 0], &[]);
                Err(DeviceError::Failed)
            }
        }
    }

    fn read_at(&mut self, at: usize, buffer: &mut [u8]) -> Result<usize, DeviceError> {
        let (place, asked) = (at as u64, buffer.len() as u64);
        match read_some(&self.file, place, buffer) {
            Ok(count) => {
                self.calls
                    .note(&[READ, DONE, place, asked], &buffer[..count]);
                Ok(count)
            }
            Err(_) => {
                self.calls.note(&[READ, FAILED, place, asked], &[]);
                Err(DeviceError::Failed)
            }
        }
    }

    fn write_at(&mut self, at: usize, bytes: &[u8]) -> Result<(), DeviceError> {
        let place = at as u64;
        // It goes on behind a write that took a part, and makes one that was interrupted again.
        match self.file.write_all_at(bytes, place) {
            Ok(()) => {
                self.calls.note(&[WRITE, DONE, place, 0], bytes);
                Ok(())
            }
            Err(_) => {
                self.calls.note(&[WRITE, FAILED, place, 0], bytes);
                Err(DeviceError::Failed)
            }
        }
    }

    fn cut(&mut self, size: usize) -> Result<(), DeviceError> {
        let size = size as u64;
        match self.file.set_len(size) {
            Ok(()) => {
                self.calls.note(&[CUT, DONE, size, 0], &[]);
                Ok(())
            }
            Err(_) => {
                self.calls.note(&[CUT, FAILED, size, 0], &[]);
                Err(DeviceError::Failed)
            }
        }
    }

    fn sync(&mut self) -> Result<(), DeviceError> {
        match self.file.sync_data() {
            Ok(()) => {
                self.calls.note(&[SYNC, DONE, 0, 0], &[]);
                Ok(())
            }
            Err(_) => {
                self.calls.note(&[SYNC, FAILED, 0, 0], &[]);
                Err(DeviceError::Failed)
            }
        }
    }
}

/// A read that is interrupted is made again.
fn read_some(file: &File, at: u64, buffer: &mut [u8]) -> io::Result<usize>
    ensures { IfOk result (λ count. count ≤ length buffer.old) }
{
    for _ in 0..MAX_TRIES {
        match file.read_at(buffer, at) {
            Ok(count) => return Ok(count),
            Err(error) if error.kind() == ErrorKind::Interrupted => {}
            Err(error) => return Err(error),
        }
    }
    Err(ErrorKind::Interrupted.into())
}
