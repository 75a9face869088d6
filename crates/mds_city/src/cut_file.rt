//! The file in which bytes are kept that are cut off a journal.
ghost use Rattle.std.specs.Prelude.{◌≡◌};

use mds_file::{NewFileFault, NewName, make_file};
use mds_follow::Aside;
use mds_io::{MAX_CALLS, write_all_of};
use mds_journal::DeviceError;
use std::alloc::Global;
use std::fmt::Write as _;
use std::io::Write;

/// What stands behind a journal's path in that of the file.
pub const CUT: &str = ".cut";

/// A new file for bytes that are cut off a journal, and where that is told.
#[derive(Drop)]
pub struct CutFile<N: NewName, W: Write> {
    pub alloc: Global,
    pub name: N,
    pub faults: W,
}

impl<N: NewName, W: Write> CutFile<N, W> {
    /// Tells how many bytes are cut off, in one line. Where that can't be told, it goes on.
    fn tell(&mut self, count: usize)
        ensures { self.new.name ≡ self.old.name }
    {
        let mut text = String::new(self.alloc);
        let mut calls = MAX_CALLS;
        if writeln!(text, "mds_city: {count} bytes cut").is_ok() {
            let _ = write_all_of(&mut self.faults, text.as_bytes(), &mut calls);
        }
    }
}

impl<N: NewName, W: Write> Aside for CutFile<N, W> {
    ghost use Rattle.std.specs.Prelude.{◌≡◌, ℕ, List, Option, Some};

    ghost stand = { λ own bytes. N.is_true own.name → (found : Option (List ℕ))
        → N.may_stand own.name found → found ≡ Some bytes };

    fn put(&mut self, bytes: &[u8]) -> Result<(), DeviceError> {
        match make_file(&mut self.name, bytes) {
            Ok(()) => {}
            Err(NewFileFault::Memory) => return Err(DeviceError::Memory),
            Err(NewFileFault::IsThere | NewFileFault::CannotWrite) => {
                return Err(DeviceError::Failed);
            }
        }
        self.tell(bytes.len());
        Ok(())
    }
}
