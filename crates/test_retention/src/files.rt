//! Names and readers in memory.
use mds_file::{NewFileFault, NewName};
use mds_journal::Memory;
use std::alloc::Global;
use std::io;
use std::io::{ErrorKind, Read};

/// A reader that fails where its bytes end.
#[derive(Drop)]
pub(crate) struct Broken<'a> {
    pub(crate) bytes: &'a [u8],
}

impl Read for Broken<'_> {
    fn read(&mut self, buf: &mut [u8]) -> io::Result<usize> {
        if self.bytes.is_empty() {
            return Err(io::Error::from(ErrorKind::Other));
        }
        let count = self.bytes.len().min(buf.len());
        let (given, left) = self.bytes.split_at(count);
        buf[..count].copy_from_slice(given);
        self.bytes = left;
        Ok(count)
    }
}

/// The name of a file in memory. Its clauses say nothing.
#[derive(Drop)]
pub(crate) struct MemoryName {
    alloc: Global,
    made: Option<Memory>,
    is_taken: bool,
}

impl MemoryName {
    /// A name that is free, or taken.
    pub(crate) fn new(alloc: Global, is_taken: bool) -> MemoryName {
        MemoryName {
            alloc,
            made: None,
            is_taken,
        }
    }

    /// Whether a file was made under it, with these bytes.
    pub(crate) fn has(&self, bytes: &[u8]) -> bool {
        match &self.made {
            Some(file) => file.bytes() == bytes,
            None => false,
        }
    }
}

impl NewName for MemoryName {
    type File = Memory;

    ghost may_stand = { λ _ _. ⊥ };

    ghost is_true = { λ _. ⊥ };

    ghost keeps = { λ _. ⊥ };

    ghost is_taken = { λ _. ⊥ };

    ghost is_over = { λ _. ⊥ };

    fn is_free(&mut self) -> Result<(), NewFileFault> {
        if self.is_taken {
            return Err(NewFileFault::IsThere);
        }
        Ok(())
    }

    fn draft(&mut self) -> Result<Memory, NewFileFault> {
        Ok(Memory::new(self.alloc, b"what was left there")?)
    }

    fn link(&mut self, file: Memory) -> Result<(), NewFileFault> {
        self.made = Some(file);
        Ok(())
    }

    fn discard(&mut self, _file: Memory) {}
}
