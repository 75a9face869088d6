//! A file in memory, whose writes and cuts may be torn by a crash until they are synced.
ghost use Rattle.std.specs.Prelude.{◌≡◌, ◌≤◌, [], length, reverse, IfOk};
ghost use Rattle.mds_journal.specs.Device.{Holds};
ghost use Rattle.mds_journal.specs.Calls.{contents, Outcome, LeftSince, left_now, left_last};

use crate::{Device, DeviceError};
use std::alloc::{AllocError, Global};

/// A call that changes a file, or what a crash may leave of it.
#[derive(Drop)]
pub(crate) enum Call {
    /// These bytes were written at this offset.
    Write(usize, Vec<u8>),
    /// The file was cut to this size.
    Cut(usize),
    /// It was synced.
    Sync,
}

/// A file in memory, for tests, and to show that the contract of a [`Device`] can be met. It keeps all calls.
#[derive(Drop)]
pub struct Memory {
    alloc: Global,
    bytes: Vec<u8>,
    first: Vec<u8>,
    calls: Vec<Call>,
    ghost same: { bytes.items ≡ contents first.items (reverse calls.items) },
}

impl Memory {
    ghost use Rattle.mds_journal.specs.Memory.{memory_bytes};

    /// A file with these bytes, all of them on the disk.
    ///
    /// # Errors
    ///
    /// `AllocError` where there is no memory for them.
    pub fn new(alloc: Global, bytes: &[u8]) -> Result<Memory, AllocError>
        ensures { IfOk result (λ memory. memory_bytes memory ≡ bytes.now) }
    {
        let first = Vec::from_slice(alloc, bytes)?;
        let bytes = Vec::from_slice(alloc, bytes)?;
        Ok(Memory {
            alloc,
            bytes,
            first,
            calls: Vec::new(alloc),
        })
    }

    /// Its bytes.
    pub fn bytes(&self) -> &[u8]
        ensures { result.now ≡ memory_bytes self.now }
    {
        &self.bytes
    }
}

fn overwrite(alloc: Global, old: &[u8], at: usize, bytes: &[u8]) -> Result<Vec<u8>, AllocError>
    requires { at ≤ length old.now }
    ensures { IfOk result (λ next. Holds old.now at bytes.now next.items) }
{
    let mut next = Vec::from_slice(alloc, &old[..at])?;
    next.extend_from_slice(bytes)?;
    if bytes.len() < old.len() - at {
        next.extend_from_slice(&old[at + bytes.len()..])?;
    }
    Ok(next)
}

impl Device for Memory {
    ghost seen = { λ m. m.bytes.items };

    ghost may_leave = { λ m. Outcome m.first.items (reverse m.calls.items) };

    ghost moment = { λ m. length m.calls.items };

    ghost left_since = { λ m. LeftSince m.first.items m.calls.items };

    ghost faults = { λ m. 0 };

    ghost may_be_used = { λ m. Unit {0} };

    ghost is_true = { λ m. Unit {0} };

    ghost counts_now = { λ m t c le now. left_now m.first.items m.calls.items t c le now };

    ghost only_now = { λ m c left. left_last m.first.items m.calls.items c left };

    fn size(&mut self) -> Result<usize, DeviceError> {
        Ok(self.bytes.len())
    }

    fn read_at(&mut self, at: usize, buffer: &mut [u8]) -> Result<usize, DeviceError> {
        if at >= self.bytes.len() {
            return Ok(0);
        }
        let count = buffer.len().min(self.bytes.len() - at);
        buffer[..count].copy_from_slice(&self.bytes[at..at + count]);
        Ok(count)
    }

    fn write_at(&mut self, at: usize, bytes: &[u8]) -> Result<(), DeviceError> {
        let Ok(next) = overwrite(self.alloc, &self.bytes, at, bytes) else {
            return Err(DeviceError::Memory);
        };
        let Ok(kept) = Vec::from_slice(self.alloc, bytes) else {
            return Err(DeviceError::Memory);
        };
        if self.calls.push(Call::Write(at, kept)).is_err() {
            return Err(DeviceError::Memory);
        }
        self.bytes = next;
        Ok(())
    }

    fn cut(&mut self, size: usize) -> Result<(), DeviceError> {
        if self.calls.push(Call::Cut(size)).is_err() {
            return Err(DeviceError::Memory);
        }
        self.bytes.truncate(size);
        Ok(())
    }

    fn sync(&mut self) -> Result<(), DeviceError> {
        if self.calls.push(Call::Sync).is_err() {
            return Err(DeviceError::Memory);
        }
        Ok(())
    }
}
