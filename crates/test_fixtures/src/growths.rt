//! Growths of memory that are refused to tests, by `tests/refused-growths`.
use mds_table::{Table, Tables};
use std::alloc::{AllocError, Global};

/// A growth of a size of its own: each growth between two of these is refused.
#[inline(never)]
pub fn fence(alloc: Global) -> Result<Vec<u8>, AllocError> {
    Vec::with_capacity(alloc, 12_347)
}

/// The profile's table, in force from 0 on.
pub fn profile(alloc: Global) -> Result<Tables, AllocError> {
    Tables::one(alloc, Table::profile(alloc)?)
}

/// The same, asked for again where a growth is refused.
pub fn profile_again(alloc: Global) -> Result<Tables, AllocError> {
    again!(profile(alloc))
}
