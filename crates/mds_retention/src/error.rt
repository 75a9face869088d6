//! Why a journal isn't compacted.
ghost use Rattle.std.specs.Prelude.{◌≡◌};

use mds_file::{FileFault, NewFileFault};
use mds_groups::{GroupError, GroupFault};
use std::alloc::{AllocError, AllocFailed};

/// Why the requests of a journal can't be read.
#[derive(Clone, Copy, Debug, PartialEq, Eq)]
pub enum LinesError {
    /// There was no memory.
    Memory,
    /// A read failed, or there are more than 2^62 lines.
    Read,
    /// The file is no journal.
    Fault(GroupFault),
    /// There are fewer lines than there were: the file was changed since.
    Changed,
}

impl From<AllocError> for LinesError {
    ghost use Rattle.mds_retention.specs.declared.error.LinesError.TheVariants.{Memory};

    ghost from_gives = { λ _ error. error ≡ Memory };

    fn from(_refused: AllocError) -> LinesError {
        LinesError::Memory
    }
}

impl<T: Drop> From<AllocFailed<T>> for LinesError {
    ghost use Rattle.mds_retention.specs.declared.error.LinesError.TheVariants.{Memory};

    ghost from_gives = { λ _ error. error ≡ Memory };

    fn from(_refused: AllocFailed<T>) -> LinesError {
        LinesError::Memory
    }
}

impl From<GroupError> for LinesError {
    ghost use Rattle.mds_retention.specs.Telling.{group_error};

    ghost from_gives = { λ cause error. error ≡ group_error cause };

    fn from(error: GroupError) -> LinesError {
        match error {
            GroupError::Memory => LinesError::Memory,
            GroupError::Fault(fault) => LinesError::Fault(fault),
        }
    }
}

/// Why a journal isn't compacted.
#[derive(Clone, Copy, Debug, PartialEq, Eq)]
pub enum CompactError {
    /// What the old one tells can't be read.
    Old(LinesError),
    /// There is no new one.
    New(NewFileFault),
    /// A vehicle of which events are to be cut isn't in the old one.
    NotThere,
}

impl From<AllocError> for CompactError {
    ghost use Rattle.mds_retention.specs.declared.error.LinesError.TheVariants.{Memory};
    ghost use Rattle.mds_retention.specs.declared.error.CompactError.TheVariants.{Old};

    ghost from_gives = { λ _ error. error ≡ Old Memory };

    fn from(_refused: AllocError) -> CompactError {
        CompactError::Old(LinesError::Memory)
    }
}

impl<T: Drop> From<AllocFailed<T>> for CompactError {
    ghost use Rattle.mds_retention.specs.declared.error.LinesError.TheVariants.{Memory};
    ghost use Rattle.mds_retention.specs.declared.error.CompactError.TheVariants.{Old};

    ghost from_gives = { λ _ error. error ≡ Old Memory };

    fn from(_refused: AllocFailed<T>) -> CompactError {
        CompactError::Old(LinesError::Memory)
    }
}

impl From<LinesError> for CompactError {
    ghost use Rattle.mds_retention.specs.declared.error.CompactError.TheVariants.{Old};

    ghost from_gives = { λ cause error. error ≡ Old cause };

    fn from(error: LinesError) -> CompactError {
        CompactError::Old(error)
    }
}

impl From<NewFileFault> for CompactError {
    ghost use Rattle.mds_retention.specs.declared.error.CompactError.TheVariants.{New};

    ghost from_gives = { λ cause error. error ≡ New cause };

    fn from(fault: NewFileFault) -> CompactError {
        CompactError::New(fault)
    }
}

impl From<FileFault> for CompactError {
    ghost use Rattle.mds_retention.specs.declared.error.LinesError.TheVariants.{Read};
    ghost use Rattle.mds_retention.specs.declared.error.CompactError.TheVariants.{Old};

    ghost from_gives = { λ _ error. error ≡ Old Read };

    fn from(_fault: FileFault) -> CompactError {
        CompactError::Old(LinesError::Read)
    }
}
