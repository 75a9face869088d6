//! Why a server can't start over a journal.
ghost use Rattle.std.specs.Prelude.{◌≡◌};
ghost use Rattle.mds_follow.specs.Reading.{IsNoJournalFault, group_fault, line_fault};

use mds_book::RecordFault;
use mds_groups::{GroupError, GroupFault};
use mds_journal::{DeviceError, JournalFault, OpenError};
use std::alloc::AllocError;

/// Why a book isn't open over a journal.
#[derive(Clone, Copy, Debug, PartialEq, Eq)]
pub enum StartFault {
    /// There was no memory.
    Memory,
    /// The file can't be read or written, or its lines have more than 2^62 bytes.
    Device,
    /// The file is no journal of requests that the tables of the book accept.
    Journal(GroupFault),
    /// Another has asked the book, or written to the log: nobody does.
    Shared,
    /// A whole group stood behind the lines, and the tables don't accept it. It is cut off: the journal is to be opened again, over a
    /// new book.
    CutOff,
}

impl From<AllocError> for StartFault {
    ghost use Rattle.mds_follow.specs.declared.start_fault.StartFault.TheVariants.{Memory};

    ghost from_gives = { λ _ fault. fault ≡ Memory };

    fn from(_refused: AllocError) -> StartFault {
        StartFault::Memory
    }
}

impl From<DeviceError> for StartFault {
    ghost use Rattle.mds_follow.specs.Reading.{device_fault};

    ghost from_gives = { λ error fault. fault ≡ device_fault error };

    fn from(error: DeviceError) -> StartFault {
        match error {
            DeviceError::Memory => StartFault::Memory,
            DeviceError::Failed => StartFault::Device,
        }
    }
}

impl From<RecordFault> for StartFault {
    ghost use Rattle.mds_follow.specs.Reading.{record_fault};

    ghost from_gives = { λ error fault. fault ≡ record_fault error };

    fn from(fault: RecordFault) -> StartFault {
        match fault {
            RecordFault::Memory => StartFault::Memory,
            RecordFault::NotKept | RecordFault::Lost => StartFault::Device,
        }
    }
}

/// The fault of a line that can't be handed out, which has this number.
pub(crate) fn line_fault(error: OpenError, number: usize) -> StartFault
    ensures { result ≡ line_fault number error }
{
    match error {
        OpenError::Memory => StartFault::Memory,
        OpenError::Device(error) => StartFault::from(error),
        OpenError::TooLong => of_journal(JournalFault::TooLong(number)),
        OpenError::Full | OpenError::Damaged => StartFault::Device,
    }
}

/// The fault of a line that goes on with no group.
pub(crate) fn group_fault(error: GroupError) -> StartFault
    ensures { result ≡ group_fault error }
{
    match error {
        GroupError::Memory => StartFault::Memory,
        GroupError::Fault(fault) => StartFault::Journal(fault),
    }
}

/// What may be wrong with a journal that has no checks, too.
pub(crate) fn of_journal(fault: JournalFault) -> StartFault
    ensures { result ≡ StartFault.Journal (GroupFault.Journal fault) }
{
    StartFault::Journal(GroupFault::Journal(fault))
}

/// The fault where a call of the device failed before any line was read, or behind all of them.
pub(crate) fn call_fault(error: OpenError) -> StartFault
    ensures { IsNoJournalFault result }
{
    match error {
        OpenError::Memory => StartFault::Memory,
        OpenError::Device(error) => StartFault::from(error),
        OpenError::TooLong | OpenError::Full | OpenError::Damaged => StartFault::Device,
    }
}
