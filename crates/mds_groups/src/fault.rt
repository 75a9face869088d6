//! What is wrong with a file that is no journal of whole groups.
ghost use Rattle.std.specs.Prelude.{Some};
ghost use Rattle.mds_groups.specs.Fault.{group_fault_text};

use mds_journal::JournalFault;
use std::fmt;

/// Why a file is no journal of whole groups. A line is named by its number: the first one is 0.
#[derive(Clone, Copy, Debug, PartialEq, Eq)]
pub enum GroupFault {
    /// The group of lines that begins with this one isn't as it was written.
    Damaged(usize),
    /// What may be wrong with a journal that has no checks, too.
    Journal(JournalFault),
}

impl fmt::Display for GroupFault {
    ghost output = { λ fault. Some (group_fault_text fault) };

    fn fmt<W: fmt::Write>(&self, f: &mut fmt::Formatter<W>) -> fmt::Result {
        match self {
            GroupFault::Damaged(line) => write!(f, "damaged {line}"),
            GroupFault::Journal(fault) => write!(f, "{fault}"),
        }
    }
}
