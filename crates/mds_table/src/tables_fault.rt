//! What is wrong with tables that change at stated times, and with files of them.
ghost use Rattle.std.specs.Prelude.{◌≡◌, Some};
ghost use Rattle.mds_table.specs.TimedFile.{of_table, tables_fault_text};

use crate::TableFault;
use crate::json::TextFault;
use std::alloc::AllocError;
use std::error::Error;
use std::fmt;

/// Why there are no tables that change at stated times: a text is no file of them, or starting times and tables may not
/// follow one another. The faults of the whole, but for `Memory`, are looked for first: `TooLong`, `NotJson`, `NotRows`,
/// `NoTables` and `TooManyTables`; then, table by table, `BadEntry`, `FirstNotZero`, `NotRising` and `InTable`.
#[derive(Clone, Copy, Debug, PartialEq, Eq)]
pub enum TablesFault {
    /// There is no memory for them.
    Memory,
    /// The text has more than [`crate::MAX_BYTES`] bytes.
    TooLong,
    /// The text isn't UTF-8, or isn't JSON of at most 127 levels.
    NotJson,
    /// The text isn't an object with a list `rows`, nor one without `rows` and with a list `tables`.
    NotRows,
    /// The rows of a table have a fault.
    InTable {
        /// The table's place in `tables`, or `None` for a file of `rows`.
        table: Option<usize>,
        /// The first fault of its rows.
        fault: TableFault,
    },
    /// There is no table.
    NoTables,
    /// There are more than [`crate::MAX_TABLES`] tables.
    TooManyTables,
    /// The entry at this place isn't an object with a time in `from_time` and a list in `rows`. Of tables that are there:
    /// it starts past [`crate::MAX_TIME`].
    BadEntry(usize),
    /// The first table doesn't start at 0.
    FirstNotZero,
    /// The table at this place, which is the first such, doesn't start after the one before.
    NotRising(usize),
}

impl Error for TablesFault {}

impl TablesFault {
    pub(crate) fn of_table(table: Option<usize>, fault: TableFault) -> TablesFault
        ensures { result ≡ of_table table fault }
    {
        match fault {
            TableFault::Memory => TablesFault::Memory,
            _ => TablesFault::InTable { table, fault },
        }
    }
}

impl From<AllocError> for TablesFault {
    ghost use Rattle.std.specs.Prelude.{◌≡◌};
    ghost use Rattle.mds_table.specs.declared.tables_fault.TablesFault.TheVariants.{Memory};

    ghost from_gives = { λ _ fault. fault ≡ Memory };

    fn from(_refused: AllocError) -> TablesFault {
        TablesFault::Memory
    }
}

impl From<TextFault> for TablesFault {
    ghost use Rattle.std.specs.Prelude.{◌≡◌};
    ghost use Rattle.mds_table.specs.TimedFile.{of_text};

    ghost from_gives = { λ text fault. fault ≡ of_text text };

    fn from(fault: TextFault) -> TablesFault {
        match fault {
            TextFault::Memory => TablesFault::Memory,
            TextFault::TooLong => TablesFault::TooLong,
            TextFault::NotJson => TablesFault::NotJson,
        }
    }
}

impl fmt::Display for TablesFault {
    ghost output = { λ fault. Some (tables_fault_text fault) };

    fn fmt<W: fmt::Write>(&self, f: &mut fmt::Formatter<W>) -> fmt::Result {
        match self {
            TablesFault::Memory => write!(f, "{}", TableFault::Memory),
            TablesFault::TooLong => write!(f, "{}", TableFault::TooLong),
            TablesFault::NotJson => write!(f, "{}", TableFault::NotJson),
            TablesFault::NotRows => write!(f, "{}", TableFault::NotRows),
            TablesFault::InTable { table, fault } => match table {
                None => write!(f, "{fault}"),
                Some(at) => write!(f, "table {at} {fault}"),
            },
            TablesFault::NoTables => f.write_str("no_tables"),
            TablesFault::TooManyTables => f.write_str("too_many_tables"),
            TablesFault::BadEntry(at) => write!(f, "bad_entry {at}"),
            TablesFault::FirstNotZero => f.write_str("first_not_zero"),
            TablesFault::NotRising(at) => write!(f, "not_rising {at}"),
        }
    }
}
