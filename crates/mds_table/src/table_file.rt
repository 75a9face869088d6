//! Table files: JSON texts that stand for the rows of a table, in the form that [`crate::Table::from_json`] tells.
ghost use Rattle.std.specs.Prelude.{◌≡◌, List, map, option_map, Some, IfOk, IfErr};
ghost use Rattle.serde_json.specs.View.{view};
ghost use Rattle.mds_table.specs.declared.row.Row.{Row};
ghost use Rattle.mds_table.specs.RowSet.{AreSet};
ghost use Rattle.mds_table.specs.TableFile.{entries_in, AreTableOf, HasTable, HasFault, fault_text};
ghost use Rattle.mds_table.specs.Entry.{HasFaultIn};

use crate::entry::Entry;
use crate::json::{TextFault, value_of};
use crate::row_set::RowSet;
use serde_json::Value;
use std::alloc::{AllocError, Global};
use std::error::Error;
use std::fmt;

/// The most rows of a table.
pub const MAX_ROWS: usize = 4096;

/// The most types of a table.
pub const MAX_TABLE_TYPES: usize = 64;

/// Why a text is no table file. All but the first are looked for in this order, those of the entries entry by entry.
#[derive(Clone, Copy, Debug, PartialEq, Eq)]
pub enum TableFault {
    /// There is no memory to read it.
    Memory,
    /// It has more than [`crate::MAX_BYTES`] bytes.
    TooLong,
    /// It isn't UTF-8, or isn't JSON of at most 127 levels.
    NotJson,
    /// It isn't an object with a list `rows`.
    NotRows,
    /// The entry at this place isn't an object, or one of its three members is absent or not of its form.
    BadRow(usize),
    /// With this entry there are more than [`MAX_ROWS`] rows.
    TooManyRows,
    /// With this entry there are more than [`MAX_TABLE_TYPES`] types.
    TooManyTypes,
    /// The list `rows` is empty.
    Empty,
}

impl Error for TableFault {}

impl From<AllocError> for TableFault {
    ghost use Rattle.std.specs.Prelude.{◌≡◌};
    ghost use Rattle.mds_table.specs.declared.table_file.TableFault.TheVariants.{Memory};

    ghost from_gives = { λ _ fault. fault ≡ Memory };

    fn from(_refused: AllocError) -> TableFault {
        TableFault::Memory
    }
}

impl From<TextFault> for TableFault {
    ghost use Rattle.std.specs.Prelude.{◌≡◌};
    ghost use Rattle.mds_table.specs.TableFile.{of_text};

    ghost from_gives = { λ text fault. fault ≡ of_text text };

    fn from(fault: TextFault) -> TableFault {
        match fault {
            TextFault::Memory => TableFault::Memory,
            TextFault::TooLong => TableFault::TooLong,
            TextFault::NotJson => TableFault::NotJson,
        }
    }
}

impl fmt::Display for TableFault {
    ghost output = { λ fault. Some (fault_text fault) };

    fn fmt<W: fmt::Write>(&self, f: &mut fmt::Formatter<W>) -> fmt::Result {
        match self {
            TableFault::Memory => f.write_str("out of memory"),
            TableFault::TooLong => f.write_str("too_long"),
            TableFault::NotJson => f.write_str("not_json"),
            TableFault::NotRows => f.write_str("not_rows"),
            TableFault::BadRow(at) => write!(f, "bad_row {at}"),
            TableFault::TooManyRows => f.write_str("too_many_rows"),
            TableFault::TooManyTypes => f.write_str("too_many_types"),
            TableFault::Empty => f.write_str("empty"),
        }
    }
}

pub(crate) fn set_in_file(alloc: Global, text: &[u8]) -> Result<RowSet, TableFault>
    ensures rows { IfOk result
        (λ set. (rows : List Row) × HasTable text.now rows × AreSet rows set) }
    ensures fault { IfErr result (λ fault. HasFault text.now fault) }
{
    let value = value_of(alloc, text)?;
    let Some(entries) = entries_of(&value) else {
        return Err(TableFault::NotRows);
    };
    set_of_entries(alloc, entries)
}

pub(crate) fn entries_of(file: &Value) -> Option<&[Value]>
    ensures { option_map (λ entries. map view entries.now) result ≡ entries_in (view file.now) }
{
    Some(file.get("rows")?.as_array()?.as_slice())
}

pub(crate) fn set_of_entries(alloc: Global, entries: &[Value]) -> Result<RowSet, TableFault>
    ensures rows { IfOk result (λ set.
        (rows : List Row) × AreTableOf (map view entries.now) rows × AreSet rows set) }
    ensures fault { IfErr result (λ fault. HasFaultIn (map view entries.now) fault) }
{
    if entries.is_empty() {
        return Err(TableFault::Empty);
    }
    let mut set = RowSet::new(alloc);
    for (at, value) in entries.iter().enumerate() {
        let Some(entry) = Entry::of_value(value) else {
            return Err(TableFault::BadRow(at));
        };
        set.add(&entry)?;
        if set.count > MAX_ROWS {
            return Err(TableFault::TooManyRows);
        }
        if set.moves.len() > MAX_TABLE_TYPES {
            return Err(TableFault::TooManyTypes);
        }
    }
    Ok(set)
}
