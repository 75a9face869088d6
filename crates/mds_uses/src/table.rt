//! A call of `mds_table`.
ghost use Rattle.std.specs.Prelude.{◌↔◌, Contains, IfErr, IfOk, IsTrue};
ghost use Rattle.mds_table.specs.Tables.{Tables as Timed, rows_at};
ghost use Rattle.mds_table.specs.TimedFile.{HasTables, HasTablesFault};

use mds_table::{Row, Tables, TablesFault};
use std::alloc::Global;

/// Whether the tables of a file have this row in force at this time.
pub fn is_in_force(alloc: Global, file: &[u8], time: u64, row: &Row) -> Result<bool, TablesFault>
    ensures is { IfOk result (λ is. (tables : Timed) × HasTables file.now tables
        × (IsTrue is ↔ Contains (rows_at tables time) row.now)) }
    ensures fault { IfErr result (HasTablesFault file.now) }
{
    let tables = Tables::from_json(alloc, file)?;
    Ok(tables.at(time).has_row(row.from, &row.kind, row.to))
}
