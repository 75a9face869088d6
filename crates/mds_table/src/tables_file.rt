//! Files of tables that change at stated times, in the form that [`crate::Tables::from_json`] tells.
ghost use Rattle.std.specs.Prelude.{◌≡◌, map, length, option_map, Some, IsSomeAnd, IfSome, IfOk, IfErr};
ghost use Rattle.serde_json.specs.View.{view};
ghost use Rattle.mds_table.specs.TableFile.{entries_in, AreTableOf};
ghost use Rattle.mds_table.specs.TimedFile.{listed_in, start_in, AreTablesOf, HasTables, HasTablesFault};
ghost use Rattle.mds_table.specs.TimedRead.{IsCount, IsTableFrom0, IsFileFault, IsListedFault, IsItemsFault, IsTableFault};

use crate::json::{time_of, value_of};
use crate::table_file::entries_of;
use crate::tables::{add, check_count, check_start};
use crate::{Table, Tables, TablesFault};
use serde_json::Value;
use std::alloc::Global;

pub(crate) fn tables_in_file(alloc: Global, text: &[u8]) -> Result<Tables, TablesFault>
    ensures tables { IfOk result (HasTables text.now) }
    ensures fault { IfErr result (HasTablesFault text.now) }
{
    let file = value_of(alloc, text)?;
    if file.get("rows").is_some() {
        one_table(alloc, &file)
    } else {
        listed_tables(alloc, &file)
    }
}

fn one_table(alloc: Global, file: &Value) -> Result<Tables, TablesFault>
    ensures table { IfOk result (IsTableFrom0 (entries_in (view file.now))) }
    ensures fault { IfErr result (IsFileFault (entries_in (view file.now))) }
{
    let Some(rows) = entries_of(file) else {
        return Err(TablesFault::NotRows);
    };
    let table = table_at(alloc, None, rows)?;
    Ok(Tables::one(alloc, table)?)
}

fn listed_tables(alloc: Global, file: &Value) -> Result<Tables, TablesFault>
    ensures tables { IfOk result (λ tables.
        IsSomeAnd (listed_in (view file.now)) (λ items. AreTablesOf items tables)) }
    ensures fault { IfErr result (IsListedFault (listed_in (view file.now))) }
{
    let Some(items) = items_of(file) else {
        return Err(TablesFault::NotRows);
    };
    check_count(items.len())?;
    tables_of_items(alloc, items)
}

fn items_of(file: &Value) -> Option<&[Value]>
    ensures { option_map (λ items. map view items.now) result ≡ listed_in (view file.now) }
{
    Some(file.get("tables")?.as_array()?.as_slice())
}

fn tables_of_items(alloc: Global, items: &[Value]) -> Result<Tables, TablesFault>
    requires { IsCount (length items.now) }
    ensures tables { IfOk result (AreTablesOf (map view items.now)) }
    ensures fault { IfErr result (IsItemsFault (map view items.now)) }
{
    let mut entries = Vec::with_capacity(alloc, items.len())?;
    let mut last = None;
    for (at, item) in items.iter().enumerate() {
        let Some((start, rows)) = parts_of(item) else {
            return Err(TablesFault::BadEntry(at));
        };
        check_start(at, last, start)?;
        let table = table_at(alloc, Some(at), rows)?;
        add(&mut entries, start, table)?;
        last = Some(start);
    }
    Ok(Tables::of_entries(entries))
}

fn parts_of(item: &Value) -> Option<(u64, &[Value])>
    ensures start { option_map (λ parts. parts.0) result ≡ start_in (view item.now) }
    ensures rows { IfSome result (λ parts.
        entries_in (view item.now) ≡ Some (map view parts.1.now)) }
{
    let start = time_of(item.get("from_time")?)?;
    Some((start, entries_of(item)?))
}

fn table_at(alloc: Global, at: Option<usize>, rows: &[Value]) -> Result<Table, TablesFault>
    ensures table { IfOk result (AreTableOf (map view rows.now)) }
    ensures fault { IfErr result (IsTableFault at (map view rows.now)) }
{
    match Table::of_entries(alloc, rows) {
        Ok(table) => Ok(table),
        Err(fault) => Err(TablesFault::of_table(at, fault)),
    }
}
