//! Printing a replay's report, and tables.
ghost use Rattle.std.specs.Prelude.{◌++◌, string_bytes, OnOk, OnErr};
ghost use Rattle.std.specs.Io.KnownBytes.{Appends};
ghost use Rattle.mds_io.specs.Page.{AppendsFront, Passes};
ghost use Rattle.mds_commands.specs.Text.{item_lines, vehicle_lines, report_text, heading, row_lines, rows_text, entry_text, table_text};

use crate::lines::{ItemLine, TotalLine, VehicleLine};
use crate::rows::{CountLine, FromLine, RowLine};
use mds_io::{PrintError, add_line, end_page, flush_page};
use mds_table::{Row, Table, Tables};
use mds_trace::{Opening, Report, VehicleEnd, Verdict};
use std::alloc::Global;
use std::io::Write;

/// Prints the report of a replay with this opening: a line an item, a line a vehicle, and the totals.
///
/// At an error a front of its text went out: `Memory` where there was none to lay a line out, `Device` where the writer
/// failed.
pub fn print_report<W: Write>(
    alloc: Global,
    writer: &mut W,
    report: &Report,
    opening: Opening,
) -> Result<(), PrintError>
    ensures ok { OnOk result (Appends (W.contents writer.old) (W.contents writer.new)
        (report_text opening report.now)) }
    ensures err { OnErr result (AppendsFront (W.contents writer.old) (W.contents writer.new)
        (report_text opening report.now)) }
{
    let mut page = String::new(alloc);
    add_items(writer, &mut page, &report.lines)?;
    add_vehicles(writer, &mut page, &report.vehicles, opening)?;
    let total = TotalLine {
        accepted: report.accepted,
        refused: report.refused,
    };
    end_page(writer, &mut page, &total)
}

fn add_items<W: Write>(
    writer: &mut W,
    page: &mut String,
    lines: &[Verdict],
) -> Result<(), PrintError>
    ensures ok { OnOk result (Passes (W.contents writer.old) (W.contents writer.new)
        (string_bytes page.old ++ item_lines 0 lines.now) (string_bytes page.new)) }
    ensures err { OnErr result (AppendsFront (W.contents writer.old) (W.contents writer.new)
        (string_bytes page.old ++ item_lines 0 lines.now)) }
{
    for (index, verdict) in lines.iter().enumerate() {
        let line = ItemLine {
            index,
            verdict: *verdict,
        };
        add_line(writer, page, &line)?;
    }
    Ok(())
}

pub(crate) fn add_vehicles<W: Write>(
    writer: &mut W,
    page: &mut String,
    ends: &[VehicleEnd],
    opening: Opening,
) -> Result<(), PrintError>
    ensures ok { OnOk result (Passes (W.contents writer.old) (W.contents writer.new)
        (string_bytes page.old ++ vehicle_lines opening ends.now) (string_bytes page.new)) }
    ensures err { OnErr result (AppendsFront (W.contents writer.old) (W.contents writer.new)
        (string_bytes page.old ++ vehicle_lines opening ends.now)) }
{
    for end in ends {
        add_line(writer, page, &VehicleLine { end, opening })?;
    }
    Ok(())
}

/// Prints tables: of one table a line a row, and their number; of several these of each, in order of time, behind a line
/// that says from when it is in force.
///
/// At an error a front of the text went out, as in [`print_report`]; `Memory` also where there was none for the rows.
pub fn print_tables<W: Write>(
    alloc: Global,
    writer: &mut W,
    tables: &Tables,
) -> Result<(), PrintError>
    ensures ok { OnOk result (Appends (W.contents writer.old) (W.contents writer.new)
        (table_text tables.now)) }
    ensures err { OnErr result (AppendsFront (W.contents writer.old) (W.contents writer.new)
        (table_text tables.now)) }
{
    let mut page = String::new(alloc);
    let count = tables.len();
    for at in 0..count {
        let Some((start, table)) = tables.entry(at) else {
            unreachable!();
        };
        add_table(alloc, writer, &mut page, count, start, table)?;
    }
    flush_page(writer, &mut page)
}

fn add_table<W: Write>(
    alloc: Global,
    writer: &mut W,
    page: &mut String,
    count: usize,
    start: u64,
    table: &Table,
) -> Result<(), PrintError>
    ensures ok { OnOk result (Passes (W.contents writer.old) (W.contents writer.new)
        (string_bytes page.old ++ entry_text count (start, table.now)) (string_bytes page.new)) }
    ensures err { OnErr result (AppendsFront (W.contents writer.old) (W.contents writer.new)
        (string_bytes page.old ++ entry_text count (start, table.now))) }
{
    add_heading(writer, page, count, start)?;
    let Ok(rows) = table.rows(alloc) else {
        return Err(PrintError::Memory);
    };
    add_counted(writer, page, &rows)
}

fn add_heading<W: Write>(
    writer: &mut W,
    page: &mut String,
    count: usize,
    start: u64,
) -> Result<(), PrintError>
    ensures ok { OnOk result (Passes (W.contents writer.old) (W.contents writer.new)
        (string_bytes page.old ++ heading count start) (string_bytes page.new)) }
    ensures err { OnErr result (AppendsFront (W.contents writer.old) (W.contents writer.new)
        (string_bytes page.old ++ heading count start)) }
{
    if count == 1 {
        return Ok(());
    }
    add_line(writer, page, &FromLine { start })
}

fn add_counted<W: Write>(writer: &mut W, page: &mut String, rows: &[Row]) -> Result<(), PrintError>
    ensures ok { OnOk result (Passes (W.contents writer.old) (W.contents writer.new)
        (string_bytes page.old ++ rows_text rows.now) (string_bytes page.new)) }
    ensures err { OnErr result (AppendsFront (W.contents writer.old) (W.contents writer.new)
        (string_bytes page.old ++ rows_text rows.now)) }
{
    add_rows(writer, page, rows)?;
    let count = CountLine { count: rows.len() };
    add_line(writer, page, &count)
}

fn add_rows<W: Write>(writer: &mut W, page: &mut String, rows: &[Row]) -> Result<(), PrintError>
    ensures ok { OnOk result (Passes (W.contents writer.old) (W.contents writer.new)
        (string_bytes page.old ++ row_lines rows.now) (string_bytes page.new)) }
    ensures err { OnErr result (AppendsFront (W.contents writer.old) (W.contents writer.new)
        (string_bytes page.old ++ row_lines rows.now)) }
{
    for row in rows {
        let line = RowLine { row };
        add_line(writer, page, &line)?;
    }
    Ok(())
}
