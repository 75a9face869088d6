//! The replay of lines without the limits of a batch: each verdict is printed as its line is read.
use crate::commands::status_on;
use crate::lines::{ItemLine, TotalLine};
use crate::print::add_vehicles;
use crate::problem::{Problem, tell};
use crate::source::{Source, tables_in};
use crate::status::Status;
use mds_io::{add_line, end_page, flush_page};
use mds_trace::{ItemsFault, LineFault, Opening, ReplayEnd, UnlimitedItems, UnlimitedReplay};
use std::alloc::Global;
use std::io::{Read, Write};

/// Replays the items of a file's lines, however many there are, over the tables of a table file, or where none is given over
/// the profile's. It prints what [`replay_to`](crate::replay_to) prints of them, the line of an item as it is read. So its
/// memory grows with the vehicles and the identifiers of their accepted events, and with nothing else. It answers the status
/// that the program ends with: `Done` where each item was accepted, `Refused` where one was not, and else the one of the
/// problem, which is told to `faults` in one line: `Fault` for a file that can't be read, is no table or no lines of items,
/// or an output that fails, `NoMemory` for want of memory. Before a problem of a line the lines of all items before it went
/// out.
pub fn replay_unlimited_to<T: Read + Drop, R: Read + Drop, W: Write, E: Write>(
    alloc: Global,
    table: Option<Source<'_, T>>,
    file: Source<'_, R>,
    opening: Opening,
    out: &mut W,
    faults: &mut E,
) -> Status {
    match replay_all(alloc, table, file, opening, out) {
        Ok(refused) => status_on(refused),
        Err(problem) => tell(alloc, faults, problem),
    }
}

fn replay_all<'a, T: Read + Drop, R: Read + Drop, W: Write>(
    alloc: Global,
    table: Option<Source<'a, T>>,
    file: Source<'a, R>,
    opening: Opening,
    out: &mut W,
) -> Result<usize, Problem<'a>> {
    let tables = tables_in(alloc, table)?;
    let path = file.path;
    let Some(reader) = file.reader else {
        return Err(Problem::CannotRead(path));
    };
    let mut items = UnlimitedItems::new(alloc, reader);
    let mut replay = UnlimitedReplay::open(alloc, tables, opening);
    let mut page = String::new(alloc);
    match add_verdicts(path, &mut items, &mut replay, out, &mut page) {
        Ok(()) => {}
        Err(Problem::Output) => return Err(Problem::Output),
        Err(problem) => {
            flush_page(out, &mut page)?;
            return Err(problem);
        }
    }
    let end = replay.finish()?;
    print_end(out, &mut page, &end, opening)?;
    Ok(end.refused)
}

/// Judges the items one by one, and lays the line of each out.
fn add_verdicts<'a, R: Read, W: Write>(
    path: &'a str,
    items: &mut UnlimitedItems<R>,
    replay: &mut UnlimitedReplay,
    out: &mut W,
    page: &mut String,
) -> Result<(), Problem<'a>> {
    for index in 0..usize::MAX {
        let item = match items.next_item() {
            Ok(Some(item)) => item,
            Ok(None) => return Ok(()),
            Err(fault) => return Err(problem_of(path, fault)),
        };
        let verdict = replay.take(item)?;
        add_line(out, page, &ItemLine { index, verdict })?;
    }
    Err(Problem::CannotRead(path))
}

fn problem_of(path: &str, fault: ItemsFault) -> Problem<'_> {
    match fault {
        ItemsFault::Memory => Problem::Memory,
        ItemsFault::Read => Problem::CannotRead(path),
        ItemsFault::TooLong => Problem::NotLines(LineFault::TooLong),
        ItemsFault::NotJson { line } => Problem::NotLines(LineFault::NotJson { line }),
    }
}

/// Prints the line of each vehicle, and the totals.
fn print_end<'a, W: Write>(
    out: &mut W,
    page: &mut String,
    end: &ReplayEnd,
    opening: Opening,
) -> Result<(), Problem<'a>> {
    add_vehicles(out, page, &end.vehicles, opening)?;
    let total = TotalLine {
        accepted: end.accepted,
        refused: end.refused,
    };
    end_page(out, page, &total)?;
    Ok(())
}
