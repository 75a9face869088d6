//! What the commands do, over any readers and writers.
ghost use Rattle.std.specs.Prelude.{◌≡◌, ◌≢◌, List, IfOk, IfErr, OnOk};
ghost use Rattle.std.specs.Io.KnownBytes.{Appends};
ghost use Rattle.mds_batch.specs.declared.item.EventItem.{EventItem as Item};
ghost use Rattle.mds_trace.specs.declared.report.Report.{Report};
ghost use Rattle.mds_trace.specs.ReplayLaws.{AreOutcomes};
ghost use Rattle.mds_trace.specs.Replay.{IsReport};
ghost use Rattle.mds_trace.specs.WithFault.{IsWorkerCount};
ghost use Rattle.mds_commands.specs.Source.{HasItemsIn, ExplainsFile};
ghost use Rattle.mds_commands.specs.Files.{files_of};
ghost use Rattle.mds_commands.specs.Change.{change_of};
ghost use Rattle.mds_commands.specs.Text.{report_text};
ghost use Rattle.mds_commands.specs.Command.{CameToReplay, CameToTable, HasReport, ExplainsReplay, WentOut, Tabled, ExplainsPrint, TableWentOut, status_on};

use crate::print::{print_report, print_tables};
use crate::problem::{Problem, tell};
use crate::source::{Form, Source, each_item_in, items_by, tables_in};
use crate::status::Status;
use crate::stream::report_of_lines;
use mds_batch::EventItems;
use mds_io::OpenGate;
use mds_table::Tables;
use mds_trace::{Opening, Replayer, Report, WithFault, replay_items_with};
use std::alloc::Global;
use std::io::{Read, Write};
use std::thread::Threads;

/// What is asked of a replay.
#[derive(Clone, Copy, Debug, PartialEq, Eq)]
pub struct ReplayOptions {
    /// What the vehicles hold at first.
    pub opening: Opening,
    /// How the file has its items.
    pub form: Form,
    /// How many workers share the replay of a batch, 1 to [`mds_trace::MAX_WORKERS`]. Lines are replayed as they are read, by
    /// a single one.
    pub workers: usize,
}

/// Replays a file of events over the tables of a table file, or where none is given over the profile's, as the options say.
/// It prints a line for each item, a line for each vehicle, and the totals. It answers the status that the program ends
/// with: `Done` where each item was accepted, `Refused` where one was not, and else the one of the problem,
/// which is told to `faults` in one line: `Fault` for a file that can't be read, is no table, no batch or no lines of items,
/// or an output that fails, `NoMemory` for want of memory.
pub fn replay_to<P: Threads + Sync, T: Read + Drop, R: Read + Drop, W: Write, E: Write>(
    rt: &P,
    alloc: Global,
    table: Option<Source<'_, T>>,
    file: Source<'_, R>,
    options: ReplayOptions,
    out: &mut W,
    faults: &mut E,
) -> Status
    requires { IsWorkerCount options.workers }
    ensures { CameToReplay options (files_of T.remaining table.entry R.remaining file.entry) result
        (change_of (W.contents out.old) (W.contents out.new))
        (change_of (E.contents faults.old) (E.contents faults.new)) }
{
    match replay_into(rt, alloc, table, file, options, out) {
        Ok(refused) => status_on(refused),
        Err(problem) => tell(alloc, faults, problem),
    }
}

pub(crate) fn status_on(refused: usize) -> Status
    ensures { result ≡ status_on refused }
{
    if refused == 0 {
        Status::Done
    } else {
        Status::Refused
    }
}

fn replay_into<'a, P: Threads + Sync, T: Read + Drop, R: Read + Drop, W: Write>(
    rt: &P,
    alloc: Global,
    table: Option<Source<'a, T>>,
    file: Source<'a, R>,
    options: ReplayOptions,
    out: &mut W,
) -> Result<usize, Problem<'a>>
    requires { IsWorkerCount options.workers }
    ensures ok { IfOk result (λ refused. (report : Report)
        × HasReport options (files_of T.remaining table.entry R.remaining file.entry) report
        × Appends (W.contents out.old) (W.contents out.new) (report_text options.opening report)
        × (refused ≡ report.refused)) }
    ensures err { IfErr result (λ problem. ExplainsReplay options
        (files_of T.remaining table.entry R.remaining file.entry) problem
        × WentOut options (files_of T.remaining table.entry R.remaining file.entry) problem
        (W.contents out.old) (W.contents out.new)) }
{
    let report = report_on(rt, alloc, table, file, options)?;
    print_report(alloc, out, &report, options.opening)?;
    Ok(report.refused)
}

fn report_on<'a, P: Threads + Sync, T: Read + Drop, R: Read + Drop>(
    rt: &P,
    alloc: Global,
    table: Option<Source<'a, T>>,
    file: Source<'a, R>,
    options: ReplayOptions,
) -> Result<Report, Problem<'a>>
    requires { IsWorkerCount options.workers }
    ensures ok { IfOk result (HasReport options
        (files_of T.remaining table.entry R.remaining file.entry)) }
    ensures err { IfErr result (λ problem. ExplainsReplay options
        (files_of T.remaining table.entry R.remaining file.entry) problem
        × (problem ≢ Problem.Output)) }
{
    let tables = tables_in(alloc, table)?;
    let opening = options.opening;
    match options.form {
        Form::Lines => report_of_lines(alloc, tables, file, opening),
        Form::Batch if options.workers == 1 => report_of_batch(alloc, tables, file, opening),
        Form::Batch => {
            let items = items_by(rt, alloc, file, options.workers)?;
            report_of_items(rt, alloc, tables, &items, options)
        }
    }
}

/// The items are replayed as they are read: none is kept.
fn report_of_batch<'a, R: Read + Drop>(
    alloc: Global,
    tables: Tables,
    file: Source<'a, R>,
    opening: Opening,
) -> Result<Report, Problem<'a>>
    ensures ok { IfOk result (λ report. (items : List Item)
        × HasItemsIn Form.Batch R.remaining file.entry items
        × IsReport opening tables items report
        × (opening ≡ Opening.Removed → AreOutcomes tables items report.lines.items)) }
    ensures err { IfErr result (ExplainsFile Form.Batch R.remaining file.entry) }
{
    let mut replayer = Replayer::open(alloc, tables, opening);
    each_item_in(alloc, file, &mut replayer)?;
    Ok(replayer.finish()?)
}

fn report_of_items<'a, P: Threads + Sync>(
    rt: &P,
    alloc: Global,
    tables: Tables,
    items: &EventItems,
    options: ReplayOptions,
) -> Result<Report, Problem<'a>>
    requires { IsWorkerCount options.workers }
    ensures report { IfOk result (IsReport options.opening tables items.now) }
    ensures runs { IfOk result (λ report.
        options.opening ≡ Opening.Removed → AreOutcomes tables items.now report.lines.items) }
    ensures err { IfErr result (λ problem. problem ≡ Problem.Memory) }
{
    let opening = options.opening;
    match replay_items_with(
        rt,
        alloc,
        &tables,
        items,
        opening,
        options.workers,
        &OpenGate,
    ) {
        Ok(report) => Ok(report),
        Err(WithFault::Memory) => Err(Problem::Memory),
        Err(WithFault::BadWorkers) => unreachable!(),
    }
}

/// Prints the tables of a table file, or where none is given the profile's. It answers the status that the program ends
/// with: `Done`, or the one of the problem, which is told to `faults` in one line: `Fault` for a file that can't be
/// read or is no table, or an output that fails, `NoMemory` for want of memory.
pub fn table_to<T: Read + Drop, W: Write, E: Write>(
    alloc: Global,
    table: Option<Source<'_, T>>,
    out: &mut W,
    faults: &mut E,
) -> Status
    ensures { CameToTable T.remaining table.entry result
        (change_of (W.contents out.old) (W.contents out.new))
        (change_of (E.contents faults.old) (E.contents faults.new)) }
{
    match table_into(alloc, table, out) {
        Ok(()) => Status::Done,
        Err(problem) => tell(alloc, faults, problem),
    }
}

fn table_into<'a, T: Read + Drop, W: Write>(
    alloc: Global,
    table: Option<Source<'a, T>>,
    out: &mut W,
) -> Result<(), Problem<'a>>
    ensures ok { OnOk result (Tabled T.remaining table.entry (W.contents out.old)
        (W.contents out.new)) }
    ensures err { IfErr result (λ problem. ExplainsPrint T.remaining table.entry problem
        × TableWentOut T.remaining table.entry problem (W.contents out.old) (W.contents out.new)) }
{
    let tables = tables_in(alloc, table)?;
    print_tables(alloc, out, &tables)?;
    Ok(())
}
