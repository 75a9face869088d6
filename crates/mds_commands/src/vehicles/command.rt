//! The command, over any reader, writers and table file.
ghost use Rattle.std.specs.Prelude.{◌≡◌, ◌⊎◌, List, IfOk, IfErr, OnOk};
ghost use Rattle.mds_table.specs.Json.{max_bytes};
ghost use Rattle.mds_journal.specs.Stream.{IsStream, most_of, unread_of};
ghost use Rattle.mds_core.specs.declared.request.Request.{Request};
ghost use Rattle.mds_commands.specs.Files.{files_of};
ghost use Rattle.mds_commands.specs.Change.{change_of};
ghost use Rattle.mds_commands.specs.Listing.{CameToListing, CameToTaken, Explains, ExplainsJournal, ExplainsJudging, HasHistory, IsTakenIn, Listed, ListingWentOut};
ghost use Rattle.mds_commands.specs.Gate.{HasMoreLines, HasNoneMore, IsHurtBehind, IsSoundUnless};

use crate::problem::Problem;
use crate::source::{Source, tables_in};
use crate::status::Status;
use crate::vehicles::gate::is_hurt;
use crate::vehicles::print::print_taken;
use crate::vehicles::problem::{JournalProblem, tell_journal_problem};
use crate::vehicles::taking::{TakeError, TakenJournal, roster_of};
use mds_groups::{GroupFault, JournalForm};
use mds_journal::LineStream;
use mds_table::Tables;
use std::alloc::Global;
use std::hash::RandomState;
use std::io::{Read, Write};
use std::random::RandomSource;

/// Lists the vehicles of a journal over the tables of a table file, or where none is given over the profile's: it prints a
/// line for each vehicle in the order of registration, and the totals. It answers the status that the program ends with:
/// `Done`, or the one of the problem, which is told to `faults` in one line: `Fault` for a file that can't be read, is no table
/// or no journal, where no random numbers are had, or an output fails; `NoMemory` for want of memory. Nothing is printed before
/// the file was read and each of its requests accepted.
///
/// Where the file is given `again`, a last line tells how many lines that count the journal has, and how many groups of requests; and
/// it's looked at what stands behind its closed gate: with a whole group there, and an open line behind that, the gate was open once, and
/// the journal is `Damaged` there. A server may open gates while the file is read: where it has more lines when it's read again, it isn't
/// damaged.
pub fn vehicles_to<P: RandomSource, T: Read + Drop, R: Read + Drop, W: Write, E: Write>(
    rt: &P,
    alloc: Global,
    table: Option<Source<'_, T>>,
    file: Source<'_, R>,
    again: Option<Source<'_, R>>,
    out: &mut W,
    faults: &mut E,
) -> Status
    ensures { CameToListing (files_of T.remaining table.entry R.remaining file.entry) again.entry result
        (change_of (W.contents out.old) (W.contents out.new))
        (change_of (E.contents faults.old) (E.contents faults.new)) }
{
    match vehicles_into(rt, alloc, table, file, again, out) {
        Ok(()) => Status::Done,
        Err(problem) => tell_journal_problem(alloc, faults, problem),
    }
}

fn vehicles_into<'a, P: RandomSource, T: Read + Drop, R: Read + Drop, W: Write>(
    rt: &P,
    alloc: Global,
    table: Option<Source<'a, T>>,
    file: Source<'a, R>,
    again: Option<Source<'a, R>>,
    out: &mut W,
) -> Result<(), JournalProblem<'a>>
    ensures ok { OnOk result (Listed (files_of T.remaining table.entry R.remaining file.entry)
        again.entry (W.contents out.old) (W.contents out.new)) }
    ensures err { IfErr result (λ problem.
        Explains (files_of T.remaining table.entry R.remaining file.entry) again.entry problem
        × ListingWentOut (files_of T.remaining table.entry R.remaining file.entry) again.entry problem
        (W.contents out.old) (W.contents out.new)) }
{
    let TakenJournal {
        taken,
        form,
        behind,
    } = taken_over(rt, alloc, table, file)?;
    let Some(again) = again else {
        print_taken(alloc, out, &taken, false)?;
        return Ok(());
    };
    see_gate(alloc, form, taken.lines, behind, again)?;
    print_taken(alloc, out, &taken, true)?;
    Ok(())
}

/// Sees that the gate behind the lines of a journal wasn't hurt.
///
/// # Errors
///
/// `NotAJournal` with `Damaged` where it was; `Other` with `CannotRead` or `Memory` where that can't be seen.
fn see_gate<'a, R: Read + Drop>(
    alloc: Global,
    form: JournalForm,
    lines: usize,
    behind: LineStream<R>,
    again: Source<'a, R>,
) -> Result<(), JournalProblem<'a>>
    requires stream { IsStream behind }
    requires limit { most_of behind ≡ max_bytes }
    ensures sound { OnOk result (IsSoundUnless (HasMoreLines R.remaining again.entry lines)
        form (unread_of R.remaining behind)) }
    ensures cause { IfErr result (λ problem. (problem ≡ JournalProblem.Other Problem.Memory)
        ⊎ (problem ≡ JournalProblem.Other (Problem.CannotRead again.entry.path))
        ⊎ ((problem ≡ JournalProblem.NotAJournal (GroupFault.Damaged lines))
        × IsHurtBehind form (unread_of R.remaining behind)
        × HasNoneMore R.remaining again.entry.reader lines)) }
{
    let path = again.path;
    match is_hurt(alloc, form, lines, behind, again.reader) {
        Ok(false) => Ok(()),
        Ok(true) => Err(JournalProblem::NotAJournal(GroupFault::Damaged(lines))),
        Err(TakeError::Memory) => Err(JournalProblem::Other(Problem::Memory)),
        Err(TakeError::Read | TakeError::Fault(_)) => {
            Err(JournalProblem::Other(Problem::CannotRead(path)))
        }
    }
}

/// Judges the requests of a journal over the tables of a table file, or where none is given over the profile's: each has to be
/// accepted.
///
/// # Errors
///
/// Those of [`vehicles_to`], but for an output that fails.
pub fn judge_journal<'a, P: RandomSource, T: Read + Drop, R: Read + Drop>(
    rt: &P,
    alloc: Global,
    table: Option<Source<'a, T>>,
    file: Source<'a, R>,
) -> Result<(), JournalProblem<'a>>
    ensures ok { OnOk result ((history : List Request)
        × HasHistory (files_of T.remaining table.entry R.remaining file.entry) history) }
    ensures err { IfErr result (ExplainsJudging
        (files_of T.remaining table.entry R.remaining file.entry)) }
{
    taken_over(rt, alloc, table, file)?;
    Ok(())
}

/// What the lines of a journal come to over the tables of a table file.
fn taken_over<'a, P: RandomSource, T: Read + Drop, R: Read + Drop>(
    rt: &P,
    alloc: Global,
    table: Option<Source<'a, T>>,
    file: Source<'a, R>,
) -> Result<TakenJournal<R>, JournalProblem<'a>>
    ensures ok { IfOk result
        (CameToTaken (files_of T.remaining table.entry R.remaining file.entry)) }
    ensures err { IfErr result (ExplainsJudging
        (files_of T.remaining table.entry R.remaining file.entry)) }
{
    let tables = tables_in(alloc, table)?;
    let Ok(hasher) = RandomState::new(rt) else {
        return Err(JournalProblem::Other(Problem::Random));
    };
    taken_in(alloc, tables, hasher, file)
}

fn taken_in<'a, R: Read + Drop>(
    alloc: Global,
    tables: Tables,
    hasher: RandomState,
    file: Source<'a, R>,
) -> Result<TakenJournal<R>, JournalProblem<'a>>
    ensures ok { IfOk result (IsTakenIn R.remaining file.entry tables) }
    ensures err { IfErr result (ExplainsJournal R.remaining file.entry tables) }
{
    let path = file.path;
    let Some(reader) = file.reader else {
        return Err(JournalProblem::Other(Problem::CannotRead(path)));
    };
    match roster_of(alloc, reader, tables, hasher) {
        Ok(taken) => Ok(taken),
        Err(TakeError::Memory) => Err(JournalProblem::Other(Problem::Memory)),
        Err(TakeError::Read) => Err(JournalProblem::Other(Problem::CannotRead(path))),
        Err(TakeError::Fault(fault)) => Err(JournalProblem::NotAJournal(fault)),
    }
}
