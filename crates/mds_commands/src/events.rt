//! The command that prints the lines of a journal that tell an event of one vehicle.
//!
//! Nothing is printed before the whole file was read. No request is judged, and no lock taken: a file that is being written is
//! read up to the first gate that is closed.
ghost use Rattle.std.specs.Prelude.{◌≡◌, ◌⊎◌, IfOk, IfErr};
ghost use Rattle.mds_commands.specs.Change.{change_of};
ghost use Rattle.mds_commands.specs.Events.{CameToEvents, ExplainsEvents, HasEventsIn, TellsEvents, events_status_of};

use crate::debug::{DebugProblem, Named, tell_debug};
use crate::problem::{Problem, tell};
use crate::source::Source;
use crate::status::Status;
use crate::vehicles::{JournalProblem, tell_journal_problem};
use mds_groups::GroupFault;
use mds_io::{MAX_CALLS, write_all_of};
use mds_retention::{LinesError, events_of};
use std::alloc::Global;
use std::io::{Read, Write};

/// Why the events of a vehicle could not be printed.
#[derive(Clone, Copy, Debug)]
pub enum EventsProblem<'a> {
    /// The file is no journal.
    NotAJournal(GroupFault),
    /// What may hinder the debugger too; a vehicle isn't in the file where no line is about it.
    Debug(DebugProblem<'a>),
}

impl<'a> From<Problem<'a>> for EventsProblem<'a> {
    ghost use Rattle.mds_commands.specs.declared.debug.DebugProblem.TheVariants.{Other};
    ghost use Rattle.mds_commands.specs.declared.events.EventsProblem.TheVariants.{Debug};

    ghost from_gives = { λ problem more. more ≡ Debug (Other problem) };

    fn from(problem: Problem<'a>) -> Self {
        EventsProblem::Debug(DebugProblem::Other(problem))
    }
}

/// Prints the texts of a journal's lines that tell an event of a vehicle, a line each and in their order. It answers the status
/// that the program ends with: `Done`; `Refused` where no line is about the vehicle; `BadWords` where a word is no identifier;
/// `Fault` for a file that can't be read or is no journal, or an output that fails; `NoMemory` for want of memory. A problem is told
/// to `faults` in one line. The words are looked at first. Nothing is printed before the whole file was read.
pub fn events_to<R: Read + Drop, W: Write, E: Write>(
    alloc: Global,
    file: Source<'_, R>,
    named: Named<'_>,
    out: &mut W,
    faults: &mut E,
) -> Status
    ensures { CameToEvents R.remaining file.entry named.entry result
        (change_of (W.contents out.old) (W.contents out.new))
        (change_of (E.contents faults.old) (E.contents faults.new)) }
{
    match lines_named(alloc, file, named) {
        Ok(lines) => {
            let mut calls = MAX_CALLS;
            match write_all_of(out, &lines, &mut calls) {
                Ok(()) => Status::Done,
                Err(_) => tell(alloc, faults, Problem::Output),
            }
        }
        Err(problem) => tell_events(alloc, faults, problem),
    }
}

/// The lines of the events of the vehicle that is named.
fn lines_named<'a, R: Read + Drop>(
    alloc: Global,
    file: Source<'a, R>,
    named: Named<'a>,
) -> Result<Vec<u8>, EventsProblem<'a>>
    ensures ok { IfOk result (λ lines. HasEventsIn R.remaining file.entry named.entry lines.items) }
    ensures err { IfErr result (ExplainsEvents R.remaining file.entry named.entry) }
{
    let Some(key) = named.key() else {
        return Err(EventsProblem::Debug(DebugProblem::BadIdentifier));
    };
    let path = file.path;
    let Some(reader) = file.reader else {
        return Err(EventsProblem::from(Problem::CannotRead(path)));
    };
    match events_of(alloc, reader, key) {
        Ok(found) => match found {
            Some(lines) => Ok(lines),
            None => Err(EventsProblem::Debug(DebugProblem::NotInFile)),
        },
        Err(LinesError::Memory) => Err(EventsProblem::from(Problem::Memory)),
        Err(LinesError::Read | LinesError::Changed) => {
            Err(EventsProblem::from(Problem::CannotRead(path)))
        }
        Err(LinesError::Fault(fault)) => Err(EventsProblem::NotAJournal(fault)),
    }
}

/// Tells the problem in one line, and answers its status. Where there is no memory to lay the line out, the problem that is told is
/// that.
fn tell_events<E: Write>(alloc: Global, faults: &mut E, problem: EventsProblem<'_>) -> Status
    ensures { ((result ≡ events_status_of problem.entry)
        × TellsEvents (E.contents faults.old) (E.contents faults.new) problem.entry)
        ⊎ ((result ≡ Status.NoMemory) × TellsEvents (E.contents faults.old)
        (E.contents faults.new) (EventsProblem.Debug (DebugProblem.Other Problem.Memory))) }
{
    match problem {
        EventsProblem::NotAJournal(fault) => {
            tell_journal_problem(alloc, faults, JournalProblem::from(fault))
        }
        EventsProblem::Debug(problem) => tell_debug(alloc, faults, problem),
    }
}
