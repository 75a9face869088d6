//! Why a command over a journal could not be carried out.
ghost use Rattle.std.specs.Prelude.{◌≡◌, ◌⊎◌};
ghost use Rattle.mds_commands.specs.JournalProblem.{journal_status_of, TellsJournal};

use crate::problem::{Problem, tell};
use crate::status::Status;
use mds_groups::GroupFault;
use mds_io::{MAX_CALLS, PrintError, write_all_of};
use std::alloc::Global;
use std::fmt::Write as _;
use std::io::Write;

/// Why a command over a journal could not be carried out.
#[derive(Clone, Copy, Debug)]
pub enum JournalProblem<'a> {
    /// The file is no journal.
    NotAJournal(GroupFault),
    /// What may hinder other commands too.
    Other(Problem<'a>),
}

impl<'a> From<Problem<'a>> for JournalProblem<'a> {
    ghost use Rattle.mds_commands.specs.declared.vehicles.problem.JournalProblem.TheVariants.{Other};

    ghost from_gives = { λ problem more. more ≡ Other problem };

    fn from(problem: Problem<'a>) -> Self {
        JournalProblem::Other(problem)
    }
}

impl From<GroupFault> for JournalProblem<'_> {
    ghost use Rattle.mds_commands.specs.declared.vehicles.problem.JournalProblem.TheVariants.{NotAJournal};

    ghost from_gives = { λ fault problem. problem ≡ NotAJournal fault };

    fn from(fault: GroupFault) -> Self {
        JournalProblem::NotAJournal(fault)
    }
}

impl From<PrintError> for JournalProblem<'_> {
    ghost use Rattle.mds_commands.specs.Problem.{written_problem};
    ghost use Rattle.mds_commands.specs.declared.vehicles.problem.JournalProblem.TheVariants.{Other};

    ghost from_gives = { λ fault problem. problem ≡ Other (written_problem fault) };

    fn from(fault: PrintError) -> Self {
        JournalProblem::Other(fault.into())
    }
}

/// Tells the problem in one line, and answers its status. Where there is no memory to lay the line out, the problem that is
/// told is that. Where the writer fails the status stays.
pub fn tell_journal_problem<E: Write>(
    alloc: Global,
    faults: &mut E,
    problem: JournalProblem<'_>,
) -> Status
    ensures { ((result ≡ journal_status_of problem.entry)
        × TellsJournal (E.contents faults.old) (E.contents faults.new) problem.entry)
        ⊎ ((result ≡ Status.NoMemory) × TellsJournal (E.contents faults.old)
        (E.contents faults.new) (JournalProblem.Other Problem.Memory)) }
{
    match problem {
        JournalProblem::NotAJournal(fault) => tell_fault(alloc, faults, fault),
        JournalProblem::Other(problem) => tell(alloc, faults, problem),
    }
}

fn tell_fault<E: Write>(alloc: Global, faults: &mut E, fault: GroupFault) -> Status
    ensures { ((result ≡ Status.Fault) × TellsJournal (E.contents faults.old)
        (E.contents faults.new) (JournalProblem.NotAJournal fault))
        ⊎ ((result ≡ Status.NoMemory) × TellsJournal (E.contents faults.old)
        (E.contents faults.new) (JournalProblem.Other Problem.Memory)) }
{
    let mut text = String::new(alloc);
    let mut calls = MAX_CALLS;
    match writeln!(text, "mds_city: not a journal: {fault}") {
        Ok(()) => {
            let _ = write_all_of(faults, text.as_bytes(), &mut calls);
            Status::Fault
        }
        // There is no memory to lay the line out.
        Err(_) => {
            let _ = write_all_of(faults, b"mds_city: out of memory\n", &mut calls);
            Status::NoMemory
        }
    }
}
