//! The command that makes a new journal of an old one.
ghost use Rattle.std.specs.Prelude.{◌≡◌, ◌⊎◌, ℕ, List, None, Some, ⊤, IfOk, IfErr, MatchOption};
ghost use Rattle.mds_city.specs.CompactText.{compacted_text};
ghost use Rattle.mds_commands.specs.Change.{change_of};
ghost use Rattle.mds_city.specs.Outcome.{outcome_of};
ghost use Rattle.mds_city.specs.Compact.{CameToCompact, Compacts, ExplainsCompact, IsProblemOf, TellsCompact, compact_status_of};

use crate::compacted::print_compacted;
use crate::program::Opens;
use mds_commands::{
    DebugProblem, JournalProblem, Problem, Status, tell_debug, tell_journal_problem,
};
use mds_compact::Cut;
use mds_file::{NewFileFault, NewName};
use mds_io::{MAX_CALLS, write_all_of};
use mds_retention::{CompactError, Compacted, LinesError, Readings, compact};
use std::alloc::{AllocError, Global};
use std::fmt::Write as _;
use std::hash::RandomState;
use std::io::Write;
use std::random::RandomSource;

/// What makes new files.
pub trait MakesFiles {
    /// The name of a file that is to be made.
    type New: NewName + Drop;

    // what may be the name that is this path
    ghost names_file: { Self → List ℕ → Self.New → Type 0 } = { λ _ _ _. ⊤ };

    /// The name that is this path. Nothing is done yet.
    ///
    /// # Errors
    ///
    /// `AllocError` where there is no memory for it.
    fn new_file(&self, alloc: Global, path: &str) -> Result<Self::New, AllocError>
        ensures named { IfOk result (names_file self.now path.now) };
}

/// What is asked of a compaction.
#[derive(Clone, Copy, Debug)]
pub struct CompactAsked<'a> {
    /// The path of the old journal.
    pub old: &'a str,
    /// The path of the new one.
    pub new: &'a str,
    /// The time from which on all events stay that the cuts leave.
    pub before: u64,
    /// The vehicles of which the first events alone stay.
    pub cuts: &'a [Cut],
}

/// Why a journal isn't compacted.
#[derive(Clone, Copy, Debug)]
pub(crate) enum CompactProblem<'a> {
    /// Something stands at the new file's path.
    IsThere(&'a str),
    /// The new file of this path can't be made or written.
    CannotWrite(&'a str),
    /// A vehicle of which events are to be cut isn't in the old file.
    NotInFile,
    /// What may hinder other commands over a journal too.
    Journal(JournalProblem<'a>),
}

impl<'a> From<Problem<'a>> for CompactProblem<'a> {
    ghost use Rattle.mds_commands.specs.declared.vehicles.problem.JournalProblem.TheVariants as journal;
    ghost use Rattle.mds_city.specs.declared.compact.CompactProblem.TheVariants.{Journal};

    ghost from_gives = { λ problem more. more ≡ Journal (journal.Other problem) };

    fn from(problem: Problem<'a>) -> Self {
        CompactProblem::Journal(JournalProblem::Other(problem))
    }
}

impl From<AllocError> for CompactProblem<'_> {
    ghost use Rattle.mds_commands.specs.declared.problem.Problem.TheVariants.{Memory};
    ghost use Rattle.mds_commands.specs.declared.vehicles.problem.JournalProblem.TheVariants as journal;
    ghost use Rattle.mds_city.specs.declared.compact.CompactProblem.TheVariants.{Journal};

    ghost from_gives = { λ _ problem. problem ≡ Journal (journal.Other Memory) };

    fn from(_refused: AllocError) -> Self {
        CompactProblem::Journal(JournalProblem::Other(Problem::Memory))
    }
}

/// Makes a new journal of an old one, without events that are to be cut, and without those before a time that no state needs; and
/// prints how many stay. It
/// answers the status that the program ends with; a problem is told to `faults` in one line. Where it isn't `Done`, nothing stands
/// under the new path that didn't stand there before, but where the output failed, or the disk may have failed.
pub fn compact_to<P: RandomSource, O: Opens + MakesFiles, W: Write, E: Write>(
    rt: &P,
    alloc: Global,
    files: &O,
    asked: CompactAsked<'_>,
    out: &mut W,
    faults: &mut E,
) -> Status
    ensures { CameToCompact
        (record {
          opener = record { opens = O.opens files.now; bytes = O.File.remaining };
          maker = record {
            names = O.names_file files.now;
            may_stand = O.New.may_stand;
            is_true = O.New.is_true;
            keeps = O.New.keeps;
            is_taken = O.New.is_taken;
            is_over = O.New.is_over;
          };
        })
        asked.entry
        (outcome_of result
        (change_of (W.contents out.old) (W.contents out.new))
        (change_of (E.contents faults.old) (E.contents faults.new))) }
{
    match compact_file(rt, alloc, files, asked) {
        Ok(compacted) => match print_compacted(alloc, out, &compacted) {
            Ok(()) => Status::Done,
            Err(fault) => tell_journal_problem(alloc, faults, JournalProblem::from(fault)),
        },
        Err(problem) => tell_compact_problem(alloc, faults, problem),
    }
}

/// Makes the new journal.
fn compact_file<'a, P: RandomSource, O: Opens + MakesFiles>(
    rt: &P,
    alloc: Global,
    files: &O,
    asked: CompactAsked<'a>,
) -> Result<Compacted, CompactProblem<'a>>
    ensures ok { IfOk result (Compacts
        (record {
          opener = record { opens = O.opens files.now; bytes = O.File.remaining };
          maker = record {
            names = O.names_file files.now;
            may_stand = O.New.may_stand;
            is_true = O.New.is_true;
            keeps = O.New.keeps;
            is_taken = O.New.is_taken;
            is_over = O.New.is_over;
          };
        }) asked.entry) }
    ensures err { IfErr result (ExplainsCompact
        (record {
          opener = record { opens = O.opens files.now; bytes = O.File.remaining };
          maker = record {
            names = O.names_file files.now;
            may_stand = O.New.may_stand;
            is_true = O.New.is_true;
            keeps = O.New.keeps;
            is_taken = O.New.is_taken;
            is_over = O.New.is_over;
          };
        }) asked.entry) }
{
    let readings = readings_of(files, asked.old);
    let Ok(hasher) = RandomState::new(rt) else {
        return Err(CompactProblem::from(Problem::Random));
    };
    let Some(readings) = readings else {
        return Err(CompactProblem::from(Problem::CannotRead(asked.old)));
    };
    let mut name = files.new_file(alloc, asked.new)?;
    match compact(alloc, readings, asked.before, asked.cuts, hasher, &mut name) {
        Ok(compacted) => Ok(compacted),
        Err(error) => Err(problem_of(error, asked.old, asked.new)),
    }
}

/// The file of a path, opened once for each reading.
pub(crate) fn readings_of<O: Opens>(files: &O, path: &str) -> Option<Readings<O::File>>
    ensures { MatchOption result (O.opens files.now path.now None) (λ readings.
        O.opens files.now path.now (Some readings.first)
        × O.opens files.now path.now (Some readings.second)
        × O.opens files.now path.now (Some readings.third)
        × O.opens files.now path.now (Some readings.fourth)) }
{
    let first = files.open(path)?;
    let second = files.open(path)?;
    let third = files.open(path)?;
    let fourth = files.open(path)?;
    Some(Readings {
        first,
        second,
        third,
        fourth,
    })
}

/// The problem that an error of a compaction is.
pub(crate) fn problem_of<'a>(error: CompactError, old: &'a str, new: &'a str) -> CompactProblem<'a>
    ensures { IsProblemOf old.now new.now error result }
{
    match error {
        CompactError::Old(LinesError::Fault(fault)) => {
            CompactProblem::Journal(JournalProblem::from(fault))
        }
        CompactError::Old(LinesError::Read) | CompactError::Old(LinesError::Changed) => {
            CompactProblem::from(Problem::CannotRead(old))
        }
        CompactError::New(NewFileFault::IsThere) => CompactProblem::IsThere(new),
        CompactError::New(NewFileFault::CannotWrite) => CompactProblem::CannotWrite(new),
        CompactError::NotThere => CompactProblem::NotInFile,
        CompactError::Old(LinesError::Memory) | CompactError::New(NewFileFault::Memory) => {
            CompactProblem::from(Problem::Memory)
        }
    }
}

/// Tells the problem in one line, and answers its status. Where there is no memory to lay the line out, the problem that is told is
/// that.
pub(crate) fn tell_compact_problem<E: Write>(
    alloc: Global,
    faults: &mut E,
    problem: CompactProblem<'_>,
) -> Status
    ensures { ((result ≡ compact_status_of problem.entry)
        × TellsCompact (E.contents faults.old) (E.contents faults.new) problem.entry)
        ⊎ ((result ≡ Status.NoMemory) × TellsCompact (E.contents faults.old)
        (E.contents faults.new) (CompactProblem.Journal (JournalProblem.Other Problem.Memory))) }
{
    match problem {
        CompactProblem::Journal(problem) => tell_journal_problem(alloc, faults, problem),
        CompactProblem::IsThere(path) => tell_is_there(alloc, faults, path),
        CompactProblem::CannotWrite(path) => tell_cannot_write(alloc, faults, path),
        CompactProblem::NotInFile => tell_debug(alloc, faults, DebugProblem::NotInFile),
    }
}

fn tell_is_there<E: Write>(alloc: Global, faults: &mut E, path: &str) -> Status
    ensures { ((result ≡ Status.Fault) × TellsCompact (E.contents faults.old)
        (E.contents faults.new) (CompactProblem.IsThere path.entry))
        ⊎ ((result ≡ Status.NoMemory) × TellsCompact (E.contents faults.old)
        (E.contents faults.new) (CompactProblem.Journal (JournalProblem.Other Problem.Memory))) }
{
    let mut text = String::new(alloc);
    let mut calls = MAX_CALLS;
    match writeln!(text, "mds_city: {path} is there") {
        Ok(()) => {
            let _ = write_all_of(faults, text.as_bytes(), &mut calls);
            Status::Fault
        }
        Err(_) => tell_journal_problem(alloc, faults, JournalProblem::Other(Problem::Memory)),
    }
}

fn tell_cannot_write<E: Write>(alloc: Global, faults: &mut E, path: &str) -> Status
    ensures { ((result ≡ Status.Fault) × TellsCompact (E.contents faults.old)
        (E.contents faults.new) (CompactProblem.CannotWrite path.entry))
        ⊎ ((result ≡ Status.NoMemory) × TellsCompact (E.contents faults.old)
        (E.contents faults.new) (CompactProblem.Journal (JournalProblem.Other Problem.Memory))) }
{
    let mut text = String::new(alloc);
    let mut calls = MAX_CALLS;
    match writeln!(text, "mds_city: cannot write {path}") {
        Ok(()) => {
            let _ = write_all_of(faults, text.as_bytes(), &mut calls);
            Status::Fault
        }
        Err(_) => tell_journal_problem(alloc, faults, JournalProblem::Other(Problem::Memory)),
    }
}
