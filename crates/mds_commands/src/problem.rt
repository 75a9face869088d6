//! Why a command could not be carried out.
ghost use Rattle.std.specs.Prelude.{◌≡◌, ◌≢◌, ◌⊎◌, Some};
ghost use Rattle.mds_commands.specs.Problem.{IsTelling, problem_text, status_of, Tells};

use crate::status::Status;
use mds_batch::BatchFault;
use mds_io::{MAX_CALLS, PrintError, ReadError, WriteError, write_all_of};
use mds_table::TablesFault;
use mds_trace::LineFault;
use std::alloc::{AllocError, Global};
use std::fmt;
use std::fmt::Write as _;
use std::io::Write;

/// Why a command could not be carried out.
#[derive(Clone, Copy, Debug)]
pub enum Problem<'a> {
    /// The file of this path can't be read.
    CannotRead(&'a str),
    /// The file of transitions is no table, and no tables that change at stated times.
    NotATable(TablesFault),
    /// The file of items is no batch.
    NotABatch(BatchFault),
    /// The lines of the file of items are no items.
    NotLines(LineFault),
    /// A port can't be had, or no further connection of it.
    Socket,
    /// The system gives no random numbers to hash by.
    Random,
    /// Standard output failed.
    Output,
    /// Memory was refused.
    Memory,
}

impl Problem<'_> {
    /// How the program ends: `NoMemory` for want of memory, else `Fault`.
    pub fn status(&self) -> Status
        ensures { result ≡ status_of self.now }
    {
        match self {
            Problem::Memory => Status::NoMemory,
            Problem::CannotRead(_)
            | Problem::NotATable(_)
            | Problem::NotABatch(_)
            | Problem::NotLines(_)
            | Problem::Socket
            | Problem::Random
            | Problem::Output => Status::Fault,
        }
    }
}

impl From<AllocError> for Problem<'_> {
    ghost use Rattle.mds_commands.specs.declared.problem.Problem.TheVariants.{Memory};

    ghost from_gives = { λ _ problem. problem ≡ Memory };

    fn from(_refused: AllocError) -> Self {
        Problem::Memory
    }
}

/// What the bytes of a table file have wrong; `CannotRead` is never made of it.
impl From<TablesFault> for Problem<'_> {
    ghost use Rattle.mds_commands.specs.Problem.{table_problem};

    ghost from_gives = { λ fault problem. problem ≡ table_problem fault };

    fn from(fault: TablesFault) -> Self {
        match fault {
            TablesFault::Memory => Problem::Memory,
            fault => Problem::NotATable(fault),
        }
    }
}

/// What the bytes of a file of items have wrong; `CannotRead` is never made of it.
impl From<BatchFault> for Problem<'_> {
    ghost use Rattle.mds_commands.specs.Problem.{batch_problem};

    ghost from_gives = { λ fault problem. problem ≡ batch_problem fault };

    fn from(fault: BatchFault) -> Self {
        match fault {
            BatchFault::Memory => Problem::Memory,
            fault => Problem::NotABatch(fault),
        }
    }
}

/// What the lines of a file of items have wrong; `CannotRead` is never made of it.
impl From<LineFault> for Problem<'_> {
    ghost use Rattle.mds_commands.specs.Problem.{line_problem};

    ghost from_gives = { λ fault problem. problem ≡ line_problem fault };

    fn from(fault: LineFault) -> Self {
        match fault {
            LineFault::Memory => Problem::Memory,
            fault => Problem::NotLines(fault),
        }
    }
}

impl From<PrintError> for Problem<'_> {
    ghost use Rattle.mds_commands.specs.Problem.{written_problem};

    ghost from_gives = { λ fault problem. problem ≡ written_problem fault };

    fn from(fault: PrintError) -> Self {
        match fault {
            PrintError::Memory => Problem::Memory,
            PrintError::Device => Problem::Output,
        }
    }
}

impl fmt::Display for Problem<'_> {
    ghost output = { λ problem. Some (problem_text problem) };

    fn fmt<W: fmt::Write>(&self, f: &mut fmt::Formatter<W>) -> fmt::Result {
        match self {
            Problem::CannotRead(path) => write!(f, "mds_city: cannot read {path}"),
            Problem::NotATable(fault) => write!(f, "mds_city: not a table: {fault}"),
            Problem::NotABatch(fault) => write!(f, "mds_city: not a batch: {fault}"),
            Problem::NotLines(fault) => write!(f, "mds_city: not a batch: {fault}"),
            Problem::Socket => write!(f, "mds_city: socket"),
            Problem::Random => write!(f, "mds_city: random"),
            Problem::Output => write!(f, "mds_city: output"),
            Problem::Memory => write!(f, "mds_city: out of memory"),
        }
    }
}

pub(crate) fn read_problem(path: &str, error: ReadError) -> Problem<'_>
    ensures memory { error ≡ ReadError.Memory → result ≡ Problem.Memory }
    ensures read { error ≢ ReadError.Memory → result ≡ Problem.CannotRead path.entry }
{
    match error {
        ReadError::Memory => Problem::Memory,
        ReadError::Device | ReadError::TooManyTurns => Problem::CannotRead(path),
    }
}

/// Tells the problem in one line, and answers its status. Where there is no memory to lay the line out, the problem that
/// is told is that. Where the writer fails the status stays.
pub fn tell<E: Write>(alloc: Global, faults: &mut E, problem: Problem<'_>) -> Status
    ensures { ((result ≡ status_of problem.entry)
        × Tells (E.contents faults.old) (E.contents faults.new) problem.entry)
        ⊎ ((result ≡ Status.NoMemory) × Tells (E.contents faults.old)
        (E.contents faults.new) Problem.Memory) }
{
    tell_whole(alloc, faults, problem).status
}

/// What became of a problem that was told.
#[derive(Clone, Copy, Debug, PartialEq, Eq)]
struct Telling {
    /// How the program ends.
    status: Status,
    /// Whether the line went out whole, and else where and why it stopped.
    line: Result<(), WriteError>,
}

/// As [`tell`], with what became of the line.
fn tell_whole<E: Write>(alloc: Global, faults: &mut E, problem: Problem<'_>) -> Telling
    ensures { IsTelling (E.contents faults.old) (E.contents faults.new) problem.entry result
        ⊎ IsTelling (E.contents faults.old) (E.contents faults.new) Problem.Memory result }
{
    let mut text = String::new(alloc);
    let mut calls = MAX_CALLS;
    match writeln!(text, "{problem}") {
        Ok(()) => Telling {
            status: problem.status(),
            line: write_all_of(faults, text.as_bytes(), &mut calls),
        },
        // The text of `Problem::Memory`, which there is no memory to lay out.
        Err(_) => Telling {
            status: Problem::Memory.status(),
            line: write_all_of(faults, b"mds_city: out of memory\n", &mut calls),
        },
    }
}
