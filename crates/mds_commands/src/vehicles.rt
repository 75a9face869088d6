//! The command that lists the vehicles of a journal: it reads the lines that count, judges their requests anew, and prints
//! where each vehicle stands.
//!
//! Nothing is printed before the whole file was read and accepted. No lock is taken: a file that is being written is read up to
//! the first gate that is closed.

mod command;
mod gate;
mod lines;
mod print;
mod problem;
mod taking;

pub use command::{judge_journal, vehicles_to};
pub use problem::{JournalProblem, tell_journal_problem};
