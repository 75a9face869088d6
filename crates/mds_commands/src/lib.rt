//! The commands that work on files: a replay, a print of tables, the debugger, the list of a journal's vehicles, and
//! the lines of a vehicle's events, over any readers and writers.
//!
//! Each answers the code of the status that the program ends with. A problem is told in one line, and has its cause: words
//! that name no vehicle, a file's own fault, an output that failed, or memory that was wanting. Where words or a file are
//! at fault, nothing is printed, but by a replay without limits. Serving tells its problems, and has its tables, by this crate too.
#![tactic(auto)]

mod commands;
mod debug;
mod events;
mod lines;
mod print;
mod problem;
mod roster;
mod rows;
mod source;
mod status;
mod stream;
mod torn;
mod unlimited;
mod vehicles;

pub use commands::{ReplayOptions, replay_to, table_to};
pub use debug::{DebugProblem, Named, debug_live_to, debug_to, tell_debug};
pub use events::events_to;
pub use problem::{Problem, tell};
pub use roster::Roster;
pub use source::{Form, Source, tables_in};
pub use status::Status;
pub use torn::torn_to;
pub use unlimited::replay_unlimited_to;
pub use vehicles::{JournalProblem, judge_journal, tell_journal_problem, vehicles_to};
