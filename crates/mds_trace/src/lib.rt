//! What becomes of a provider's file: the replayer, the debugger's sessions, and the scripts that move them.
//!
//! A verdict on an item rests on the accepted items of its vehicle that stand before it, and on nothing else. Where each
//! vehicle is taken as registered first, the verdicts are the outcomes of the machine, whatever it is asked between.
//! Several workers may share a replay. The report is the same, however many there are.
//!
//! A session walks through a vehicle's events, type by type, with the states possible at each place.
//!
//! A script is read in a bounded number of calls. Each line is a command, or an unknown one; the lines are carried out one
//! after the other up to the first `quit`, and each prints one line of a session.
#![tactic(auto)]

mod collect;
mod followed;
mod input;
mod judge;
pub mod laws;
mod line;
mod line_replay;
mod one_by_one;
mod part;
mod replayer;
mod report;
mod script;
mod script_lines;
mod session;
mod session_events;
mod session_fault;
mod unlimited_replay;
mod vehicle;
mod walk;
mod workers;

pub use input::{MAX_SCRIPT, ScriptBytes, ScriptEnd, read_script};
pub use line::CountsLine;
pub use line_replay::LineReplay;
pub use mds_lines::{ItemsFault, LineFault, UnlimitedItems};
pub use one_by_one::Replayer;
pub use replayer::replay;
pub use report::{Opening, Report, VehicleEnd, Verdict};
pub use script::{Move, ScriptCommand, script_of};
pub use script_lines::ScriptLines;
pub use session::{Halt, Place, Session};
pub use session_fault::SessionFault;
pub use unlimited_replay::{ReplayEnd, UnlimitedReplay};
pub use vehicle::{VehicleReplay, VehicleSession};
pub use walk::{print_start, print_walk};
pub use workers::{MAX_WORKERS, WithFault, replay_items_with, replay_with};
