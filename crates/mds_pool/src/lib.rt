//! Workers that take connections from a port and answer them, each with a seat of its own at the book; and a book that serves
//! a port, from its opening to its settling.
#![tactic(auto)]

mod answering;
mod counting;
mod held;
mod pool;
mod port;
mod recorded_book;
mod recorded_desk;
mod recorder;
mod serving;
mod worker;

pub use answering::AnswerCount;
pub use held::Held;
pub use pool::{PoolCause, PoolFault, serve};
pub use port::{Ending, Port, PortFault};
pub use recorded_book::{RecordedBook, RecordedEnd, RecordedStop};
pub use recorder::{Alarm, NoRecord, Recorder};
pub use serving::{FinalBook, NewBook, Stop, serve_and_settle};
