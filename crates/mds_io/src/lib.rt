//! Reading and writing in a bounded number of calls: files that are read to their end, requests that are read as far as they
//! go, answers, and lines that go out page by page.
//!
//! A call that is interrupted is made again, and counts; one that fails otherwise ends the reading or the writing. What
//! then went over is said.
//!
//! What many workers pass on their way is here too: a gate, at which a test can stop each of them.
#![tactic(auto)]

mod call;
mod gate;
mod page;
mod read;
mod write;

pub use call::MAX_CALLS;
pub use gate::{Gate, OpenGate, pass};
pub use page::{PAGE_BYTES, PrintError, add_line, end_page, flush_page};
pub use read::{ReadError, read_front, read_more, read_up_to};
pub use write::{WriteError, WriteErrorKind, write_all_of};
