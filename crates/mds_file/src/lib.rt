//! The disk of a journal: a file of the system.
//!
//! [`DiskFile`] is a `Device` over an open file. No contract knows what the system keeps of a file. So each call is noted
//! with its answer, in a record that only clauses read. What a clause says of bytes has the premise that these answers are
//! those of a file that keeps what it is given (`specs/Calls.antt`).
//!
//! What no proof shows stands in `disk_file.rt`, to be read: each method makes the call that it notes.
//!
//! [`open_file`] opens the file of a path, or makes it, and locks it. [`FollowedFile`] reads one on that another process has.
#![tactic(auto)]

mod disk_file;
mod fault;
mod followed;
mod lock;
mod new_file;
mod record;

pub use disk_file::{DiskFile, Origin};
pub use fault::FileFault;
pub use followed::{Followed, FollowedFile};
pub use lock::open_file;
pub use new_file::{NewFile, NewFileFault, NewName, make_file};
