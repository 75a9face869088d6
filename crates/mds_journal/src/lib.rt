//! A journal of lines: the lowest layer, lines over a disk.
//!
//! A file is lines of text. Before each line stands a byte, its gate: a space is an open gate, `#` a closed one. What the
//! file stands for is the texts of its lines from the front, up to the first whose gate isn't open or that has no line
//! feed. Behind the lines of a file at rest stands a closed gate.
//!
//! A [`Group`] of lines is written behind the closed gate and synced. Only then is that one byte opened, and that is
//! synced too. So nothing that isn't on the disk ever stands behind an open gate, and no checksum is trusted: what a
//! crash tears stands behind a gate that is closed on the disk.
//!
//! Behind that gate a [`Journal`] writes room ahead, over which the next groups go. So most syncs needn't put a new length on
//! the disk.
//!
//! The disk is a [`Device`], whose contract says what a crash may leave at each moment. No contract can say that a real
//! file is such a disk. It asks for one premise that not each disk meets: bytes outside the range of a write don't change.
//! `mds_file` has a device over a file of the system.
#![tactic(auto)]

mod all;
mod device;
mod fault;
mod group;
mod journal;
pub mod laws;
mod memory;
mod opening;
mod repair;
mod room;
mod step;
mod stream;

pub use all::read_all;
pub use device::{Device, DeviceError};
pub use fault::JournalFault;
pub use group::{Group, MAX_GROUP_BYTES, PushError};
pub use journal::{AppendError, Journal};
pub use memory::Memory;
pub use opening::{OpenError, Opening};
pub use stream::{LineStream, StreamError};
