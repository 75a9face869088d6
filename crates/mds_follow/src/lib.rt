//! A record of what a book accepts: one file for both shards, kept while workers ask.
//!
//! A [`Follower`] copies what the shards accepted into the file, in their order, and knows how much of each shard's history is
//! there. Workers share it as a [`SharedFollower`]. A [`Receipt`] is what a worker has of it: requests that are recorded, each
//! of which every crash since leaves. [`SharedFollower::commit`] gives a worker a receipt that has all that its seat has seen, of
//! both shards or of one vehicle.
//!
//! At a start a [`RequestReader`] reads the file of an earlier run, and [`resume`] asks its requests of a new book, from the first
//! to the last that counts, and goes on from there.
//!
//! The file is a [`Record`], whose contract says what a restart reads after a crash at each moment.
#![tactic(auto)]

mod ahead;
mod aside;
mod blank;
mod desk;
mod disk;
mod end;
mod follower;
pub mod laws;
mod piece;
mod reader;
mod receipt;
mod record;
mod restart;
mod shared;
mod start_fault;

pub use aside::Aside;
pub use disk::Disk;
pub use follower::Follower;
pub use reader::RequestReader;
pub use receipt::Receipt;
pub use record::{Record, RecordLog};
pub use restart::{Resumed, resume};
pub use shared::SharedFollower;
pub use start_fault::StartFault;
