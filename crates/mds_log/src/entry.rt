//! An entry of a log.

use mds_core::Request;

/// A request that was accepted, as the log has it. No value of it is made: the log exists in the proofs alone.
#[derive(Clone, Copy)]
pub struct Entry {
    /// The tag of the value that it was added by: the mark of the caller that asked, say.
    pub tag: u64,
    /// The request.
    pub request: Request,
    /// The key of the one pen that may add the next entry.
    pub next: u64,
}
