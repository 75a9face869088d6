//! Address space that the next start wants.
use std::alloc::{AllocError, Global};

/// What a start takes at most beside the requests that stay: two pieces of them, the lines of one, and lists that grow side by side.
const PIECES: usize = 16 << 20;

/// What each thread reserves for its stack, by the usual limit of its size.
const STACK: usize = 8 << 20;

/// How many threads a start has beside the first one.
const START_THREADS: usize = 3;

/// Address space that the next start over the journal takes beside its requests. A server keeps it while it runs, so that one
/// which was filled up to a limit starts again under it. Nothing is written there, so it takes no memory.
#[derive(Drop)]
pub(crate) struct StartRoom {
    bytes: Vec<u8>,
}

impl StartRoom {
    /// What a start takes more than so many workers do. Each of these but the first is a thread, too. Where there is less, only what
    /// it takes beside its threads: this start has had as many, and the C library keeps their stacks for those that come.
    ///
    /// # Errors
    ///
    /// There isn't even that room.
    pub(crate) fn beside(alloc: Global, workers: usize) -> Result<StartRoom, AllocError> {
        let others = workers.saturating_sub(1);
        let threads = START_THREADS.saturating_sub(others);
        let mut bytes = Vec::new(alloc);
        if bytes.reserve(PIECES + threads * STACK).is_err() {
            bytes.reserve(PIECES)?;
        }
        Ok(StartRoom { bytes })
    }
}
