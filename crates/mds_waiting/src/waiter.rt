//! One connection that waits.
ghost use Rattle.std.specs.Prelude.{◌≡◌, min};
ghost use Rattle.mds_waiting.specs.Waiting.{max_held};

/// The most bytes that the connections of one table hold, in all. One that holds more counts as if it held as many.
pub const MAX_HELD: usize = 67_108_864;

/// A connection that waits.
#[derive(Drop)]
pub struct Waiter<S> {
    /// What else there is of it: its socket, say, and how far it has come.
    pub state: S,
    /// The bytes that it holds: of its request, or of its answer.
    pub bytes: Vec<u8>,
    /// When it began to wait.
    pub begun: u64,
    /// When its time is over.
    pub until: u64,
}

pub(crate) fn weight_of(len: usize) -> usize
    ensures { result ≡ min len max_held }
{
    len.min(MAX_HELD)
}
