//! Where workers can be stopped, one by one.

/// What each of many workers passes on its way. A worker enters before a piece of its work and leaves after it; a gate
/// may make it wait there.
pub trait Gate {
    /// Before the piece of this number, counted from 0, of the worker of this number.
    fn enter(&self, worker: usize, nth: usize);

    /// After that piece.
    fn leave(&self, worker: usize, nth: usize);
}

/// Takes the worker of this number past a gate with the piece of this number: it enters, does the piece, and leaves.
pub fn pass<G: Gate, T, F: FnOnce() -> T>(gate: &G, worker: usize, nth: usize, piece: F) -> T
    requires { F.pre piece }
    ensures { F.post piece result }
{
    gate.enter(worker, nth);
    let done = piece();
    gate.leave(worker, nth);
    done
}

/// The gate that does nothing.
#[derive(Clone, Copy, Debug, PartialEq, Eq)]
pub struct OpenGate;

impl Gate for OpenGate {
    fn enter(&self, _worker: usize, _nth: usize) {}

    fn leave(&self, _worker: usize, _nth: usize) {}
}
