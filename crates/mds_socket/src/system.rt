//! What a port is told by, and asks.
use mds_waiting::Peer;
use std::io;

/// What is ready.
#[derive(Clone, Copy, Debug, PartialEq, Eq)]
pub enum Ready {
    /// What new connections are taken from.
    Listener,
    /// The connection of this key, which sends a request.
    Coming(usize),
    /// The connection of this key, which takes an answer, or ends behind it.
    Leaving(usize),
}

/// Where a port has its connections from, who tells it which of them are ready, and its clock. No call waits but
/// [`System::wait`] and [`System::pause`], and [`System::take`] while it may.
pub trait System: Drop {
    /// The other side of a connection.
    type Peer: Peer;

    /// Takes a new connection. While it may wait for one, it does so for a moment at most.
    ///
    /// # Errors
    ///
    /// `WouldBlock` where there is none; others where it can't be taken.
    fn take(&self) -> io::Result<Self::Peer>;

    /// From now on [`System::take`] may wait, or may not. Who waits there already isn't told.
    fn let_take_wait(&self, may_wait: bool);

    /// Asks when this side of a connection is next ready, which is told once, and for what: whether the system can be asked.
    fn ask(&self, peer: &mut Self::Peer, ready: Ready, for_sending: bool) -> bool;

    /// Asks about new connections: one that is there is told, and so are those that come, each to one worker. Those that come before
    /// a worker has heard of them may be told as one. So who is told takes one, and asks again.
    fn ask_for_new(&self);

    /// Waits until something is ready, for so many milliseconds at most: one thing that is, if any. What is told may be over.
    fn wait(&self, millis: u64) -> Option<Ready>;

    /// The time by its clock, in milliseconds, if it tells one.
    fn now(&self) -> Option<u64>;

    /// Waits a little: what is lacking may be given back meanwhile, and nothing is gained by asking sooner.
    fn pause(&self);

    /// From now on a new connection is told, and none can be taken.
    fn stop(&self);

    /// From now on no new connection is told, and who comes is refused.
    fn end(&self);
}
