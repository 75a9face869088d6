//! Where connections come from.
ghost use Rattle.std.specs.Prelude.{◌≡◌, Some, IfSome};
ghost use Rattle.mds_http.specs.HeadStatus.{IsHead};

use mds_face::Head;
use mds_metrics::Tally;
use std::error::Error;
use std::fmt;
use std::io::{Read, Write};

/// No further connection can be taken.
#[derive(Clone, Copy, Debug, PartialEq, Eq)]
pub struct PortFault;

impl fmt::Display for PortFault {
    ghost use Rattle.std.specs.Prelude.{Some, codes};

    ghost output = { λ fault. Some (codes "no further connection can be taken") };

    fn fmt<W: fmt::Write>(&self, f: &mut fmt::Formatter<W>) -> fmt::Result {
        f.write_str("no further connection can be taken")
    }
}

impl Error for PortFault {}

/// How a connection ends whose answer was given.
#[derive(Clone, Copy, Debug, PartialEq, Eq)]
pub enum Ending {
    /// At once: its request was read to its end, so the client has nothing more to send.
    AtOnce,
    /// In stages: its request may not have been read to its end. What the client still sends is read first, or the client
    /// could lose the answer (RFC 9112, section 9.6).
    InStages,
}

/// Where connections come from, for any number of workers at once.
pub trait Port {
    /// The end of a connection that gives its request.
    type In: Read + Drop;

    /// The end of a connection that takes its answer.
    type Out: Write + Drop;

    /// Waits for the next connection, and answers its two ends. The connection is over when both are dropped.
    ///
    /// # Errors
    ///
    /// [`PortFault`] where no further connection can be taken, for want of memory too.
    fn accept(&self) -> Result<(Self::In, Self::Out), PortFault>;

    /// The bytes that a connection gives, and the head with which they begin, where the port knows both: then they needn't be
    /// read. A port that doesn't needs to do nothing.
    fn whole_of<'a>(&self, _input: &'a Self::In) -> Option<(&'a [u8], Head)>
        ensures bytes { IfSome result (λ found. Self.In.remaining _input.now ≡ Some found.0.now) }
        ensures head { IfSome result (λ found. IsHead found.0.now found.1) }
    {
        None
    }

    /// Where the worker of this number counts what it answers, if that is counted. A port that counts nothing needs to do nothing.
    fn tally(&self, _worker: usize) -> Option<&Tally> {
        None
    }

    /// Ends a connection, whose two ends these are. A port in which nothing gets lost by a sudden end needs no more than to
    /// drop them.
    fn end(&self, input: Self::In, output: Self::Out, _ending: Ending) {
        drop(input);
        drop(output);
    }

    /// Ends the port: from now on it gives no connection, and who waits for one is told so. One that never waits without an end
    /// needs to do nothing.
    fn stop(&self) {}
}
