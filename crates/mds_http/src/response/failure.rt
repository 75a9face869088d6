//! Why items of a POST weren't accepted.
ghost use Rattle.std.specs.Prelude.{◌≡◌};
ghost use Rattle.mds_http.specs.Verdicts.{cause_of};

use mds_batch::ItemFault;
use mds_core::{Outcome, Refusal};

/// Why an item wasn't accepted.
#[derive(Clone, Copy, Debug, PartialEq, Eq)]
pub enum Cause {
    /// The item is faulty.
    Fault(ItemFault),
    /// Its request was refused.
    Refused(Refusal),
}

impl Cause {
    pub(crate) fn of_outcome(outcome: Outcome) -> Option<Cause>
        ensures { result ≡ cause_of outcome }
    {
        match outcome {
            Outcome::Done | Outcome::Seen(_) => None,
            Outcome::Refused(refusal) => Some(Cause::Refused(refusal)),
        }
    }
}

/// An item that wasn't accepted.
#[derive(Clone, Copy, Debug, PartialEq, Eq)]
pub struct Failure {
    /// The index of the item, from 0.
    pub index: usize,
    /// Why it wasn't accepted.
    pub cause: Cause,
}
