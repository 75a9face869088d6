//! What a replay comes to.
ghost use Rattle.std.specs.Prelude.{◌≡◌, Some};
ghost use Rattle.mds_trace.specs.Verdict.{verdict_text};

use mds_batch::ItemFault;
use mds_core::{Key, Refusal, Standing};
use mds_steps::StateSet;
use mds_table::State;
use std::fmt;

/// What a vehicle is taken to hold before its first accepted event.
#[derive(Clone, Copy, Debug, PartialEq, Eq)]
pub enum Opening {
    /// It is registered, and holds `removed`.
    Removed,
    /// Nobody knows: its first accepted event may begin in any state that leads to the one reported.
    Any,
}

/// What is said of an item.
#[derive(Clone, Copy, Debug, PartialEq, Eq)]
pub enum Verdict {
    /// Its event was accepted, and its vehicle holds this state from then on.
    Accepted(State),
    /// Its event was refused.
    Refused(Refusal),
    /// No state is known of its vehicle, and its event leads from none to the state that it reports.
    NoOpening {
        /// The place of the first type that no chain passes from any state, or the number of types where all can be
        /// passed and only the state reported can't be reached.
        at: usize,
    },
    /// The item is faulty.
    Fault(ItemFault),
}

impl Verdict {
    ghost use Rattle.mds_trace.specs.Verdict.{accepts};

    /// Whether the item was accepted.
    pub fn accepts(&self) -> bool
        ensures { result ≡ accepts self.now }
    {
        matches!(self, Verdict::Accepted(_))
    }
}

impl fmt::Display for Verdict {
    ghost output = { λ verdict. Some (verdict_text verdict) };

    fn fmt<W: fmt::Write>(&self, f: &mut fmt::Formatter<W>) -> fmt::Result {
        match self {
            Verdict::Accepted(state) => write!(f, "ok {state}"),
            Verdict::Refused(refusal) => write!(f, "refused {refusal}"),
            Verdict::NoOpening { at } => write!(f, "refused no_opening {at}"),
            Verdict::Fault(fault) => write!(f, "fault {fault}"),
        }
    }
}

/// Where a vehicle ends.
#[derive(Debug, Drop)]
pub struct VehicleEnd {
    /// The vehicle.
    pub key: Key,
    /// The states in which it may have opened: `removed` alone with [`Opening::Removed`]; with [`Opening::Any`] those from
    /// which its first accepted event leads to the state reported, and every state where none was accepted.
    pub openings: StateSet,
    /// Where it stands after the last item, or `None` where no state of it is known.
    pub standing: Option<Standing>,
}

/// What a replay comes to.
#[derive(Debug, Drop)]
pub struct Report {
    /// A verdict on each item.
    pub lines: Vec<Verdict>,
    /// The vehicles that the events name, in order of first mention.
    pub vehicles: Vec<VehicleEnd>,
    /// How many items were accepted.
    pub accepted: usize,
    /// How many were not.
    pub refused: usize,
}
