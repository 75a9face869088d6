//! Why no session is opened.
ghost use Rattle.std.specs.Prelude.{Some};
ghost use Rattle.mds_trace.specs.SessionFault.{session_fault_text};

use std::alloc::AllocError;
use std::error::Error;
use std::fmt;

/// Why no session is opened over some events. The events are gone over in turn; at each, its order is looked at before
/// its types.
#[derive(Clone, Copy, Debug, PartialEq, Eq)]
pub enum SessionFault {
    /// There is no memory to compare identifiers.
    Memory,
    /// No chain leads to the state that an event reports.
    Unlawful {
        /// The place of the event, from 0.
        event: usize,
        /// The place of its first type that no chain passes, or the number of its types.
        at: usize,
    },
    /// An event is of another vehicle than the first, has the identifier of an earlier one, or is earlier than the one
    /// before it.
    BadOrder {
        /// The place of the event, from 0.
        event: usize,
    },
}

impl Error for SessionFault {}

impl From<AllocError> for SessionFault {
    ghost use Rattle.std.specs.Prelude.{◌≡◌};
    ghost use Rattle.mds_trace.specs.declared.session_fault.SessionFault.TheVariants.{Memory};

    ghost from_gives = { λ _ fault. fault ≡ Memory };

    fn from(_refused: AllocError) -> SessionFault {
        SessionFault::Memory
    }
}

impl fmt::Display for SessionFault {
    ghost output = { λ fault. Some (session_fault_text fault) };

    fn fmt<W: fmt::Write>(&self, f: &mut fmt::Formatter<W>) -> fmt::Result {
        match self {
            SessionFault::Memory => f.write_str("out of memory"),
            SessionFault::Unlawful { event, at } => write!(f, "unlawful {event} {at}"),
            SessionFault::BadOrder { event } => write!(f, "bad_order {event}"),
        }
    }
}
