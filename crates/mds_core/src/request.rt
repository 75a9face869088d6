//! What the machine is asked.
ghost use Rattle.std.specs.Prelude.{◌≡◌, option_map};

use crate::{Event, Key};

/// What the machine is asked. It holds no memory of its own.
#[derive(Clone, Copy, Debug, PartialEq, Eq)]
pub enum Request {
    /// The vehicle is registered with the city.
    Register(Key),
    /// A provider reports an event.
    Report(Event),
    /// Where does the vehicle stand?
    Look(Key),
}

impl Request {
    ghost use Rattle.mds_core.specs.History.{key_of, report_of};

    /// The vehicle that the request is about.
    pub fn key(&self) -> &Key
        ensures { result.now ≡ key_of self.now }
    {
        match self {
            Request::Register(key) | Request::Look(key) => key,
            Request::Report(event) => event.key(),
        }
    }

    /// The event that the request reports, or `None` where it reports none.
    pub fn event(&self) -> Option<&Event>
        ensures { option_map (λ event. event.now) result ≡ report_of self.now }
    {
        match self {
            Request::Report(event) => Some(event),
            Request::Register(_) | Request::Look(_) => None,
        }
    }

    /// A copy. It takes no memory.
    pub fn copy(&self) -> Request
        ensures { result ≡ self.now }
    {
        *self
    }
}
