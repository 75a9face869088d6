//! What a book holds when it was opened.
use mds_core::Request;

/// What a book holds.
#[derive(Clone, Copy, Debug, PartialEq, Eq)]
pub struct Held {
    /// How many vehicles.
    pub vehicles: u64,
    /// How many requests, registrations and events.
    pub requests: u64,
    /// The greatest time of an event, in milliseconds since the Unix epoch; 0 where it has none.
    pub newest: u64,
}

impl Held {
    /// Nothing.
    pub(crate) fn nothing() -> Held {
        Held {
            vehicles: 0,
            requests: 0,
            newest: 0,
        }
    }

    /// Adds these requests, each of which was accepted.
    pub(crate) fn add_all(&mut self, requests: &[Request]) {
        for request in requests {
            self.requests = self.requests.saturating_add(1);
            match request {
                Request::Register(_) => self.vehicles = self.vehicles.saturating_add(1),
                Request::Report(event) => self.newest = self.newest.max(event.time()),
                Request::Look(_) => {}
            }
        }
    }
}
