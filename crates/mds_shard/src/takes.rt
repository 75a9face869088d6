//! What a walk over a vehicle's events puts them into.

use mds_core::{Event, EventList, EventRef};
use std::alloc::{AllocError, Global};

/// What events are put into one by one, in room that was had before.
pub trait TakesEvents: Drop {
    ghost use Rattle.std.specs.Prelude.{◌≡◌, ◌≤◌, ◌+◌, ◌++◌, ◌∷◌, ℕ, List, [], reverse, IfOk};
    ghost use Rattle.mds_core.specs.Reported.{Reported};

    /// The events that it has.
    ghost events: { Self → List Reported };

    /// For how many further events it has room, at least.
    ghost room: { Self → ℕ };

    /// No events, and room for so many; `AllocError` where there is no memory for it.
    fn with_room(alloc: Global, count: usize) -> Result<Self, AllocError>
        ensures none { IfOk result (λ made. events made ≡ []) }
        ensures room { IfOk result (λ made. count ≤ room made) };

    /// Adds an event behind those that it has.
    fn add(&mut self, event: &EventRef<'_>)
        requires { 1 ≤ room self.old }
        ensures added { events self.new ≡ events self.old ++ event.now ∷ [] }
        ensures room { room self.old ≤ room self.new + 1 };

    /// Turns the order of the events round.
    fn turn_round(&mut self)
        ensures { events self.new ≡ reverse (events self.old) };
}

impl TakesEvents for Vec<Event> {
    ghost use Rattle.std.specs.Prelude.{◌-◌, vec_len, vec_capacity};

    ghost events = { λ list. list.items };

    ghost room = { λ list. vec_capacity list - vec_len list };

    fn with_room(alloc: Global, count: usize) -> Result<Vec<Event>, AllocError> {
        Vec::with_capacity(alloc, count)
    }

    fn add(&mut self, event: &EventRef<'_>) {
        let Ok(()) = self.push(event.copy()) else {
            unreachable!();
        };
    }

    fn turn_round(&mut self) {
        self.reverse();
    }
}

impl TakesEvents for EventList {
    ghost events = { λ list. list.events };

    ghost room = { λ list. list.room };

    fn with_room(alloc: Global, count: usize) -> Result<EventList, AllocError> {
        EventList::with_room(alloc, count)
    }

    fn add(&mut self, event: &EventRef<'_>) {
        let Ok(()) = self.push_ref(event) else {
            unreachable!();
        };
    }

    fn turn_round(&mut self) {
        self.reverse();
    }
}
