//! Events, close together.
ghost use Rattle.std.specs.Prelude.{◌≡◌, ◌<◌, ◌+◌, ◌-◌, ◌≤◌, ◌++◌, [], ◌∷◌, length, reverse, slice_get, IfOk, OnOk, OnErr};
ghost use Rattle.mds_table.specs.Json.{max_time};
ghost use Rattle.mds_core.specs.Reported.{max_event_types, MayBeReported};
ghost use Rattle.mds_core.specs.EventList.{types_kept, event_of};

use crate::{Event, EventRef, Key, MAX_EVENT_TYPES, Position};
use mds_table::{State, TypeName};
use std::alloc::{AllocError, Global};
use std::marker::Model;
use uuid::Uuid;

/// What is kept of an event beside the names of its types, and which names those are: of a list from this one on, as many
/// as it has.
#[derive(Clone, Copy, Debug)]
struct KeptEvent {
    key: Key,
    id: Uuid,
    state: State,
    time: u64,
    position: Option<Position>,
    first: usize,
    count: usize,
}

impl KeptEvent {
    fn of(event: &EventRef<'_>, first: usize) -> KeptEvent
        ensures event { event_of result event.now.types ≡ event.now }
        ensures first { result.first ≡ first }
        ensures count { result.count ≡ length event.now.types }
        ensures in_range { result.time ≤ max_time }
    {
        KeptEvent {
            key: *event.key(),
            id: event.id(),
            state: event.state(),
            time: event.time(),
            position: event.position(),
            first,
            count: event.types().len(),
        }
    }

    fn types<'a>(&self, names: &'a [TypeName]) -> &'a [TypeName]
        requires { self.now.first + self.now.count ≤ length names.now }
        ensures { result.now ≡ types_kept names.now self.now }
    {
        &names[self.first..self.first + self.count]
    }
}

/// Events in their order. The names of all types lie behind one another, so an event takes no room for types that it
/// doesn't have: some 100 bytes, and 33 for each type.
///
/// Contracts see the events, and for how many further ones there is memory for certain.
#[derive(Debug)]
pub struct EventList {
    kept: Vec<KeptEvent>,
    names: Vec<TypeName>,
    room: usize,
}

// By hand: a crate that drops a list then cites this function, and proves no destructor of what it holds.
impl Drop for EventList {
    fn drop(self) {
        let EventList {
            kept: _,
            names: _,
            room: _,
        } = self;
    }
}

impl Model for EventList {
    ghost use Rattle.std.specs.Prelude.{map};
    ghost use Rattle.mds_core.specs.EventList.{ListedEvents, AreKept, event_in};

    ghost Value = { ListedEvents };

    ghost view = { λ list. record {
      events = map (event_in list.names.items) list.kept.items;
      room = list.room;
    } };

    ghost invariant = { λ list. AreKept list.kept list.names list.room };
}

impl EventList {
    /// No events. It takes no memory.
    pub fn new(alloc: Global) -> EventList
        ensures { result ≡ record { events = []; room = 0 } }
    {
        EventList {
            kept: Vec::new(alloc),
            names: Vec::new(alloc),
            room: 0,
        }
    }

    /// No events, and memory for so many, whatever their types. The room for names that stay away costs addresses alone: the
    /// system gives no memory to a page that nothing was written to.
    ///
    /// # Errors
    ///
    /// `AllocError` where there is no such memory.
    pub fn with_room(alloc: Global, count: usize) -> Result<EventList, AllocError>
        ensures { IfOk result (λ list. list ≡ record { events = []; room = count }) }
    {
        let Some(names) = count.checked_mul(MAX_EVENT_TYPES) else {
            return Err(AllocError);
        };
        Ok(EventList {
            kept: Vec::with_capacity(alloc, count)?,
            names: Vec::with_capacity(alloc, names)?,
            room: count,
        })
    }

    /// Makes room for so many further events, whatever their types.
    ///
    /// # Errors
    ///
    /// `AllocError` where there is no memory for them; the list is as it was then.
    pub fn reserve(&mut self, count: usize) -> Result<(), AllocError>
        ensures events { self.new.events ≡ self.old.events }
        ensures room { OnOk result (count ≤ self.new.room) }
        ensures unchanged { OnErr result (self.new ≡ self.old) }
    {
        if count <= self.room {
            return Ok(());
        }
        let Some(names) = count.checked_mul(MAX_EVENT_TYPES) else {
            return Err(AllocError);
        };
        self.kept.reserve(count)?;
        self.names.reserve(names)?;
        self.room = count;
        Ok(())
    }

    /// How many events there are.
    pub fn len(&self) -> usize
        ensures { result ≡ length self.now.events }
    {
        self.kept.len()
    }

    /// Adds an event behind the others.
    ///
    /// # Errors
    ///
    /// `AllocError` where there was no room, and there is no memory for the event; the list is as it was then.
    pub fn push(&mut self, event: &Event) -> Result<(), AllocError>
        ensures pushed { OnOk result (self.new ≡ record {
          events = self.old.events ++ event.now ∷ [];
          room = self.old.room - 1;
        }) }
        ensures unchanged { OnErr result (self.new ≡ self.old) }
        ensures full { OnErr result (self.old.room ≡ 0) }
    {
        self.push_ref(&event.by_ref())
    }

    /// As [`EventList::push`], of an event that is told by what it has.
    ///
    /// # Errors
    ///
    /// Those of [`EventList::push`]; the list is as it was then.
    pub fn push_ref(&mut self, event: &EventRef<'_>) -> Result<(), AllocError>
        ensures pushed { OnOk result (self.new ≡ record {
          events = self.old.events ++ event.now ∷ [];
          room = self.old.room - 1;
        }) }
        ensures unchanged { OnErr result (self.new ≡ self.old) }
        ensures full { OnErr result (self.old.room ≡ 0) }
    {
        self.kept.reserve(1)?;
        let kept = KeptEvent::of(event, self.names.len());
        self.names.extend_from_slice(event.types())?;
        let Ok(()) = self.kept.push(kept) else {
            unreachable!();
        };
        self.room = self.room.saturating_sub(1);
        Ok(())
    }

    /// Adds an event for which there is room.
    pub fn push_reserved(&mut self, event: &Event)
        requires { 1 ≤ self.old.room }
        ensures { self.new ≡ record {
          events = self.old.events ++ event.now ∷ [];
          room = self.old.room - 1;
        } }
    {
        let Ok(()) = self.push(event) else {
            unreachable!();
        };
    }

    /// Turns the order of the events round.
    pub fn reverse(&mut self)
        ensures { self.new ≡ record {
          events = reverse self.old.events;
          room = self.old.room;
        } }
    {
        self.kept.reverse();
    }

    /// The event at this place, from 0; `None` past the last.
    pub fn get(&self, at: usize) -> Option<EventRef<'_>>
        ensures { result ≡ slice_get self.now.events at }
    {
        match self.kept.get(at) {
            Some(kept) => Some(EventRef::new(
                &kept.key,
                kept.id,
                kept.state,
                kept.types(&self.names),
                kept.time,
                kept.position,
            )),
            None => None,
        }
    }
}
