//! Events, as providers report them.
ghost use Rattle.std.specs.Prelude.{◌≡◌, ◌↔◌, ◌≤◌, length, Some, IsOk, IfOk, IfErr, OnOk, OnErr};
ghost use Rattle.mds_table.specs.Json.{max_time};
ghost use Rattle.mds_core.specs.Reported.{max_event_types, MayBeReported};
ghost use Rattle.mds_core.specs.EventFault.{FaultOf, event_fault_text};

use crate::event_types::EventTypes;
use crate::{EventRef, Key, Position};
use mds_table::{MAX_TIME, State, TypeName};
use std::error::Error;
use std::fmt;
use std::marker::Model;
use uuid::Uuid;

/// The most types that an event carries.
pub const MAX_EVENT_TYPES: usize = 64;

/// An event, as a provider reports it (MDS 2.0, "Events"). It holds no memory of its own.
#[derive(Clone, Copy, Debug, PartialEq, Eq)]
pub struct Event {
    key: Key,
    id: Uuid,
    state: State,
    types: EventTypes,
    time: u64,
    position: Option<Position>,
}

impl Model for Event {
    ghost use Rattle.mds_core.specs.Reported.{Reported, MayBeReported};

    ghost Value = { Reported };

    ghost view = { λ event. record {
      key = event.key;
      id = event.id;
      state = event.state;
      types = event.types;
      time = event.time;
      position = event.position;
    } };

    ghost inverse = { λ event. record {
      key = event.key;
      id = event.id;
      state = event.state;
      types = event.types;
      time = event.time;
      position = event.position;
    } };

    ghost invariant = { λ event. MayBeReported event.types event.time };
}

/// Why no event can be made of some types and a time.
#[derive(Clone, Copy, Debug, PartialEq, Eq)]
pub enum EventFault {
    /// There is no type.
    NoTypes,
    /// There are more than [`MAX_EVENT_TYPES`] types.
    TooManyTypes,
    /// The time is past [`MAX_TIME`].
    BadTime,
}

impl fmt::Display for EventFault {
    ghost output = { λ fault. Some (event_fault_text fault) };

    fn fmt<W: fmt::Write>(&self, f: &mut fmt::Formatter<W>) -> fmt::Result {
        f.write_str(match self {
            EventFault::NoTypes => "no_types",
            EventFault::TooManyTypes => "too_many_types",
            EventFault::BadTime => "bad_time",
        })
    }
}

impl Error for EventFault {}

fn check(types: &[TypeName], time: u64) -> Result<(), EventFault>
    ensures exact { IsOk result ↔ MayBeReported types.now time }
    ensures fault { IfErr result (FaultOf types.now time) }
{
    if types.is_empty() {
        return Err(EventFault::NoTypes);
    }
    if types.len() > MAX_EVENT_TYPES {
        return Err(EventFault::TooManyTypes);
    }
    if time > MAX_TIME {
        return Err(EventFault::BadTime);
    }
    Ok(())
}

impl Event {
    /// An event of these types, 1 to [`MAX_EVENT_TYPES`], in their order, at a time in milliseconds since the Unix epoch.
    ///
    /// # Errors
    ///
    /// The first fault of the types and the time, in the order of [`EventFault`].
    pub fn new(
        key: Key,
        id: Uuid,
        state: State,
        types: &[TypeName],
        time: u64,
        position: Option<Position>,
    ) -> Result<Event, EventFault>
        ensures exact { IsOk result ↔ MayBeReported types.now time }
        ensures event { IfOk result (λ event. event ≡ record {
          key = key;
          id = id;
          state = state;
          types = types.now;
          time = time;
          position = position;
        }) }
        ensures fault { IfErr result (FaultOf types.now time) }
    {
        check(types, time)?;
        Ok(Event {
            key,
            id,
            state,
            types: EventTypes::of(types),
            time,
            position,
        })
    }

    /// Becomes the event that [`Event::new`] makes of these. It writes only what changes: the room for further types stays
    /// untouched, which is most of an event's 2,200 bytes.
    ///
    /// # Errors
    ///
    /// Those of [`Event::new`]; it stays as it was then.
    pub fn assign(
        &mut self,
        key: Key,
        id: Uuid,
        state: State,
        types: &[TypeName],
        time: u64,
        position: Option<Position>,
    ) -> Result<(), EventFault>
        ensures exact { IsOk result ↔ MayBeReported types.now time }
        ensures event { OnOk result (self.new ≡ record {
          key = key;
          id = id;
          state = state;
          types = types.now;
          time = time;
          position = position;
        }) }
        ensures fault { IfErr result (FaultOf types.now time) }
        ensures unchanged { OnErr result (self.new ≡ self.old) }
    {
        check(types, time)?;
        self.key = key;
        self.id = id;
        self.state = state;
        self.types.assign(types);
        self.time = time;
        self.position = position;
        Ok(())
    }

    /// The event, by what it has.
    pub fn by_ref(&self) -> EventRef<'_>
        ensures { result ≡ self.now }
    {
        EventRef::new(
            &self.key,
            self.id,
            self.state,
            self.types.as_slice(),
            self.time,
            self.position,
        )
    }

    /// Becomes the other event, and writes as little as [`Event::assign`].
    pub fn assign_from(&mut self, other: &Event)
        ensures { self.new ≡ other.now }
    {
        self.key = other.key;
        self.id = other.id;
        self.state = other.state;
        self.types.assign(other.types.as_slice());
        self.time = other.time;
        self.position = other.position;
    }

    /// The vehicle.
    pub fn key(&self) -> &Key
        ensures { result.now ≡ self.now.key }
    {
        &self.key
    }

    /// The identifier of the event.
    pub fn id(&self) -> Uuid
        ensures { result ≡ self.now.id }
    {
        self.id
    }

    /// The state that the event leads to, as reported.
    pub fn state(&self) -> State
        ensures { result ≡ self.now.state }
    {
        self.state
    }

    /// The types of the event, 1 to [`MAX_EVENT_TYPES`], in their order.
    pub fn types(&self) -> &[TypeName]
        ensures types { result.now ≡ self.now.types }
        ensures some { 1 ≤ length result.now }
        ensures few { length result.now ≤ max_event_types }
    {
        self.types.as_slice()
    }

    /// The time of the event, in milliseconds since the Unix epoch, at most [`MAX_TIME`].
    pub fn time(&self) -> u64
        ensures time { result ≡ self.now.time }
        ensures in_range { result ≤ max_time }
    {
        self.time
    }

    /// Where the vehicle was, if the event says so.
    pub fn position(&self) -> Option<Position>
        ensures { result ≡ self.now.position }
    {
        self.position
    }

    /// A copy. It takes no memory.
    pub fn copy(&self) -> Event
        ensures { result ≡ self.now }
    {
        *self
    }
}
