//! Events that are told by what they have, wherever that stands.
ghost use Rattle.std.specs.Prelude.{◌≡◌, ◌≤◌, length};
ghost use Rattle.mds_table.specs.Json.{max_time};
ghost use Rattle.mds_core.specs.Reported.{max_event_types, MayBeReported};

use crate::{Event, Key, Position};
use mds_table::{State, TypeName};
use std::marker::Model;
use uuid::Uuid;

/// An event by what it has. Its key and its types stand elsewhere, so it is told without a copy of all the room that an [`Event`]
/// has for types.
#[derive(Debug, Drop)]
pub struct EventRef<'a> {
    key: &'a Key,
    id: Uuid,
    state: State,
    types: &'a [TypeName],
    time: u64,
    position: Option<Position>,
}

impl<'a> Model for EventRef<'a> {
    ghost use Rattle.mds_core.specs.Reported.{Reported, MayBeReported};

    ghost Value = { Reported };

    ghost view = { λ event. record {
      key = event.key.now;
      id = event.id;
      state = event.state;
      types = event.types.now;
      time = event.time;
      position = event.position;
    } };

    ghost invariant = { λ event. MayBeReported event.types.now event.time };
}

impl<'a> EventRef<'a> {
    /// The event of these.
    pub fn new(
        key: &'a Key,
        id: Uuid,
        state: State,
        types: &'a [TypeName],
        time: u64,
        position: Option<Position>,
    ) -> EventRef<'a>
        requires { MayBeReported types.now time }
        ensures { result ≡ record {
          key = key.now;
          id = id;
          state = state;
          types = types.now;
          time = time;
          position = position;
        } }
    {
        EventRef {
            key,
            id,
            state,
            types,
            time,
            position,
        }
    }

    /// The vehicle.
    pub fn key(&self) -> &'a Key
        ensures { result.now ≡ self.now.key }
    {
        self.key
    }

    /// The identifier of the event.
    pub fn id(&self) -> Uuid
        ensures { result ≡ self.now.id }
    {
        self.id
    }

    /// The state that the event leads to, as reported.
    pub fn state(&self) -> State
        ensures { result ≡ self.now.state }
    {
        self.state
    }

    /// The types of the event, 1 to [`MAX_EVENT_TYPES`](crate::MAX_EVENT_TYPES), in their order.
    pub fn types(&self) -> &'a [TypeName]
        ensures types { result.now ≡ self.now.types }
        ensures some { 1 ≤ length result.now }
        ensures few { length result.now ≤ max_event_types }
    {
        self.types
    }

    /// The time of the event, in milliseconds since the Unix epoch, at most [`MAX_TIME`](mds_table::MAX_TIME).
    pub fn time(&self) -> u64
        ensures time { result ≡ self.now.time }
        ensures in_range { result ≤ max_time }
    {
        self.time
    }

    /// Where the vehicle was, if the event says so.
    pub fn position(&self) -> Option<Position>
        ensures { result ≡ self.now.position }
    {
        self.position
    }

    /// A copy. It takes no memory.
    pub fn copy(&self) -> Event
        ensures { result ≡ self.now }
    {
        Event::new(
            *self.key,
            self.id,
            self.state,
            self.types,
            self.time,
            self.position,
        )
        .unwrap()
    }

    /// Puts a copy in the place of another event, and writes as little as [`Event::assign`].
    pub fn copy_to(&self, event: &mut Event)
        ensures { event.new ≡ self.now }
    {
        event
            .assign(
                *self.key,
                self.id,
                self.state,
                self.types,
                self.time,
                self.position,
            )
            .unwrap();
    }
}
