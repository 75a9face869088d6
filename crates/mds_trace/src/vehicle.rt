//! The events of one vehicle in a replay.
ghost use Rattle.std.specs.Prelude.{◌≡◌, ◌≤◌, ◌<◌, ◌+◌, ◌++◌, [], List, length, cond};
ghost use Rattle.mds_table.specs.declared.state.State.TheVariants.{Removed};
ghost use Rattle.mds_batch.specs.declared.item.EventItem.{EventItem as Item};
ghost use Rattle.mds_trace.specs.Replay.{accepted_by, prior_of};
ghost use Rattle.mds_trace.specs.Session.{AreOpenFrom};
ghost use Rattle.mds_trace.specs.Vehicle.{is_event_of, TookOf};

use crate::{CountsLine, Opening, Replayer, Session, Verdict};
use mds_batch::{EventItem, TakesItems};
use mds_core::{EventList, Key};
use mds_table::{State, Tables};
use std::alloc::{AllocError, Global};
use std::marker::Model;

/// What a replay said of a vehicle's events: those that were accepted, in their order, and how many were refused.
#[derive(Drop)]
struct VehicleEvents {
    accepted: EventList,
    refused: usize,
}

impl VehicleEvents {
    /// Takes what was said of the next item. There is room for its event.
    fn add(&mut self, key: &Key, item: &EventItem, line: &Verdict)
        requires { 1 ≤ self.old.accepted.room }
        ensures accepted { self.new.accepted.events ≡
            self.old.accepted.events ++ prior_of key.now (accepted_by item.now line.now) }
        ensures counted { self.old.refused < usize.MAX
            → length self.new.accepted.events + self.new.refused ≡
            length self.old.accepted.events + self.old.refused
            + cond (is_event_of key.now item.now) 1 0 }
    {
        let EventItem::Event(event) = item else {
            return;
        };
        if event.key() != key {
            return;
        }
        if line.accepts() {
            self.accepted.push_reserved(event);
        } else {
            self.refused = self.refused.saturating_add(1);
        }
    }
}

/// A replay, in which each vehicle is registered first, of items that come one by one. It keeps the accepted events of one
/// vehicle, and no item.
#[derive(Drop)]
pub struct VehicleReplay {
    replayer: Replayer,
    key: Key,
    events: VehicleEvents,
}

impl Model for VehicleReplay {
    ghost use Rattle.mds_trace.specs.Vehicle.{VehicleReplaying};

    ghost Value = { VehicleReplaying };

    ghost view = { λ replay. record {
      replay = replay.replayer;
      key = replay.key;
      accepted = replay.events.accepted.events;
      refused = replay.events.refused;
    } };
}

/// A session over a vehicle's accepted events, and how many of its events were accepted and refused.
#[derive(Drop)]
pub struct VehicleSession {
    /// The session.
    pub session: Session,
    /// How many events were accepted and refused. Faulty items aren't counted.
    pub counts: CountsLine,
}

impl VehicleReplay {
    /// A replay to which no item has come, over these tables. It takes no memory.
    pub fn open(alloc: Global, tables: Tables, key: Key) -> VehicleReplay
        ensures took { TookOf [] result }
        ensures tables { result.replay.tables ≡ tables }
        ensures key { result.key ≡ key }
    {
        VehicleReplay {
            replayer: Replayer::open(alloc, tables, Opening::Removed),
            key,
            events: VehicleEvents {
                accepted: EventList::new(alloc),
                refused: 0,
            },
        }
    }

    /// The session over the events of the vehicle that were accepted, before the first of them; `removed` is held there.
    /// The items end here.
    pub fn finish(self) -> VehicleSession
        requires { (items : List Item) × TookOf items self }
        ensures session { result.session ≡ record {
          tables = self.replay.tables;
          opening = Removed;
          events = self.accepted;
          place = record { event = 0; passed = 0 };
        } }
        ensures accepted { result.counts.events ≡ length self.accepted }
        ensures refused { result.counts.refused ≡ self.refused }
    {
        let VehicleEvents { accepted, refused } = self.events;
        let counts = CountsLine {
            events: accepted.len(),
            refused,
        };
        let tables = self.replayer.into_tables();
        let session = Session::over(tables, State::Removed, accepted);
        VehicleSession { session, counts }
    }
}

/// It judges each item as it comes.
impl TakesItems for VehicleReplay {
    ghost use Rattle.mds_trace.specs.Vehicle.{TookSince};

    type Item = EventItem;

    ghost took = { TookSince };

    fn take(&mut self, item: &EventItem) -> Result<(), AllocError> {
        // With room for the event first, nothing is kept of an item for which there is no memory.
        self.events.accepted.reserve(1)?;
        let line = self.replayer.take(item)?;
        self.events.add(&self.key, item, &line);
        Ok(())
    }
}
