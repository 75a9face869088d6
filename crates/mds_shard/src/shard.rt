//! A shard: the machine with its vehicles looked up in maps.
ghost use Rattle.std.specs.Prelude.{◌≡◌, ◌<◌, ◌≤◌, ◌+◌, ◌^◌, [], ◌∷◌, ◌++◌, List, None, Some, length, not, false, if◌then◌else◌, IfOk, IfNone, IfSome, OnOk, OnErr, option_map};
ghost use Rattle.mds_core.specs.History.{requests_of, key_of};
ghost use Rattle.mds_core.specs.Answer.{MayBeDone};
ghost use Rattle.mds_core.specs.Machine.{Steps, LacksMemory, standing_in as where_it_stands, events_in};
ghost use Rattle.mds_core.specs.Lawful.{IsLawful};
ghost use Rattle.mds_core.specs.Known.{is_repeated};
ghost use Rattle.mds_core.specs.declared.key.Key.{Key as Told};
ghost use Rattle.mds_core.specs.declared.request.Request.{Request as Requested};
ghost use mathlib.Core.List.{IsPrefix};
ghost use Rattle.mds_shard.specs.Replay.{IsEndOf, IsVehicle};
ghost use Rattle.mds_shard.specs.Walk.{IsStart, IsWalkOf, steps_left};

use crate::TakesEvents;
use crate::vehicle::{Vehicle, Vehicles, events_to, keep, last_in, place_of, standing_in};
use crate::walk::{MAX_STEPS, WalkStart, walk_back};
use mds_core::{Event, Key, Known, Outcome, Reply, Request, Standing, decide, standing_after};
use mds_known::KnownVehicles;
use mds_past::{KeptForm, Past};
use mds_table::Tables;
use std::alloc::{AllocError, Global};
use std::hash::RandomState;
use std::marker::Model;

/// The machine of one shard, over the tables that decide. Beside its history it keeps where each vehicle stands, the names of
/// the events that were accepted, and for each entry of the history the place of the vehicle's entry before it; so no call
/// looks through the history. The history is kept as `K` keeps requests.
///
/// Every shard is such that its history could have been accepted, and what it keeps beside it is what the history says.
pub struct Shard<K: KeptForm = Request> {
    tables: Tables,
    past: Past<K>,
    known: Vehicles,
}

// By hand: crates above cite it.
impl<K: KeptForm> Drop for Shard<K> {
    fn drop(self) {
        let Shard {
            tables: _,
            past: _,
            known: _,
        } = self;
    }
}

impl<K: KeptForm> Model for Shard<K> {
    ghost use Rattle.mds_core.specs.Machine.{Machine};
    ghost use Rattle.mds_shard.specs.Replay.{IsReplay};

    ghost Value = { Machine };

    ghost view = { λ shard. record { tables = shard.tables; history = shard.past.requests } };

    ghost invariant = { λ shard. IsReplay shard.tables shard.past.requests shard.past.before
        shard.known.entries shard.known.names };
}

impl<K: KeptForm> Shard<K> {
    /// A shard over the tables, with nothing accepted yet. It takes no memory. Its look-ups hash by `hasher`: where that is
    /// random, nobody can pick keys and identifiers that make them slow.
    pub fn open(alloc: Global, tables: Tables, hasher: RandomState) -> Shard<K>
        ensures { result ≡ record { tables = tables; history = [] } }
    {
        Shard {
            tables,
            past: Past::new(alloc),
            known: KnownVehicles::with_hasher(alloc, hasher),
        }
    }

    /// Answers one request, and keeps it in the history where it was accepted. It costs the same whatever the shard holds,
    /// but for an accepted one for which the history or a map has no room left: its growth moves it.
    ///
    /// # Errors
    ///
    /// `AllocError` where the request would be accepted and there is no memory to keep it; nothing has changed then.
    pub fn step(&mut self, request: &Request) -> Result<Reply, AllocError>
        ensures step { IfOk result (λ reply. Steps self.old request.now reply self.new) }
        ensures memory { OnErr result (LacksMemory self.old request.now self.new) }
        ensures lawful { IsLawful self.new.tables self.new.history }
        ensures small { length self.new.history < 2 ^ 63 }
    {
        let place = self.len();
        let (at, vehicle) = self.find(request.key());
        // An accepted event's name is looked up only where it is put in, and any other's only here.
        let mut known = Known {
            standing: standing_in(vehicle),
            has_event: false,
        };
        let outcome = decide(&self.tables, &known, request);
        if let Outcome::Done = outcome {
            if self.accept(request, at, vehicle)? {
                return Ok(Reply { place, outcome });
            }
        } else if !self.has_event(request, at) {
            return Ok(Reply { place, outcome });
        }
        known.has_event = true;
        Ok(Reply {
            place,
            outcome: decide(&self.tables, &known, request),
        })
    }

    /// The vehicle's key isn't looked up where it stands at this place.
    fn has_event(&self, request: &Request, at: Option<usize>) -> bool
        ensures { result
            ≡ is_repeated (requests_of self.now.history (key_of request.now)) request.now }
    {
        let Some(event) = request.event() else {
            return false;
        };
        match place_of(&self.known, request.key(), at) {
            Some(place) => self.known.has_event(place, event.id()),
            None => false,
        }
    }

    fn vehicle(&self, key: &Key) -> Option<Vehicle>
        ensures { IsVehicle self.now.history key.now result }
    {
        match self.known.find(key) {
            Some((_, vehicle)) => Some(*vehicle),
            None => None,
        }
    }

    /// The vehicle, and its place, by which it can be written without another look-up.
    fn find(&self, key: &Key) -> (Option<usize>, Option<Vehicle>)
        ensures { IsVehicle self.now.history key.now result.1 }
    {
        match self.known.find(key) {
            Some((place, vehicle)) => (Some(place), Some(*vehicle)),
            None => (None, None),
        }
    }

    /// Keeps a request that is accepted unless its event is repeated, and answers whether it was kept.
    fn accept(
        &mut self,
        request: &Request,
        at: Option<usize>,
        vehicle: Option<Vehicle>,
    ) -> Result<bool, AllocError>
        requires accepted { is_repeated
            (requests_of self.old.history (key_of request.now)) request.now ≡ false
            → MayBeDone self.old.tables self.old.history request.now }
        requires vehicle { IsVehicle self.old.history (key_of request.now) vehicle }
        ensures tables { OnOk result (self.new.tables ≡ self.old.tables) }
        ensures new { IfOk result (λ is_new. is_new ≡ not
            (is_repeated (requests_of self.old.history (key_of request.now)) request.now)) }
        ensures history { IfOk result (λ is_new. self.new.history
            ≡ (if is_new then self.old.history ++ request.now ∷ [] else self.old.history)) }
        ensures unchanged { OnErr result (self.new ≡ self.old) }
        ensures lacked { OnErr result (is_repeated
            (requests_of self.old.history (key_of request.now)) request.now ≡ false) }
        ensures lawful { IsLawful self.new.tables self.new.history }
        ensures small { length self.new.history < 2 ^ 63 }
    {
        let before = last_in(vehicle);
        let standing = standing_after(standing_in(vehicle), request);
        let last = self.past.len();
        let Ok(()) = self.past.reserve() else {
            if self.has_event(request, at) {
                return Ok(false);
            }
            return Err(AllocError);
        };
        let vehicle = Vehicle { standing, last };
        let Some(number) = keep(&mut self.known, request, at, vehicle)? else {
            return Ok(false);
        };
        self.past.push(request, number, before);
        Ok(true)
    }

    /// Where the vehicle stands, or `None` where it isn't registered. It costs the same whatever the shard holds.
    pub fn standing(&self, key: &Key) -> Option<Standing>
        ensures { result ≡ where_it_stands self.now.history key.now }
    {
        standing_in(self.vehicle(key))
    }

    /// The place behind the last request about the vehicle, or 0 where there is none. It costs the same whatever the shard
    /// holds.
    pub fn end_of(&self, key: &Key) -> usize
        ensures { IsEndOf self.now.history key.now result }
    {
        // This call's contract says how long the history is at most.
        let _ = self.len();
        match self.vehicle(key) {
            Some(vehicle) => vehicle.last + 1,
            None => 0,
        }
    }

    /// The accepted events of the vehicle in their order, or `None` where it isn't registered. It costs what the vehicle
    /// has, whatever else the shard has.
    ///
    /// # Errors
    ///
    /// `AllocError` where there is no memory for the list.
    pub fn events(&self, alloc: Global, key: &Key) -> Result<Option<Vec<Event>>, AllocError>
        ensures { IfOk result (λ found.
            option_map (λ events. events.items) found ≡ events_in self.now.history key.now) }
    {
        let Some(vehicle) = self.vehicle(key) else {
            return Ok(None);
        };
        let events = events_to(alloc, &self.past, vehicle.last, vehicle.standing.events)?;
        Ok(Some(events))
    }

    /// Where a walk over the vehicle's requests begins, or `None` where it isn't registered. It costs the same whatever
    /// the shard holds.
    pub fn walk_start(&self, key: &Key) -> Option<WalkStart>
        ensures start { IfSome result (IsStart self.now.history key.now) }
        ensures none { IfNone result (events_in self.now.history key.now ≡ None) }
    {
        let vehicle = self.vehicle(key)?;
        Some(WalkStart {
            last: vehicle.last,
            events: vehicle.standing.events,
        })
    }

    /// Adds events of a vehicle to a list, the last one first, from the place of one of its requests on, over at most
    /// [`MAX_STEPS`] of them, and answers the place where the walk goes on, if it does. The history may have grown
    /// since the walk began.
    pub fn walk_back<E: TakesEvents>(&self, from: usize, list: &mut E) -> Option<usize>
        requires from { from < length self.now.history }
        requires room { MAX_STEPS ≤ E.room list.old }
        ensures walk { (seen : List Requested) (key : Told) → IsPrefix seen self.now.history
            → IsWalkOf seen key (Some from) (E.events list.old)
            → IsWalkOf seen key result (E.events list.new) }
        ensures nears { steps_left result ≤ from }
        ensures room { E.room list.old + length (E.events list.old)
            ≤ E.room list.new + length (E.events list.new) }
    {
        walk_back(&self.past, from, list)
    }

    /// The accepted requests as they are kept, and beside each the place of the one about its vehicle before it.
    pub fn past(&self) -> &Past<K>
        ensures requests { result.now.requests ≡ self.now.history }
        ensures lawful { IsLawful self.now.tables self.now.history }
    {
        &self.past
    }

    /// The tables that decide, each event by the one in force at its time.
    pub fn tables(&self) -> &Tables
        ensures { result.now ≡ self.now.tables }
    {
        &self.tables
    }

    /// How many requests were accepted.
    pub fn len(&self) -> usize
        ensures len { result ≡ length self.now.history }
        ensures lawful { IsLawful self.now.tables self.now.history }
        ensures small { result < 2 ^ 63 }
    {
        self.past.len()
    }
}

impl Shard<Request> {
    /// The accepted requests, in the order in which they were accepted.
    pub fn history(&self) -> &[Request]
        ensures history { result.now ≡ self.now.history }
        ensures lawful { IsLawful self.now.tables self.now.history }
    {
        self.past.requests()
    }
}
