//! Sessions: a vehicle's events, walked through type by type.
ghost use Rattle.std.specs.Prelude.{◌≡◌, ◌≢◌, ◌<◌, ◌≤◌, ◌+◌, ℕ, [], ◌∷◌, IfOk, IfErr, OnErr, OnOk, MatchOption, length};
ghost use Rattle.mds_core.specs.Reported.{max_event_types};
ghost use Rattle.mds_trace.specs.declared.session.Halt.TheVariants.{AtEnd, AtStart};
ghost use Rattle.mds_trace.specs.declared.session.Place.{Place as At};
ghost use Rattle.mds_trace.specs.declared.session_fault.SessionFault.TheVariants.{Memory};
ghost use Rattle.mds_trace.specs.Session.{held_at, state_at, AreOpenFrom, IsPlace, types_at, AreSets, present_rows, IsStep, ArePossible, KeepsEvents, IsFirstLater, IsPresentChain, IsFaultOf};

use crate::SessionFault;
use crate::session_events::{check_events, first_reporting, held_at, list_of, time_at, types_at};
use arrayvec::ArrayVec;
use mds_core::{Event, EventList, MAX_EVENT_TYPES};
use mds_steps::{StateSet, forward, least_chain};
use mds_table::{State, Table, Tables, TypeName};
use std::alloc::{AllocError, Global};
use std::error::Error;
use std::fmt;
use std::marker::Model;

/// A place in a vehicle's events: before an event, within it, or at the end of all.
#[derive(Clone, Copy, Debug, PartialEq, Eq)]
pub struct Place {
    /// The event, from 0; at the end, the number of events.
    pub event: usize,
    /// How many types of the event are passed, 0 to their number; 0 at the end.
    pub passed: usize,
}

/// Why a session doesn't move.
#[derive(Clone, Copy, Debug, PartialEq, Eq)]
pub enum Halt {
    /// No such place comes later.
    AtEnd,
    /// It stands before the first event.
    AtStart,
}

impl Error for Halt {}

impl fmt::Display for Halt {
    ghost use Rattle.std.specs.Prelude.{Some};
    ghost use Rattle.mds_trace.specs.SessionFault.{halt_text};

    ghost output = { λ halt. Some (halt_text halt) };

    fn fmt<W: fmt::Write>(&self, f: &mut fmt::Formatter<W>) -> fmt::Result {
        f.write_str(match self {
            Halt::AtEnd => "at end",
            Halt::AtStart => "at start",
        })
    }
}

/// The most places in an event: before its first type, and behind each type.
const MAX_PLACES: usize = MAX_EVENT_TYPES + 1;

/// The states that are possible at each place in an event, from its first one on.
type Sets = ArrayVec<StateSet, { MAX_PLACES }>;

/// A walk through a vehicle's events, one type after the other, from one state held before the first event. It begins
/// before the first event. Each event leads, by the table in force at its time, from the state held before it to the
/// state that it reports.
#[derive(Debug)]
pub struct Session {
    tables: Tables,
    opening: State,
    events: EventList,
    place: Place,
    /// Those in the present event, up to the present place. A step adds one, and a step back takes it away.
    sets: Sets,
}

// By hand: crates above cite it.
impl Drop for Session {
    fn drop(self) {
        let Session {
            tables: _,
            opening: _,
            events: _,
            place: _,
            sets: _,
        } = self;
    }
}

impl Model for Session {
    ghost use Rattle.mds_trace.specs.Walk.{Walk};
    ghost use Rattle.mds_trace.specs.Session.{AreOpenFrom, IsPlace, IsWalk};

    ghost Value = { Walk };

    ghost view = { λ session. record {
      tables = session.tables;
      opening = session.opening;
      events = session.events.events;
      place = session.place;
    } };

    ghost invariant = { λ session. IsWalk session.tables session.opening
        session.events.events session.place session.sets.items };
}

impl Session {
    /// A session over these events, which stands before the first of them; this state is held there.
    ///
    /// # Errors
    ///
    /// The fault of the first faulty event: `BadOrder` where it is of another vehicle than the first, has the identifier
    /// of an earlier one, or is earlier than the one before; else `Unlawful` where no chain leads from the state held
    /// before it to the state that it reports, by the table in force at the event's time. `Memory` where there is none
    /// to compare identifiers, or to keep the events.
    pub fn open(
        alloc: Global,
        tables: Tables,
        opening: State,
        events: Vec<Event>,
    ) -> Result<Session, SessionFault>
        ensures opened { IfOk result (λ session. session ≡ record {
          tables = tables;
          opening = opening;
          events = events.items;
          place = record { event = 0; passed = 0 };
        }) }
        ensures open { OnOk result (AreOpenFrom tables opening events.items) }
        ensures fault { IfErr result (IsFaultOf tables opening events.items) }
        ensures refused { IfErr result (λ fault.
            fault ≢ Memory → AreOpenFrom tables opening events.items → ⊥) }
    {
        check_events(alloc, &tables, opening, &events)?;
        let list = list_of(alloc, &events)?;
        Ok(Session::over(tables, opening, list))
    }

    /// A session over the events of a list, which stands before the first of them; this state is held there. It takes no
    /// memory.
    pub fn over(tables: Tables, opening: State, events: EventList) -> Session
        requires { AreOpenFrom tables opening events.events }
        ensures { result ≡ record {
          tables = tables;
          opening = opening;
          events = events.events;
          place = record { event = 0; passed = 0 };
        } }
    {
        Session {
            tables,
            opening,
            events,
            place: Place {
                event: 0,
                passed: 0,
            },
            sets: sets_before(opening),
        }
    }

    /// Where the session stands.
    pub fn place(&self) -> Place
        ensures place { result ≡ self.now.place }
        ensures within { IsPlace self.now.events result }
    {
        self.place
    }

    /// The state held before the present event; at the end, the one held after the last.
    pub fn state(&self) -> State
        ensures { result ≡ state_at self.now }
    {
        held_at(self.opening, &self.events, self.place.event)
    }

    /// The states in which chains from [`Session::state`] through the types passed end: where the vehicle may be at this
    /// place, as far as the present event says, by the table in force at its time.
    pub fn possible(&self) -> StateSet
        ensures { ArePossible self.now result }
    {
        self.sets[self.place.passed]
    }

    /// The least chain of the present event, from the state held before it to the state that it reports, by the table in
    /// force at its time; `None` at the end.
    ///
    /// # Errors
    ///
    /// `AllocError` where there is no memory for its states.
    pub fn chain(&self, alloc: Global) -> Result<Option<Vec<State>>, AllocError>
        ensures { IfOk result (λ chain. MatchOption chain
            (self.now.place.event ≡ length self.now.events)
            (λ states. IsPresentChain self.now states.items)) }
    {
        match self.events.get(self.place.event) {
            Some(event) => least_chain(
                alloc,
                self.present_table(),
                self.state(),
                event.types(),
                event.state(),
            ),
            None => Ok(None),
        }
    }

    /// Passes one type of the present event; after its last type, goes on to the next event.
    ///
    /// # Errors
    ///
    /// `AtEnd` at the end; the session stays there.
    pub fn step(&mut self) -> Result<(), Halt>
        ensures kept { KeepsEvents self.old self.new }
        ensures moved { OnOk result (IsStep self.old.events self.old.place self.new.place) }
        ensures halt { IfErr result (λ halt.
            (halt ≡ AtEnd) × ((to : At) → IsStep self.old.events self.old.place to → ⊥)) }
        ensures stays { OnErr result (self.new.place ≡ self.old.place) }
    {
        let place = self.place;
        if place.event == self.events.len() {
            return Err(Halt::AtEnd);
        }
        if place.passed < types_at(&self.events, place.event).len() {
            self.pass_type();
        } else {
            self.stand_before(place.event + 1);
        }
        Ok(())
    }

    /// Undoes one step: goes to the place from which [`Session::step`] leads here.
    ///
    /// # Errors
    ///
    /// `AtStart` before the first event; the session stays there.
    pub fn back(&mut self) -> Result<(), Halt>
        ensures kept { KeepsEvents self.old self.new }
        ensures moved { OnOk result (IsStep self.old.events self.new.place self.old.place) }
        ensures halt { IfErr result (λ halt.
            (halt ≡ AtStart) × ((from : At) → IsStep self.old.events from self.old.place → ⊥)) }
        ensures stays { OnErr result (self.new.place ≡ self.old.place) }
    {
        let place = self.place;
        if place.passed > 0 {
            self.sets.pop();
            self.place.passed = place.passed - 1;
            return Ok(());
        }
        if place.event == 0 {
            return Err(Halt::AtStart);
        }
        self.stand_behind(place.event - 1);
        Ok(())
    }

    /// Goes on to the next event, or from within the last event to the end.
    ///
    /// # Errors
    ///
    /// `AtEnd` at the end; the session stays there.
    pub fn next_event(&mut self) -> Result<(), Halt>
        ensures kept { KeepsEvents self.old self.new }
        ensures moved { OnOk result (
            (self.new.place ≡ record { event = self.old.place.event + 1; passed = 0 })
            × (self.old.place.event < length self.old.events)) }
        ensures halt { IfErr result (λ halt.
            (halt ≡ AtEnd) × (self.old.place.event ≡ length self.old.events)) }
        ensures stays { OnErr result (self.new.place ≡ self.old.place) }
    {
        if self.place.event == self.events.len() {
            return Err(Halt::AtEnd);
        }
        self.stand_before(self.place.event + 1);
        Ok(())
    }

    /// Goes to the first later place before an event, or at the end, at which this state is held.
    ///
    /// # Errors
    ///
    /// `AtEnd` where there is no such place; the session stays where it is.
    pub fn run_to(&mut self, state: State) -> Result<(), Halt>
        ensures kept { KeepsEvents self.old self.new }
        ensures moved { OnOk result (IsFirstLater self.old state self.new.place) }
        ensures halt { IfErr result (λ halt. (halt ≡ AtEnd)
            × ((i : ℕ) → self.old.place.event < i → i ≤ length self.old.events
            → held_at self.old.opening self.old.events i ≢ state)) }
        ensures stays { OnErr result (self.new.place ≡ self.old.place) }
    {
        match first_reporting(&self.events, self.place.event, state) {
            Some(event) => {
                self.stand_before(event + 1);
                Ok(())
            }
            None => Err(Halt::AtEnd),
        }
    }

    fn stand_before(&mut self, event: usize)
        requires { event ≤ length self.old.events }
        ensures kept { KeepsEvents self.old self.new }
        ensures place { self.new.place ≡ record { event = event; passed = 0 } }
    {
        self.sets = sets_before(held_at(self.opening, &self.events, event));
        self.place = Place { event, passed: 0 };
    }

    /// The event's sets were not kept, so they are computed again.
    fn stand_behind(&mut self, event: usize)
        requires { event < length self.old.events }
        ensures kept { KeepsEvents self.old self.new }
        ensures place { self.new.place ≡ record {
          event = event;
          passed = length (types_at self.old.events event);
        } }
    {
        self.stand_before(event);
        let types = types_at(&self.events, event);
        let passed = types.len();
        self.sets = sets_of(self.present_table(), self.state(), types);
        self.place.passed = passed;
    }

    fn pass_type(&mut self)
        requires { self.old.place.passed < length (types_at self.old.events self.old.place.event) }
        ensures kept { KeepsEvents self.old self.new }
        ensures place { self.new.place ≡ record {
          event = self.old.place.event;
          passed = self.old.place.passed + 1;
        } }
    {
        let passed = self.place.passed;
        let types = types_at(&self.events, self.place.event);
        let next = forward(
            self.present_table(),
            &self.sets[passed],
            &types[passed..passed + 1],
        );
        self.sets.push(next);
        self.place.passed = passed + 1;
    }

    /// The table in force at the present event's time; at the end, where no type asks for a row, the first table.
    fn present_table(&self) -> &Table
        ensures { result.now ≡ present_rows self.now }
    {
        self.tables.at(time_at(&self.events, self.place.event))
    }
}

fn sets_before(held: State) -> Sets
    ensures { result.items ≡ (held ∷ []) ∷ [] }
{
    let mut sets = ArrayVec::new();
    sets.push(StateSet::of(held));
    sets
}

fn sets_of(table: &Table, held: State, types: &[TypeName]) -> Sets
    requires { length types.now ≤ max_event_types }
    ensures { AreSets table.now held types.now (length types.now) result.items }
{
    let mut sets = sets_before(held);
    for passed in 0..types.len() {
        let next = forward(table, &sets[passed], &types[passed..passed + 1]);
        sets.push(next);
    }
    sets
}
