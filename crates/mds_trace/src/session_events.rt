//! The events of a session: what stands at a place, and whether a session over them may be opened.
ghost use Rattle.std.specs.Prelude.{◌≡◌, ◌↔◌, ◌<◌, ◌≤◌, ◌++◌, List, [], ◌∷◌, length, IsTrue, IfOk, IfErr, IfSome, OnOk};
ghost use Rattle.mds_core.specs.Reported.{Reported, max_event_types};
ghost use Rattle.mds_trace.specs.Session.{held_at, time_at, types_at, identifiers_of, AreOpenFrom, AreInOrder, IsNewAfter, ComesNext, FollowsOn, IsFirstReporting, IsFaultOf};

use crate::SessionFault;
use indexmap::IndexSet;
use mds_core::{Event, EventList};
use mds_steps::admit;
use mds_table::{State, Tables, TypeName};
use std::alloc::{AllocError, Global};
use uuid::Uuid;

pub fn held_at(opening: State, events: &EventList, at: usize) -> State
    ensures { result ≡ held_at opening events.now.events at }
{
    if at == 0 {
        return opening;
    }
    match events.get(at - 1) {
        Some(event) => event.state(),
        None => opening,
    }
}

pub fn types_at(events: &EventList, at: usize) -> &[TypeName]
    ensures types { result.now ≡ types_at events.now.events at }
    ensures few { length result.now ≤ max_event_types }
{
    match events.get(at) {
        Some(event) => event.types(),
        None => &[],
    }
}

/// 0 past the last event, where no type asks for a row.
pub fn time_at(events: &EventList, at: usize) -> u64
    ensures { result ≡ time_at events.now.events at }
{
    match events.get(at) {
        Some(event) => event.time(),
        None => 0,
    }
}

/// Whether a session over these events may be opened with this state held before them. Each event goes by the table in
/// force at its own time.
///
/// # Errors
///
/// The fault of the first faulty event, `BadOrder` before `Unlawful`; `Memory` where there is none to compare
/// identifiers.
pub fn check_events(
    alloc: Global,
    tables: &Tables,
    opening: State,
    events: &[Event],
) -> Result<(), SessionFault>
    ensures open { OnOk result (AreOpenFrom tables.now opening events.now) }
    ensures fault { IfErr result (IsFaultOf tables.now opening events.now) }
{
    let mut seen = IndexSet::with_capacity(alloc, events.len())?;
    let mut held = opening;
    for (at, event) in events.iter().enumerate() {
        if !keeps_order(&mut seen, &events[..at], event)? {
            return Err(SessionFault::BadOrder { event: at });
        }
        let table = tables.at(event.time());
        if let Err(none) = admit(table, held, event.types(), event.state()) {
            return Err(SessionFault::Unlawful {
                event: at,
                at: none.at,
            });
        }
        held = event.state();
    }
    Ok(())
}

fn keeps_order(
    seen: &mut IndexSet<Uuid>,
    before: &[Event],
    event: &Event,
) -> Result<bool, AllocError>
    ensures { IfOk result (λ keeps.
        seen.old.keys ≡ identifiers_of before.now → AreInOrder before.now
        → (IsTrue keeps ↔ AreInOrder (before.now ++ event.now ∷ []))
        × (IsTrue keeps → seen.new.keys ≡ identifiers_of (before.now ++ event.now ∷ []))) }
{
    let is_new = is_new(seen, event)?;
    Ok(is_new && follows_on(before, event))
}

fn is_new(seen: &mut IndexSet<Uuid>, event: &Event) -> Result<bool, AllocError>
    ensures { IfOk result (λ new. (before : List Reported) → seen.old.keys ≡ identifiers_of before
        → (IsTrue new ↔ IsNewAfter before event.now)
        × (IsTrue new → seen.new.keys ≡ identifiers_of (before ++ event.now ∷ []))) }
{
    Ok(seen.insert(event.id())?)
}

fn follows_on(before: &[Event], event: &Event) -> bool
    ensures { IsTrue result ↔ FollowsOn before.now event.now }
{
    match before.last() {
        Some(last) => comes_next(last, event),
        None => true,
    }
}

fn comes_next(last: &Event, event: &Event) -> bool
    ensures { IsTrue result ↔ ComesNext last.now event.now }
{
    last.key() == event.key() && last.time() <= event.time()
}

pub fn first_reporting(events: &EventList, from: usize, state: State) -> Option<usize>
    ensures first { IsFirstReporting events.now.events from state result }
    ensures within { IfSome result (λ at. at < usize.MAX) }
{
    for at in from..events.len() {
        match events.get(at) {
            Some(event) if event.state() == state => return Some(at),
            _ => {}
        }
    }
    None
}

/// A list of these events.
pub fn list_of(alloc: Global, events: &[Event]) -> Result<EventList, AllocError>
    ensures { IfOk result (λ list. list.events ≡ events.now) }
{
    let mut list = EventList::new(alloc);
    for event in events {
        list.push(event)?;
    }
    Ok(list)
}
