//! What a shard keeps of each vehicle, beside its history.
ghost use Rattle.std.specs.Prelude.{◌≡◌, ◌≢◌, ◌<◌, None, Some, true, false, not, is_some, length, IfOk, IfNone, IfSome, OnErr, slice_get, option_map};
ghost use Rattle.mds_core.specs.declared.key.Key.{Key as Told};
ghost use Rattle.mds_core.specs.History.{key_of, requests_of, reports, report_of};
ghost use Rattle.mds_known.specs.Kept.{AreSame, PutsValue, value_of};
ghost use Rattle.mds_shard.specs.declared.vehicle.Vehicle.{Vehicle as Kept};
ghost use Rattle.mds_shard.specs.Replay.{AreBefore, IsLastPlace, AddsName, has_name};

use mds_core::{Event, Key, Request, Standing};
use mds_known::KnownVehicles;
use mds_past::{KeptForm, Past};
use std::alloc::{AllocError, Global};
use std::hash::RandomState;

/// What is kept of a vehicle.
#[derive(Clone, Copy, Debug)]
pub struct Vehicle {
    /// Where it stands.
    pub standing: Standing,
    /// The place in the history of its last request.
    pub last: usize,
}

/// What is kept of the vehicles of a shard.
pub type Vehicles = KnownVehicles<Vehicle, RandomState>;

pub fn standing_in(vehicle: Option<Vehicle>) -> Option<Standing>
    ensures { result ≡ option_map (λ v. v.standing) vehicle }
{
    vehicle.map(|vehicle| vehicle.standing)
}

pub fn last_in(vehicle: Option<Vehicle>) -> Option<usize>
    ensures { result ≡ option_map (λ v. v.last) vehicle }
{
    vehicle.map(|vehicle| vehicle.last)
}

/// The place, where the vehicle stands there.
fn own_place(known: &Vehicles, key: &Key, at: Option<usize>) -> Option<usize>
    ensures { IfSome result (λ place. (kept : Kept)
        × (slice_get known.now.entries place ≡ Some (key.now, kept))) }
{
    let place = at?;
    let (kept, _) = known.get_index(place)?;
    if kept == key { Some(place) } else { None }
}

/// The place of the vehicle, if it is kept. Where it stands at `at`, its key isn't looked up.
pub fn place_of(known: &Vehicles, key: &Key, at: Option<usize>) -> Option<usize>
    ensures some { IfSome result (λ place. (kept : Kept)
        × (slice_get known.now.entries place ≡ Some (key.now, kept))) }
    ensures none { IfNone result (value_of known.now.entries key.now ≡ None) }
{
    if let Some(place) = own_place(known, key, at) {
        return Some(place);
    }
    match known.find(key) {
        Some((place, _)) => Some(place),
        None => None,
    }
}

/// Answers whether the name of the request's event is new.
fn keep_name(known: &mut Vehicles, request: &Request, at: Option<usize>) -> Result<bool, AllocError>
    requires { report_of request.now ≢ None → has_name known.old.names request.now ≡ false
        → value_of known.old.entries (key_of request.now) ≢ None }
    ensures entries { known.new.entries ≡ known.old.entries }
    ensures names { IfOk result (λ is_new.
        is_new ≡ true → AddsName request.now known.old.names known.new.names) }
    ensures new { IfOk result (λ is_new. is_new ≡ not (has_name known.old.names request.now)) }
    ensures same { IfOk result (λ is_new. is_new ≡ false → known.new.names ≡ known.old.names) }
    ensures none { report_of request.now ≡ None → AreSame known.old known.new }
    ensures unchanged { OnErr result (AreSame known.old known.new) }
    ensures absent { OnErr result (has_name known.old.names request.now ≡ false) }
{
    let Some(event) = request.event() else {
        return Ok(true);
    };
    let Some(place) = place_of(known, request.key(), at) else {
        return Ok(false);
    };
    let is_new = known.add_event(place, event.id())?;
    Ok(is_new)
}

/// Answers the place of the vehicle where the name of the request's event is new: where it isn't, nothing is kept. A report's
/// vehicle is kept already, so the insertion of the name or of a new vehicle is the only growth. Where the vehicle stands at `at`,
/// its key isn't looked up.
pub fn keep(
    known: &mut Vehicles,
    request: &Request,
    at: Option<usize>,
    vehicle: Vehicle,
) -> Result<Option<usize>, AllocError>
    requires { report_of request.now ≢ None → has_name known.old.names request.now ≡ false
        → value_of known.old.entries (key_of request.now) ≢ None }
    ensures vehicles { IfOk result (λ place. place ≢ None
        → PutsValue (key_of request.now) vehicle known.old.entries known.new.entries) }
    ensures names { IfOk result (λ place.
        place ≢ None → AddsName request.now known.old.names known.new.names) }
    ensures new { IfOk result (λ place.
        is_some place ≡ not (has_name known.old.names request.now)) }
    ensures same { IfOk result (λ place. place ≡ None → AreSame known.old known.new) }
    ensures unchanged { OnErr result (AreSame known.old known.new) }
    ensures absent { OnErr result (has_name known.old.names request.now ≡ false) }
{
    if !keep_name(known, request, at)? {
        return Ok(None);
    }
    let place = known.put(at, request.key(), vehicle)?;
    Ok(Some(place))
}

/// The events that lead to a place of the history, from one request about a vehicle to the one before it.
///
/// # Errors
///
/// `AllocError` where there is no memory for the list.
pub fn events_to<K: KeptForm>(
    alloc: Global,
    past: &Past<K>,
    last: usize,
    count: usize,
) -> Result<Vec<Event>, AllocError>
    requires before { AreBefore past.now.requests past.now.before }
    requires last { last < length past.now.requests }
    ensures { IfOk result (λ events.
        (key : Told) → IsLastPlace past.now.requests key last
        → events.items ≡ reports (requests_of past.now.requests key)) }
{
    let mut events = Vec::with_capacity(alloc, count)?;
    let mut at = Some(last);
    while let Some(place) = at {
        if let Some(event) = past.event(place) {
            events.push(event.copy())?;
        }
        at = past.earlier(place);
    }
    events.reverse();
    Ok(events)
}
