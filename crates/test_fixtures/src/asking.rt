//! Vehicles, events and requests, told in a few words.
use mds_core::{Event, Key, MAX_EVENT_TYPES, Position, Request};
use mds_table::{State, TypeName};
use std::alloc::{AllocError, AllocFailed, Global};
use uuid::Uuid;

/// The last digits of the devices' identifiers: in a book A and C are in shard 0, and B in shard 1.
pub const A: u64 = 0x0a;

pub const B: u64 = 0x0b;

pub const C: u64 = 0x0c;

/// The last digits of the events' identifiers.
pub const E0: u64 = 0xe0;

pub const E1: u64 = 0xe1;

pub const E2: u64 = 0xe2;

pub const E3: u64 = 0xe3;

pub const E4: u64 = 0xe4;

/// The types of an event by which a vehicle becomes available.
pub const DROP_OFF: &[&str] = &["provider_drop_off"];

/// What a test asks. An event is told by its vehicle, identifier, types, state and time, and its latitude and longitude.
#[derive(Clone, Copy)]
pub enum Ask {
    Register(u64),
    Report(u64, u64, &'static [&'static str], State, u64),
    ReportAt(u64, u64, &'static [&'static str], State, u64, (i64, i64)),
    Look(u64),
}

/// Why a test has nothing to compare.
#[derive(Clone, Copy, Debug, PartialEq, Eq)]
pub enum Lack {
    /// There was no memory.
    Memory,
    /// What a test tells of is no event, or no table, or not there.
    Case,
}

impl From<AllocError> for Lack {
    fn from(_error: AllocError) -> Lack {
        Lack::Memory
    }
}

impl<T: Drop> From<AllocFailed<T>> for Lack {
    fn from(_error: AllocFailed<T>) -> Lack {
        Lack::Memory
    }
}

/// The identifier 00000000-0000-4000-8000-000000000000 with these last digits.
pub fn uuid(last: u64) -> Uuid {
    Uuid::from_u64_pair(0x4000, 0x8000_0000_0000_0000 | last)
}

/// The vehicle of provider 01 with these last digits of its device.
pub fn key(device: u64) -> Key {
    Key {
        provider: uuid(0x01),
        device: uuid(device),
    }
}

/// The type of this name: `unspecified` where the text is none, which none of the tests' is.
pub fn type_of(name: &str) -> TypeName {
    TypeName::new(name).unwrap_or_default()
}

/// The types of these names.
pub fn types_of(alloc: Global, names: &[&str]) -> Result<Vec<TypeName>, AllocError> {
    let mut types = Vec::new(alloc);
    for name in names {
        types.push(type_of(name))?;
    }
    Ok(types)
}

/// The event that is told, or `None` where it is none.
pub fn event_of(
    device: u64,
    id: u64,
    names: &[&str],
    state: State,
    time: u64,
    position: Option<Position>,
) -> Option<Event> {
    let mut types = [TypeName::default(); MAX_EVENT_TYPES];
    for (name, kind) in names.iter().zip(types.iter_mut()) {
        *kind = type_of(name);
    }
    Event::new(
        key(device),
        uuid(id),
        state,
        types.get(..names.len())?,
        time,
        position,
    )
    .ok()
}

/// The request that is asked, or `None` where it reports what is no event.
pub fn request_of(asked: &Ask) -> Option<Request> {
    match asked {
        Ask::Register(device) => Some(Request::Register(key(*device))),
        Ask::Look(device) => Some(Request::Look(key(*device))),
        Ask::Report(device, id, names, state, time) => {
            Some(Request::Report(event_of(*device, *id, names, *state, *time, None)?))
        }
        Ask::ReportAt(device, id, names, state, time, (lat, lng)) => {
            let position = Position::new(*lat, *lng);
            Some(Request::Report(event_of(*device, *id, names, *state, *time, position)?))
        }
    }
}

/// The requests that are asked.
pub fn requests_of(alloc: Global, asked: &[Ask]) -> Result<Vec<Request>, Lack> {
    let mut requests = Vec::with_capacity(alloc, asked.len())?;
    for one in asked {
        requests.push(request_of(one).ok_or(Lack::Case)?)?;
    }
    Ok(requests)
}
