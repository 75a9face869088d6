//! What a history of accepted requests says of one vehicle, looked up in the history itself.
ghost use Rattle.std.specs.Prelude.{◌≡◌, ◌<◌, ◌++◌, ◌∷◌, [], List, length, IfOk, option_map};
ghost use Rattle.mds_core.specs.declared.request.Request.{Request as Requested};
ghost use Rattle.mds_core.specs.History.{same_key, key_of, requests_of, reports, standing_of};
ghost use Rattle.mds_core.specs.Known.{standing_if, is_repeated, AreKnown};
ghost use Rattle.mds_core.specs.Machine.{events_in as accepted_in};

use crate::{Event, Key, Known, Request, Standing};
use std::alloc::{AllocError, Global};

fn is_about(request: &Request, key: &Key) -> bool
    ensures { result ≡ same_key (key_of request.now) key.now }
{
    request.key() == key
}

/// What is known of the vehicle of a request after the history.
pub fn known_in(history: &[Request], asked: &Request) -> Known
    ensures { AreKnown (requests_of history.now (key_of asked.now)) asked.now result }
{
    let mut known = Known {
        standing: None,
        has_event: false,
    };
    for request in history {
        if is_about(request, asked.key()) {
            known = known_after(known, request, asked);
        }
    }
    known
}

fn known_after(known: Known, request: &Request, asked: &Request) -> Known
    ensures { (requests : List Requested)
        → AreKnown requests asked.now known → length (reports requests) < usize.MAX
        → AreKnown (requests ++ request.now ∷ []) asked.now result }
{
    Known {
        standing: Some(standing_after(known.standing, request)),
        has_event: known.has_event || is_same_event(request, asked),
    }
}

/// Where a vehicle stands after one more accepted request about it, by where it stood before, if it was registered.
pub fn standing_after(standing: Option<Standing>, request: &Request) -> Standing
    ensures { (requests : List Requested)
        → standing ≡ standing_if requests → length (reports requests) < usize.MAX
        → result ≡ standing_of (requests ++ request.now ∷ []) }
{
    let standing = standing.unwrap_or(Standing::at_registration());
    match request.event() {
        Some(event) => standing.after(event),
        None => standing,
    }
}

fn is_same_event(request: &Request, asked: &Request) -> bool
    ensures { result ≡ is_repeated (request.now ∷ []) asked.now }
{
    match (request.event(), asked.event()) {
        (Some(event), Some(other)) => event.id() == other.id(),
        _ => false,
    }
}

/// The events of the vehicle, or `None` where it isn't registered.
pub fn events_in(
    alloc: Global,
    history: &[Request],
    key: &Key,
) -> Result<Option<Vec<Event>>, AllocError>
    ensures { IfOk result (λ found.
        option_map (λ events. events.items) found ≡ accepted_in history.now key.now) }
{
    let mut registered = false;
    let mut events = Vec::new(alloc);
    for request in history {
        if is_about(request, key) {
            registered = true;
            if let Some(event) = request.event() {
                events.push(*event)?;
            }
        }
    }
    Ok(if registered { Some(events) } else { None })
}
