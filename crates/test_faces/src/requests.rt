//! What requests from outside ask for, and that each call can succeed.
use crate::cases::{EMPTY, THREE};
use mds_batch::{BatchItem, BatchItems, EventItem, EventItems, ItemFault, Member, VehicleItem};
use mds_core::Request;
use mds_http::{Face, HttpFault, Plan, plan_of};
use mds_table::State;
use std::alloc::{AllocError, Global};
use test_fixtures::{A, B, DROP_OFF, E1, E2, again, event_of, fence, key};

/// The first event of a vehicle; a fault that no item here has, were it none.
fn first_event(device: u64, id: u64) -> EventItem {
    match event_of(device, id, DROP_OFF, State::Available, 1000, None) {
        Some(event) => EventItem::Event(event),
        None => EventItem::Fault(ItemFault::NotObject),
    }
}

/// Whether the item at this place is this one, by its fault and by the request that it asks for.
fn is_at(items: &EventItems, at: usize, item: &EventItem) -> bool {
    let mut asked = Request::Look(key(A));
    let asks = at < items.count() && items.ask(at, &mut asked);
    match item {
        EventItem::Event(event) => asks && asked == Request::Report(event.copy()),
        EventItem::Fault(fault) => match items.kept_items().get(at) {
            Some(kept) => !asks && kept.fault() == Some(*fault),
            None => false,
        },
    }
}

/// Whether a batch of these events is planned.
fn plans(alloc: Global, request: &str, events: &[EventItem]) -> Result<bool, AllocError> {
    let face = Face::open(alloc)?;
    match plan_of(alloc, &face, request.as_bytes())? {
        Plan::Events(items) => {
            let mut those = events.iter().enumerate();
            Ok(items.count() == events.len() && those.all(|(at, item)| is_at(&items, at, item)))
        }
        _ => Ok(false),
    }
}

#[test]
fn batches_are_planned(rt: HostRuntime) {
    let no_device = EventItem::Fault(ItemFault::Missing(Member::DeviceId));
    let events = [first_event(A, E1), no_device, first_event(B, E2)];
    let none = plans(rt.alloc(), EMPTY, &[]);
    let three = plans(rt.alloc(), THREE, &events);
    assert_eq!(rt; (none, three), (Ok(true), Ok(true)));
}

/// A registration, and an item at fault.
const REGISTRATION: &[u8] = b"POST /vehicles HTTP/1.1\r\nContent-Length: 110\r\n\r\n\
[{\"provider_id\":\"00000000-0000-4000-8000-000000000001\",\"device_id\":\"00000000-0000-4000-8000-00000000000a\"},{}]";

/// Whether a plan has these registrations.
fn has(plan: &Plan, expected: &[VehicleItem]) -> bool {
    match plan {
        Plan::Vehicles(items) => items.as_slice() == expected,
        _ => false,
    }
}

/// Whether a vehicle is planned, and one without a provider, and so by what the bytes say of their head: each call is
/// made again where there was no memory.
fn planned_again(alloc: Global) -> Result<[bool; 2], AllocError> {
    let no_provider = VehicleItem::Fault(ItemFault::Missing(Member::ProviderId));
    let expected = [VehicleItem::Vehicle(key(A)), no_provider];
    let face = again!(Face::open(alloc))?;
    let plan = again!(plan_of(alloc, &face, REGISTRATION))?;
    let status = face.head_status(REGISTRATION);
    let by_its_head = again!(status.plan(alloc, REGISTRATION))?;
    Ok([has(&plan, &expected), has(&by_its_head, &expected)])
}

/// By `tests/refused-growths`, as the other of such a name.
#[test]
fn call_succeeds_after_a_refused_growth(rt: HostRuntime) {
    assert_eq!(rt; planned_again(rt.alloc()), Ok([true, true]));
}

/// A look at a vehicle and at its events, by identifiers in other forms, and a request of no route.
const LOOK: &[u8] =
    b"GET /vehicles/00000000000040008000000000000001/{00000000-0000-4000-8000-00000000000A}?/events HTTP/1.1\r\n\r\n";

const HISTORY: &[u8] =
    b"GET /vehicles/urn:uuid:00000000-0000-4000-8000-000000000001/00000000-0000-4000-8000-00000000000a/events?x HTTP/1.0\r\n\r\n";

const NOWHERE: &[u8] = b"GET /nothing HTTP/1.1\r\n\r\n";

/// Whether they are a look at A, one at the events of A, and the fault of no route.
fn are_those(look: &Plan, history: &Plan, fault: &Plan) -> bool {
    match (look, history, fault) {
        (Plan::One(one), Plan::History(other), Plan::Fixed(fault)) => {
            *one == key(A) && *other == key(A) && *fault == HttpFault::NotFound
        }
        _ => false,
    }
}

/// Whether they are planned so, between two fences.
fn are_planned_quietly(alloc: Global) -> Result<bool, AllocError> {
    let face = Face::open(alloc)?;
    let _begun = fence(alloc);
    let look = face.head_status(LOOK).plan(alloc, LOOK)?;
    let history = plan_of(alloc, &face, HISTORY)?;
    let fault = plan_of(alloc, &face, NOWHERE)?;
    let _ended = fence(alloc);
    Ok(are_those(&look, &history, &fault))
}

#[test]
fn looks_are_planned_with_every_growth_refused(rt: HostRuntime) {
    assert_eq!(rt; are_planned_quietly(rt.alloc()), Ok(true));
}
