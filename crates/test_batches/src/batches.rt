//! Batches: a value from outside, and that each call can succeed. More values are asked of the built program.
mod edges;
mod quiet;
mod single;
mod takers;

use mds_batch::{
    BatchFault, BatchItem, BatchItems, BatchReader, EventItem, EventItems, ItemFault, Member,
    VehicleItem, read_event_items, read_events, read_vehicles,
};
use mds_core::Position;
use mds_pieces::read_event_items_by;
use mds_table::State;
use std::alloc::{AllocError, Global};
pub use takers::Few;
use test_fixtures::{A, E1, again, event_of, key};

/// How many items of a text have the fault of the first, and that fault; or why it lists none.
type First = Result<(usize, Option<ItemFault>), BatchFault>;

fn first_of<I: BatchItem + Drop>(read: Result<Vec<I>, BatchFault>) -> First {
    let items = read?;
    let fault = items.first().and_then(|item| item.fault());
    let count = items.iter().filter(|item| item.fault() == fault).count();
    Ok((count, fault))
}

fn first_kept(read: Result<EventItems, BatchFault>) -> First {
    let items = read?;
    let fault = match items.kept_items().first() {
        Some(item) => item.fault(),
        None => None,
    };
    Ok((items.count(), fault))
}

/// The pieces, each as often as it stands.
pub fn text_of(alloc: Global, pieces: &[(&str, usize)]) -> Result<String, AllocError> {
    let mut text = String::new(alloc);
    for (piece, times) in pieces {
        text.push_str(piece.repeat(alloc, *times)?.as_str())?;
    }
    Ok(text)
}

/// An event of three types, with a position.
pub const EVENT: &str = r#"{"provider_id":"00000000-0000-4000-8000-000000000001",
"device_id":"00000000-0000-4000-8000-00000000000a","event_id":"00000000-0000-4000-8000-0000000000e1",
"vehicle_state":"on_trip","event_types":["trip_end","battery_low","trip_end"],
"timestamp":1000,"location_e7":{"lat":525200000,"lng":134050000}}"#;

/// The item that reports it. No text of these tests has the other one.
pub fn report() -> EventItem {
    let types = &["trip_end", "battery_low", "trip_end"];
    let position = Position::new(525200000, 134050000);
    match event_of(A, E1, types, State::OnTrip, 1000, position) {
        Some(event) => EventItem::Event(event),
        None => EventItem::Fault(ItemFault::NotObject),
    }
}

/// Registrations of one vehicle, alone and with members that are ignored, and items at fault.
const REGISTRATIONS: &[u8] = br#"[
{"provider_id":"00000000-0000-4000-8000-000000000001","device_id":"00000000-0000-4000-8000-00000000000a"},
{"device_id":"0000000000004000800000000000000A","provider_id":"00000000-0000-4000-8000-000000000001","timestamp":1.5},
{"provider_id":"00000000-0000-4000-8000-000000000001"},
{"provider_id":"00000000-0000-4000-8000-000000000001","device_id":1},
{}, null, []]"#;

/// Whether they are read so.
fn are_registered(alloc: Global) -> Result<bool, BatchFault> {
    let expected = [
        VehicleItem::Vehicle(key(A)),
        VehicleItem::Vehicle(key(A)),
        VehicleItem::Fault(ItemFault::Missing(Member::DeviceId)),
        VehicleItem::Fault(ItemFault::Bad(Member::DeviceId)),
        VehicleItem::Fault(ItemFault::Missing(Member::ProviderId)),
        VehicleItem::Fault(ItemFault::NotObject),
        VehicleItem::Fault(ItemFault::NotObject),
    ];
    Ok(read_vehicles(alloc, REGISTRATIONS)?.as_slice() == expected.as_slice())
}

#[test]
fn registrations(rt: HostRuntime) {
    assert_eq!(rt; are_registered(rt.alloc()), Ok(true));
}

/// Two items without a device.
pub const TWO_ITEMS: &[u8] =
    br#"[{"provider_id":"00000000-0000-4000-8000-000000000001"},{"provider_id":"00000000-0000-4000-8000-000000000001"}]"#;

/// Each call, made again where its growth is refused (by `tests/refused-growths`).
#[test]
fn call_succeeds_after_a_refused_growth(rt: HostRuntime) {
    let vehicles = first_of(again!(read_vehicles(rt.alloc(), TWO_ITEMS)));
    let events = first_of(again!(read_events(rt.alloc(), TWO_ITEMS)));
    let kept = first_kept(again!(read_event_items(rt.alloc(), TWO_ITEMS)));
    let mut reader = BatchReader::new(rt.alloc());
    let read = first_kept(again!(reader.read(rt.alloc(), TWO_ITEMS)));
    let shared = first_kept(again!(read_event_items_by(&rt, rt.alloc(), TWO_ITEMS, 2)));
    let expected = Ok((2, Some(ItemFault::Missing(Member::DeviceId))));
    assert_eq!(rt; [vehicles, events, kept, read, shared], [expected; 5]);
}
