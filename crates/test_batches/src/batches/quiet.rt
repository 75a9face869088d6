//! The calls that take no memory, or find none and say so.
use super::EVENT;
use mds_batch::{
    BatchFault, BatchItem, BatchItems, EventItem, EventItems, ItemFault, ItemReader, Member,
    TakesItems, VehicleItem, each_event, read_event_items, read_events, read_item, read_vehicles,
};
use mds_core::Request;
use std::alloc::Global;
use test_fixtures::{A, fence, key};

/// A registration, and an object without members.
const VEHICLES: &[u8] =
    br#"[{"provider_id":"00000000-0000-4000-8000-000000000001","device_id":"00000000-0000-4000-8000-00000000000a"},{}]"#;

/// Why each call that reads a text gives nothing of this one.
fn faults(alloc: Global, text: &[u8]) -> [Option<BatchFault>; 6] {
    let mut taker = Vec::new(alloc);
    let mut reader = ItemReader::new(alloc);
    [
        read_vehicles(alloc, text).err(),
        read_events(alloc, text).err(),
        read_event_items(alloc, text).err(),
        each_event(alloc, text, &mut taker).err(),
        read_item(alloc, text).err(),
        reader.read(text).err(),
    ]
}

/// Whether the item at this place, if there is one, asks for a request.
fn asks<I: BatchItems>(items: &I, at: usize) -> bool {
    let mut request = Request::Look(key(A));
    at < items.count() && items.ask(at, &mut request)
}

/// Whether an event that a reader reads again is taken by a taker with room for it.
fn takes(reader: &mut ItemReader, taker: &mut Vec<EventItem>) -> Result<bool, BatchFault> {
    let item = reader.read(EVENT.as_bytes())?;
    Ok(TakesItems::take(taker, item).is_ok() && item.fault().is_none())
}

/// An event and a fault, and a registration and a fault.
#[derive(Drop)]
struct Both {
    events: EventItems,
    vehicles: Vec<VehicleItem>,
}

/// Both, of these texts.
fn both_of(alloc: Global) -> Result<Both, BatchFault> {
    let mut events = read_event_items(alloc, EVENT.as_bytes())?;
    let fault = EventItem::Fault(ItemFault::Bad(Member::DeviceId));
    events.take(&fault).ok().ok_or(BatchFault::Memory)?;
    let vehicles = read_vehicles(alloc, VEHICLES)?;
    Ok(Both { events, vehicles })
}

/// Whether an event and a registration ask for requests, and a fault asks for none and has its words.
fn told(both: &Both) -> bool {
    let member = Member::DeviceId;
    let fault = ItemFault::Bad(member);
    let kept = match both.events.kept_items().get(1) {
        Some(kept) => kept.fault(),
        None => None,
    };
    asks(&both.events, 0)
        && !asks(&both.events, 1)
        && kept == Some(fault)
        && asks(&both.vehicles, 0)
        && !asks(&both.vehicles, 1)
        && fault.word() == "bad_param"
        && member.name() == "device_id"
}

/// Whether an event is read again and taken, what is told is right, a text that is too long is told as that, and the event as want of
/// memory where a reader and a taker are new, if there was none.
fn found(alloc: Global) -> Result<(bool, bool, bool, bool), BatchFault> {
    let Ok(long) = " ".repeat(alloc, 4194305) else {
        return Err(BatchFault::Memory);
    };
    let Ok(mut taker) = Vec::with_capacity(alloc, 1) else {
        return Err(BatchFault::Memory);
    };
    let mut reader = ItemReader::new(alloc);
    reader.read(EVENT.as_bytes())?;
    let both = both_of(alloc)?;
    let _begun = fence(alloc);
    let taken = takes(&mut reader, &mut taker);
    let told = told(&both);
    let too_long = faults(alloc, long.as_bytes());
    let without = faults(alloc, EVENT.as_bytes());
    let lack = match fence(alloc) {
        Ok(_) => None,
        Err(_) => Some(BatchFault::Memory),
    };
    let is_long = too_long == [Some(BatchFault::TooLong); 6];
    Ok((taken == Ok(true), told, is_long, without == [lack; 6]))
}

#[test]
fn items_are_read_again_with_every_growth_refused(rt: HostRuntime) {
    assert_eq!(rt; found(rt.alloc()), Ok((true, true, true, true)));
}
