//! Lines: that each call can succeed, and a taker without memory. Values are asked of the built program.
use crate::batches::Few;
use mds_batch::{BatchItem, EventItem, ItemFault, Member};
use mds_lines::{ItemsFault, LineFault, LineReader, UnlimitedItems};
use std::alloc::Global;
use test_fixtures::{again, fence};

const NO_OBJECT: Option<ItemFault> = Some(ItemFault::NotObject);

const NO_PROVIDER: Option<ItemFault> = Some(ItemFault::Missing(Member::ProviderId));

/// Two events, a number, an object of no members and an event, each on a line, and a line of a space.
const EVENTS: &[u8] =
    br#"{"provider_id":"00000000-0000-4000-8000-000000000001","device_id":"00000000-0000-4000-8000-00000000000a","event_id":"00000000-0000-4000-8000-0000000000e1","vehicle_state":"on_trip","event_types":["trip_start"],"timestamp":1000}

{"provider_id":"00000000-0000-4000-8000-000000000001","device_id":"00000000-0000-4000-8000-00000000000a","event_id":"00000000-0000-4000-8000-0000000000e1","vehicle_state":"on_trip","event_types":["trip_start"],"timestamp":1000}
7
{}
{"provider_id":"00000000-0000-4000-8000-000000000001","device_id":"00000000-0000-4000-8000-00000000000a","event_id":"00000000-0000-4000-8000-0000000000e1","vehicle_state":"on_trip","event_types":["trip_start"],"timestamp":1000}"#;

/// The items of a stream that is fed in pieces of this length, or its first fault.
fn fed(alloc: Global, stream: &[u8], length: usize) -> Result<Vec<EventItem>, LineFault> {
    let mut items = Vec::new(alloc);
    let mut reader = LineReader::open(alloc);
    for piece in stream.chunks(length.max(1)) {
        reader.feed(piece, &mut items)?;
    }
    reader.finish(&mut items)?;
    Ok(items)
}

/// Whether the items have these faults.
fn have(items: &[EventItem], faults: &[Option<ItemFault>]) -> bool {
    let mut pairs = items.iter().zip(faults.iter());
    items.len() == faults.len() && pairs.all(|(item, fault)| item.fault() == *fault)
}

/// Whether a stream of events among other lines is read, fed again from its beginning where a growth is refused.
fn is_read(alloc: Global) -> Result<bool, LineFault> {
    let items = again!(fed(alloc, EVENTS, 99))?;
    Ok(have(&items, &[None, None, NO_OBJECT, NO_PROVIDER, None]))
}

/// Growths are refused by `tests/refused-growths`.
#[test]
fn a_stream_is_read_after_a_refused_growth(rt: HostRuntime) {
    assert_eq!(rt; is_read(rt.alloc()), Ok(true));
}

/// Whether the items that are had one by one of a stream have these faults, and it then ends.
fn gives(alloc: Global, stream: &[u8], faults: &[Option<ItemFault>]) -> Result<bool, ItemsFault> {
    let mut items = UnlimitedItems::new(alloc, stream);
    for fault in faults {
        match items.next_item()? {
            Some(item) => if item.fault() != *fault {
                return Ok(false);
            },
            None => return Ok(false),
        }
    }
    Ok(items.next_item()?.is_none())
}

/// The items of a stream, had again from its beginning where a growth is refused (by `tests/refused-growths`).
#[test]
fn items_are_had_one_by_one_after_a_refused_growth(rt: HostRuntime) {
    let faults = [None, None, NO_OBJECT, NO_PROVIDER, None];
    let given = again!(gives(rt.alloc(), EVENTS, &faults));
    assert_eq!(rt; given, Ok(true));
}

/// What a stream answers that is fed in two pieces and finished, where the taker finds memory for so many items of the first
/// alone; and what it has then.
fn taken(alloc: Global, most: usize) -> ([Result<(), LineFault>; 3], Vec<EventItem>) {
    let mut taker = Few::new(alloc, most);
    let mut reader = LineReader::open(alloc);
    let first = reader.feed(b"7\n\n{}\n7", &mut taker);
    taker.most = 9;
    let second = reader.feed(b"\n7\n", &mut taker);
    let ended = reader.finish(&mut taker);
    ([first, second, ended], taker.items)
}

/// Whether these are the answers, and items of these faults are taken.
fn takes(
    alloc: Global,
    most: usize,
    answer: Result<(), LineFault>,
    faults: &[Option<ItemFault>],
) -> bool {
    let (answers, items) = taken(alloc, most);
    answers == [answer; 3] && have(items.as_slice(), faults)
}

/// A taker's want of memory is the stream's fault, and is kept; the items before it were taken, and none behind it.
#[test]
fn a_taker_has_no_memory(rt: HostRuntime) {
    let memory = Err(LineFault::Memory);
    let took = [
        takes(rt.alloc(), 0, memory, &[]),
        takes(rt.alloc(), 1, memory, &[NO_OBJECT]),
        takes(
            rt.alloc(),
            2,
            Ok(()),
            &[NO_OBJECT, NO_PROVIDER, NO_OBJECT, NO_OBJECT],
        ),
    ];
    assert_eq!(rt; took, [true; 3]);
}

/// A stream begins, takes in nothing, tells want of memory again, and ends (`tests/refused-growths` refuses each growth
/// meanwhile).
#[test]
fn a_stream_begins_with_every_growth_refused(rt: HostRuntime) {
    let mut items = Vec::new(rt.alloc());
    let _begun = fence(rt.alloc());
    let mut reader = LineReader::open(rt.alloc());
    let empty = reader.feed(b"", &mut items);
    let first = reader.feed(b"7\n", &mut items);
    let again = reader.feed(b"", &mut items);
    let ended = reader.finish(&mut items);
    let _ended = fence(rt.alloc());
    assert_eq!(rt; (empty, again, ended), (Ok(()), first, first));
}
