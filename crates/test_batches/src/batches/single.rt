//! A text of one item.
use super::{EVENT, report};
use mds_batch::{BatchFault, EventItem, ItemFault, ItemReader, read_item};
use std::alloc::Global;
use test_fixtures::again;

/// The event that a reader reads.
fn read_by(reader: &mut ItemReader) -> Result<EventItem, BatchFault> {
    Ok(*reader.read(EVENT.as_bytes())?)
}

/// The event, read again by the same reader where there was no memory.
fn read_again(alloc: Global) -> Result<EventItem, BatchFault> {
    let mut reader = ItemReader::new(alloc);
    again!(read_by(&mut reader))
}

/// Whether both are what is expected.
fn are_read_again(alloc: Global) -> bool {
    let expected = report();
    let Ok(first) = again!(read_item(alloc, EVENT.as_bytes())) else {
        return false;
    };
    let Ok(second) = read_again(alloc) else {
        return false;
    };
    first == expected && second == expected
}

/// Each call, made again where its growth is refused (by `tests/refused-growths`).
#[test]
fn an_item_is_read_after_a_refused_growth(rt: HostRuntime) {
    assert!(rt; are_read_again(rt.alloc()));
}

#[test]
fn texts_of_no_object(rt: HostRuntime) {
    let read = [read_item(rt.alloc(), b"[]"), read_item(rt.alloc(), b"")];
    let fault = EventItem::Fault(ItemFault::NotObject);
    assert_eq!(rt; read, [Ok(fault), Err(BatchFault::NotJson)]);
}
