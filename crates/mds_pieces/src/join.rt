//! Items behind others.
ghost use Rattle.std.specs.Prelude.{◌≡◌, ◌<◌, ◌≤◌, ◌++◌, length, slice_get, Some, IfSome, OnOk};
ghost use Rattle.mds_batch.specs.declared.item.EventItem.TheVariants.{Event as Reports};
ghost use Rattle.mds_pieces.specs.Pieces.{AreBetween, IsCut};

use mds_batch::{BatchItem, BatchItems, EventItem, EventItems, ItemFault, TakesItems};
use mds_core::{Event, Key, Request};
use std::alloc::AllocError;
use uuid::Uuid;

/// A request whose place others take.
fn blank_request() -> Request {
    Request::Look(Key {
        provider: Uuid::nil(),
        device: Uuid::nil(),
    })
}

/// Makes the event in the place of an item. Where that is an event too, it writes only what the event has of its own.
fn put_event(item: &mut EventItem, event: &Event)
    ensures { item.new ≡ Reports event.now }
{
    match item {
        EventItem::Event(own) => own.assign_from(event),
        EventItem::Fault(_) => *item = EventItem::Event(*event),
    }
}

/// Makes the item at this place in the place of another one. If it is an event, its request is made in the place of another one,
/// too.
fn put_item(items: &EventItems, at: usize, request: &mut Request, item: &mut EventItem)
    requires { at < length items.now }
    ensures { slice_get items.now at ≡ Some item.new }
{
    if let Some(fault) = items.kept_items()[at].fault() {
        *item = EventItem::Fault(fault);
        return;
    }
    items.ask(at, request);
    match request {
        Request::Report(event) => put_event(item, event),
        _ => unreachable!(),
    }
}

/// Puts these items behind the others.
fn append(items: &mut EventItems, more: &EventItems) -> Result<(), AllocError>
    ensures { OnOk result (items.new ≡ items.old ++ more.now) }
{
    let mut request = blank_request();
    let mut item = EventItem::Fault(ItemFault::NotObject);
    for at in 0..more.count() {
        put_item(more, at, &mut request, &mut item);
        items.take(&item)?;
    }
    Ok(())
}

/// The items of two parts, one behind the other.
pub(crate) fn both(
    bytes: &[u8],
    from: usize,
    middle: usize,
    to: usize,
    mut first: EventItems,
    second: EventItems,
) -> Option<EventItems>
    requires order { (from ≤ middle) × (middle ≤ to) }
    requires cut { IsCut bytes.now to }
    requires first { AreBetween bytes.now from middle first }
    requires second { AreBetween bytes.now middle to second }
    ensures { IfSome result (AreBetween bytes.now from to) }
{
    append(&mut first, &second).ok()?;
    Some(first)
}
