//! The items of a batch of events, close together.
ghost use Rattle.std.specs.Prelude.{◌≡◌, ◌<◌, [], map, length, slice_get, Some, option_map};
ghost use Rattle.mds_core.specs.Reported.{MayBeReported};
ghost use Rattle.mds_core.specs.declared.request.Request.TheVariants.{Report as Reports};
ghost use Rattle.mds_batch.specs.Asking.{event_fault, kept_fault, vehicle_in};
ghost use Rattle.mds_batch.specs.declared.item.EventItem.{EventItem as Item};
ghost use Rattle.mds_batch.specs.Told.{reported_by};

use crate::event::Told;
use crate::kept::KeptItem;
use crate::{BatchItems, EventItem, TakesItems};
use mds_core::{Key, Request};
use mds_table::TypeName;
use std::alloc::{AllocError, Global};
use std::marker::Model;

/// The items of a batch of events, in their order. The names of all types lie behind one another, so an item takes no room
/// for types that it doesn't have.
#[derive(Debug)]
pub struct EventItems {
    items: Vec<KeptItem>,
    /// The types of each event, in the order of the events, and among them those of items for which no memory was left.
    names: Vec<TypeName>,
}

// By hand: a crate that drops items then cites this function, and proves no destructor of what they hold.
impl Drop for EventItems {
    fn drop(self) {
        let EventItems { items: _, names: _ } = self;
    }
}

impl Model for EventItems {
    ghost use Rattle.std.specs.Prelude.{List, map, All};
    ghost use Rattle.mds_batch.specs.declared.item.EventItem.{EventItem as Item};
    ghost use Rattle.mds_batch.specs.Kept.{IsKept, item_in};

    ghost Value = { List Item };

    ghost view = { λ kept. map (item_in kept.names.items) kept.items.items };

    ghost invariant = { λ kept. All (IsKept kept.names.items) kept.items.items };
}

impl EventItems {
    /// No items. It takes no memory.
    pub fn new(alloc: Global) -> EventItems
        ensures { result ≡ [] }
    {
        EventItems {
            items: Vec::new(alloc),
            names: Vec::new(alloc),
        }
    }

    /// What is kept of each item beside the names of its types: it tells what is wrong with the item, if anything is.
    pub fn kept_items(&self) -> &[KeptItem]
        ensures { map kept_fault result.now ≡ map event_fault self.now }
    {
        &self.items
    }

    /// The vehicle of the event at this place, without a copy of the event; none where something is wrong with the item.
    pub fn key_at(&self, at: usize) -> Option<&Key>
        requires { at < length self.now }
        ensures { (item : Item) × (slice_get self.now at ≡ Some item)
            × (option_map (λ key. key.now) result ≡ vehicle_in item) }
    {
        match &self.items[at] {
            KeptItem::Event(kept) => Some(kept.key()),
            KeptItem::Fault(_) => None,
        }
    }
}

impl TakesItems for EventItems {
    ghost use Rattle.std.specs.Prelude.{◌≡◌, ◌++◌};

    type Item = EventItem;

    ghost took = { λ before items now. now ≡ before ++ items };

    fn take(&mut self, item: &EventItem) -> Result<(), AllocError> {
        let kept = KeptItem::of(&mut self.names, item)?;
        Ok(self.items.push(kept)?)
    }
}

/// Makes the report of the event of what is told and of these types, in the place of another request.
fn put_report(request: &mut Request, told: Told, types: &[TypeName])
    requires { MayBeReported types.now told.time }
    ensures { request.new ≡ Reports (reported_by told types.now) }
{
    match request {
        Request::Report(event) => told.put(event, types),
        _ => *request = Request::Report(told.event(types)),
    }
}

impl BatchItems for EventItems {
    ghost use Rattle.mds_batch.specs.Asking.{report_in};

    type Item = EventItem;

    ghost items = { λ items. items };

    ghost asked = { report_in };

    fn count(&self) -> usize {
        self.items.len()
    }

    fn ask(&self, at: usize, request: &mut Request) -> bool {
        match &self.items[at] {
            KeptItem::Event(kept) => {
                put_report(request, kept.told_fields(), kept.types(&self.names));
                true
            }
            KeptItem::Fault(_) => false,
        }
    }
}
