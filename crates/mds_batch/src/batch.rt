//! Batches, read into items.
ghost use Rattle.std.specs.Prelude.{◌≡◌, ◌≤◌, List, [], length, map, Some, option_map, IfOk, IfErr, OnOk, IsUtf8};
ghost use Rattle.serde_json.specs.View.{view};
ghost use Rattle.mds_table.specs.Json.{max_bytes};
ghost use Rattle.mds_batch.specs.Items.{IsVehicleItem, IsEventItem};
ghost use Rattle.mds_batch.specs.declared.item.EventItem.{EventItem as Item};
ghost use Rattle.mds_batch.specs.Batch.{max_items, listed_values, AreItemsOf, HasItems, IsListFault, HasFault, HasItemFault, fault_text};

use crate::event::EventFields;
use crate::list::{ItemFields, ItemList};
use crate::taker::TakesItems;
use crate::tokens::{ReadFault, read_text};
use crate::vehicle::VehicleFields;
use crate::{BatchReader, EventItem, EventItems, VehicleItem};
use json::Scratch;
use mds_table::MAX_BYTES;
use simdutf8::compat::from_utf8;
use std::alloc::Global;
use std::error::Error;
use std::fmt;

/// The most items that a batch has.
pub const MAX_ITEMS: usize = 10_000;

/// Why bytes are no batch: the first that holds, looked for in the order from [`BatchFault::TooLong`] on.
#[derive(Clone, Copy, Debug, PartialEq, Eq)]
pub enum BatchFault {
    /// There was no memory to read it.
    Memory,
    /// There are more than [`MAX_BYTES`] bytes.
    TooLong,
    /// The bytes aren't a text of JSON in UTF-8, or it nests lists and objects more than 127 deep.
    NotJson,
    /// The text is neither a list nor an object.
    NotList,
    /// There are more than [`MAX_ITEMS`] items.
    TooMany,
}

impl fmt::Display for BatchFault {
    ghost output = { λ fault. Some (fault_text fault) };

    fn fmt<W: fmt::Write>(&self, f: &mut fmt::Formatter<W>) -> fmt::Result {
        f.write_str(match self {
            BatchFault::Memory => "out of memory",
            BatchFault::TooLong => "too_long",
            BatchFault::NotJson => "not_json",
            BatchFault::NotList => "not_list",
            BatchFault::TooMany => "too_many",
        })
    }
}

impl From<ReadFault> for BatchFault {
    ghost use Rattle.mds_batch.specs.Reading.{fault_of_text};

    ghost from_gives = { λ text fault. fault ≡ fault_of_text text };

    fn from(fault: ReadFault) -> BatchFault {
        match fault {
            ReadFault::Memory => BatchFault::Memory,
            ReadFault::NotJson => BatchFault::NotJson,
        }
    }
}

impl Error for BatchFault {}

/// The registrations that a text of JSON lists, item by item, in their order: the vehicle that an item names, or what is
/// wrong with it. An object alone counts as a list of one.
///
/// # Errors
///
/// The first fault of the whole, in the order of [`BatchFault`]; [`BatchFault::Memory`] comes as soon as a growth is
/// refused, and then says nothing of the bytes.
pub fn read_vehicles(alloc: Global, bytes: &[u8]) -> Result<Vec<VehicleItem>, BatchFault>
    ensures items { IfOk result (λ items. HasItems IsVehicleItem bytes.now items.items) }
    ensures fault { IfErr result (HasFault bytes.now) }
{
    read_batch::<VehicleFields>(alloc, bytes)
}

/// The events that a text of JSON lists, item by item, in their order: the event that an item reports, or what is wrong
/// with it. An object alone counts as a list of one.
///
/// # Errors
///
/// As those of [`read_vehicles`].
pub fn read_events(alloc: Global, bytes: &[u8]) -> Result<Vec<EventItem>, BatchFault>
    ensures items { IfOk result (λ items. HasItems IsEventItem bytes.now items.items) }
    ensures fault { IfErr result (HasFault bytes.now) }
{
    read_batch::<EventFields>(alloc, bytes)
}

/// The events that a text of JSON lists, as [`read_events`] has them, close together.
///
/// # Errors
///
/// As those of [`read_vehicles`].
pub fn read_event_items(alloc: Global, bytes: &[u8]) -> Result<EventItems, BatchFault>
    ensures items { IfOk result (λ items. HasItems IsEventItem bytes.now items) }
    ensures fault { IfErr result (HasFault bytes.now) }
{
    BatchReader::new(alloc).read(alloc, bytes)
}

/// Hands the events that a text of JSON lists to a taker, item by item, in their order, as [`read_events`] has them.
///
/// # Errors
///
/// As those of [`read_events`]; [`BatchFault::Memory`] comes where the taker finds no memory, too. The taker then took
/// some of the items that come before the fault.
pub fn each_event<T: TakesItems<Item = EventItem>>(
    alloc: Global,
    bytes: &[u8],
    taker: &mut T,
) -> Result<(), BatchFault>
    requires { T.took taker.old [] taker.old }
    ensures items { OnOk result ((items : List Item) × HasItems IsEventItem bytes.now items
        × T.took taker.old items taker.new) }
    ensures fault { IfErr result (HasFault bytes.now) }
{
    each_item::<EventFields, T>(alloc, bytes, taker)
}

fn read_batch<F: ItemFields + Drop>(alloc: Global, bytes: &[u8]) -> Result<Vec<F::Item>, BatchFault>
    ensures items { IfOk result (λ items. HasItems F.is_item bytes.now items.items) }
    ensures fault { IfErr result (HasFault bytes.now) }
{
    let mut items = Vec::new(alloc);
    each_item::<F, Vec<F::Item>>(alloc, bytes, &mut items)?;
    Ok(items)
}

fn each_item<F: ItemFields + Drop, T: TakesItems<Item = F::Item>>(
    alloc: Global,
    bytes: &[u8],
    taker: &mut T,
) -> Result<(), BatchFault>
    requires { T.took taker.old [] taker.old }
    ensures items { OnOk result ((items : List F.Item) × HasItems F.is_item bytes.now items
        × T.took taker.old items taker.new) }
    ensures fault { IfErr result (HasFault bytes.now) }
{
    let (mut scratch, mut list) = (Scratch::new(alloc), ItemList::<F>::new());
    each_item_by(&mut scratch, &mut list, bytes, taker)
}

/// As [`each_item`], by what batches were read with before.
pub(crate) fn each_item_by<F: ItemFields + Drop, T: TakesItems<Item = F::Item>>(
    scratch: &mut Scratch,
    list: &mut ItemList<F>,
    bytes: &[u8],
    taker: &mut T,
) -> Result<(), BatchFault>
    requires { T.took taker.old [] taker.old }
    ensures items { OnOk result ((items : List F.Item) × HasItems F.is_item bytes.now items
        × T.took taker.old items taker.new) }
    ensures fault { IfErr result (HasFault bytes.now) }
{
    let text = text_of(bytes)?;
    list.restart();
    if !read_text(text, scratch, list, taker)? {
        return Err(BatchFault::NotList);
    }
    if list.is_too_long() {
        return Err(BatchFault::TooMany);
    }
    Ok(())
}

pub(crate) fn text_of(bytes: &[u8]) -> Result<&str, BatchFault>
    ensures text { IfOk result (λ text. text.now ≡ bytes.now) }
    ensures utf8 { IfOk result (λ _. IsUtf8 bytes.now) }
    ensures short { IfOk result (λ _. length bytes.now ≤ max_bytes) }
    ensures fault { IfErr result (HasItemFault bytes.now) }
{
    if bytes.len() > MAX_BYTES {
        return Err(BatchFault::TooLong);
    }
    from_utf8(bytes).ok().ok_or(BatchFault::NotJson)
}
