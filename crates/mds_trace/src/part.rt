//! What each of several workers tells of its own vehicles.
ghost use Rattle.std.specs.Prelude.{◌≡◌, ◌<◌, length, slice_get, Some, option_map, IfOk};
ghost use Rattle.mds_batch.specs.declared.item.EventItem.{EventItem as Item};
ghost use Rattle.mds_trace.specs.Parts.{worker_of as number_of, IsOwnEvent, IsPart};

use crate::judge::{Vehicles, judge_event};
use crate::{Opening, Verdict};
use mds_batch::{BatchItems, EventItems};
use mds_core::{Event, Key, Request};
use mds_known::KnownVehicles;
use mds_table::Tables;
use std::alloc::{AllocError, Global};
use uuid::Uuid;

/// The verdict on an item, with the item's place.
#[derive(Drop)]
pub struct ToldVerdict {
    /// The place of the item.
    pub index: usize,
    /// What is said of it.
    pub verdict: Verdict,
}

/// What one worker comes to.
#[derive(Drop)]
pub struct Part {
    /// The verdicts on the events of its own vehicles.
    pub told: Vec<ToldVerdict>,
    /// What is kept of these vehicles.
    pub vehicles: Vehicles,
}

pub fn worker_of(workers: usize, key: &Key) -> usize
    requires { 0 < workers }
    ensures number { result ≡ number_of workers key.now }
    ensures within { result < workers }
{
    (key.device.as_u128() % workers as u128) as usize
}

/// A request whose place others take.
pub fn blank_request() -> Request {
    Request::Look(Key {
        provider: Uuid::nil(),
        device: Uuid::nil(),
    })
}

/// The event of the item at this place, where it is one of this worker's own vehicles: only then is its request made, in the
/// place of another one.
fn own_event<'a>(
    items: &EventItems,
    at: usize,
    workers: usize,
    worker: usize,
    request: &'a mut Request,
) -> Option<&'a Event>
    requires some { 0 < workers }
    requires place { at < length items.now }
    ensures { (item : Item) × (slice_get items.now at ≡ Some item)
        × IsOwnEvent workers worker item (option_map (λ event. event.now) result) }
{
    let key = items.key_at(at)?;
    if worker_of(workers, key) != worker {
        return None;
    }
    items.ask(at, request);
    request.event()
}

pub fn replay_part(
    alloc: Global,
    tables: &Tables,
    items: &EventItems,
    opening: Opening,
    workers: usize,
    worker: usize,
) -> Result<Part, AllocError>
    requires { 0 < workers }
    ensures { IfOk result (IsPart opening tables.now items.now workers worker) }
{
    let mut vehicles = KnownVehicles::new(alloc);
    let mut told = Vec::new(alloc);
    let mut request = blank_request();
    for index in 0..items.count() {
        if let Some(event) = own_event(items, index, workers, worker, &mut request) {
            let verdict = judge_event(tables, opening, &mut vehicles, event)?;
            told.push(ToldVerdict { index, verdict })?;
        }
    }
    Ok(Part { told, vehicles })
}
