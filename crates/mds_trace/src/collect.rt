//! What several workers told, put together.
ghost use Rattle.std.specs.Prelude.{◌≡◌, ◌<◌, length, map, IfOk};
ghost use Rattle.std.specs.List.{All, AllZip};
ghost use Rattle.mds_table.specs.Tables.{Tables};
ghost use Rattle.mds_batch.specs.Asking.{kept_fault};
ghost use Rattle.mds_trace.specs.Items.{events_of, vehicles_of};
ghost use Rattle.mds_trace.specs.Replay.{IsReport};
ghost use Rattle.mds_trace.specs.Parts.{line_before as line_of, line_by as line_of_fault, all_told, HasPlacesWithin, AreParts, ArePut, IsEndIn};

use crate::judge::vehicle_at;
use crate::part::{Part, ToldVerdict, worker_of};
use crate::replayer::{end_of, report_of};
use crate::{Opening, Report, VehicleEnd, Verdict};
use indexmap::IndexSet;
use mds_batch::{BatchItem, BatchItems, EventItems, ItemFault, KeptItem};
use mds_core::Key;
use std::alloc::{AllocError, Global};

pub fn collect(
    alloc: Global,
    items: &EventItems,
    opening: Opening,
    parts: &[Part],
) -> Result<Report, AllocError>
    requires some { 0 < length parts.now }
    requires within { All (HasPlacesWithin (length items.now)) parts.now }
    ensures { IfOk result (λ report. (tables : Tables)
        → AreParts opening tables items.now parts.now → IsReport opening tables items.now report) }
{
    let lines = lines_of(alloc, items, parts)?;
    let vehicles = ends_in(alloc, items, opening, parts)?;
    Ok(report_of(lines, vehicles))
}

fn lines_of(alloc: Global, items: &EventItems, parts: &[Part]) -> Result<Vec<Verdict>, AllocError>
    requires { All (HasPlacesWithin (length items.now)) parts.now }
    ensures { IfOk result
        (λ lines. ArePut (all_told parts.now) (map line_of items.now) lines.items) }
{
    let mut lines = lines_before(alloc, items)?;
    put_parts(&mut lines, parts);
    Ok(lines)
}

fn lines_before(alloc: Global, items: &EventItems) -> Result<Vec<Verdict>, AllocError>
    ensures { IfOk result (λ lines. lines.items ≡ map line_of items.now) }
{
    items.kept_items().iter().map(line_before).collect(alloc)
}

/// A faulty item's line is its fault. An event's line says anything, until its worker's verdict is put there.
fn line_before(item: &KeptItem) -> Verdict
    ensures { result ≡ line_of_fault (kept_fault item.now) }
{
    Verdict::Fault(item.fault().unwrap_or(ItemFault::NotObject))
}

fn put_parts(lines: &mut [Verdict], parts: &[Part])
    requires { All (HasPlacesWithin (length lines.old)) parts.now }
    ensures { ArePut (all_told parts.now) lines.old lines.new }
{
    for part in parts {
        put_told(lines, &part.told);
    }
}

fn put_told(lines: &mut [Verdict], told: &[ToldVerdict])
    requires { All (λ one. one.index < length lines.old) told.now }
    ensures { ArePut told.now lines.old lines.new }
{
    for one in told {
        lines[one.index] = one.verdict;
    }
}

fn ends_in(
    alloc: Global,
    items: &EventItems,
    opening: Opening,
    parts: &[Part],
) -> Result<Vec<VehicleEnd>, AllocError>
    requires { 0 < length parts.now }
    ensures { IfOk result (λ ends.
        AllZip (IsEndIn opening parts.now) (vehicles_of (events_of items.now)) ends.items) }
{
    let keys = vehicles_in(alloc, items)?;
    let mut ends = Vec::with_capacity(alloc, keys.len())?;
    for key in keys.as_slice() {
        ends.push(end_in(parts, key, opening))?;
    }
    Ok(ends)
}

fn vehicles_in(alloc: Global, items: &EventItems) -> Result<IndexSet<Key>, AllocError>
    ensures { IfOk result (λ keys. keys.keys ≡ vehicles_of (events_of items.now)) }
{
    let mut keys = IndexSet::new(alloc);
    for at in 0..items.count() {
        if let Some(key) = items.key_at(at) {
            keys.insert(*key)?;
        }
    }
    Ok(keys)
}

fn end_in(parts: &[Part], key: &Key, opening: Opening) -> VehicleEnd
    requires { 0 < length parts.now }
    ensures { IsEndIn opening parts.now key.now result }
{
    let part = &parts[worker_of(parts.len(), key)];
    let vehicle = vehicle_at(&part.vehicles, key, opening);
    end_of((key, &vehicle))
}
