//! The replay of a file's items.
ghost use Rattle.std.specs.Prelude.{◌≡◌, List, map, count_by, IfOk};
ghost use Rattle.std.specs.List.{AllZip};
ghost use Rattle.mds_table.specs.Tables.{Tables};
ghost use Rattle.mds_batch.specs.declared.item.EventItem.{EventItem as Item};
ghost use Rattle.mds_trace.specs.declared.report.Opening.{Opening as Openings};
ghost use Rattle.mds_trace.specs.Verdict.{accepts};
ghost use Rattle.mds_trace.specs.Items.{events_of, vehicles_of};
ghost use Rattle.mds_trace.specs.Replay.{accepted_of, AreVerdicts, IsEnd, IsReport};
ghost use Rattle.mds_trace.specs.ReplayLaws.{AreOutcomes};
ghost use Rattle.mds_trace.specs.Followed.{end_at};

use crate::followed::Followed;
use crate::judge::Vehicles;
use crate::{Opening, Replayer, Report, VehicleEnd, Verdict};
use mds_batch::EventItem;
use mds_core::Key;
use mds_table::Tables;
use std::alloc::{AllocError, Global};

/// Replays the items of a provider's file one after the other. Each event goes by the table in force at its own time.
///
/// The verdict on an event is the machine's outcome after a registration of its vehicle and the accepted events of the
/// vehicle before it. With [`Opening::Any`] an event of a vehicle with no accepted one is accepted where it leads from some
/// state to the one that it reports. A faulty item is passed over, and mentions no vehicle.
///
/// # Errors
///
/// `AllocError` where there is no memory for the report, or for what is kept of the vehicles on the way.
pub fn replay(
    alloc: Global,
    tables: Tables,
    items: &[EventItem],
    opening: Opening,
) -> Result<Report, AllocError>
    ensures report { IfOk result (IsReport opening tables items.now) }
    // With `Removed` the verdicts are the outcomes of the machine, asked anything that reports the same events, each behind
    // a registration of its vehicle.
    ensures runs { IfOk result (λ report.
        opening ≡ Opening.Removed → AreOutcomes tables items.now report.lines.items) }
{
    let mut replayer = Replayer::open(alloc, tables, opening);
    for item in items {
        replayer.take(item)?;
    }
    replayer.finish()
}

pub fn report_of(lines: Vec<Verdict>, vehicles: Vec<VehicleEnd>) -> Report
    ensures report { (opening : Openings) (tables : Tables) (items : List Item)
        → AreVerdicts opening tables items lines.items
        → AllZip (IsEnd opening tables (accepted_of items lines.items))
        (vehicles_of (events_of items)) vehicles.items
        → IsReport opening tables items result }
    ensures lines { result.lines ≡ lines }
{
    let accepted = count_accepted(&lines);
    let refused = lines.len() - accepted;
    Report {
        lines,
        vehicles,
        accepted,
        refused,
    }
}

fn count_accepted(lines: &[Verdict]) -> usize
    ensures { result ≡ count_by accepts lines.now }
{
    lines.iter().filter(|verdict| verdict.accepts()).count()
}

pub fn ends_of(alloc: Global, vehicles: &Vehicles) -> Result<Vec<VehicleEnd>, AllocError>
    ensures { IfOk result (λ ends. ends.items ≡ map end_at vehicles.now.entries) }
{
    vehicles.iter().map(end_of).collect(alloc)
}

pub fn end_of(entry: (&Key, &Followed)) -> VehicleEnd
    ensures { result ≡ end_at (entry.entry.0.now, entry.entry.1.now) }
{
    let (key, vehicle) = entry;
    VehicleEnd {
        key: *key,
        openings: vehicle.openings.copy(),
        standing: vehicle.standing,
    }
}
