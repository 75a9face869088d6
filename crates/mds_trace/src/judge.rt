//! The verdict on an item, by what is kept of the vehicles.
ghost use Rattle.std.specs.Prelude.{◌≡◌, ◌<◌, ◌++◌, ◌∷◌, [], ℕ, List, length, IfOk, OnErr};
ghost use Rattle.mds_table.specs.Tables.{Tables};
ghost use Rattle.mds_core.specs.declared.key.Key.{Key as Vehicle};
ghost use Rattle.mds_core.specs.declared.event_name.EventName.{EventName as Name};
ghost use Rattle.mds_core.specs.Reported.{Reported};
ghost use Rattle.mds_core.specs.History.{same_key, has_event};
ghost use Rattle.mds_batch.specs.declared.item.EventItem.{EventItem as Item};
ghost use Rattle.mds_batch.specs.declared.item.EventItem.TheVariants as item;
ghost use Rattle.mds_known.specs.Kept.{AreSame};
ghost use Rattle.mds_trace.specs.declared.report.Verdict.{Verdict as Line};
ghost use Rattle.mds_trace.specs.Replay.{accepted_by, as_requests, prior_of, IsVerdict, IsVerdictOn};
ghost use Rattle.mds_trace.specs.Followed.{AreFollowed, IsFollowed, IsReplayed};
ghost use Rattle.indexmap.specs.IndexSet.{insert_key};

use crate::followed::Followed;
use crate::{Opening, Verdict};
use mds_batch::EventItem;
use mds_core::{Event, Key};
use mds_known::KnownVehicles;
use mds_table::Tables;
use std::alloc::AllocError;

/// What is kept of the vehicles that were mentioned, in the order of first mention, and the names of the accepted events.
pub type Vehicles = KnownVehicles<Followed>;

/// Without memory what is kept stays as it was.
pub fn judge_item(
    tables: &Tables,
    opening: Opening,
    vehicles: &mut Vehicles,
    item: &EventItem,
) -> Result<Verdict, AllocError>
    ensures judged { IfOk result (λ line. (items : List Item) (lines : List Line)
        → IsReplayed opening tables.now items lines vehicles.old.entries vehicles.old.names
        → length items < usize.MAX
        → IsReplayed opening tables.now (items ++ item.now ∷ []) (lines ++ line ∷ [])
        vehicles.new.entries vehicles.new.names) }
    ensures kept { OnErr result (AreSame vehicles.old vehicles.new) }
{
    match item {
        EventItem::Event(event) => judge_event(tables, opening, vehicles, event),
        EventItem::Fault(fault) => Ok(Verdict::Fault(*fault)),
    }
}

/// Without memory what is kept stays as it was.
pub fn judge_event(
    tables: &Tables,
    opening: Opening,
    vehicles: &mut Vehicles,
    event: &Event,
) -> Result<Verdict, AllocError>
    ensures judged { IfOk result (λ line. (mentioned : List Vehicle) (accepted : List Reported)
        → AreFollowed opening tables.now mentioned accepted
        vehicles.old.entries vehicles.old.names
        → length accepted < usize.MAX
        → IsVerdictOn opening tables.now (prior_of event.now.key accepted) event.now line
        × AreFollowed opening tables.now (insert_key same_key mentioned event.now.key)
        (accepted ++ accepted_by (item.Event event.now) line)
        vehicles.new.entries vehicles.new.names) }
    ensures kept { OnErr result (AreSame vehicles.old vehicles.new) }
{
    let (place, vehicle, is_repeated) = find_vehicle(vehicles, event, opening);
    let (line, followed) = vehicle.judge(tables, event, is_repeated);
    // With room for the name first, nothing is kept of an event for which there is no memory.
    vehicles.reserve_event()?;
    let place = vehicles.put(place, event.key(), followed)?;
    if line.accepts() {
        vehicles.add_event(place, event.id())?;
    }
    Ok(line)
}

/// The place of the event's vehicle, where it was mentioned, what is kept of it, and whether it has an accepted event with the
/// event's identifier.
fn find_vehicle(
    vehicles: &Vehicles,
    event: &Event,
    opening: Opening,
) -> (Option<usize>, Followed, bool)
    ensures followed { (tables : Tables) (mentioned : List Vehicle) (accepted : List Reported)
        → AreFollowed opening tables mentioned accepted vehicles.now.entries vehicles.now.names
        → IsFollowed opening tables event.now.key (prior_of event.now.key accepted) result.1 }
    ensures repeated { (tables : Tables) (mentioned : List Vehicle) (accepted : List Reported)
        → AreFollowed opening tables mentioned accepted vehicles.now.entries vehicles.now.names
        → result.2
        ≡ has_event (as_requests event.now.key (prior_of event.now.key accepted)) event.now.id }
{
    let Some((place, vehicle)) = vehicles.find(event.key()) else {
        return (None, Followed::begins(opening), false);
    };
    let is_repeated = vehicles.has_event(place, event.id());
    (Some(place), vehicle.copy(), is_repeated)
}

pub fn vehicle_at(vehicles: &Vehicles, key: &Key, opening: Opening) -> Followed
    ensures { (tables : Tables) (mentioned : List Vehicle) (accepted : List Reported)
        (seen : List Name)
        → AreFollowed opening tables mentioned accepted vehicles.now.entries seen
        → IsFollowed opening tables key.now (prior_of key.now accepted) result }
{
    match vehicles.find(key) {
        Some((_, vehicle)) => vehicle.copy(),
        None => Followed::begins(opening),
    }
}
