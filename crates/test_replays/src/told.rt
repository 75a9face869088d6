//! Events in a few words, the worked runs of them, and what replays come to.
use mds_batch::EventItem;
use mds_core::{Event, Refusal};
use mds_table::State;
use mds_table::State::{Available, NonOperational, OnTrip, Removed};
use mds_trace::{Report, VehicleEnd, Verdict};
use std::alloc::Global;
use test_fixtures::{A, B, E1, E2, E3, E4, Lack, event_of, key};

/// What an event reports: its vehicle, its identifier, its types, its state and its time.
#[derive(Clone, Copy)]
pub struct Told(
    pub u64,
    pub u64,
    pub &'static [&'static str],
    pub State,
    pub u64,
);

/// The event that is told, or `None` where it is none.
fn event_told(told: &Told) -> Option<Event> {
    event_of(told.0, told.1, told.2, told.3, told.4, None)
}

/// The events that are told.
pub fn events_of(alloc: Global, told: &[Told]) -> Result<Vec<Event>, Lack> {
    let mut events = Vec::new(alloc);
    for one in told {
        events.push(event_told(one).ok_or(Lack::Case)?)?;
    }
    Ok(events)
}

/// The items of these events.
pub fn items_of(alloc: Global, told: &[Told]) -> Result<Vec<EventItem>, Lack> {
    items_over(alloc, told, told.len())
}

/// The items of these events over and over, so many in all.
pub fn items_over(alloc: Global, told: &[Told], count: usize) -> Result<Vec<EventItem>, Lack> {
    let mut items = Vec::new(alloc);
    for at in 0..count {
        let one = told.get(at % told.len().max(1)).ok_or(Lack::Case)?;
        items.push(EventItem::Event(event_told(one).ok_or(Lack::Case)?))?;
    }
    Ok(items)
}

/// Where a vehicle ends: the states in which it may have opened and, where one is known, its state and how many of its
/// events were accepted.
#[derive(Clone, Copy)]
pub struct End(pub u64, pub &'static [State], pub Option<(State, usize)>);

/// What a replay comes to: its verdicts, its ends, and how many items were accepted and how many were not.
#[derive(Clone, Copy)]
pub struct Expected(
    pub &'static [Verdict],
    pub &'static [End],
    pub (usize, usize),
);

/// Whether a vehicle ends so.
fn ends_so(end: &VehicleEnd, told: &End) -> bool {
    let stands_so = match (end.standing, told.2) {
        (Some(standing), Some((state, events))) => {
            standing.state == state && standing.events == events
        }
        (None, None) => true,
        _ => false,
    };
    stands_so && end.key == key(told.0) && end.openings.states().as_slice() == told.1
}

/// Whether a replay comes to this.
pub fn is_report(report: &Report, expected: &Expected) -> bool {
    for (end, told) in report.vehicles.iter().zip(expected.1) {
        if !ends_so(end, told) {
            return false;
        }
    }
    report.vehicles.len() == expected.1.len()
        && report.lines.as_slice() == expected.0
        && (report.accepted, report.refused) == expected.2
}

/// Five events of two vehicles, of which the fourth has no chain and the last comes late.
pub const FIVE: &[Told] = &[
    Told(A, E1, &["provider_drop_off"], Available, 1000),
    Told(A, E2, &["trip_start"], OnTrip, 2000),
    Told(B, E1, &["agency_drop_off"], Available, 1500),
    Told(A, E3, &["battery_low"], NonOperational, 3000),
    Told(A, E4, &["trip_end"], Available, 1999),
];

/// The same, an event a line, with an empty line after the second.
pub const FIVE_EVENTS: &str =
    r#"{"provider_id":"00000000-0000-4000-8000-000000000001","device_id":"00000000-0000-4000-8000-00000000000a","event_id":"00000000-0000-4000-8000-0000000000e1","vehicle_state":"available","event_types":["provider_drop_off"],"timestamp":1000}
{"provider_id":"00000000-0000-4000-8000-000000000001","device_id":"00000000-0000-4000-8000-00000000000a","event_id":"00000000-0000-4000-8000-0000000000e2","vehicle_state":"on_trip","event_types":["trip_start"],"timestamp":2000}

{"provider_id":"00000000-0000-4000-8000-000000000001","device_id":"00000000-0000-4000-8000-00000000000b","event_id":"00000000-0000-4000-8000-0000000000e1","vehicle_state":"available","event_types":["agency_drop_off"],"timestamp":1500}
{"provider_id":"00000000-0000-4000-8000-000000000001","device_id":"00000000-0000-4000-8000-00000000000a","event_id":"00000000-0000-4000-8000-0000000000e3","vehicle_state":"non_operational","event_types":["battery_low"],"timestamp":3000}
{"provider_id":"00000000-0000-4000-8000-000000000001","device_id":"00000000-0000-4000-8000-00000000000a","event_id":"00000000-0000-4000-8000-0000000000e4","vehicle_state":"available","event_types":["trip_end"],"timestamp":1999}
"#;

/// What they come to.
pub const FIVE_REPORT: Expected = Expected(
    &[
        Verdict::Accepted(Available),
        Verdict::Accepted(OnTrip),
        Verdict::Accepted(Available),
        Verdict::Refused(Refusal::NoChain {
            held: OnTrip,
            at: 0,
        }),
        Verdict::Refused(Refusal::Late { last: 2000 }),
    ],
    &[
        End(A, &[Removed], Some((OnTrip, 2))),
        End(B, &[Removed], Some((Available, 1))),
    ],
    (3, 2),
);

/// What no items come to.
pub const NOTHING: Expected = Expected(&[], &[], (0, 0));
