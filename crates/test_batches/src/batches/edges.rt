//! The edges of an event's members, and of a batch.
use super::{First, first_of, text_of};
use mds_batch::{BatchFault, ItemFault, Member, read_events};
use std::alloc::{AllocError, Global};
use test_fixtures::rows;

/// An event up to its types.
const FRONT: &str =
    r#"[{"provider_id":"00000000-0000-4000-8000-000000000001","device_id":"00000000-0000-4000-8000-00000000000a","event_id":"00000000-0000-4000-8000-0000000000e1","vehicle_state":"on_trip","event_types":["#;

/// The pieces of a text, each as often as it stands; and how many items it has, all of one fault or none, or its own fault.
const CASES: &[(&[(&str, usize)], First)] = rows! {
    (&[(FRONT, 1), (r#""x"],"timestamp":9007199254740991}]"#, 1)], Ok((1, None))),
    (&[(FRONT, 1), (r#""x"],"timestamp":9007199254740992}]"#, 1)], Ok((1, Some(ItemFault::Bad(Member::Timestamp))))),
    (&[(FRONT, 1), (r#""x"],"timestamp":1000.0}]"#, 1)], Ok((1, Some(ItemFault::Bad(Member::Timestamp))))),
    (&[(FRONT, 1), (r#""x","#, 16), (r#""x"],"timestamp":1000}]"#, 1)], Ok((1, None))),
    (&[(FRONT, 1), (r#""x","#, 63), (r#""x"],"timestamp":1000}]"#, 1)], Ok((1, None))),
    (&[(FRONT, 1), (r#""x","#, 64), (r#""x"],"timestamp":1000}]"#, 1)], Ok((1, Some(ItemFault::Bad(Member::EventTypes))))),
    (&[(FRONT, 1), (r#"],"timestamp":1000}]"#, 1)], Ok((1, Some(ItemFault::Bad(Member::EventTypes))))),
    (&[(FRONT, 1), (r#""x"],"timestamp":1000,"location_e7":{"lat":900000001,"lng":0}}]"#, 1)], Ok((1, Some(ItemFault::Bad(Member::LocationE7))))),
    (&[("7", 1)], Err(BatchFault::NotList)),
    (&[("[0", 1), (",0", 9_999), ("]", 1)], Ok((10_000, Some(ItemFault::NotObject)))),
    (&[("[0", 1), (",0", 10_000), ("]", 1)], Err(BatchFault::TooMany)),
};

/// The first text that is read otherwise, and how.
fn first_other(alloc: Global) -> Result<Option<(usize, First)>, AllocError> {
    for (at, (pieces, expected)) in CASES.iter().enumerate() {
        let found = first_of(read_events(alloc, text_of(alloc, pieces)?.as_bytes()));
        if found != *expected {
            return Ok(Some((at, found)));
        }
    }
    Ok(None)
}

#[test]
fn edges_of_events_and_batches(rt: HostRuntime) {
    assert_eq!(rt; first_other(rt.alloc()), Ok(None));
}
