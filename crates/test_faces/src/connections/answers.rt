//! The worked answers, asked of a fleet. More answers are asked of the built program.
use super::{Exchange, answered, first_other};
use crate::cases::{Answer, BAD, FAULTY_AMONG_THREE, NO_ROUTE, NONE, PROFILE, THREE, tables_of};
use mds_core::Fleet;
use mds_face::Face;
use std::alloc::Global;
use test_fixtures::{Lack, rows};

/// Registrations of A and B.
pub(super) const BOTH_REGISTER: &str =
    "POST /vehicles HTTP/1.1\r\nHost: city\r\nContent-Length: 214\r\n\r\n[{\"provider_id\":\"00000000-0000-4000-8000-000000000001\",\"device_id\":\"00000000-0000-4000-8000-00000000000a\"},\n\
{\"provider_id\":\"00000000-0000-4000-8000-000000000001\",\"device_id\":\"00000000-0000-4000-8000-00000000000b\"}]";

/// A and B are looked at.
pub(super) const LOOK_AT_A: &str =
    "GET /vehicles/00000000-0000-4000-8000-000000000001/00000000-0000-4000-8000-00000000000a?x=1 HTTP/1.1\r\n\r\n";

const LOOK_AT_B: &str =
    "GET /vehicles/00000000-0000-4000-8000-000000000001/00000000-0000-4000-8000-00000000000b HTTP/1.0\r\n\r\n";

const A_IS_AVAILABLE: Answer = ok!(
    r#"{"device_id":"00000000-0000-4000-8000-00000000000a","events":1,"last":1000,"location_e7":null,"provider_id":"00000000-0000-4000-8000-000000000001","vehicle_state":"available"}"#
);

/// One faulty item among three: what is asked in turn, and what is answered.
pub const AMONG_THREE: &[Exchange] = rows! {
    (BOTH_REGISTER, ok!(r#"{"failures":[],"success":2,"total":2}"#)),
    (THREE, FAULTY_AMONG_THREE),
    (LOOK_AT_A, A_IS_AVAILABLE),
    (LOOK_AT_B, ok!(r#"{"device_id":"00000000-0000-4000-8000-00000000000b","events":1,"last":1000,"location_e7":null,"provider_id":"00000000-0000-4000-8000-000000000001","vehicle_state":"available"}"#)),
};

/// A fleet over the tables of this file.
pub fn fleet_over(alloc: Global, file: &str) -> Result<Fleet, Lack> {
    Ok(Fleet::open(alloc, tables_of(alloc, file)?))
}

/// The place of the first of these exchanges that a fleet answers otherwise, where requests come byte by byte.
fn first_other_of_all(alloc: Global, exchanges: &[Exchange]) -> Result<Option<usize>, Lack> {
    let face = Face::open(alloc)?;
    let mut fleet = fleet_over(alloc, PROFILE)?;
    Ok(first_other(alloc, &face, &mut fleet, exchanges, 1)?)
}

const A_REGISTERS: &str =
    "POST /vehicles HTTP/1.1\r\nContent-Length: 107\r\n\r\n[{\"provider_id\":\"00000000-0000-4000-8000-000000000001\",\"device_id\":\"00000000-0000-4000-8000-00000000000a\"}]";

/// What is asked in turn of a fleet without vehicles, and what is answered.
const WORKED: &[Exchange] = rows! {
    (A_REGISTERS, ok!(r#"{"failures":[],"success":1,"total":1}"#)),
    (A_REGISTERS, ok!(r#"{"failures":[{"error":"already_registered","index":0}],"success":0,"total":1}"#)),
    ("POST /events HTTP/1.1\r\nContent-Length: 238\r\n\r\n[{\"provider_id\":\"00000000-0000-4000-8000-000000000001\",\"device_id\":\"00000000-0000-4000-8000-00000000000a\",\"event_id\":\"00000000-0000-4000-8000-0000000000e1\",\"vehicle_state\":\"available\",\"event_types\":[\"provider_drop_off\"],\"timestamp\":1000}]", ok!(r#"{"failures":[],"success":1,"total":1}"#)),
    (LOOK_AT_A, A_IS_AVAILABLE),
    ("GET /vehicles/00000000-0000-4000-8000-000000000001/00000000-0000-4000-8000-00000000000a/events HTTP/1.1\r\n\r\n", ok!(r#"{"events":[{"device_id":"00000000-0000-4000-8000-00000000000a","event_id":"00000000-0000-4000-8000-0000000000e1","event_types":["provider_drop_off"],"location_e7":null,"provider_id":"00000000-0000-4000-8000-000000000001","timestamp":1000,"vehicle_state":"available"}]}"#)),
    (LOOK_AT_B, (NONE, r#"{"error":"unregistered"}"#)),
    ("GET /vehicles/00000000-0000-4000-8000-000000000001/x HTTP/1.1\r\n\r\n", NO_ROUTE),
    ("GET /vehicles/ HTTP/1.1\r\n\r\n", NO_ROUTE),
    ("POST /events HTTP/1.1\r\n\r\n", ("411 Length Required", r#"{"error":"length_required"}"#)),
    ("POST /events HTTP/1.1\r\nContent-Length: 2\r\nContent-Length: 2\r\n\r\n[]", (BAD, r#"{"error":"bad_length"}"#)),
    ("POST /events HTTP/1.1\r\nContent-Length: 12x\r\n\r\n", (BAD, r#"{"error":"bad_length"}"#)),
    ("POST /events HTTP/1.1\r\nContent-Length: 4194305\r\n\r\n", ("413 Payload Too Large", r#"{"error":"too_long"}"#)),
    ("POST /events HTTP/1.1\r\nContent-Length: 1\r\n\r\n7", (BAD, r#"{"error":"not_list"}"#)),
    ("POST /events HTTP/1.1\r\nContent-Length: 4\r\n\r\n[1,2", (BAD, r#"{"error":"not_json"}"#)),
    ("POST /events HTTP/1.1\r\nTransfer-Encoding: chunked\r\n\r\n", ("501 Not Implemented", r#"{"error":"transfer_encoding"}"#)),
    ("POST /vehicles HTTP/1.1\r\nContent-Length: 254\r\n\r\n[[[[[[[[[[[[[[[[[[[[[[[[[[[[[[[[[[[[[[[[[[[[[[[[[[[[[[[[[[[[[[[[[[[[[[[[[[[[[[[[[[[[[[[[[[[[[[[[[[[[[[[[[[[[[[[[[[[[[[[[[[[[[[[]]]]]]]]]]]]]]]]]]]]]]]]]]]]]]]]]]]]]]]]]]]]]]]]]]]]]]]]]]]]]]]]]]]]]]]]]]]]]]]]]]]]]]]]]]]]]]]]]]]]]]]]]]]]]]]]]]]]]]]]]]]]]]]", ok!(r#"{"failures":[{"error":"not_object","index":0}],"success":0,"total":1}"#)),
    ("POST /vehicles HTTP/1.1\r\nContent-Length: 256\r\n\r\n[[[[[[[[[[[[[[[[[[[[[[[[[[[[[[[[[[[[[[[[[[[[[[[[[[[[[[[[[[[[[[[[[[[[[[[[[[[[[[[[[[[[[[[[[[[[[[[[[[[[[[[[[[[[[[[[[[[[[[[[[[[[[[[[]]]]]]]]]]]]]]]]]]]]]]]]]]]]]]]]]]]]]]]]]]]]]]]]]]]]]]]]]]]]]]]]]]]]]]]]]]]]]]]]]]]]]]]]]]]]]]]]]]]]]]]]]]]]]]]]]]]]]]]]]]]]]]]]", (BAD, r#"{"error":"not_json"}"#)),
};

#[test]
fn worked_answers(rt: HostRuntime) {
    let found = [AMONG_THREE, WORKED].map(|all| first_other_of_all(rt.alloc(), all));
    assert_eq!(rt; found, [Ok(None); 2]);
}

/// Requests, and how often these bytes stand in the answer: of the profile's table, and where a route has another method.
const PARTS: &[(&str, &str, usize)] = rows! {
    ("GET /table HTTP/1.1\r\n\r\n", "\r\n\r\n{\"rows\":[{\"from\":\"removed\",\"to\":\"available\",\"type\":\"agency_drop_off\"},", 1),
    ("GET /table HTTP/1.1\r\n\r\n", "\"from\":", 74),
    ("DELETE /events HTTP/1.1\r\n\r\n", "HTTP/1.1 405 Method Not Allowed\r\ncontent-type: application/json\r\ncontent-length: 30\r\nconnection: close\r\nallow: POST\r\n\r\n{\"error\":\"method_not_allowed\"}", 1),
};

/// How often the bytes stand in a new fleet's answer.
fn count_of(alloc: Global, request: &str, part: &str) -> Result<usize, Lack> {
    let face = Face::open(alloc)?;
    let mut fleet = fleet_over(alloc, PROFILE)?;
    let (_, written) = answered(alloc, &face, &mut fleet, request.as_bytes(), 1)?;
    let parts = written.windows(part.len().max(1));
    Ok(parts.filter(|found| *found == part.as_bytes()).count())
}

#[test]
fn parts_of_answers(rt: HostRuntime) {
    let mut parts = PARTS.iter();
    let other = parts.position(|(ask, part, count)| count_of(rt.alloc(), ask, part) != Ok(*count));
    assert_eq!(rt; other, None);
}
