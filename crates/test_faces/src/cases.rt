//! Requests and answers, told in a few words.
use mds_table::Tables;
use std::alloc::{AllocError, Global};
use test_fixtures::{Lack, again, profile_again};

/// An answer: what stands in the status line behind the version, and the body.
pub type Answer = (&'static str, &'static str);

pub const BAD: &str = "400 Bad Request";

pub const BAD_HEAD: Answer = (BAD, r#"{"error":"bad_head"}"#);

pub const CUT_SHORT: Answer = (BAD, r#"{"error":"cut_short"}"#);

pub const NONE: &str = "404 Not Found";

pub const NO_ROUTE: Answer = (NONE, r#"{"error":"not_found"}"#);

const LACKING: &str = "503 Service Unavailable";

pub const LACKING_AT_0: Answer = (LACKING, r#"{"error":"out_of_memory","index":0}"#);

pub const LACKING_AT_2: Answer = (LACKING, r#"{"error":"out_of_memory","index":2}"#);

/// The batch of no items, and its answer.
pub const EMPTY: &str = "POST /events HTTP/1.1\r\nContent-Length: 2\r\n\r\n[]";

pub const NONE_DONE: Answer = ok!(r#"{"failures":[],"success":0,"total":0}"#);

/// The second of three items has no device.
pub const FAULTY_AMONG_THREE: Answer = ok!(
    r#"{"failures":[{"error":"missing_param","index":1,"param":"device_id"}],"success":2,"total":3}"#
);

/// A batch of an event of A, an item without a device, and an event of B.
pub const THREE: &str =
    "POST /events HTTP/1.1\r\nContent-Length: 666\r\n\r\n[{\"provider_id\":\"00000000-0000-4000-8000-000000000001\",\"device_id\":\"00000000-0000-4000-8000-00000000000a\",\n\
\"event_id\":\"00000000-0000-4000-8000-0000000000e1\",\"vehicle_state\":\"available\",\"event_types\":[\"provider_drop_off\"],\"timestamp\":1000},\n\
{\"provider_id\":\"00000000-0000-4000-8000-000000000001\",\n\
\"event_id\":\"00000000-0000-4000-8000-0000000000e1\",\"vehicle_state\":\"available\",\"event_types\":[\"provider_drop_off\"],\"timestamp\":1000},\n\
{\"provider_id\":\"00000000-0000-4000-8000-000000000001\",\"device_id\":\"00000000-0000-4000-8000-00000000000b\",\n\
\"event_id\":\"00000000-0000-4000-8000-0000000000e2\",\"vehicle_state\":\"available\",\"event_types\":[\"provider_drop_off\"],\"timestamp\":1000}]";

/// Vehicles wake until 2000, and rest from then on: the file of the tables, and the answer to a GET of them.
pub const WAKE_AND_REST: &str =
    r#"{"tables":[{"from_time":0,"rows":[{"from":"removed","to":"available","type":"wake"}]},{"from_time":2000,"rows":[{"from":"available","to":"removed","type":"rest"}]}]}"#;

/// The text of an answer.
pub fn answer_text(alloc: Global, answer: Answer) -> Result<String, AllocError> {
    let (status, body) = answer;
    let length = body.len();
    format!(in alloc;
        "HTTP/1.1 {status}\r\ncontent-type: application/json\r\ncontent-length: {length}\r\nconnection: close\r\n\r\n{body}"
    )
}

/// The file of no tables: the profile, from 0 on.
pub const PROFILE: &str = "";

/// The tables of this file, made again where a growth is refused.
pub fn tables_of(alloc: Global, file: &str) -> Result<Tables, Lack> {
    if file == PROFILE {
        return Ok(profile_again(alloc)?);
    }
    match again!(Tables::from_json(alloc, file.as_bytes())) {
        Ok(tables) => Ok(tables),
        Err(_) => Err(Lack::Case),
    }
}
