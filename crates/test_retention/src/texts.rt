//! The lines of journals of one vehicle's rides, and the bytes of files.
use std::alloc::{AllocError, Global};

/// The first line of a journal of version 1.
pub(crate) const FORM: &str = "{\"form\":\"mds_city\",\"version\":1}";

/// The first line of one of version 2, whose groups have checks.
pub(crate) const CHECKED: &str = "{\"form\":\"mds_city\",\"version\":2}";

/// Its check. As those of all checks here its digits were reckoned by another program, zlib's.
pub(crate) const OF_CHECKED: &str = "{\"crc32\":\"033c3350\"}";

/// The registration of the one vehicle, which is A.
pub(crate) const REGISTRATION: &str =
    "{\"device_id\":\"00000000-0000-4000-8000-00000000000a\",\"provider_id\":\"00000000-0000-4000-8000-000000000001\"}";

/// Its events: it's free again and again. Each has its number as its time.
pub(crate) const FREE_1: &str =
    "{\"device_id\":\"00000000-0000-4000-8000-00000000000a\",\"event_id\":\"00000000-0000-4000-8000-000000000001\",\"event_types\":[\"provider_drop_off\"],\"provider_id\":\"00000000-0000-4000-8000-000000000001\",\"timestamp\":1,\"vehicle_state\":\"available\"}";

pub(crate) const RIDE_2: &str =
    "{\"device_id\":\"00000000-0000-4000-8000-00000000000a\",\"event_id\":\"00000000-0000-4000-8000-000000000002\",\"event_types\":[\"provider_drop_off\"],\"provider_id\":\"00000000-0000-4000-8000-000000000001\",\"timestamp\":2,\"vehicle_state\":\"on_trip\"}";

pub(crate) const FREE_3: &str =
    "{\"device_id\":\"00000000-0000-4000-8000-00000000000a\",\"event_id\":\"00000000-0000-4000-8000-000000000003\",\"event_types\":[\"provider_drop_off\"],\"provider_id\":\"00000000-0000-4000-8000-000000000001\",\"timestamp\":3,\"vehicle_state\":\"available\"}";

pub(crate) const RIDE_4: &str =
    "{\"device_id\":\"00000000-0000-4000-8000-00000000000a\",\"event_id\":\"00000000-0000-4000-8000-000000000004\",\"event_types\":[\"provider_drop_off\"],\"provider_id\":\"00000000-0000-4000-8000-000000000001\",\"timestamp\":4,\"vehicle_state\":\"on_trip\"}";

pub(crate) const FREE_5: &str =
    "{\"device_id\":\"00000000-0000-4000-8000-00000000000a\",\"event_id\":\"00000000-0000-4000-8000-000000000005\",\"event_types\":[\"provider_drop_off\"],\"provider_id\":\"00000000-0000-4000-8000-000000000001\",\"timestamp\":5,\"vehicle_state\":\"available\"}";

pub(crate) const RIDE_6: &str =
    "{\"device_id\":\"00000000-0000-4000-8000-00000000000a\",\"event_id\":\"00000000-0000-4000-8000-000000000006\",\"event_types\":[\"provider_drop_off\"],\"provider_id\":\"00000000-0000-4000-8000-000000000001\",\"timestamp\":6,\"vehicle_state\":\"on_trip\"}";

/// An event of a state that there isn't.
pub(crate) const FLIGHT: &str =
    "{\"device_id\":\"00000000-0000-4000-8000-00000000000a\",\"event_id\":\"00000000-0000-4000-8000-000000000002\",\"event_types\":[\"provider_drop_off\"],\"provider_id\":\"00000000-0000-4000-8000-000000000001\",\"timestamp\":2,\"vehicle_state\":\"flying\"}";

/// Four rides, of version 1.
pub(crate) const RIDES: &[&str] = &[FORM, REGISTRATION, FREE_1, RIDE_2, FREE_3, RIDE_4];

/// Those as a group, of version 2.
pub(crate) const GROUP: &[&str] = &[
    CHECKED,
    OF_CHECKED,
    REGISTRATION,
    FREE_1,
    RIDE_2,
    FREE_3,
    RIDE_4,
    "{\"crc32\":\"174f3507\"}",
];

/// What stays of them where all are old.
pub(crate) const WITHOUT_LOOP: &[&str] = &[
    CHECKED,
    OF_CHECKED,
    REGISTRATION,
    FREE_1,
    RIDE_4,
    "{\"crc32\":\"84b47877\"}",
];

/// The bytes of open lines with these texts.
pub(crate) fn lines_of(alloc: Global, texts: &[&str]) -> Result<Vec<u8>, AllocError> {
    let mut bytes = Vec::new(alloc);
    for text in texts {
        bytes.push(b' ')?;
        bytes.extend_from_slice(text.as_bytes())?;
        bytes.push(b'\n')?;
    }
    Ok(bytes)
}
