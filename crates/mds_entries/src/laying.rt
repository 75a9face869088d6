//! The text of a request, laid out piece by piece.
//!
//! `mds_batch` writes the same text through a formatter. A journal's lines are laid out under a lock, so here their pieces are
//! pushed as strings, with no formatter in between.
ghost use Rattle.std.specs.Prelude.{◌≡◌, ◌++◌, codes, decimal, string_bytes, OnOk};
ghost use Rattle.std.specs.Fmt.{signed_decimal};
ghost use Rattle.uuid.specs.Text.{hyphenated_text, lower};
ghost use Rattle.mds_batch.specs.Texts.{with_commas, quoted_text, position_text, registration_text, event_text};

use itoa::Buffer;
use mds_core::{Event, Key, Position};
use mds_table::TypeName;
use std::alloc::AllocError;
use uuid::Uuid;

/// The bytes of a UUID, hyphenated.
const UUID_LEN: usize = 36;

/// The most bytes of a line without its types. It has room for them at once, so that it doesn't grow piece by piece.
const ROOM: usize = 286;

/// The most bytes of a type: 32 of its name, its quotes and a comma.
const TYPE_ROOM: usize = 35;

/// Adds the text of an identifier, in lower case.
fn add_uuid(text: &mut String, uuid: Uuid) -> Result<(), AllocError>
    ensures { OnOk result (string_bytes text.new
        ≡ string_bytes text.old ++ hyphenated_text lower uuid) }
{
    let mut buffer = [0; UUID_LEN];
    text.push_str(uuid.hyphenated().encode_lower(&mut buffer))
}

fn add_time(text: &mut String, time: u64) -> Result<(), AllocError>
    ensures { OnOk result (string_bytes text.new ≡ string_bytes text.old ++ decimal time) }
{
    let mut buffer = Buffer::new();
    text.push_str(buffer.format(time))
}

fn add_degrees(text: &mut String, degrees: i64) -> Result<(), AllocError>
    ensures { OnOk result (string_bytes text.new
        ≡ string_bytes text.old ++ signed_decimal degrees) }
{
    let mut buffer = Buffer::new();
    text.push_str(buffer.format(degrees))
}

fn add_position(text: &mut String, position: Option<Position>) -> Result<(), AllocError>
    ensures { OnOk result (string_bytes text.new
        ≡ string_bytes text.old ++ position_text position) }
{
    let Some(position) = position else {
        return text.push_str("null");
    };
    text.push_str("{\"lat\":")?;
    add_degrees(text, position.lat())?;
    text.push_str(",\"lng\":")?;
    add_degrees(text, position.lng())?;
    text.push_str("}")
}

fn add_type(text: &mut String, name: &TypeName) -> Result<(), AllocError>
    ensures { OnOk result (string_bytes text.new
        ≡ string_bytes text.old ++ quoted_text name.now) }
{
    text.push_str("\"")?;
    text.push_str(name.as_str())?;
    text.push_str("\"")
}

fn add_types(text: &mut String, types: &[TypeName]) -> Result<(), AllocError>
    ensures { OnOk result (string_bytes text.new
        ≡ string_bytes text.old ++ with_commas quoted_text types.now) }
{
    let Some((first, rest)) = types.split_first() else {
        return Ok(());
    };
    add_type(text, first)?;
    for name in rest {
        text.push_str(",")?;
        add_type(text, name)?;
    }
    Ok(())
}

/// Adds the line of a registration.
pub(crate) fn add_registration(text: &mut String, key: &Key) -> Result<(), AllocError>
    ensures { OnOk result (string_bytes text.new
        ≡ string_bytes text.old ++ registration_text key.now) }
{
    text.reserve(ROOM)?;
    text.push_str("{\"device_id\":\"")?;
    add_uuid(text, key.device)?;
    text.push_str("\",\"provider_id\":\"")?;
    add_uuid(text, key.provider)?;
    text.push_str("\"}")
}

/// Adds the line of an event.
pub(crate) fn add_event(text: &mut String, event: &Event) -> Result<(), AllocError>
    ensures { OnOk result (string_bytes text.new
        ≡ string_bytes text.old ++ event_text event.now) }
{
    let Key { provider, device } = *event.key();
    let types = event.types();
    text.reserve(ROOM + TYPE_ROOM * types.len())?;
    text.push_str("{\"device_id\":\"")?;
    add_uuid(text, device)?;
    text.push_str("\",\"event_id\":\"")?;
    add_uuid(text, event.id())?;
    text.push_str("\",\"event_types\":[")?;
    add_types(text, types)?;
    text.push_str("],\"location_e7\":")?;
    add_position(text, event.position())?;
    text.push_str(",\"provider_id\":\"")?;
    add_uuid(text, provider)?;
    text.push_str("\",\"timestamp\":")?;
    add_time(text, event.time())?;
    text.push_str(",\"vehicle_state\":\"")?;
    text.push_str(event.state().name())?;
    text.push_str("\"}")
}
