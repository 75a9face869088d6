//! The forms that the values of members have.
ghost use Rattle.std.specs.Prelude.{◌≡◌, Some, None, IfOk, IfErr, option_and_then};
ghost use Rattle.serde_json.specs.Find.{as_number, as_i64};
ghost use Rattle.mds_table.specs.Json.{state_in, time_in, type_name_in};
ghost use Rattle.mds_batch.specs.Reading.{value_at, Reads};
ghost use Rattle.mds_batch.specs.Forms.{uuid_in};
ghost use Rattle.mds_batch.specs.declared.tokens.ReadFault.TheVariants.{NotJson as not_json};

use crate::tokens::{Head, ReadFault, Tokens, pass};
use mds_table::{MAX_TIME, State, TypeName};
use uuid::Uuid;

/// A UUID in one of its text forms (RFC 9562).
pub(crate) fn read_uuid(tokens: &mut Tokens<'_>, depth: usize) -> Result<Option<Uuid>, ReadFault>
    ensures read { IfOk result (Reads uuid_in depth tokens.old tokens.new) }
    ensures fault { IfErr result
        (λ fault. (fault ≡ not_json) × (value_at depth tokens.old ≡ None)) }
{
    Ok(match pass(tokens, depth)? {
        Head::Text(text) => Uuid::try_parse(text).ok(),
        _ => None,
    })
}

pub(crate) fn read_state(tokens: &mut Tokens<'_>, depth: usize) -> Result<Option<State>, ReadFault>
    ensures read { IfOk result (Reads state_in depth tokens.old tokens.new) }
    ensures fault { IfErr result
        (λ fault. (fault ≡ not_json) × (value_at depth tokens.old ≡ None)) }
{
    Ok(match pass(tokens, depth)? {
        Head::Text(text) => State::of_name(text),
        _ => None,
    })
}

pub(crate) fn read_type_name(
    tokens: &mut Tokens<'_>,
    depth: usize,
) -> Result<Option<TypeName>, ReadFault>
    ensures read { IfOk result (Reads type_name_in depth tokens.old tokens.new) }
    ensures fault { IfErr result
        (λ fault. (fault ≡ not_json) × (value_at depth tokens.old ≡ None)) }
{
    Ok(match pass(tokens, depth)? {
        Head::Text(text) => TypeName::new(text).ok(),
        _ => None,
    })
}

/// In milliseconds since the Unix epoch.
pub(crate) fn read_time(tokens: &mut Tokens<'_>, depth: usize) -> Result<Option<u64>, ReadFault>
    ensures read { IfOk result (Reads time_in depth tokens.old tokens.new) }
    ensures fault { IfErr result
        (λ fault. (fault ≡ not_json) × (value_at depth tokens.old ≡ None)) }
{
    Ok(match pass(tokens, depth)? {
        Head::Number(number) => number.as_u64().filter(|time| *time <= MAX_TIME),
        _ => None,
    })
}

pub(crate) fn read_whole(tokens: &mut Tokens<'_>, depth: usize) -> Result<Option<i64>, ReadFault>
    ensures read { IfOk result (Reads (λ value. option_and_then as_i64 (as_number value)) depth
        tokens.old tokens.new) }
    ensures fault { IfErr result
        (λ fault. (fault ≡ not_json) × (value_at depth tokens.old ≡ None)) }
{
    Ok(match pass(tokens, depth)? {
        Head::Number(number) => number.as_i64(),
        _ => None,
    })
}
