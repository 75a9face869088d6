//! Texts of JSON, and what their values name: what table files and batches both read.
ghost use Rattle.std.specs.Prelude.{◌≡◌, IfOk, IfErr};
ghost use Rattle.serde_json.specs.View.{view};
ghost use Rattle.mds_table.specs.Json.{IsShortTextOf, HasTextFault, state_in, type_name_in, time_in};

use crate::{State, TypeName};
use serde_json::Value;
use std::alloc::Global;

/// The most bytes of a text of JSON that is read: of a table file, and of a batch.
pub const MAX_BYTES: usize = 4_194_304;

/// The latest time, in milliseconds since the Unix epoch: up to it no two whole numbers are the same double, so no reader
/// of JSON rounds it.
pub const MAX_TIME: u64 = 9_007_199_254_740_991;

/// Why no value was read from bytes.
#[derive(Clone, Copy, Debug, PartialEq, Eq)]
pub enum TextFault {
    /// There was no memory to read it. This says nothing of the bytes.
    Memory,
    /// There are more than [`MAX_BYTES`] bytes.
    TooLong,
    /// The bytes aren't UTF-8, or aren't JSON of at most 127 levels.
    NotJson,
}

/// The value of a text of JSON in UTF-8.
///
/// # Errors
///
/// [`TextFault::TooLong`] where there are too many bytes, whatever they are; else [`TextFault::NotJson`] where they are no
/// such text. [`TextFault::Memory`] comes as soon as a growth is refused.
pub fn value_of(alloc: Global, bytes: &[u8]) -> Result<Value, TextFault>
    ensures value { IfOk result (λ value. IsShortTextOf (view value) bytes.now) }
    ensures fault { IfErr result (HasTextFault bytes.now) }
{
    if bytes.len() > MAX_BYTES {
        return Err(TextFault::TooLong);
    }
    match Value::from_slice(alloc, bytes) {
        Ok(value) => Ok(value),
        Err(error) if error.is_memory() => Err(TextFault::Memory),
        Err(_) => Err(TextFault::NotJson),
    }
}

/// The state that the value names: a text that is the state's name.
pub fn state_of(value: &Value) -> Option<State>
    ensures { result ≡ state_in (view value.now) }
{
    State::of_name(value.as_str()?)
}

/// The type name that the value is: a text that is one.
pub fn type_name_of(value: &Value) -> Option<TypeName>
    ensures { result ≡ type_name_in (view value.now) }
{
    TypeName::new(value.as_str()?).ok()
}

/// The time that the value is: a whole number of milliseconds since the Unix epoch, up to [`MAX_TIME`].
pub fn time_of(value: &Value) -> Option<u64>
    ensures { result ≡ time_in (view value.now) }
{
    let time = value.as_u64()?;
    (time <= MAX_TIME).then_some(time)
}
