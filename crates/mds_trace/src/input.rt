//! Reading a script.
ghost use Rattle.std.specs.Prelude.{◌≡◌, ◌<◌, ◌≤◌, vec_len, IfOk, OnErr};
ghost use Rattle.std.specs.Io.KnownBytes.{Consumes};
ghost use Rattle.mds_io.specs.Read.{ConsumesUpTo};
ghost use Rattle.mds_trace.specs.Input.{max_script, EndsAs, HasScript};

use mds_io::{MAX_CALLS, ReadError, read_up_to};
use std::alloc::{AllocError, Global};
use std::io::Read;

/// How many bytes of a script are read at most.
pub const MAX_SCRIPT: usize = 1_048_576;

/// How many bytes one call of `read` asks for at most.
const CHUNK_BYTES: usize = 65_536;

/// How the reading of a script ended.
#[derive(Debug, Clone, Copy, PartialEq, Eq)]
pub enum ScriptEnd {
    /// At the reader's end, or at the limit.
    Whole,
    /// At a read that failed, or where the calls had run out.
    Broken,
}

/// What was read of a script.
#[derive(Drop)]
pub struct ScriptBytes {
    /// Its bytes.
    pub bytes: Vec<u8>,
    /// How their reading ended.
    pub end: ScriptEnd,
}

/// The bytes that `reader` gives: to its end, to a call that fails, or the first `MAX_SCRIPT` of them.
///
/// It calls `read` at most `MAX_CALLS` times, and after them the script counts as ended; an interrupted call is made again.
///
/// # Errors
///
/// `AllocError` where there is no memory for the bytes. The reader has then lost a front of its bytes.
pub fn read_script<R: Read>(alloc: Global, reader: &mut R) -> Result<ScriptBytes, AllocError>
    ensures taken { IfOk result (λ script.
        Consumes (R.remaining reader.old) (R.remaining reader.new) script.bytes.items) }
    ensures short { IfOk result (λ script. vec_len script.bytes ≤ max_script) }
    ensures whole { IfOk result (λ script. script.end ≡ ScriptEnd.Whole
        → HasScript (R.remaining reader.old) script.bytes.items) }
    ensures broken { IfOk result (λ script. script.end ≡ ScriptEnd.Broken
        → vec_len script.bytes < max_script) }
    ensures lost { OnErr result
        (ConsumesUpTo max_script (R.remaining reader.old) (R.remaining reader.new)) }
{
    let mut bytes = Vec::new(alloc);
    let mut room = [0u8; CHUNK_BYTES];
    let mut calls = MAX_CALLS;
    let read = read_up_to(reader, &mut bytes, &mut room, MAX_SCRIPT, &mut calls);
    let end = end_of(read)?;
    Ok(ScriptBytes { bytes, end })
}

fn end_of(read: Result<(), ReadError>) -> Result<ScriptEnd, AllocError>
    ensures { EndsAs read result }
{
    match read {
        Ok(()) => Ok(ScriptEnd::Whole),
        Err(ReadError::Device | ReadError::TooManyTurns) => Ok(ScriptEnd::Broken),
        Err(ReadError::Memory) => Err(AllocError),
    }
}
