//! Reading in a bounded number of calls.
ghost use Rattle.std.specs.Prelude.{◌≡◌, ◌≢◌, ◌-◌, ◌<◌, ◌≤◌, length, vec_len};
ghost use Rattle.std.specs.Prelude.{IsErrOf, OnOk, OnErr, IfOk, IfErr, MatchBool, MatchResult};
ghost use Rattle.std.specs.Io.KnownBytes.{Consumes, IsAtEnd};
ghost use Rattle.mds_io.specs.Read.{Gains, HasFront, LosesAt, Reads, StopsAt};

use crate::call::{Call, call_of};
use std::alloc::Global;
use std::io::Read;

/// How many bytes one call of `read` asks for at most.
const CHUNK_BYTES: usize = 65_536;

/// Why reading stopped before its end.
#[derive(Debug, Clone, Copy, PartialEq, Eq)]
pub enum ReadError {
    /// There was no memory for the bytes.
    Memory,
    /// A read failed otherwise than by an interruption.
    Device,
    /// The calls ran out.
    TooManyTurns,
}

/// The bytes that `reader` gives, to its end, or the first `limit` of them.
///
/// `calls` is as for `read_up_to`.
///
/// # Errors
///
/// Those of `read_up_to`. The reader has then lost a front of its bytes, at most `limit` of them.
#[tactic(auto, using(crate::proofs::ReadLemmas::read_from_none))]
pub fn read_front<R: Read>(
    alloc: Global,
    reader: &mut R,
    limit: usize,
    calls: &mut u32,
) -> Result<Vec<u8>, ReadError>
    ensures front { IfOk result (λ bytes. HasFront limit (R.remaining reader.old) bytes.items) }
    ensures short { IfOk result (λ bytes. vec_len bytes ≤ limit) }
    ensures taken { IfOk result (λ bytes.
        Consumes (R.remaining reader.old) (R.remaining reader.new) bytes.items) }
    ensures err { IfErr result (λ fault.
        LosesAt fault limit (R.remaining reader.old) (R.remaining reader.new)) }
    ensures counted { calls.new ≤ calls.old }
    ensures made { IfErr result (λ fault. fault ≢ ReadError.TooManyTurns → calls.new < calls.old) }
    ensures spent { OnOk result (0 < limit → calls.new < calls.old) }
    ensures turns { IsErrOf result ReadError.TooManyTurns → calls.new ≡ 0 }
{
    let mut bytes = Vec::new(alloc);
    let mut room = [0u8; CHUNK_BYTES];
    read_up_to(reader, &mut bytes, &mut room, limit, calls)?;
    Ok(bytes)
}

/// Reads behind `bytes` until it has `limit` bytes or the reader is at its end.
///
/// `room` is where the calls of `read` lay what they give: each asks for as much as `room` holds and
/// `limit` leaves, no more. So `bytes` takes memory as its bytes come. `calls` is how many calls may
/// be made; those that were made are taken off it, and interrupted ones, which are made again, count
/// too. Where `bytes` has `limit` bytes already, no call is made.
///
/// # Errors
///
/// `Memory` where there was none for bytes that the reader gave, and they are lost; `Device` where a
/// call failed, and `TooManyTurns` where no call was left: then `bytes` has all that the reader gave.
pub fn read_up_to<R: Read>(
    reader: &mut R,
    bytes: &mut Vec<u8>,
    room: &mut [u8],
    limit: usize,
    calls: &mut u32,
) -> Result<(), ReadError>
    requires { 0 < length room.old }
    ensures ok { OnOk result (Gains (limit - length bytes.old.items)
        (R.remaining reader.old) (R.remaining reader.new) bytes.old.items bytes.new.items) }
    ensures whole { OnOk result (length bytes.new.items < limit
        → IsAtEnd (R.remaining reader.new)) }
    ensures err { IfErr result (λ fault. StopsAt fault (length room.old)
        (limit - length bytes.old.items)
        (R.remaining reader.old) (R.remaining reader.new) bytes.old.items bytes.new.items) }
    ensures short { OnErr result (length bytes.new.items < limit) }
    ensures counted { calls.new ≤ calls.old }
    ensures made { IfErr result (λ fault. fault ≢ ReadError.TooManyTurns → calls.new < calls.old) }
    ensures spent { OnOk result (length bytes.old.items < limit → calls.new < calls.old) }
    ensures turns { IsErrOf result ReadError.TooManyTurns → calls.new ≡ 0 }
{
    while bytes.len() < limit {
        if read_more(reader, bytes, room, limit, calls)? {
            return Ok(());
        }
    }
    Ok(())
}

/// Puts what the next call of `read` gives behind `bytes`, and says whether the reader is at its end,
/// so that it gave nothing. A call that is interrupted is made again.
///
/// `room`, `limit` and `calls` are as for `read_up_to`.
///
/// # Errors
///
/// Those of `read_up_to`.
#[tactic(auto, using(crate::proofs::ReadLemmas::gains_nothing))]
pub fn read_more<R: Read>(
    reader: &mut R,
    bytes: &mut Vec<u8>,
    room: &mut [u8],
    limit: usize,
    calls: &mut u32,
) -> Result<bool, ReadError>
    requires more { length bytes.old.items < limit }
    requires room { 0 < length room.old }
    ensures ok { IfOk result (λ is_end. Gains (limit - length bytes.old.items)
        (R.remaining reader.old) (R.remaining reader.new) bytes.old.items bytes.new.items) }
    ensures end { IfOk result (λ is_end. MatchBool is_end
        (IsAtEnd (R.remaining reader.new) × (bytes.new.items ≡ bytes.old.items))
        (length bytes.old.items < length bytes.new.items)) }
    ensures err { IfErr result (λ fault. StopsAt fault (length room.old)
        (limit - length bytes.old.items)
        (R.remaining reader.old) (R.remaining reader.new) bytes.old.items bytes.new.items) }
    ensures kept { OnErr result (bytes.new.items ≡ bytes.old.items) }
    ensures counted { calls.new ≤ calls.old }
    ensures made { MatchResult result (λ _. calls.new < calls.old)
        (λ fault. fault ≢ ReadError.TooManyTurns → calls.new < calls.old) }
    ensures turns { IsErrOf result ReadError.TooManyTurns → calls.new ≡ 0 }
{
    let asked = room.len().min(limit - bytes.len());
    match read_again(reader, &mut room[..asked], calls) {
        Call::Moved(count) => {
            if bytes.extend_from_slice(&room[..count]).is_err() {
                return Err(ReadError::Memory);
            }
            Ok(false)
        }
        Call::Nothing => Ok(true),
        Call::Again => Err(ReadError::TooManyTurns),
        Call::Failed => Err(ReadError::Device),
    }
}

/// The first call of `read` into `room` that isn't interrupted, or `Again` where no call was left
/// before it.
fn read_again<R: Read>(reader: &mut R, room: &mut [u8], calls: &mut u32) -> Call
    requires { 0 < length room.old }
    ensures read { Reads result (R.remaining reader.old) (R.remaining reader.new) room.new }
    ensures counted { calls.new ≤ calls.old }
    ensures made { result ≢ Call.Again → calls.new < calls.old }
    ensures turns { result ≡ Call.Again → calls.new ≡ 0 }
{
    while *calls > 0 {
        *calls -= 1;
        match read_once(reader, room) {
            Call::Again => {}
            call => return call,
        }
    }
    Call::Again
}

fn read_once<R: Read>(reader: &mut R, room: &mut [u8]) -> Call
    requires { 0 < length room.old }
    ensures { Reads result (R.remaining reader.old) (R.remaining reader.new) room.new }
{
    call_of(reader.read(room))
}
