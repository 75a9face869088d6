//! Reading a request: what it asks for, of the bytes that a reader gives, however they are cut.
ghost use Rattle.std.specs.Prelude.{◌≡◌, ◌<◌, ◌≤◌, [], length, OnOk, OnErr, IfOk, IfSome, IsErrOf};
ghost use Rattle.std.specs.Io.KnownBytes.{Consumes, IsAtEnd};
ghost use Rattle.mds_io.specs.Read.{ConsumesUpTo};
ghost use Rattle.mds_http.specs.Asked.{asked_in};
ghost use Rattle.mds_http.specs.Head.{max_head};
ghost use Rattle.mds_http.specs.Plan.{IsPlan};
ghost use Rattle.mds_face.specs.Reading.{Grows, HasStatus, IsEnough, ReadsNoFurther, missing_bytes};

use mds_http::{Face, HeadStatus, MAX_HEAD, Plan};
use mds_io::{MAX_CALLS, ReadError, read_more, read_up_to};
use std::alloc::{AllocError, Global};
use std::io::Read;

/// How many bytes a call of `read` asks for at most. The room for them is filled anew for each request.
const ROOM_BYTES: usize = 4_096;

/// What the stream of bytes that `reader` gives asks for: of these bytes alone, however they are cut.
///
/// It reads no further than it needs. Up to the head's end a call of `read` asks for what a head may yet have, and then for
/// what the body yet has, but for 4096 bytes at most. So a short request that comes in one piece takes one call, and it never
/// waits for bytes that a client has no reason to send. Bytes behind the request may stay with the reader. It calls `read` at
/// most `MAX_CALLS` times; an interrupted call is made again.
///
/// # Errors
///
/// `Memory` where there was none for the bytes or the items, `Device` where a call failed, `TooManyTurns` where the calls ran
/// out. The reader has then lost what it gave.
pub fn read_plan<R: Read>(alloc: Global, face: &Face, reader: &mut R) -> Result<Plan, ReadError>
    ensures plan { IfOk result (λ plan.
        IfSome (R.remaining reader.old) (λ stream. IsPlan stream (asked_in plan))) }
    ensures no_further { ReadsNoFurther (R.remaining reader.old) (R.remaining reader.new) }
{
    let mut bytes = Vec::new(alloc);
    let mut room = [0u8; ROOM_BYTES];
    plan_into(alloc, face, reader, &mut bytes, &mut room)
}

/// It reads into `bytes`, which has none yet. A call of `read` fills `room`.
fn plan_into<R: Read>(
    alloc: Global,
    face: &Face,
    reader: &mut R,
    bytes: &mut Vec<u8>,
    room: &mut [u8],
) -> Result<Plan, ReadError>
    requires none { bytes.old.items ≡ [] }
    requires room { 0 < length room.old }
    ensures plan { IfOk result (λ plan.
        IfSome (R.remaining reader.old) (λ stream. IsPlan stream (asked_in plan))) }
    ensures no_further { ReadsNoFurther (R.remaining reader.old) (R.remaining reader.new) }
{
    let mut calls = MAX_CALLS;
    let status = match read_head(face, reader, bytes, room, &mut calls) {
        Ok(status) => status,
        Err(fault) => return Err(fault),
    };
    read_body(&status, reader, bytes, room, &mut calls)?;
    match status.plan(alloc, bytes) {
        Ok(plan) => Ok(plan),
        Err(AllocError) => Err(ReadError::Memory),
    }
}

/// Reads on until the bytes have a head, can't come to have one, or are `MAX_HEAD` or all that the reader has. They are
/// parsed after each call of `read`, so that no call is made that the answer doesn't wait for.
fn read_head<R: Read>(
    face: &Face,
    reader: &mut R,
    bytes: &mut Vec<u8>,
    room: &mut [u8],
    calls: &mut u32,
) -> Result<HeadStatus, ReadError>
    requires none { bytes.old.items ≡ [] }
    requires room { 0 < length room.old }
    ensures status { IfOk result (HasStatus bytes.new.items) }
    ensures partial { IfOk result (λ status. status ≡ HeadStatus.Partial
        → length bytes.new.items < max_head → IsAtEnd (R.remaining reader.new)) }
    ensures taken { IfOk result (λ status.
        Consumes (R.remaining reader.old) (R.remaining reader.new) bytes.new.items) }
    ensures few { IfOk result (λ status. length bytes.new.items ≤ max_head) }
    ensures lost { OnErr result
        (ConsumesUpTo max_head (R.remaining reader.old) (R.remaining reader.new)) }
    ensures turns { IsErrOf result ReadError.TooManyTurns → calls.new ≡ 0 }
{
    while bytes.len() < MAX_HEAD {
        if read_more(reader, bytes, room, MAX_HEAD, calls)? {
            return Ok(face.head_status(bytes));
        }
        let status = face.head_status(bytes);
        if !matches!(status, HeadStatus::Partial) {
            return Ok(status);
        }
    }
    Ok(face.head_status(bytes))
}

fn read_body<R: Read>(
    status: &HeadStatus,
    reader: &mut R,
    bytes: &mut Vec<u8>,
    room: &mut [u8],
    calls: &mut u32,
) -> Result<(), ReadError>
    requires status { HasStatus bytes.old.items status.now }
    requires partial { status.now ≡ HeadStatus.Partial → length bytes.old.items < max_head
        → IsAtEnd (R.remaining reader.old) }
    requires room { 0 < length room.old }
    ensures status { OnOk result (HasStatus bytes.new.items status.now) }
    ensures enough { OnOk result (IsEnough (R.remaining reader.new) bytes.new.items) }
    ensures grown { OnOk result (Grows (R.remaining reader.old) (R.remaining reader.new)
        bytes.old.items bytes.new.items) }
    ensures lost { ConsumesUpTo (missing_bytes status.now (length bytes.old.items))
        (R.remaining reader.old) (R.remaining reader.new) }
    ensures turns { IsErrOf result ReadError.TooManyTurns → calls.new ≡ 0 }
{
    let HeadStatus::Complete { start, len, .. } = status else {
        return Ok(());
    };
    read_up_to(reader, bytes, room, start + len, calls)?;
    Ok(())
}
