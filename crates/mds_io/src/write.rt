//! Writing in a bounded number of calls.
ghost use Rattle.std.specs.Prelude.{◌≡◌, ◌<◌, ◌≤◌, take, length, OnOk, IfErr};
ghost use Rattle.std.specs.Io.KnownBytes.{Appends};
ghost use Rattle.mds_io.specs.Write.{Writes};

use crate::call::{Call, call_of};
use std::io::Write;

/// Why writing stopped before all the bytes went out.
#[derive(Debug, Clone, Copy, PartialEq, Eq)]
pub enum WriteErrorKind {
    /// A write failed otherwise than by an interruption or took no byte.
    Device,
    /// The calls ran out.
    TooManyTurns,
}

/// Where writing stopped, and why.
#[derive(Debug, Clone, Copy, PartialEq, Eq)]
pub struct WriteError {
    /// How many of the bytes went out, fewer than all.
    pub sent: usize,
    /// Why no more did.
    pub kind: WriteErrorKind,
}

/// Writes all of `bytes`.
///
/// `calls` is how many calls of `write` may be made; those that were made are taken off it, and
/// interrupted ones, which are made again, count too.
///
/// # Errors
///
/// A `WriteError` with the number of bytes that went out, fewer than all: `Device` where a call fails
/// otherwise or takes no byte, `TooManyTurns` where the calls run out.
pub fn write_all_of<W: Write>(
    writer: &mut W,
    bytes: &[u8],
    calls: &mut u32,
) -> Result<(), WriteError>
    ensures ok { OnOk result (Appends (W.contents writer.old) (W.contents writer.new) bytes.now) }
    ensures err { IfErr result (λ stop. (stop.sent < length bytes.now)
        × Appends (W.contents writer.old) (W.contents writer.new) (take stop.sent bytes.now)) }
    ensures counted { calls.new ≤ calls.old }
    ensures made { IfErr result
        (λ stop. stop.kind ≡ WriteErrorKind.Device → calls.new < calls.old) }
    ensures spent { OnOk result (0 < length bytes.now → calls.new < calls.old) }
    ensures turns { IfErr result (λ stop. stop.kind ≡ WriteErrorKind.TooManyTurns
        → calls.new ≡ 0) }
{
    let mut sent = 0;
    while sent < bytes.len() {
        if *calls == 0 {
            let kind = WriteErrorKind::TooManyTurns;
            return Err(WriteError { sent, kind });
        }
        *calls -= 1;
        match write_once(writer, &bytes[sent..]) {
            Call::Moved(taken) => sent += taken,
            Call::Again => {}
            Call::Nothing | Call::Failed => {
                let kind = WriteErrorKind::Device;
                return Err(WriteError { sent, kind });
            }
        }
    }
    Ok(())
}

fn write_once<W: Write>(writer: &mut W, bytes: &[u8]) -> Call
    requires { 0 < length bytes.now }
    ensures { Writes result (W.contents writer.old) (W.contents writer.new) bytes.now }
{
    call_of(writer.write(bytes))
}
