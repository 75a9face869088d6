//! Serving one connection.
ghost use Rattle.std.specs.Prelude.{◌≡◌, ◌<◌, ◌≤◌, ℕ, Some, None, IfOk, IfErr, OnOk, OnErr, MatchResult};
ghost use Rattle.std.specs.Io.KnownBytes.{Appends};
ghost use Rattle.mds_core.specs.declared.request.Request.TheVariants as Asks;
ghost use Rattle.mds_http.specs.Asked.{asked_in};
ghost use Rattle.mds_http.specs.Found.{finding_in, replies_in, accepted_in};
ghost use Rattle.mds_face.specs.Exchange.{exchange_of, rules_of};
ghost use Rattle.mds_face.specs.Faults.{serve_fault_text};
ghost use Rattle.mds_face.specs.Reading.{ReadsNoFurther};
ghost use Rattle.mds_face.specs.Serving.{Finds, FindsNoMemory, IsAnsweredWhole, IsFixedAnswer, IsServed, IsUnwritten, Stops, StopsAsked};

use crate::asking::{ask_all, blank_request};
use crate::{Desk, read_plan};
use mds_core::{Key, Reply, Request};
use mds_http::{AnswerBytes, Face, Found, Plan, answer_bytes, memory_bytes};
use mds_io::{MAX_CALLS, ReadError, WriteErrorKind, write_all_of};
use std::alloc::{AllocError, Global};
use std::error::Error;
use std::fmt;
use std::io::{Read, Write};

/// An answer that was written.
#[derive(Clone, Copy, Debug, PartialEq, Eq)]
pub struct Served {
    /// Its status (RFC 9110, section 15).
    pub status: u16,
    /// How many requests were accepted.
    pub accepted: usize,
}

/// Why no answer was written whole.
#[derive(Clone, Copy, Debug, PartialEq, Eq)]
pub enum ServeFault {
    /// A read failed: nothing was asked of the desk, and nothing was written.
    Read,
    /// A write failed, or took no byte: what was asked of the desk stands.
    Write {
        /// How many bytes of the answer were written.
        sent: usize,
    },
    /// There was no memory: in place of the answer the fixed one of status 503 was written, as far as the writer took it.
    /// What was asked of the desk stands.
    Memory {
        /// How many bytes of the fixed answer were written.
        sent: usize,
    },
    /// The calls of `read` or of `write` ran out. Where it was those of `read`, nothing was asked of the desk; else what
    /// was asked of it stands.
    TooManyTurns {
        /// How many bytes of the answer were written.
        sent: usize,
    },
}

impl fmt::Display for ServeFault {
    ghost output = { λ fault. Some (serve_fault_text fault) };

    fn fmt<W: fmt::Write>(&self, f: &mut fmt::Formatter<W>) -> fmt::Result {
        match self {
            ServeFault::Read => f.write_str("read"),
            ServeFault::Write { sent } => write!(f, "write {sent}"),
            ServeFault::Memory { sent } => write!(f, "memory {sent}"),
            ServeFault::TooManyTurns { sent } => write!(f, "too_many_turns {sent}"),
        }
    }
}

impl Error for ServeFault {}

/// Answers one request: it is read, what it asks for is put to the desk, and the answer is written. The items of a POST
/// are put to the desk one by one, in their order, each that isn't a fault once, up to the first that finds no memory.
///
/// It makes at most 5000000 calls of `read` and as many of `write`; a call that is interrupted is made again, and counts.
/// An answer that the writer takes whole is written in one call. It reads no further than the request's end, but for bytes
/// that came with its head.
///
/// # Errors
///
/// [`ServeFault`] says when each comes, what was done then and what was written.
pub fn serve_one<R: Read, W: Write, D: Desk>(
    alloc: Global,
    face: &Face,
    reader: &mut R,
    writer: &mut W,
    desk: &mut D,
) -> Result<Served, ServeFault>
    ensures served { IfOk result (IsServed (rules_of D.calls D.gives_events D.gives_rows)
        (R.remaining reader.old)
        (exchange_of desk.old desk.new (W.contents writer.old) (W.contents writer.new))) }
    ensures stopped { IfErr result (Stops (rules_of D.calls D.gives_events D.gives_rows)
        (R.remaining reader.old)
        (exchange_of desk.old desk.new (W.contents writer.old) (W.contents writer.new))) }
    ensures no_further { ReadsNoFurther (R.remaining reader.old) (R.remaining reader.new) }
{
    match read_plan(alloc, face, reader) {
        Ok(plan) => answer(alloc, writer, desk, plan),
        Err(ReadError::Memory) => Err(out_of_memory(writer)),
        Err(ReadError::Device) => Err(ServeFault::Read),
        Err(ReadError::TooManyTurns) => Err(ServeFault::TooManyTurns { sent: 0 }),
    }
}

/// What was asked and what was found are let go before the answer is written: a client that reads slowly holds the
/// bytes of its answer, and nothing else.
#[tactic(auto, using(crate::proofs::ConnectionLemmas::stops_unwritten))]
fn answer<W: Write, D: Desk>(
    alloc: Global,
    writer: &mut W,
    desk: &mut D,
    plan: Plan,
) -> Result<Served, ServeFault>
    ensures answered { IfOk result (IsAnsweredWhole (rules_of D.calls D.gives_events D.gives_rows)
        (asked_in plan)
        (exchange_of desk.old desk.new (W.contents writer.old) (W.contents writer.new))) }
    ensures stopped { IfErr result (StopsAsked (rules_of D.calls D.gives_events D.gives_rows)
        (asked_in plan)
        (exchange_of desk.old desk.new (W.contents writer.old) (W.contents writer.new))) }
{
    let Ok(found) = find(alloc, desk, &plan, &mut blank_request()) else {
        return Err(out_of_memory(writer));
    };
    let Ok(answer) = answer_bytes(alloc, &plan, &found) else {
        return Err(out_of_memory(writer));
    };
    let served = served_of(&answer, &found);
    drop(found);
    drop(plan);
    let mut calls = MAX_CALLS;
    match write_answer(writer, &answer.bytes, &mut calls) {
        Ok(()) => Ok(served),
        Err(fault) => Err(fault),
    }
}

/// `AllocError` where there is no memory for the replies of a POST, and no call was made then, or for what a GET looks
/// at. Each request of a POST takes the place of `request`.
pub(crate) fn find<D: Desk>(
    alloc: Global,
    desk: &mut D,
    plan: &Plan,
    request: &mut Request,
) -> Result<Found, AllocError>
    ensures finds { IfOk result (λ found. Finds (rules_of D.calls D.gives_events D.gives_rows)
        desk.old (asked_in plan.now) (finding_in found) desk.new) }
    ensures memory { OnErr result (FindsNoMemory
        (rules_of D.calls D.gives_events D.gives_rows)
        desk.old (asked_in plan.now) desk.new) }
{
    match plan {
        Plan::Fixed(_) => Ok(Found::Nothing),
        Plan::Vehicles(items) => Ok(Found::Replies(ask_all(alloc, desk, items, request)?)),
        Plan::Events(items) => Ok(Found::Replies(ask_all(alloc, desk, items, request)?)),
        Plan::One(key) => Ok(Found::One(look(desk, key)?)),
        Plan::History(key) => Ok(Found::History(desk.event_list(key)?)),
        Plan::Rows => Ok(Found::Rows(desk.rows()?)),
    }
}

/// It stands apart, since a function clears the room of its requests where it begins, which takes longer than a look.
#[inline(never)]
fn look<D: Desk>(desk: &mut D, key: &Key) -> Result<Reply, AllocError>
    ensures { MatchResult result
        (λ reply. D.calls desk.old (Asks.Look key.now) (Some reply) desk.new)
        (λ _. D.calls desk.old (Asks.Look key.now) None desk.new) }
{
    desk.call(&Request::Look(*key))
}

pub(crate) fn served_of(answer: &AnswerBytes, found: &Found) -> Served
    ensures status { result.status ≡ answer.now.status }
    ensures accepted { result.accepted ≡ accepted_in (replies_in (finding_in found.now)) }
{
    Served {
        status: answer.status.as_u16(),
        accepted: found.accepted(),
    }
}

/// At most `calls` calls of `write` are made; those that were made are taken off.
pub(crate) fn write_answer<W: Write>(
    writer: &mut W,
    bytes: &[u8],
    calls: &mut u32,
) -> Result<(), ServeFault>
    ensures ok { OnOk result (Appends (W.contents writer.old) (W.contents writer.new) bytes.now) }
    ensures err { IfErr result
        (IsUnwritten bytes.now (W.contents writer.old) (W.contents writer.new)) }
    ensures counted { calls.new ≤ calls.old }
    ensures made { IfErr result (λ fault. (sent : ℕ) → fault ≡ ServeFault.Write sent
        → calls.new < calls.old) }
    ensures turns { IfErr result (λ fault. (sent : ℕ) → fault ≡ ServeFault.TooManyTurns sent
        → calls.new ≡ 0) }
{
    match write_all_of(writer, bytes, calls) {
        Ok(()) => Ok(()),
        Err(stop) => Err(match stop.kind {
            WriteErrorKind::Device => ServeFault::Write { sent: stop.sent },
            WriteErrorKind::TooManyTurns => ServeFault::TooManyTurns { sent: stop.sent },
        }),
    }
}

/// It takes no memory.
pub(crate) fn out_of_memory<W: Write>(writer: &mut W) -> ServeFault
    ensures { (sent : ℕ) × (result ≡ ServeFault.Memory sent)
        × IsFixedAnswer (W.contents writer.old) (W.contents writer.new) sent }
{
    let mut calls = MAX_CALLS;
    let sent = match write_all_of(writer, memory_bytes(), &mut calls) {
        Ok(()) => memory_bytes().len(),
        Err(stop) => stop.sent,
    };
    ServeFault::Memory { sent }
}
