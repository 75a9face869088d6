//! Serving one connection at a desk whose answers go out once what they rest on is recorded.
ghost use Rattle.std.specs.Prelude.{◌≡◌, true, false, IfOk, IfErr, OnOk, IsOk, MatchBool, Some};
ghost use Rattle.std.specs.Io.KnownBytes.{Appends};
ghost use Rattle.mds_http.specs.Asked.{asked_in};
ghost use Rattle.mds_http.specs.HeadStatus.{IsHead};
ghost use Rattle.mds_face.specs.Exchange.{exchange_of, record_rules_of, rules_of};
ghost use Rattle.mds_face.specs.Kept.{IsInstead, IsKeptAnswer, IsKeptStop, IsServedKept, StopsKept, StopsWhole, is_of_history, vehicle_of};
ghost use Rattle.mds_face.specs.Reading.{ReadsNoFurther};
ghost use Rattle.mds_face.specs.Serving.{IsUnwritten};

use crate::asking::blank_request;
use crate::connection::{find, out_of_memory, served_of, write_answer};
use crate::{Desk, ServeFault, Served, read_plan};
use mds_batch::BatchReader;
use mds_book::RecordFault;
use mds_core::{Key, Request};
use mds_http::{Face, Found, Head, Plan, answer_bytes, not_kept_bytes};
use mds_io::{MAX_CALLS, ReadError, write_all_of};
use std::alloc::{AllocError, Global};
use std::io::{Read, Write};

/// A desk that can see to it that what its answers rest on is recorded.
pub trait KeptDesk: Desk {
    ghost use Rattle.std.specs.Prelude.{OnOk, Option, Result};
    ghost use Rattle.mds_book.specs.declared.record_fault.RecordFault.{RecordFault as Fault};
    ghost use Rattle.mds_core.specs.declared.key.Key.{Key as About};

    /// In this state all is recorded that answers about this vehicle rest on; with none named, all that any answer
    /// rests on.
    ghost is_kept: { Self → Option About → Type 0 };

    /// Keeping may answer this in the first state, and lead to the second, in which answers rest on the same.
    ghost keeps: { Self → Result (Unit {0}) Fault → Self → Type 0 };

    /// Sees to it that all is recorded that its answers about a vehicle rest on, or, with none named, all of its answers.
    ///
    /// # Errors
    ///
    /// [`RecordFault`] says when each comes.
    fn keep(&mut self, about: Option<Key>) -> Result<(), RecordFault>
        ensures kept { OnOk result (is_kept self.new about) }
        ensures keeps { keeps self.old result self.new };

    /// Counts an answer that is about to be written: what was asked, what was found of it, and its status. It is called before
    /// the first byte goes out, so that an answer counts whatever becomes of its client. A desk that counts nothing needs to do
    /// nothing: no answer depends on it.
    fn count_answer(&self, _plan: &Plan, _found: &Found, _status: u16) {}

    /// Counts what was asked where no answer to it can be given, and why.
    fn count_fault(&self, _plan: &Plan, _fault: RecordFault) {}
}

/// Why a connection at such a desk wasn't answered whole.
#[derive(Clone, Copy, Debug, PartialEq, Eq)]
pub enum KeptFault {
    /// As at any desk.
    Serve(ServeFault),
    /// What the answer rests on isn't recorded: in its place the fixed one that says so was written, as far as the writer took it.
    /// What was asked of the desk stands.
    NotKept {
        /// How many bytes of the fixed answer were written.
        sent: usize,
    },
    /// It is open whether what the answer rests on is recorded, and nothing more will be. Nothing was written.
    Lost,
}

/// As [`crate::serve_one`], but that an answer which rests on what was accepted goes out once that is recorded. It is laid out
/// before.
///
/// # Errors
///
/// [`KeptFault`] says when each comes, what was done then and what was written.
pub fn serve_kept<R: Read, W: Write, D: KeptDesk>(
    alloc: Global,
    face: &Face,
    reader: &mut R,
    writer: &mut W,
    desk: &mut D,
) -> Result<Served, KeptFault>
    ensures served { IfOk result (IsServedKept
        (rules_of D.calls D.gives_events D.gives_rows) (record_rules_of D.is_kept D.keeps)
        (R.remaining reader.old)
        (exchange_of desk.old desk.new (W.contents writer.old) (W.contents writer.new))) }
    ensures stopped { IfErr result (StopsKept
        (rules_of D.calls D.gives_events D.gives_rows) (record_rules_of D.is_kept D.keeps)
        (R.remaining reader.old)
        (exchange_of desk.old desk.new (W.contents writer.old) (W.contents writer.new))) }
    ensures no_further { ReadsNoFurther (R.remaining reader.old) (R.remaining reader.new) }
{
    match read_plan(alloc, face, reader) {
        Ok(plan) => answer_kept(alloc, &mut blank_request(), writer, desk, plan),
        Err(ReadError::Memory) => Err(KeptFault::Serve(out_of_memory(writer))),
        Err(ReadError::Device) => Err(KeptFault::Serve(ServeFault::Read)),
        Err(ReadError::TooManyTurns) => {
            Err(KeptFault::Serve(ServeFault::TooManyTurns { sent: 0 }))
        }
    }
}

/// What a worker keeps from one request for the next: what events are read with, and a request, the place of which others
/// take.
pub struct Room {
    reader: BatchReader,
    request: Request,
}

// By hand: crates above cite it.
impl Drop for Room {
    fn drop(self) {
        let Room {
            reader: _,
            request: _,
        } = self;
    }
}

impl Room {
    /// What was used for no request yet. It takes no memory.
    pub fn new(alloc: Global) -> Room {
        Room {
            reader: BatchReader::new(alloc),
            request: blank_request(),
        }
    }
}

/// The same of a request that is all there: these are its bytes, and this is its head. It is read and asked in the room.
///
/// # Errors
///
/// [`KeptFault`] says when each comes, what was done then and what was written.
pub fn serve_whole<W: Write, D: KeptDesk>(
    alloc: Global,
    room: &mut Room,
    request: &[u8],
    head: &Head,
    writer: &mut W,
    desk: &mut D,
) -> Result<Served, KeptFault>
    requires { IsHead request.now head.now }
    ensures served { IfOk result (IsServedKept
        (rules_of D.calls D.gives_events D.gives_rows) (record_rules_of D.is_kept D.keeps)
        (Some request.now)
        (exchange_of desk.old desk.new (W.contents writer.old) (W.contents writer.new))) }
    ensures stopped { IfErr result (StopsWhole
        (rules_of D.calls D.gives_events D.gives_rows) (record_rules_of D.is_kept D.keeps)
        request.now
        (exchange_of desk.old desk.new (W.contents writer.old) (W.contents writer.new))) }
{
    match head.plan(alloc, &mut room.reader, request) {
        Ok(plan) => answer_kept(alloc, &mut room.request, writer, desk, plan),
        Err(AllocError) => Err(KeptFault::Serve(out_of_memory(writer))),
    }
}

/// What was asked and what was found are let go before the answer is written.
fn answer_kept<W: Write, D: KeptDesk>(
    alloc: Global,
    request: &mut Request,
    writer: &mut W,
    desk: &mut D,
    plan: Plan,
) -> Result<Served, KeptFault>
    ensures answered { IfOk result (IsKeptAnswer
        (rules_of D.calls D.gives_events D.gives_rows) (record_rules_of D.is_kept D.keeps)
        (asked_in plan)
        (exchange_of desk.old desk.new (W.contents writer.old) (W.contents writer.new))) }
    ensures stopped { IfErr result (IsKeptStop
        (rules_of D.calls D.gives_events D.gives_rows) (record_rules_of D.is_kept D.keeps)
        (asked_in plan)
        (exchange_of desk.old desk.new (W.contents writer.old) (W.contents writer.new))) }
{
    let Ok(found) = find(alloc, desk, &plan, request) else {
        desk.count_fault(&plan, RecordFault::Memory);
        return Err(KeptFault::Serve(out_of_memory(writer)));
    };
    let Ok(answer) = answer_bytes(alloc, &plan, &found) else {
        desk.count_fault(&plan, RecordFault::Memory);
        return Err(KeptFault::Serve(out_of_memory(writer)));
    };
    let served = served_of(&answer, &found);
    let of_history = is_of_history(&plan);
    let about = vehicle_of(&plan);
    // Each of the two calls takes one.
    let vehicle = about;
    let kept = keep_if(desk, of_history, vehicle);
    count(desk, &plan, &found, served.status, &kept);
    drop(found);
    drop(plan);
    match kept {
        Ok(()) => {}
        Err(fault) => return Err(not_kept(writer, fault)),
    }
    match write_kept(writer, desk, of_history, about, &answer.bytes) {
        Ok(()) => Ok(served),
        Err(fault) => Err(KeptFault::Serve(fault)),
    }
}

/// Counts an answer that is recorded, or why it isn't.
fn count<D: KeptDesk>(
    desk: &D,
    plan: &Plan,
    found: &Found,
    status: u16,
    kept: &Result<(), RecordFault>,
) {
    match kept {
        Ok(()) => desk.count_answer(plan, found, status),
        Err(fault) => desk.count_fault(plan, *fault),
    }
}

/// Where the answer doesn't rest on what was accepted, nothing is kept.
fn keep_if<D: KeptDesk>(
    desk: &mut D,
    of_history: bool,
    about: Option<Key>,
) -> Result<(), RecordFault>
    ensures kept { OnOk result (of_history ≡ true → D.is_kept desk.new about) }
    ensures keeps { MatchBool of_history (D.keeps desk.old result desk.new) (desk.new ≡ desk.old) }
    ensures none { of_history ≡ false → IsOk result }
{
    if of_history {
        return desk.keep(about);
    }
    Ok(())
}

/// A fault of the request doesn't rest on what was accepted, and the tables don't.
fn is_of_history(plan: &Plan) -> bool
    ensures { result ≡ is_of_history (asked_in plan.now) }
{
    match plan {
        Plan::Fixed(_) | Plan::Rows => false,
        Plan::Vehicles(_) | Plan::Events(_) | Plan::One(_) | Plan::History(_) => true,
    }
}

fn vehicle_of(plan: &Plan) -> Option<Key>
    ensures { result ≡ vehicle_of (asked_in plan.now) }
{
    match plan {
        Plan::One(key) | Plan::History(key) => Some(*key),
        Plan::Fixed(_) | Plan::Rows | Plan::Vehicles(_) | Plan::Events(_) => None,
    }
}

/// The desk is here for the `requires`: it says that what the answer rests on is recorded.
fn write_kept<W: Write, D: KeptDesk>(
    writer: &mut W,
    _desk: &D,
    of_history: bool,
    _about: Option<Key>,
    bytes: &[u8],
) -> Result<(), ServeFault>
    requires { of_history ≡ true → D.is_kept _desk.now _about }
    ensures ok { OnOk result (Appends (W.contents writer.old) (W.contents writer.new) bytes.now) }
    ensures err { IfErr result
        (IsUnwritten bytes.now (W.contents writer.old) (W.contents writer.new)) }
{
    let mut calls = MAX_CALLS;
    write_answer(writer, bytes, &mut calls)
}

fn not_kept<W: Write>(writer: &mut W, fault: RecordFault) -> KeptFault
    ensures { IsInstead fault (W.contents writer.old) (W.contents writer.new) result }
{
    match fault {
        RecordFault::Memory => KeptFault::Serve(out_of_memory(writer)),
        RecordFault::NotKept => {
            let mut calls = MAX_CALLS;
            let sent = match write_all_of(writer, not_kept_bytes(), &mut calls) {
                Ok(()) => not_kept_bytes().len(),
                Err(stop) => stop.sent,
            };
            KeptFault::NotKept { sent }
        }
        RecordFault::Lost => KeptFault::Lost,
    }
}
