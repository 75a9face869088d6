//! Plans: what a request asks for.
ghost use Rattle.std.specs.Prelude.{◌≡◌, ◌≢◌, ◌≤◌, length, true, Some, IfOk, OnErr};
ghost use Rattle.mds_table.specs.Json.{max_bytes};
ghost use Rattle.mds_batch.specs.Items.{IsVehicleItem, IsEventItem};
ghost use Rattle.mds_batch.specs.declared.batch.BatchFault.TheVariants.{Memory, TooLong};
ghost use Rattle.mds_http.specs.Asked.{asked_in, Vehicles, Events};
ghost use Rattle.mds_http.specs.Plan.{is_post, body_fault, IsBatch, IsAsked, IsPlan};
ghost use Rattle.mds_http.specs.HeadStatus.{HoldsBody};

use crate::{Aim, Face, HttpFault};
use mds_batch::{BatchFault, BatchReader, EventItems, VehicleItem, read_vehicles};
use mds_core::Key;
use std::alloc::{AllocError, Global};

/// What a stream of request bytes asks for.
#[derive(Debug, Drop)]
pub enum Plan {
    /// Nothing: it is answered by this fault.
    Fixed(HttpFault),
    /// One registration for each item.
    Vehicles(Vec<VehicleItem>),
    /// One report for each item.
    Events(EventItems),
    /// A look at a vehicle.
    One(Key),
    /// The accepted events of a vehicle.
    History(Key),
    /// The tables, by their rows.
    Rows,
}

fn fault_of(fault: BatchFault) -> Result<HttpFault, AllocError>
    requires { fault ≢ TooLong }
    ensures told { IfOk result (λ told. body_fault fault ≡ Some told) }
    ensures memory { OnErr result (fault ≡ Memory) }
{
    match fault {
        BatchFault::Memory => Err(AllocError),
        BatchFault::TooLong => Ok(HttpFault::TooLong),
        BatchFault::NotJson => Ok(HttpFault::NotJson),
        BatchFault::NotList => Ok(HttpFault::NotList),
        BatchFault::TooMany => Ok(HttpFault::TooMany),
    }
}

fn plan_of_vehicles(alloc: Global, body: &[u8]) -> Result<Plan, AllocError>
    requires { length body.now ≤ max_bytes }
    ensures { IfOk result (λ plan. IsBatch IsVehicleItem Vehicles body.now (asked_in plan)) }
{
    match read_vehicles(alloc, body) {
        Ok(items) => Ok(Plan::Vehicles(items)),
        Err(fault) => Ok(Plan::Fixed(fault_of(fault)?)),
    }
}

fn plan_of_events(alloc: Global, reader: &mut BatchReader, body: &[u8]) -> Result<Plan, AllocError>
    requires { length body.now ≤ max_bytes }
    ensures { IfOk result (λ plan. IsBatch IsEventItem Events body.now (asked_in plan)) }
{
    match reader.read(alloc, body) {
        Ok(items) => Ok(Plan::Events(items)),
        Err(fault) => Ok(Plan::Fixed(fault_of(fault)?)),
    }
}

pub(crate) fn plan_about(
    alloc: Global,
    reader: &mut BatchReader,
    aim: &Aim<Key>,
    len: usize,
    after: &[u8],
) -> Result<Plan, AllocError>
    requires { len ≤ max_bytes }
    ensures plan { IfOk result (λ plan. IsAsked aim.now len after.now (asked_in plan)) }
    ensures memory { OnErr result ((is_post (Some aim.now) ≡ true) × (len ≤ length after.now)) }
{
    let body = after.get(..len);
    match (aim, body) {
        (Aim::One(key), _) => Ok(Plan::One(*key)),
        (Aim::History(key), _) => Ok(Plan::History(*key)),
        (Aim::Rows, _) => Ok(Plan::Rows),
        (Aim::Vehicles, Some(body)) => plan_of_vehicles(alloc, body),
        (Aim::Events, Some(body)) => plan_of_events(alloc, reader, body),
        (Aim::Vehicles | Aim::Events, None) => Ok(Plan::Fixed(HttpFault::CutShort)),
    }
}

/// What a stream of request bytes, whole up to its end or longer than the request, asks for.
///
/// # Errors
///
/// `AllocError` where there is no memory for the items of a body that is all there.
pub fn plan_of(alloc: Global, face: &Face, stream: &[u8]) -> Result<Plan, AllocError>
    ensures plan { IfOk result (λ plan. IsPlan stream.now (asked_in plan)) }
    ensures memory { OnErr result (HoldsBody stream.now) }
{
    face.head_status(stream).plan(alloc, stream)
}
