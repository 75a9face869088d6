//! What is answered without memory.
use super::answers::fleet_over;
use super::growths::{Told, register, told_of};
use super::{Peer, answer_of, peer_of};
use crate::cases::PROFILE;
use mds_core::{Fleet, Outcome, Refusal, Request, Standing};
use mds_face::{Desk, Face, ServeFault, Served, read_plan, serve_one};
use mds_io::ReadError;
use std::alloc::{AllocError, Global};
use test_fixtures::{A, B, FAILS, Lack, Pieces, fence, key, pieces_of};

/// The outcomes of a look at A and of its second registration, and whether B has no events.
fn outcomes<D: Desk>(desk: &mut D) -> Result<([Outcome; 2], bool), AllocError> {
    let seen = desk.call(&Request::Look(key(A)))?.outcome;
    let refused = desk.call(&Request::Register(key(A)))?.outcome;
    let unknown = desk.events(&key(B))?.is_none();
    Ok(([seen, refused], unknown))
}

/// A client whose first read fails.
fn failing() -> Pieces<'static> {
    pieces_of(b"", 1, FAILS)
}

/// What is said of that client where it is served, and where it is only read.
type Faults = (Result<Served, ServeFault>, Option<ReadError>);

fn faults_of(alloc: Global, face: &Face, fleet: &mut Fleet, mut peer: Peer) -> Faults {
    let served = serve_one(alloc, face, &mut failing(), &mut peer, fleet);
    (served, read_plan(alloc, face, &mut failing()).err())
}

/// Asks for the events of A.
const EVENTS: &[u8] =
    b"GET /vehicles/00000000-0000-4000-8000-000000000001/00000000-0000-4000-8000-00000000000a/events HTTP/1.1\r\n\r\n";

/// What is told between two fences: outcomes, faults, what a GET of events is answered, and whether no rows are given.
type Quiet = (Result<([Outcome; 2], bool), AllocError>, Faults, Told, bool);

/// What is to be told, where the growths are refused or not.
fn expected(is_refused: bool) -> Quiet {
    let refused = Outcome::Refused(Refusal::AlreadyRegistered);
    let seen = Outcome::Seen(Standing::at_registration());
    let faults = (Err(ServeFault::Read), Some(ReadError::Device));
    let told = if is_refused {
        (Err(ServeFault::Memory { sent: 74 }), 74, 1)
    } else {
        (answer_of(200, 0), 103, 1)
    };
    (Ok(([seen, refused], true)), faults, told, is_refused)
}

/// What is told otherwise.
fn told_otherwise(alloc: Global) -> Result<Option<Quiet>, Lack> {
    let face = Face::open(alloc)?;
    let mut fleet = fleet_over(alloc, PROFILE)?;
    register(&mut fleet, A)?;
    let (first, second) = (peer_of(alloc)?, peer_of(alloc)?);
    let _begun = fence(alloc);
    let outcomes = outcomes(&mut fleet);
    let faults = faults_of(alloc, &face, &mut fleet, first);
    let told = told_of(alloc, &face, &mut fleet, EVENTS, second);
    let lacks = Desk::rows(&mut fleet).is_err();
    let found = (outcomes, faults, told, lacks);
    let is_refused = fence(alloc).is_err();
    Ok(if found == expected(is_refused) {
        None
    } else {
        Some(found)
    })
}

/// A desk answers what it needs no memory for, and where a connection finds none the fixed answer of status 503 is written.
#[test]
fn lack_is_told_with_every_growth_refused(rt: HostRuntime) {
    assert_eq!(rt; told_otherwise(rt.alloc()), Ok(None));
}
