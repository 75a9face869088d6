//! Connections that find no memory.
ghost use Rattle.std.specs.Prelude.{◌≡◌, IfSome};

use super::answers::fleet_over;
use super::{Peer, answer_of, answered, peer_of};
use crate::cases::{Answer, LACKING_AT_2, PROFILE, THREE, answer_text};
use mds_batch::BatchItems;
use mds_core::{Event, EventList, Fleet, Key, Reply, Request};
use mds_face::{Desk, Face, Plan, ServeFault, Served, read_plan, serve_one};
use mds_table::{Row, State};
use std::alloc::{AllocError, Global};
use test_fixtures::{A, B, ENDS, Lack, again, key, pieces_of};

/// Registers a vehicle, where memory allows at once or at a second try.
pub fn register(fleet: &mut Fleet, device: u64) -> Result<Reply, AllocError> {
    let request = Request::Register(key(device));
    again!(fleet.step(&request))
}

/// A fleet in which A and B are registered, and the routes.
fn registered(alloc: Global) -> Result<(Fleet, Face), Lack> {
    let mut fleet = fleet_over(alloc, PROFILE)?;
    register(&mut fleet, A)?;
    register(&mut fleet, B)?;
    Ok((fleet, again!(Face::open(alloc))?))
}

/// A fleet that finds no memory once so many requests were put to it.
#[derive(Drop)]
struct Wanting<'a> {
    fleet: &'a mut Fleet,
    left: usize,
}

impl Desk for Wanting<'_> {
    ghost use Rattle.std.specs.Prelude.{IfSome};
    ghost use Rattle.mds_core.specs.History.{key_of, requests_of};
    ghost use Rattle.mds_core.specs.Answer.{Answers};
    ghost use Rattle.mds_core.proofs.OfTheirKind.{given_is_for};

    ghost calls = { λ old request reply new.
        IfSome reply (Answers old.fleet.now.tables old.fleet.now.history request) };

    ghost gives_events = { λ old key events new. Unit {0} };

    ghost gives_rows = { λ desk tables. Unit {0} };

    ghost of_its_kind = { λ old request reply new answers. given_is_for old.fleet.now.tables
        (requests_of old.fleet.now.history (key_of request)) request reply.outcome answers.outcome };

    fn call(&mut self, request: &Request) -> Result<Reply, AllocError> {
        if self.left == 0 {
            return Err(AllocError);
        }
        self.left -= 1;
        self.fleet.step(request)
    }

    fn events(&mut self, _key: &Key) -> Result<Option<Vec<Event>>, AllocError> {
        Err(AllocError)
    }

    fn event_list(&mut self, _key: &Key) -> Result<Option<EventList>, AllocError> {
        Err(AllocError)
    }

    fn rows(&mut self) -> Result<Vec<(u64, Vec<Row>)>, AllocError> {
        Err(AllocError)
    }
}

/// The state that a vehicle holds.
fn held(fleet: &Fleet, device: u64) -> Option<State> {
    Some(fleet.standing(&key(device))?.state)
}

/// What is told of a batch which finds no memory behind its first event, whether that is its answer, and the states of A and
/// of B then.
type Partial = (Result<Served, ServeFault>, bool, [Option<State>; 2]);

fn partial_batch(alloc: Global, answer: Answer) -> Result<Partial, Lack> {
    let (mut fleet, face) = registered(alloc)?;
    let mut desk = Wanting {
        fleet: &mut fleet,
        left: 1,
    };
    let (served, written) = answered(alloc, &face, &mut desk, THREE.as_bytes(), usize::MAX)?;
    let is_partial = written.as_slice() == answer_text(alloc, answer)?.as_bytes();
    Ok((served, is_partial, [held(&fleet, A), held(&fleet, B)]))
}

#[test]
fn refused_growth_inside_a_batch(rt: HostRuntime) {
    let states = [Some(State::Available), Some(State::Removed)];
    let told = (answer_of(503, 1), true, states);
    assert_eq!(rt; partial_batch(rt.alloc(), LACKING_AT_2), Ok(told));
}

/// What is told of a request, how many bytes were written and how many requests the fleet holds then.
pub type Told = (Result<Served, ServeFault>, usize, usize);

/// What is told of these bytes, which come at once, to a fleet.
pub fn told_of(
    alloc: Global,
    face: &Face,
    fleet: &mut Fleet,
    bytes: &[u8],
    mut peer: Peer,
) -> Told {
    let mut client = pieces_of(bytes, usize::MAX, ENDS);
    let served = serve_one(alloc, face, &mut client, &mut peer, fleet);
    (served, peer.taken.len(), fleet.history().len())
}

/// Whether a fleet of so many requests is what was told of the batch, where A and B were registered before.
fn stands(told: Told) -> bool {
    let (served, written, held) = told;
    match served {
        Ok(Served { status, accepted }) => {
            let expected = if accepted == 2 { 200 } else { 503 };
            accepted <= 2 && held == 2 + accepted && status == expected
        }
        Err(ServeFault::Memory { sent }) => sent == 74 && written == 74 && (held == 2 || held == 4),
        _ => false,
    }
}

/// Whether what was told of the batch stands; whether the same request is then answered whole, where it wasn't before; and the
/// states of A and of B at last.
fn twice_told(alloc: Global) -> Result<(bool, bool, [Option<State>; 2]), Lack> {
    let (mut fleet, face) = registered(alloc)?;
    let first = told_of(alloc, &face, &mut fleet, THREE.as_bytes(), peer_of(alloc)?);
    let mut is_whole = first.0 == answer_of(200, 2);
    if !is_whole {
        let again = told_of(alloc, &face, &mut fleet, THREE.as_bytes(), peer_of(alloc)?);
        is_whole = (again.0, again.2) == (answer_of(200, 4usize.saturating_sub(first.2)), 4);
    }
    Ok((stands(first), is_whole, [held(&fleet, A), held(&fleet, B)]))
}

/// By `tests/refused-growths`, as the others of such names.
#[test]
fn calls_stand_after_a_refused_growth(rt: HostRuntime) {
    let states = [Some(State::Available), Some(State::Available)];
    assert_eq!(rt; twice_told(rt.alloc()), Ok((true, true, states)));
}

/// How many events the batch reports, faulty items among them, read again where there was no memory to read it.
fn reported(alloc: Global) -> Result<Option<usize>, Lack> {
    let face = again!(Face::open(alloc))?;
    match again!(read_plan(alloc, &face, &mut pieces_of(THREE.as_bytes(), 16, ENDS))) {
        Ok(Plan::Events(items)) => Ok(Some(items.count())),
        _ => Ok(None),
    }
}

#[test]
fn a_batch_is_read_after_a_refused_growth(rt: HostRuntime) {
    assert_eq!(rt; reported(rt.alloc()), Ok(Some(3)));
}
