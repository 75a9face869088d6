//! What is answered where what answers rest on is recorded, and where it isn't.
use super::answers::{BOTH_REGISTER, LOOK_AT_A, fleet_over};
use super::growths::register;
use super::peer_of;
use crate::cases::{Answer, NO_ROUTE, PROFILE, answer_text};
use mds_book::RecordFault;
use mds_core::{Event, EventList, Fleet, Key, Reply, Request};
use mds_face::{
    Desk, Face, Head, KeptDesk, KeptFault, Room, ServeFault, Served, memory_bytes, not_kept_bytes,
    serve_kept, serve_whole,
};
use mds_http::HeadStatus;
use mds_table::Row;
use std::alloc::{AllocError, Global};
use std::io::Write;
use test_fixtures::{A, ENDS, Lack, pieces_of, rows};

/// A fleet, and whether what it answers is recorded.
#[derive(Drop)]
pub struct Recorded {
    pub fleet: Fleet,
    pub end: Result<(), RecordFault>,
}

impl Desk for Recorded {
    ghost use Rattle.std.specs.Prelude.{◌≡◌};
    ghost use Rattle.mds_core.specs.History.{key_of, requests_of};
    ghost use Rattle.mds_core.proofs.OfTheirKind.{given_is_for};
    ghost use Rattle.mds_core.specs.Machine.{events_in};
    ghost use Rattle.mds_face.specs.Desk.{FleetCalls};

    ghost calls = { λ old request reply new. FleetCalls old.fleet request reply new.fleet };

    ghost gives_events = { λ old key found new. (found ≡ events_in old.fleet.history key)
        × (new.fleet ≡ old.fleet) };

    ghost gives_rows = { λ desk tables. tables ≡ desk.fleet.tables };

    ghost of_its_kind = { λ old request reply new calls. given_is_for old.fleet.tables
        (requests_of old.fleet.history (key_of request)) request reply.outcome
        (calls.answer).outcome };

    fn call(&mut self, request: &Request) -> Result<Reply, AllocError> {
        self.fleet.step(request)
    }

    fn events(&mut self, key: &Key) -> Result<Option<Vec<Event>>, AllocError> {
        Desk::events(&mut self.fleet, key)
    }

    fn event_list(&mut self, key: &Key) -> Result<Option<EventList>, AllocError> {
        self.fleet.event_list(key)
    }

    fn rows(&mut self) -> Result<Vec<(u64, Vec<Row>)>, AllocError> {
        Desk::rows(&mut self.fleet)
    }
}

impl KeptDesk for Recorded {
    ghost use Rattle.std.specs.Prelude.{◌≡◌, IsOk};

    ghost is_kept = { λ desk _. IsOk desk.end };

    ghost keeps = { λ old answer new. new.fleet ≡ old.fleet };

    fn keep(&mut self, _about: Option<Key>) -> Result<(), RecordFault> {
        self.end
    }
}

/// What is said of a connection: the status of its answer, and how many requests were accepted.
type Said = Result<(u16, usize), KeptFault>;

/// What is asked, whether what answers rest on is recorded, what is said of the connection, and what is written.
type Case = (&'static str, Result<(), RecordFault>, Said, Written);

/// What is written.
enum Written {
    /// This answer.
    Answer(Answer),
    /// The fixed one where there is no memory.
    Memory,
    /// The fixed one that says that something isn't recorded.
    NotKept,
    /// Nothing.
    Nothing,
}

const NOWHERE: &str = "GET /nothing HTTP/1.1\r\n\r\n";

const REGISTERED: Answer = ok!(
    r#"{"device_id":"00000000-0000-4000-8000-00000000000a","events":0,"last":null,"location_e7":null,"provider_id":"00000000-0000-4000-8000-000000000001","vehicle_state":"removed"}"#
);

/// A is registered, and B isn't.
const B_ALONE: Answer = ok!(
    r#"{"failures":[{"error":"already_registered","index":0}],"success":1,"total":2}"#
);

const CASES: &[Case] = rows! {
    (LOOK_AT_A, Ok(()), Ok((200, 0)), Written::Answer(REGISTERED)),
    (LOOK_AT_A, Err(RecordFault::NotKept), Err(KeptFault::NotKept { sent: 127 }), Written::NotKept),
    (LOOK_AT_A, Err(RecordFault::Memory), Err(KeptFault::Serve(ServeFault::Memory { sent: 74 })), Written::Memory),
    (LOOK_AT_A, Err(RecordFault::Lost), Err(KeptFault::Lost), Written::Nothing),
    (BOTH_REGISTER, Ok(()), Ok((200, 1)), Written::Answer(B_ALONE)),
    // A fault of the request rests on nothing.
    (NOWHERE, Err(RecordFault::Lost), Ok((404, 0)), Written::Answer(NO_ROUTE)),
};

/// Serves a request: as one that is all there, if it is to be and its head has no fault, or as one that is read.
fn serve<W: Write>(
    alloc: Global,
    face: &Face,
    request: &[u8],
    is_whole: bool,
    writer: &mut W,
    desk: &mut Recorded,
) -> Result<Served, KeptFault> {
    match face.head_status(request) {
        HeadStatus::Complete { aim, start, len } if is_whole => {
            let (head, mut room) = (Head { aim, start, len }, Room::new(alloc));
            serve_whole(alloc, &mut room, request, &head, writer, desk)
        }
        _ => {
            let mut client = pieces_of(request, usize::MAX, ENDS);
            serve_kept(alloc, face, &mut client, writer, desk)
        }
    }
}

/// Whether a fleet in which A is registered answers so, to a client that takes a byte a call.
fn answers_so(alloc: Global, case: &Case, is_whole: bool) -> Result<bool, Lack> {
    let (request, end, said, written) = case;
    let face = Face::open(alloc)?;
    let mut fleet = fleet_over(alloc, PROFILE)?;
    register(&mut fleet, A)?;
    let mut desk = Recorded { fleet, end: *end };
    let mut peer = peer_of(alloc)?;
    peer.piece = 1;
    let bytes = request.as_bytes();
    let served = serve(alloc, &face, bytes, is_whole, &mut peer, &mut desk);
    let is_written = match written {
        Written::Answer(answer) => peer.taken.as_slice() == answer_text(alloc, *answer)?.as_bytes(),
        Written::Memory => peer.taken.as_slice() == memory_bytes(),
        Written::NotKept => peer.taken.as_slice() == not_kept_bytes(),
        Written::Nothing => peer.taken.is_empty(),
    };
    let served = served.map(|served| (served.status, served.accepted));
    Ok(served == *said && is_written)
}

/// The same, asked again where it wasn't so, or there was no memory for another call.
fn answers_so_again(alloc: Global, case: &Case, is_whole: bool) -> Result<bool, Lack> {
    match answers_so(alloc, case, is_whole) {
        Ok(false) | Err(Lack::Memory) => answers_so(alloc, case, is_whole),
        found => found,
    }
}

/// The first case that is answered otherwise.
fn first_other(alloc: Global) -> Result<Option<usize>, Lack> {
    for (place, case) in CASES.iter().enumerate() {
        if !answers_so_again(alloc, case, false)? || !answers_so_again(alloc, case, true)? {
            return Ok(Some(place));
        }
    }
    Ok(None)
}

#[test]
fn kept_answers_go_out_after_a_refused_growth(rt: HostRuntime) {
    assert_eq!(rt; first_other(rt.alloc()), Ok(None));
}
