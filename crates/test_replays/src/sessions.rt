//! The worked cases of sessions, by the profile and by tables that change, and that each call can succeed.
use self::Call::{Back, Next, RunTo, Step};
use crate::told::{Told, events_of};
use mds_table::State;
use mds_table::State::{
    Available, Elsewhere, NonContactable, NonOperational, OnTrip, Removed, Reserved,
};
use mds_trace::{Halt, Place, Session, SessionFault};
use std::alloc::{AllocError, Global};
use test_fixtures::{A, E1, E2, Lack, again, fence, profile, rows};

/// A call of a session.
#[derive(Clone, Copy)]
enum Call {
    Step,
    Back,
    Next,
    RunTo(State),
}

/// A call, and what a session shows then: why it didn't move, the event and how many types of it are passed, the state
/// held, and the states possible.
#[derive(Clone, Copy)]
struct Moved(Call, Option<Halt>, (usize, usize), State, &'static [State]);

/// Where a session by the profile begins: the state held before the events, and these.
#[derive(Clone, Copy)]
struct Start(State, &'static [Told]);

/// Where a session begins, a walk through it, and the chains that it shows at each event from the first on.
type Walk = (Start, &'static [Moved], &'static [Option<&'static [State]>]);

const END: Option<Halt> = Some(Halt::AtEnd);

const START: Option<Halt> = Some(Halt::AtStart);

/// Two events of A: contact is lost, and it comes back as a trip ends.
const LOST_AND_BACK: Start = Start(
    Removed,
    &[
        Told(A, E1, &["comms_lost"], NonContactable, 1000),
        Told(A, E2, &["comms_restored", "trip_end"], Available, 2000),
    ],
);

/// What the debugger's script shows of them.
const LOST_AND_BACK_WALK: &[Moved] = rows! {
    Moved(Next, None, (1, 0), NonContactable, &[NonContactable]),
    Moved(Step, None, (1, 1), NonContactable, &[Removed, Available, NonOperational, Reserved, OnTrip, Elsewhere]),
    Moved(Step, None, (1, 2), NonContactable, &[Available]),
    Moved(Step, None, (2, 0), Available, &[Available]),
    Moved(Step, END, (2, 0), Available, &[Available]),
    Moved(Back, None, (1, 2), NonContactable, &[Available]),
    Moved(RunTo(Removed), END, (1, 2), NonContactable, &[Available]),
    Moved(RunTo(Available), None, (2, 0), Available, &[Available]),
    Moved(Next, END, (2, 0), Available, &[Available]),
};

/// The end of a trip.
const TRIP_END: Told = Told(A, E1, &["trip_end"], Available, 1000);

/// A session over it.
const ONE_TRIP: Start = Start(OnTrip, &[TRIP_END]);

/// The debugger's script; back to the opening state; no events.
const WALKS: &[Walk] = rows! {
    (LOST_AND_BACK, LOST_AND_BACK_WALK, &[
        Some(&[Removed, NonContactable]), Some(&[NonContactable, OnTrip, Available]), None,
    ]),
    (ONE_TRIP, &[
        Moved(Step, None, (0, 1), OnTrip, &[Available]),
        Moved(Back, None, (0, 0), OnTrip, &[OnTrip]),
        Moved(Back, START, (0, 0), OnTrip, &[OnTrip]),
    ], &[Some(&[OnTrip, Available])]),
    (Start(Removed, &[]), &[
        Moved(Step, END, (0, 0), Removed, &[Removed]), Moved(Back, START, (0, 0), Removed, &[Removed]),
    ], &[None]),
};

/// What comes of opening a session; of want of memory there is nothing to compare.
fn opened(alloc: Global, start: &Start) -> Result<Result<Session, SessionFault>, Lack> {
    let events = events_of(alloc, start.1)?;
    match Session::open(alloc, profile(alloc)?, start.0, events) {
        Err(SessionFault::Memory) => Err(Lack::Memory),
        opened => Ok(opened),
    }
}

/// A session that there is.
fn session_of(alloc: Global, start: &Start) -> Result<Session, Lack> {
    opened(alloc, start)?.map_err(|_| Lack::Case)
}

/// Makes a call of a session.
fn made(session: &mut Session, call: Call) -> Result<(), Halt> {
    match call {
        Call::Step => session.step(),
        Call::Back => session.back(),
        Call::Next => session.next_event(),
        Call::RunTo(state) => session.run_to(state),
    }
}

/// Whether each call ends as it should, and the session shows then what it should.
fn goes_so(session: &mut Session, moves: &[Moved]) -> bool {
    for Moved(call, halt, (event, passed), state, possible) in moves {
        let ended = made(session, *call).err();
        let place = session.place();
        if ended != *halt
            || (place.event, place.passed) != (*event, *passed)
            || session.state() != *state
            || session.possible().states().as_slice() != *possible
        {
            return false;
        }
    }
    true
}

/// Whether a session shows this chain, or none.
fn has_chain(
    alloc: Global,
    session: &Session,
    expected: Option<&[State]>,
) -> Result<bool, AllocError> {
    Ok(match session.chain(alloc)? {
        Some(chain) => expected == Some(chain.as_slice()),
        None => expected.is_none(),
    })
}

/// Whether a session shows these chains, where it goes on to the next event behind each.
fn has_chains(
    alloc: Global,
    mut session: Session,
    chains: &[Option<&[State]>],
) -> Result<bool, AllocError> {
    for chain in chains {
        if !has_chain(alloc, &session, *chain)? {
            return Ok(false);
        }
        let _ = session.next_event();
    }
    Ok(true)
}

/// The place of the first walk that goes otherwise, or shows another chain.
fn first_other(alloc: Global, walks: &[Walk]) -> Result<Option<usize>, Lack> {
    for (at, (start, moves, chains)) in walks.iter().enumerate() {
        let goes_so = goes_so(&mut session_of(alloc, start)?, moves);
        if !goes_so || !has_chains(alloc, session_of(alloc, start)?, chains)? {
            return Ok(Some(at));
        }
    }
    Ok(None)
}

#[test]
fn worked_walks(rt: HostRuntime) {
    assert_eq!(rt; first_other(rt.alloc(), WALKS), Ok(None));
}

/// Whether the debugger's script shows what it should, between two fences.
fn script_goes_so(alloc: Global) -> Result<bool, Lack> {
    let mut session = session_of(alloc, &LOST_AND_BACK)?;
    let _begun = fence(alloc);
    let goes_so = goes_so(&mut session, LOST_AND_BACK_WALK);
    let _ended = fence(alloc);
    Ok(goes_so)
}

#[test]
fn sessions_move_with_every_growth_refused(rt: HostRuntime) {
    assert_eq!(rt; script_goes_so(rt.alloc()), Ok(true));
}

/// Where a session begins, and why it doesn't.
#[derive(Clone, Copy)]
struct Opening(Start, Option<SessionFault>);

const OPENINGS: &[Opening] = rows! {
    Opening(ONE_TRIP, None),
    Opening(Start(Reserved, &[TRIP_END]), Some(SessionFault::Unlawful { event: 0, at: 0 })),
    Opening(Start(OnTrip, &[TRIP_END; 2]), Some(SessionFault::BadOrder { event: 1 })),
};

/// The place of the first of these that opens otherwise.
fn first_opened_otherwise(alloc: Global, openings: &[Opening]) -> Result<Option<usize>, Lack> {
    for (at, Opening(start, fault)) in openings.iter().enumerate() {
        if opened(alloc, start)?.err() != *fault {
            return Ok(Some(at));
        }
    }
    Ok(None)
}

#[test]
fn sessions_that_open_or_not(rt: HostRuntime) {
    assert_eq!(rt; first_opened_otherwise(rt.alloc(), OPENINGS), Ok(None));
}

/// Whether a session over the end of a trip shows its chain, where each is asked for again if a growth is refused.
fn chain_again(alloc: Global) -> Result<bool, Lack> {
    let session = again!(session_of(alloc, &ONE_TRIP))?;
    let expected = Some([OnTrip, Available].as_slice());
    Ok(again!(has_chain(alloc, &session, expected))?)
}

#[test]
fn session_succeeds_after_a_refused_growth(rt: HostRuntime) {
    assert_eq!(rt; chain_again(rt.alloc()), Ok(true));
}
