//! A port over a system that is played: who comes to it, what it is told of, and its clock.
use crate::peers::{Act, LATER, LOST, Played};
use mds_http::Face;
use mds_metrics::Board;
use mds_pool::{Ending, Port};
use mds_socket::{Ready, System, WaitingPort};
use std::alloc::{AllocError, Global};
use std::io::{self, ErrorKind, Read, Write};
use std::sync::atomic::{AtomicBool, AtomicU64, AtomicUsize, Ordering};
use std::sync::{Arc, Wait};
use test_fixtures::rows;

/// What the system does at the next call that takes a connection or waits, and that it is an answer to.
#[derive(Clone, Copy)]
enum Turn {
    /// A connection comes, whose client does these things.
    Comes(&'static [Act]),
    /// No connection can be taken, for the error of this number.
    Fails(i32),
    /// It tells this.
    Tells(Ready),
    /// It tells nothing, and so many milliseconds go by.
    After(u64),
    /// A connection comes, and from now on no file is left for one.
    Lacks,
    /// No memory is left for a connection, however often one is taken. Once so many pauses were made, it tells this.
    Wants(usize, Ready),
}

/// A system that does these things, one after the other. Then no connection can be taken any more.
#[derive(Drop)]
struct PlayedSystem {
    turns: &'static [Turn],
    at: AtomicUsize,
    /// How many milliseconds go by from one reading of the clock to the next, if it tells any; and the time at the next one.
    pace: Option<u64>,
    time: AtomicU64,
    /// How often it can be asked, and was.
    most: usize,
    asked: AtomicUsize,
    pauses: AtomicUsize,
    stops: AtomicUsize,
    /// The longest wait that it was asked for, in milliseconds.
    longest: AtomicU64,
    /// Whether a new connection is told, which is told once.
    asks_for_new: AtomicBool,
    /// Whether a new one may be waited for: each time that it was said a bit, behind a first one.
    may_wait: AtomicU64,
}

impl PlayedSystem {
    fn new(turns: &'static [Turn], pace: Option<u64>, most: usize) -> PlayedSystem {
        PlayedSystem {
            turns,
            at: AtomicUsize::new(0),
            pace,
            time: AtomicU64::new(0),
            most,
            asked: AtomicUsize::new(0),
            pauses: AtomicUsize::new(0),
            stops: AtomicUsize::new(0),
            longest: AtomicU64::new(0),
            asks_for_new: AtomicBool::new(true),
            may_wait: AtomicU64::new(1),
        }
    }

    /// What it does next.
    fn turn(&self) -> Option<Turn> {
        self.turns.get(self.at.load(Ordering::SeqCst)).copied()
    }

    /// That was done.
    fn go_on(&self) {
        self.at.fetch_add(1, Ordering::SeqCst);
    }

    /// A new connection, where it is asked for.
    fn new_one(&self) -> Option<Ready> {
        let is_asked = self.asks_for_new.swap(false, Ordering::SeqCst);
        is_asked.then_some(Ready::Listener)
    }
}

/// EMFILE, ENFILE, ENOMEM, ENOBUFS and ECONNABORTED, by Linux's numbers; and EPERM, EACCES and EOPNOTSUPP.
const NO_FILE: i32 = 24;

const NO_FILE_IN_SYSTEM: i32 = 23;

const NO_MEMORY: i32 = 12;

const NO_BUFFERS: i32 = 105;

const ABORTED: i32 = 103;

const HINDERED: [i32; 3] = [1, 13, 95];

impl System for PlayedSystem {
    type Peer = Played;

    fn take(&self) -> io::Result<Played> {
        match self.turn() {
            Some(Turn::Comes(acts)) => {
                self.go_on();
                Ok(Played::new(acts))
            }
            Some(Turn::Fails(number)) => {
                self.go_on();
                Err(io::Error::from_raw_os_error(number))
            }
            Some(Turn::Tells(_) | Turn::After(_)) => Err(io::Error::from(ErrorKind::WouldBlock)),
            Some(Turn::Lacks) => Err(io::Error::from_raw_os_error(NO_FILE)),
            Some(Turn::Wants(count, _)) if self.pauses.load(Ordering::SeqCst) / 2 < count => Err(
                io::Error::from_raw_os_error(NO_BUFFERS),
            ),
            Some(Turn::Wants(..)) | None => Err(io::Error::from(ErrorKind::InvalidInput)),
        }
    }

    fn let_take_wait(&self, may_wait: bool) {
        let said = self.may_wait.load(Ordering::SeqCst);
        self.may_wait
            .store(said << 1 | u64::from(may_wait), Ordering::SeqCst);
    }

    fn ask(&self, _peer: &mut Played, _ready: Ready, _for_sending: bool) -> bool {
        self.asked.fetch_add(1, Ordering::SeqCst) < self.most
    }

    fn ask_for_new(&self) {
        self.asks_for_new.store(true, Ordering::SeqCst);
    }

    fn wait(&self, millis: u64) -> Option<Ready> {
        let longest = self.longest.load(Ordering::SeqCst).max(millis);
        self.longest.store(longest, Ordering::SeqCst);
        match self.turn() {
            Some(Turn::Tells(Ready::Listener)) => {
                self.go_on();
                self.new_one()
            }
            Some(Turn::Wants(count, _)) if self.pauses.load(Ordering::SeqCst) < count => None,
            Some(Turn::Tells(ready) | Turn::Wants(_, ready)) => {
                self.go_on();
                Some(ready)
            }
            Some(Turn::After(millis)) => {
                self.go_on();
                self.time.fetch_add(millis, Ordering::SeqCst);
                None
            }
            Some(Turn::Lacks) => self.new_one(),
            Some(Turn::Comes(_) | Turn::Fails(_)) | None => None,
        }
    }

    fn now(&self) -> Option<u64> {
        let pace = self.pace?;
        Some(self.time.fetch_add(pace, Ordering::SeqCst))
    }

    fn pause(&self) {
        self.pauses.fetch_add(1, Ordering::SeqCst);
    }

    fn stop(&self) {
        self.stops.fetch_add(1, Ordering::SeqCst);
    }

    fn end(&self) {}
}

/// A client whose request is there, and who takes its answer; one of whose request the first bytes are there; and that one where
/// the others never come, if it is let go.
const WHOLE: &[Act] = &[Act::Gives(b"GET / HTTP/1.1\r\n\r\n"), Act::Takes(8)];

const PART: &[Act] =
    rows! { Act::Gives(b"GET /"), Act::Gives(b"table HTTP/1.1\r\n\r\n"), Act::Takes(8) };

/// What a system does, its clock, and how often it can be asked; how many bytes the requests have that are handed out, and how often it
/// was asked and a pause was made.
type Case = (&'static [Turn], Option<u64>, usize, [usize; 2], [usize; 2]);

/// Clients that take two bytes of their answers, that are lost in the head, in the body and in the answer, and whose request comes
/// late.
const SLOW: &[Act] = &[Act::Gives(b"GET / HTTP/1.1\r\n\r\n"), Act::Takes(2)];

const CUT: &[Act] = &[Act::Gives(b"GET /"), LOST];

const IN_BODY: &[Act] =
    rows! { Act::Gives(b"POST /events HTTP/1.1\r\ncontent-length: 4\r\n\r\n"), Act::Gives(b"12"), LOST };

const IN_ANSWER: &[Act] =
    rows! { Act::Gives(b"GET / HTTP/1.1\r\n\r\n"), Act::Takes(2), LATER, LOST };

const LATE: &[Act] =
    rows! { Act::Gives(b"GET /"), LATER, Act::Gives(b"table HTTP/1.1\r\n\r\n"), Act::Takes(8) };

/// Clients whose head comes in two pieces, and then half of the body; that take a byte now and then; and that send one more once
/// they have the answer.
const PIECES: &[Act] =
    rows! { Act::Gives(b"POST /events HTTP/1.1\r\n"), Act::Gives(b"content-length: 4\r\n\r\n"), Act::Gives(b"12") };

const SPARING: &[Act] =
    rows! { Act::Gives(b"GET / HTTP/1.1\r\n\r\n"), Act::Takes(2), LATER, Act::Takes(1), LATER, Act::Takes(1), LATER };

const LINGERING: &[Act] =
    rows! { Act::Gives(b"GET / HTTP/1.1\r\n\r\n"), Act::Takes(2), LATER, Act::Takes(3), Act::Gives(b"x"), LATER };

const CASES: &[Case] = rows! {
    // A request is there when its connection is taken; of another one the rest comes later.
    (&[Turn::Comes(WHOLE), Turn::Comes(PART), Turn::Tells(Ready::Coming(0))], Some(1), 9, [18, 23], [1, 0]),
    // No file is left for one more, of the process or of the system: each time the eldest is let go whose request isn't whole.
    (&[
        Turn::Comes(PART), Turn::Comes(PART), Turn::Comes(PART), Turn::Fails(NO_FILE), Turn::Tells(Ready::Listener),
        Turn::Fails(NO_FILE_IN_SYSTEM), Turn::Tells(Ready::Listener), Turn::Tells(Ready::Coming(0)), Turn::Tells(Ready::Coming(1)),
        Turn::Comes(WHOLE), Turn::Tells(Ready::Coming(2)),
    ], Some(1), 9, [18, 23], [3, 0]),
    // None is let go that was taken when another worker found none left: a pause is made.
    (&[
        Turn::Comes(PART), Turn::Fails(NO_FILE), Turn::Tells(Ready::Listener), Turn::Tells(Ready::Coming(0)),
        Turn::Comes(WHOLE),
    ], Some(0), 9, [23, 18], [1, 1]),
    // Who waited is handed out where its request comes whole then, and isn't let go where no new connection is there.
    (&[Turn::Comes(PART), Turn::Fails(NO_FILE), Turn::Tells(Ready::Coming(0)), Turn::Comes(WHOLE)],
        Some(1), 9, [23, 18], [1, 0]),
    (&[
        Turn::Comes(PART), Turn::Fails(NO_FILE), Turn::After(0), Turn::Tells(Ready::Coming(0)), Turn::Comes(WHOLE),
    ], Some(1), 9, [23, 18], [1, 0]),
    // None waits that could be let go: 30 seconds of pauses are made. No connection is there: none is.
    (&[Turn::Lacks], Some(1), 9, [0, 0], [0, 300]),
    (&[Turn::Fails(NO_FILE), Turn::After(0), Turn::Comes(WHOLE)], Some(1), 9, [18, 0], [0, 0]),
    // No memory is left for one more connection; or it was lost before it was taken.
    (&[Turn::Fails(NO_MEMORY), Turn::Fails(NO_BUFFERS), Turn::Fails(ABORTED), Turn::Comes(WHOLE)],
        Some(1), 9, [18, 0], [0, 2]),
    // Nobody is let go for that: a request of which a part is there comes whole.
    (&[
        Turn::Comes(PART), Turn::Fails(NO_MEMORY), Turn::Fails(NO_BUFFERS), Turn::Fails(HINDERED[0]), Turn::Fails(HINDERED[1]),
        Turn::Fails(HINDERED[2]), Turn::Fails(ABORTED), Turn::Tells(Ready::Coming(0)), Turn::Comes(WHOLE),
    ], Some(1), 9, [23, 18], [1, 5]),
    // Nor is it left alone while that lasts: its request is handed out that comes whole meanwhile.
    (&[Turn::Comes(PART), Turn::Wants(100, Ready::Coming(0)), Turn::Comes(WHOLE)], Some(1), 9, [23, 18], [1, 100]),
    // A connection is reset in the head, and another one in the body. The eldest stays.
    (&[
        Turn::Comes(PART), Turn::Comes(CUT), Turn::Tells(Ready::Coming(1)), Turn::Comes(IN_BODY), Turn::Tells(Ready::Coming(1)),
        Turn::Tells(Ready::Coming(1)), Turn::Tells(Ready::Coming(0)), Turn::Comes(WHOLE),
    ], Some(1), 9, [23, 18], [4, 0]),
    // One is reset in the answer, of which it took two bytes.
    (&[Turn::Comes(IN_ANSWER), Turn::Tells(Ready::Leaving(0)), Turn::Comes(WHOLE)], Some(1), 9, [18, 18], [1, 0]),
    // The clock fails: who waits is let go, but where the rest is there by then, and a request that is there is handed out.
    (&[Turn::Comes(LATE), Turn::Tells(Ready::Coming(0)), Turn::Comes(WHOLE)], None, 9, [18, 0], [1, 0]),
    (&[Turn::Comes(PART), Turn::Tells(Ready::Coming(0)), Turn::Comes(WHOLE)], None, 9, [23, 18], [1, 0]),
    // A head isn't there after 10 seconds, and a request, whose head came late, after 60: its connection is let go.
    (&[Turn::Comes(LATE), Turn::After(10_000), Turn::Tells(Ready::Coming(0)), Turn::Comes(WHOLE)], Some(0), 9, [18, 0], [1, 0]),
    // What came while the process stood still is looked at first.
    (&[Turn::Comes(PART), Turn::After(10_000), Turn::Tells(Ready::Coming(0)), Turn::Comes(WHOLE)], Some(0), 9, [23, 18], [1, 0]),
    (&[
        Turn::Comes(PIECES), Turn::After(9_000), Turn::Tells(Ready::Coming(0)), Turn::After(25_000), Turn::Tells(Ready::Coming(0)),
        Turn::After(26_000), Turn::Tells(Ready::Coming(0)), Turn::Comes(WHOLE),
    ], Some(0), 9, [18, 0], [3, 0]),
    // An answer isn't taken whole after 60 seconds, though some of it was at 20 and 40; of one that was, after 15, the end has 2 more.
    (&[
        Turn::Comes(SPARING), Turn::After(20_000), Turn::Tells(Ready::Leaving(0)), Turn::After(20_000), Turn::Tells(Ready::Leaving(0)),
        Turn::After(20_000), Turn::Tells(Ready::Leaving(0)), Turn::Comes(WHOLE), Turn::After(60_000),
    ], Some(0), 9, [18, 18], [3, 0]),
    (&[
        Turn::Comes(LINGERING), Turn::After(15_000), Turn::Tells(Ready::Leaving(0)), Turn::After(1_000),
        Turn::Tells(Ready::Leaving(0)), Turn::Comes(WHOLE), Turn::After(60_000),
    ], Some(0), 9, [18, 18], [3, 0]),
    // What is told is over: nobody waits there, nothing came, and no connection can be taken.
    (&[
        Turn::Tells(Ready::Coming(7)), Turn::Tells(Ready::Leaving(3)), Turn::Tells(Ready::Listener),
        Turn::Comes(LATE), Turn::Tells(Ready::Coming(0)), Turn::Tells(Ready::Coming(0)),
    ], Some(1), 9, [23, 0], [2, 0]),
    // The system can't be asked when more comes: the connection is let go.
    (&[Turn::Comes(PART), Turn::Tells(Ready::Coming(0)), Turn::Comes(WHOLE)], Some(1), 0, [18, 0], [1, 0]),
    // Nobody takes the rest of an answer: it is let go in the end, and so is its connection without a clock.
    (&[Turn::Comes(SLOW)], Some(1_000), 9, [18, 0], [1, 0]),
    (&[Turn::Comes(SLOW)], None, 9, [18, 0], [1, 0]),
};

/// How many bytes the requests have that have no route. They aren't handed on whole.
const WITHOUT_ROUTE: usize = 18;

/// Takes a connection, answers it and ends it: how many bytes its request has. `None` where none was taken, or not as it came.
fn taken<R: Wait + Copy>(port: &WaitingPort<PlayedSystem, R>) -> Option<usize> {
    let (mut input, mut output) = port.accept().ok()?;
    let is_whole = port.whole_of(&input).is_some();
    let count = input.read(&mut [0u8; 64]).ok()?;
    if is_whole == (count == WITHOUT_ROUTE) {
        return None;
    }
    output.write_all(b"12345").ok()?;
    port.end(input, output, Ending::AtOnce);
    Some(count)
}

/// What a case comes to. `None` where the port stopped its system, which other workers may take connections from, or asked for a wait
/// of more than a second, beside which who is late stays.
fn come_to<R: Wait + Copy>(
    rt: R,
    alloc: Global,
    case: Case,
) -> Result<Option<([usize; 2], [usize; 2])>, AllocError> {
    let (turns, pace, most, _, _) = case;
    let face = Face::open(alloc)?;
    let port = WaitingPort::new(alloc, rt, PlayedSystem::new(turns, pace, most), face);
    let first = taken(&port);
    let second = first.and_then(|_| taken(&port));
    let system = port.system();
    let counts = [
        system.asked.load(Ordering::SeqCst),
        system.pauses.load(Ordering::SeqCst),
    ];
    let came = ([first.unwrap_or(0), second.unwrap_or(0)], counts);
    let is_well = system.stops.load(Ordering::SeqCst) == 0
        && system.longest.load(Ordering::SeqCst) <= 1_000;
    Ok(is_well.then_some(came))
}

/// The place of the first case that comes to something else.
fn other_case<R: Wait + Copy>(rt: R, alloc: Global) -> Result<Option<usize>, AllocError> {
    for (at, case) in CASES.iter().copied().enumerate() {
        if come_to(rt, alloc, case)? != Some((case.3, case.4)) {
            return Ok(Some(at));
        }
    }
    Ok(None)
}

#[test]
fn a_port_goes_on_whatever_its_system_does(rt: HostRuntime) {
    assert_eq!(rt; other_case(rt, rt.alloc()), Ok(None));
}

/// What a system does, and when a new connection may be waited for.
const TAKING: &[(&[Turn], u64)] = rows! {
    // Once nobody waits; not beside a request that comes; and again behind it.
    (&[Turn::Tells(Ready::Listener), Turn::Comes(PART), Turn::Tells(Ready::Coming(0)), Turn::Comes(WHOLE)], 0b1_101),
    // Not beside an answer that leaves.
    (&[Turn::Tells(Ready::Listener), Turn::Comes(SLOW)], 0b1_10),
};

/// What is said of that for the turns of each row, up to the second connection.
fn said_of_taking<R: Wait + Copy>(rt: R, alloc: Global) -> Result<Vec<u64>, AllocError> {
    let mut said = Vec::new(alloc);
    for (turns, _) in TAKING.iter().copied() {
        let system = PlayedSystem::new(turns, Some(1_000), 9);
        let port = WaitingPort::new(alloc, rt, system, Face::open(alloc)?);
        let _ = taken(&port).and_then(|_| taken(&port));
        said.push(port.system().may_wait.load(Ordering::SeqCst))?;
    }
    Ok(said)
}

#[test]
fn a_new_connection_is_waited_for_where_none_waits(rt: HostRuntime) {
    let expected = [TAKING[0].1, TAKING[1].1];
    assert!(rt; said_of_taking(rt, rt.alloc()).is_ok_and(|said| said.as_slice() == &expected[..]));
}

/// Which of three workers have a tally at a port, before it has a board, and then, where that is one of two workers.
fn have_tallies<R: Wait + Copy>(rt: R, alloc: Global) -> Result<[[bool; 3]; 2], AllocError> {
    let system = PlayedSystem::new(&[], None, 0);
    let mut port = WaitingPort::new(alloc, rt, system, Face::open(alloc)?);
    let before = [0, 1, 2].map(|worker| port.tally(worker).is_some());
    port.set_board(Arc::new(alloc, Board::new(alloc, "1.2.3", 2)?)?);
    let then = [0, 1, 2].map(|worker| port.tally(worker).is_some());
    Ok([before, then])
}

/// None counts in that of another: there are no more than the board has.
#[test]
fn each_worker_has_a_tally_of_its_own(rt: HostRuntime) {
    assert_eq!(rt;
        have_tallies(rt, rt.alloc()),
        Ok([[false; 3], [true, true, false]])
    );
}
