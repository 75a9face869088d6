//! A port that takes requests in: a worker is handed a connection whose request is whole.
//!
//! Idle workers wait side by side for whatever is ready next: a new connection, further bytes of a request, or room for those
//! of an answer. Who is told of one looks at that connection, which nobody else has meanwhile, and lets it wait again, unless its
//! request is whole, or it is over.
ghost use Rattle.std.specs.Prelude.{◌≡◌, IfSome};
ghost use Rattle.mds_waiting.specs.Looks.{IfDone};
ghost use Rattle.mds_waiting.specs.Requests.{BeginsWith};

use crate::retry::{Retry, retry_of};
use crate::spare::{LIST_BYTES, Spare, is_worth_keeping};
use crate::system::{Ready, System};
use crate::tables::{Late, Tables};
use mds_http::{Face, Head};
use mds_metrics::{Board, Tally};
use mds_pool::{Ending, Port, PortFault};
use mds_waiting::{Coming, Given, Leaving, Look, MAX_WAIT, Outgoing, Peer, ROOM_BYTES, Waiter};
use std::alloc::Global;
use std::io;
use std::sync::atomic::{AtomicU32, Ordering};
use std::sync::{Arc, Mutex, Wait};

/// How many new connections are taken before those that wait are looked at, how many looks are made then, and how often a worker
/// waits first, once there was none to take.
const TURNS: u32 = 16;

/// How many pauses are made at most for want of open files: 30 seconds of them.
const MAX_PAUSES: u32 = 300;

/// How long an answer is overdue, in milliseconds, where the process stood still: else it is let go sooner.
const STALL_MILLIS: u64 = 5_000;

/// A port from which any number of workers take connections.
pub struct WaitingPort<S: System, R: Wait + Copy> {
    rt: R,
    alloc: Global,
    system: S,
    face: Face,
    tables: Mutex<Tables<S::Peer>>,
    /// Room that nobody uses. It is kept, so that a request which comes whole is answered, if only with 503, where no memory is left.
    spare: Mutex<Spare>,
    turn: AtomicU32,
    /// Where figures are kept, if they are.
    board: Option<Arc<Board>>,
}

/// How a connection waited that is looked at.
#[derive(Clone, Copy)]
struct Waited {
    /// Since when.
    begun: u64,
    /// Whether its time is over, unless its client did something meanwhile.
    is_late: bool,
}

impl Waited {
    /// One that is looked at since it is ready.
    fn ready(begun: u64) -> Waited {
        Waited {
            begun,
            is_late: false,
        }
    }

    /// One that is looked at for the last time.
    fn late(begun: u64) -> Waited {
        Waited {
            begun,
            is_late: true,
        }
    }
}

/// Both ends of a connection.
type Ends<P> = (Given, Outgoing<P>);

/// What a look at those that wait came to.
#[derive(Drop)]
enum Looked<P: Peer> {
    /// A connection whose request is whole.
    Whole(Ends<P>),
    /// No such one, but another was looked at.
    Other,
    /// A new connection can be taken.
    New,
    /// None was ready.
    Nothing,
}

impl<S: System, R: Wait + Copy> WaitingPort<S, R> {
    /// A port of this system, for which nobody waits yet.
    pub fn new(alloc: Global, rt: R, system: S, face: Face) -> WaitingPort<S, R> {
        WaitingPort {
            rt,
            alloc,
            system,
            face,
            tables: Mutex::new(Tables::new(alloc)),
            spare: Mutex::new(Spare::new(alloc)),
            turn: AtomicU32::new(0),
            board: None,
        }
    }

    /// From now on who waits is told to this board, and workers count in its tallies.
    pub fn set_board(&mut self, board: Arc<Board>) {
        self.board = Some(board);
    }

    /// Tells who waits now, if figures are kept.
    fn tell(&self, tables: &mut Tables<S::Peer>) {
        if let Some(board) = &self.board {
            tables.tell(board);
        }
    }

    /// What it is told by, and asks.
    pub fn system(&self) -> &S {
        &self.system
    }

    /// One step on the way to the next connection whose request is whole: it, if it is there.
    fn step(&self, pauses: &mut u32) -> Result<Option<Ends<S::Peer>>, PortFault> {
        let Some(longest) = self.next_wait() else {
            return self.go_on_with(self.system.take(), pauses);
        };
        let looked = self.look_after(longest);
        if longest == 0 && matches!(looked, Looked::New | Looked::Nothing) {
            self.turn.store(0, Ordering::SeqCst);
        }
        match looked {
            Looked::Whole(ends) => Ok(Some(ends)),
            Looked::Other => Ok(None),
            Looked::New => {
                let taken = self.system.take();
                self.system.ask_for_new();
                self.go_on_with(taken, pauses)
            }
            Looked::Nothing => self.go_on_with(self.system.take(), pauses),
        }
    }

    /// Goes on with a new connection, or with why none could be taken.
    fn go_on_with(
        &self,
        taken: io::Result<S::Peer>,
        pauses: &mut u32,
    ) -> Result<Option<Ends<S::Peer>>, PortFault> {
        match taken {
            Ok(peer) => {
                *pauses = 0;
                Ok(self.look_at_new(peer))
            }
            Err(error) => self.go_on_after(&error, pauses),
        }
    }

    /// How long the next step waits for one that is ready, in milliseconds, before it takes a new one. `None` where it takes one
    /// at once. To ask for one where there is none costs several times as much as to be told that there is one.
    fn next_wait(&self) -> Option<u64> {
        match self.turn.fetch_add(1, Ordering::SeqCst) / TURNS % 3 {
            0 => None,
            1 if self.has_none_waiting() => {
                self.turn.store(0, Ordering::SeqCst);
                None
            }
            1 => Some(0),
            _ => Some(MAX_WAIT),
        }
    }

    /// Whether no connection waits: then who takes a new one may wait for it.
    fn has_none_waiting(&self) -> bool {
        let mut guard = self.tables.lock(&self.rt);
        let tables = &mut *guard;
        tables.set_taking(&self.system)
    }

    /// Goes on where no new connection could be taken.
    fn go_on_after(
        &self,
        error: &io::Error,
        pauses: &mut u32,
    ) -> Result<Option<Ends<S::Peer>>, PortFault> {
        match retry_of(error) {
            Retry::OnceReady => self.turn.store(2 * TURNS, Ordering::SeqCst),
            Retry::AtOnce => {}
            Retry::Later => self.system.pause(),
            Retry::ForAWhile => return self.go_on_without_files(pauses),
            Retry::Never => return Err(PortFault),
        }
        Ok(None)
    }

    /// Goes on where there are too many open files for one more. The system says so also where no new connection is there
    /// (accept(2)). Where one is, the eldest is let go whose request isn't whole, but for one that another worker took meanwhile;
    /// where there is none, a pause is made, so often at most.
    fn go_on_without_files(&self, pauses: &mut u32) -> Result<Option<Ends<S::Peer>>, PortFault> {
        let before = self.system.now().unwrap_or(u64::MAX);
        let looked = self.look_after(MAX_WAIT);
        self.system.ask_for_new();
        match looked {
            Looked::Whole(ends) => return Ok(Some(ends)),
            Looked::New if self.let_eldest_go(before) => {}
            Looked::New if *pauses < MAX_PAUSES => {
                *pauses += 1;
                self.system.pause();
            }
            Looked::New => return Err(PortFault),
            Looked::Other | Looked::Nothing => {}
        }
        Ok(None)
    }

    /// Looks at one that is late, or else waits until something is ready, so many milliseconds at most, and looks at it.
    fn look_after(&self, longest: u64) -> Looked<S::Peer> {
        let patience = match self.patience() {
            Ok(patience) => patience,
            Err(late) => return self.look_at_late(late),
        };
        match self.system.wait(longest.min(patience)) {
            None => Looked::Nothing,
            Some(Ready::Listener) => Looked::New,
            Some(Ready::Coming(key)) => match self.take_coming(key) {
                Some(waiter) => {
                    let waited = Waited::ready(waiter.begun);
                    self.look_at_coming(waiter.state, waiter.bytes, Some(waited))
                }
                None => Looked::Other,
            },
            Some(Ready::Leaving(key)) => {
                if let Some(waiter) = self.take_leaving(key) {
                    let waited = Waited::ready(waiter.begun);
                    self.look_at_leaving(waiter.state, waiter.bytes, Some(waited));
                }
                Looked::Other
            }
        }
    }

    /// How long may be waited, in milliseconds; or one that is late, and waits no more.
    fn patience(&self) -> Result<u64, Late<S::Peer>> {
        let now = self.system.now();
        let mut guard = self.tables.lock(&self.rt);
        let tables = &mut *guard;
        let _ = tables.set_taking(&self.system);
        self.tell(tables);
        tables.patience(now)
    }

    /// Looks at a connection that is late for the last time: the process may have stood still, and what came meanwhile came in
    /// time. It is let go unless its request is whole, or its client did something and has time left.
    fn look_at_late(&self, late: Late<S::Peer>) -> Looked<S::Peer> {
        match late {
            Late::Coming(waiter) => {
                let waited = Waited::late(waiter.begun);
                self.look_at_coming(waiter.state, waiter.bytes, Some(waited))
            }
            Late::Leaving(waiter) => {
                // The system may have room for a few bytes at any time, so that it takes some says nothing of the client.
                let now = self.system.now().unwrap_or(0);
                if now.saturating_sub(waiter.until) < STALL_MILLIS {
                    self.count_late();
                    return Looked::Other;
                }
                let waited = Waited::late(waiter.begun);
                self.look_at_leaving(waiter.state, waiter.bytes, Some(waited));
                Looked::Other
            }
        }
    }

    /// Counts a connection that is let go since it was late.
    fn count_late(&self) {
        let mut guard = self.tables.lock(&self.rt);
        let tables = &mut *guard;
        tables.late = tables.late.saturating_add(1);
        self.tell(tables);
    }

    /// Lets go of the eldest connection whose request isn't whole, if it waited before this time: whether it did.
    fn let_eldest_go(&self, before: u64) -> bool {
        let mut guard = self.tables.lock(&self.rt);
        let tables = &mut *guard;
        let is_gone = tables.coming.let_eldest_go(before);
        if is_gone {
            tables.crowded = tables.crowded.saturating_add(1);
        }
        self.tell(tables);
        is_gone
    }

    fn take_coming(&self, key: usize) -> Option<Waiter<Coming<S::Peer>>> {
        let mut guard = self.tables.lock(&self.rt);
        let tables = &mut *guard;
        let waiter = tables.coming.take(key);
        self.tell(tables);
        waiter
    }

    fn take_leaving(&self, key: usize) -> Option<Waiter<Leaving<S::Peer>>> {
        let mut guard = self.tables.lock(&self.rt);
        let tables = &mut *guard;
        let waiter = tables.leaving.take(key);
        self.tell(tables);
        waiter
    }

    /// Looks at a connection that was just taken: it, if its request is whole.
    fn look_at_new(&self, peer: S::Peer) -> Option<Ends<S::Peer>> {
        match self.look_at_coming(Coming::new(peer), Vec::new(self.alloc), None) {
            Looked::Whole(ends) => Some(ends),
            Looked::Other | Looked::New | Looked::Nothing => None,
        }
    }

    /// Looks at a connection whose request comes; `waited`: how, where it waited before. Without memory for room, it is lost.
    fn look_at_coming(
        &self,
        mut state: Coming<S::Peer>,
        bytes: Vec<u8>,
        waited: Option<Waited>,
    ) -> Looked<S::Peer> {
        let before = bytes.len();
        let Some((room, mut bytes)) = self.lend(bytes) else {
            return Looked::Other;
        };
        match self.take_in(&mut state, &mut bytes, room) {
            Look::Done(head) => {
                let output = Outgoing::new(self.alloc, state.peer);
                Looked::Whole((Given::new(bytes, head), output))
            }
            Look::Waits => {
                let now = self.system.now().unwrap_or(0);
                let waited = waited.unwrap_or(Waited::ready(now));
                let begun = waited.begun;
                let until = state.part.until(begun, now);
                if waited.is_late && (bytes.len() == before || until <= now) {
                    self.count_late();
                    return Looked::Other;
                }
                if before == 0 {
                    bytes = self.in_own_room(bytes);
                }
                self.let_come(Waiter {
                    state,
                    bytes,
                    begun,
                    until,
                });
                Looked::Other
            }
            Look::Gone => {
                self.keep_list(bytes);
                Looked::Other
            }
        }
    }

    fn let_come(&self, waiter: Waiter<Coming<S::Peer>>) {
        let mut guard = self.tables.lock(&self.rt);
        let tables = &mut *guard;
        tables.let_come(&self.system, waiter);
        let _ = tables.set_taking(&self.system);
        self.tell(tables);
    }

    /// Takes in what came of a request, by way of the room, which is kept.
    fn take_in(&self, coming: &mut Coming<S::Peer>, bytes: &mut Vec<u8>, mut room: Vec<u8>) -> Look
        ensures { IfDone result (BeginsWith bytes.new.items) }
    {
        let look = coming.look(&self.face, bytes, &mut room);
        let mut guard = self.spare.lock(&self.rt);
        let spare = &mut *guard;
        spare.keep_room(room);
        look
    }

    /// Room for bytes that come, and a list with these bytes, behind which they go: for none, one that was used before. `None`
    /// without memory for room.
    fn lend(&self, bytes: Vec<u8>) -> Option<(Vec<u8>, Vec<u8>)>
        ensures { IfSome result (λ lent. lent.1.items ≡ bytes.items) }
    {
        let (spare_room, spare_list) = self.take_spare(bytes.is_empty());
        let room = match spare_room {
            Some(room) => room,
            None => vec![in self.alloc; 0; ROOM_BYTES].ok()?,
        };
        if !bytes.is_empty() {
            return Some((room, bytes));
        }
        let mut list = match spare_list {
            Some(list) => list,
            None => Vec::with_capacity(self.alloc, LIST_BYTES).unwrap_or(bytes),
        };
        list.clear();
        Some((room, list))
    }

    /// Room that is there, and a list, if one is asked for.
    fn take_spare(&self, with_list: bool) -> (Option<Vec<u8>>, Option<Vec<u8>>) {
        let mut guard = self.spare.lock(&self.rt);
        let spare = &mut *guard;
        let room = spare.take_room();
        if with_list {
            return (room, spare.take_list());
        }
        (room, None)
    }

    /// Lets go of a list, which may be used again.
    fn keep_list(&self, list: Vec<u8>) {
        // A long one is freed here, where no other worker waits for that.
        if !is_worth_keeping(&list) {
            return;
        }
        let mut guard = self.spare.lock(&self.rt);
        let spare = &mut *guard;
        spare.keep_list(list);
    }

    /// These bytes, which are to wait, in a list with no more room than they need, if there is memory for it. Long lists stay as
    /// they are, since they grow.
    fn in_own_room(&self, bytes: Vec<u8>) -> Vec<u8>
        ensures { result.items ≡ bytes.items }
    {
        if !is_worth_keeping(&bytes) {
            return bytes;
        }
        let mut own = Vec::new(self.alloc);
        if own.extend_from_slice(&bytes).is_err() {
            return bytes;
        }
        self.keep_list(bytes);
        own
    }

    /// Looks at a connection whose answer leaves; `waited`: how, where it waited before.
    fn look_at_leaving(
        &self,
        mut state: Leaving<S::Peer>,
        mut bytes: Vec<u8>,
        waited: Option<Waited>,
    ) {
        let (before, progress) = (state.part, state.progress());
        if state.look(&bytes) != Look::Waits {
            return;
        }
        let now = self.system.now().unwrap_or(0);
        let waited = waited.unwrap_or(Waited::ready(now));
        let mut begun = waited.begun;
        if state.part != before {
            begun = now;
            bytes = Vec::new(self.alloc);
        }
        let until = state.part.until(begun, now);
        let stood_still = state.part == before && state.progress() == progress;
        if waited.is_late && (stood_still || until <= now) {
            self.count_late();
            return;
        }
        self.let_leave(Waiter {
            state,
            bytes,
            begun,
            until,
        });
    }

    fn let_leave(&self, waiter: Waiter<Leaving<S::Peer>>) {
        let mut guard = self.tables.lock(&self.rt);
        let tables = &mut *guard;
        tables.let_leave(&self.system, waiter);
        let _ = tables.set_taking(&self.system);
        self.tell(tables);
    }

    /// Whether an answer still leaves.
    fn has_leaving(&self) -> bool {
        let mut guard = self.tables.lock(&self.rt);
        let tables = &mut *guard;
        tables.leaving.len() > 0
    }

    /// Waits until all answers have left, or their clients were late. The requests that come are let go.
    fn finish(&self) {
        self.system.end();
        for _ in self.rt.forever() {
            if !self.has_leaving() {
                return;
            }
            let _ = self.look_after(MAX_WAIT);
        }
    }
}

impl<S: System, R: Wait + Copy> Drop for WaitingPort<S, R> {
    fn drop(self) {
        self.finish();
        let WaitingPort {
            rt: _,
            alloc: _,
            system: _,
            face: _,
            tables: _,
            spare: _,
            turn: _,
            board: _,
        } = self;
    }
}

impl<S: System, R: Wait + Copy> Port for WaitingPort<S, R> {
    type In = Given;

    type Out = Outgoing<S::Peer>;

    fn accept(&self) -> Result<(Given, Outgoing<S::Peer>), PortFault> {
        let mut pauses = 0;
        for _ in self.rt.forever() {
            if let Some(ends) = self.step(&mut pauses)? {
                return Ok(ends);
            }
        }
        unreachable!()
    }

    fn whole_of<'a>(&self, input: &'a Given) -> Option<(&'a [u8], Head)> {
        input.bytes_with_head()
    }

    fn tally(&self, worker: usize) -> Option<&Tally> {
        match &self.board {
            Some(board) => board.tally(worker),
            None => None,
        }
    }

    fn end(&self, input: Given, output: Outgoing<S::Peer>, ending: Ending) {
        // A client that sent more than its request goes on sending, maybe, and so does one that announced a body which isn't
        // read: let go at once, it would lose its answer.
        let is_over = ending == Ending::AtOnce && input.is_over() && !input.announces_body();
        let Outgoing {
            peer,
            rest,
            is_lost,
        } = output;
        if !is_lost {
            self.look_at_leaving(Leaving::new(peer, is_over), rest, None);
        }
        // The client waits for the end of its connection, and nobody for the list.
        self.keep_list(input.into_bytes());
    }

    fn stop(&self) {
        self.system.stop();
    }
}
