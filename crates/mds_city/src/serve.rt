//! The command that serves vehicles at a port.
ghost use Rattle.std.specs.Prelude.{◌≡◌, ℕ, ⊤, IfOk, IfErr};
ghost use Rattle.mds_book.specs.Books.{IsSeatCount};
ghost use Rattle.mds_pool.specs.Serving.{Fits, names_of};
ghost use Rattle.mds_commands.specs.Change.{change_of};
ghost use Rattle.mds_city.specs.Outcome.{outcome_of};
ghost use Rattle.mds_city.specs.Serve.{CameToServe, IsSaid, Listened, SaysAccepted, Serves, StopsBefore};

use crate::figures::{FiguresPort, prepare};
use crate::page::{AcceptedLine, ListeningLine, print_line};
use mds_book::{NamedLedger, Packed, ShardLedger};
use mds_commands::{Problem, Source, Status, tables_in, tell};
use mds_pool::{FinalBook, NewBook, Port, Stop, serve_and_settle};
use mds_table::Tables;
use std::alloc::Global;
use std::hash::RandomState;
use std::io::{Read, Write};
use std::marker::Brand;
use std::random::RandomSource;
use std::sync::Wait;
use std::thread::Threads;

/// What listens at a port of this machine.
pub trait Listens {
    /// The end of a connection that gives its request.
    type In: Read + Drop + Send;

    /// The end of a connection that takes its answer.
    type Out: Write + Drop + Send;

    /// What connections come from.
    type Listening: Port<In = Self::In, Out = Self::Out> + Sync + Drop;

    // what may come of listening at the port of this number: what listens, and the number of its port
    ghost listens: { Self → ℕ → Self.Listening → ℕ → Type 0 } = { λ _ _ _ _. ⊤ };

    /// Listens at 127.0.0.1 and the port of this number, at a free one for 0: what listens, and the number of its port.
    ///
    /// # Errors
    ///
    /// [`ListenFault`] says when each comes.
    fn listen(&self, alloc: Global, number: u16) -> Result<(Self::Listening, u16), ListenFault>
        ensures { IfOk result (λ had. listens self.now number had.0 had.1) };

    /// Makes the stack of this thread as deep as serving needs it. That of a process's first thread grows, and where no memory is left
    /// when it does, the system ends the process (setrlimit(2), RLIMIT_AS). A host whose stacks don't grow needs to do nothing.
    ///
    /// # Errors
    ///
    /// `Memory` where there isn't that much memory.
    fn grow_stack(&self, _alloc: Global) -> Result<(), ListenFault> {
        Ok(())
    }

    /// A port of its own at which figures are to be told, if that is asked for. A host that tells none needs to do nothing.
    ///
    /// # Errors
    ///
    /// [`ListenFault`] says when each comes; and `Memory` where there is none for the figures.
    fn figures_port(
        &self,
        _alloc: Global,
        _asked: ServeOptions,
    ) -> Result<Option<FiguresPort>, ListenFault> {
        Ok(None)
    }
}

/// Why nothing listens at a port.
#[derive(Clone, Copy, Debug, PartialEq, Eq)]
pub enum ListenFault {
    /// The port can't be had.
    Refused,
    /// There was no memory for it.
    Memory,
}

/// What serving is asked for: at which port, by how many workers, and how many connections each of them answers.
#[derive(Clone, Copy, Debug, PartialEq, Eq)]
pub struct ServeOptions {
    /// The number of the port, 0 for a free one.
    pub port: u16,
    /// How many workers there are, 1 to [`mds_book::MAX_SEATS`].
    pub workers: usize,
    /// How many connections each answers.
    pub each: usize,
    /// The number of the port at which figures are told, if they are.
    pub metrics: Option<u16>,
}

/// Serves vehicles over the tables of a table file, or where none is given over the profile's, at a port of the host: prints
/// where it listens, and goes on as [`serve_on`]. It answers the status that the program ends with; a problem is told to
/// `faults` in one line.
pub fn serve_at<
    R: Threads + Wait + RandomSource + Copy + Send + Sync + 'static,
    H: Listens,
    T: Read + Drop,
    W: Write,
    E: Write,
>(
    rt: &R,
    alloc: Global,
    host: &H,
    table: Option<Source<'_, T>>,
    asked: ServeOptions,
    out: &mut W,
    faults: &mut E,
) -> Status
    requires { IsSeatCount asked.workers }
    ensures { CameToServe (H.listens host.now)
        (record { bytes = T.remaining; file = table.entry }) asked
        (outcome_of result
        (change_of (W.contents out.old) (W.contents out.new))
        (change_of (E.contents faults.old) (E.contents faults.new))) }
{
    let (tables, hashers, listening) = match begin(rt, alloc, host, table, asked, out) {
        Ok(had) => had,
        Err(problem) => return tell(alloc, faults, problem),
    };
    serve_on(
        rt,
        alloc,
        tables,
        hashers,
        &listening,
        asked.workers,
        asked.each,
        out,
        faults,
    )
}

/// Begins to serve: has the tables, a hasher for each shard, and what listens at the port, and prints where that is.
fn begin<
    'a,
    R: Threads + Wait + RandomSource + Copy + Send + 'static,
    H: Listens,
    T: Read + Drop,
    W: Write,
>(
    rt: &R,
    alloc: Global,
    host: &H,
    table: Option<Source<'a, T>>,
    asked: ServeOptions,
    out: &mut W,
) -> Result<(Tables, [RandomState; 2], H::Listening), Problem<'a>>
    ensures ok { IfOk result (λ had. Listened (H.listens host.now asked.port)
        (record { bytes = T.remaining; file = table.entry }) had.0 had.2
        (change_of (W.contents out.old) (W.contents out.new))) }
    ensures err { IfErr result (λ problem. StopsBefore (H.listens host.now asked.port)
        (record { bytes = T.remaining; file = table.entry }) problem
        (change_of (W.contents out.old) (W.contents out.new))) }
{
    let tables = tables_in(alloc, table)?;
    let (Ok(first), Ok(second)) = (RandomState::new(rt), RandomState::new(rt)) else {
        return Err(Problem::Random);
    };
    match prepare(rt, alloc, host, asked) {
        Ok(()) => {}
        Err(ListenFault::Refused) => return Err(Problem::Socket),
        Err(ListenFault::Memory) => return Err(Problem::Memory),
    }
    let (listening, port) = match host.listen(alloc, asked.port) {
        Ok(begun) => begun,
        Err(ListenFault::Refused) => return Err(Problem::Socket),
        Err(ListenFault::Memory) => return Err(Problem::Memory),
    };
    print_line(alloc, out, &ListeningLine { port })?;
    Ok((tables, [first, second], listening))
}

/// Serves connections of a port over these tables, with a new book of so many seats, 1 to [`mds_book::MAX_SEATS`], each of
/// which answers so many of them; the book's shards hash by these hashers. At the end it settles the book, and prints how
/// many requests were accepted. It answers the status that the program ends with: `Done`; `Fault` where no further connection
/// could be taken, or an output failed; `NoMemory` for want of memory. What isn't `Done` is told to `faults` in one line.
pub fn serve_on<R: Threads + Wait + Sync, P: Port + Sync, W: Write, E: Write>(
    rt: &R,
    alloc: Global,
    tables: Tables,
    hashers: [RandomState; 2],
    port: &P,
    seats: usize,
    each: usize,
    out: &mut W,
    faults: &mut E,
) -> Status
where
    P::In: Send,
    P::Out: Send,
    requires { IsSeatCount seats }
    ensures { Serves tables seats each
        (outcome_of result
        (change_of (W.contents out.old) (W.contents out.new))
        (change_of (E.contents faults.old) (E.contents faults.new))) }
{
    let opening = NewBook::of(tables, seats, hashers);
    serve_book::<R, P, Brand, Brand, W, E>(rt, alloc, opening, port, each, out, faults)
}

/// As [`serve_on`], with the ledgers of the book, which keeps what it has packed. The clause says that the number is that of some settled book: the book
/// that was served lives only here, and no caller sees it. That it is this one is what the contracts of
/// [`serve_and_settle`] and [`say`] say one after the other, and what the clients of `tests/clients` try.
fn serve_book<
    R: Threads + Wait + Sync,
    P: Port + Sync,
    L: NamedLedger + Send + Sync,
    M: NamedLedger + Send + Sync,
    W: Write,
    E: Write,
>(
    rt: &R,
    alloc: Global,
    opening: NewBook,
    port: &P,
    each: usize,
    out: &mut W,
    faults: &mut E,
) -> Status
where
    P::In: Send,
    P::Out: Send,
    requires fits { Fits (names_of L.name L.parts L.log L.marks L.tables)
        (names_of M.name M.parts M.log M.marks M.tables) opening }
    ensures { Serves opening.tables opening.seats each
        (outcome_of result
        (change_of (W.contents out.old) (W.contents out.new))
        (change_of (E.contents faults.old) (E.contents faults.new))) }
{
    let ended = serve_and_settle::<R, P, Packed<L>, Packed<M>>(rt, alloc, opening, port, each);
    say(alloc, ended, out, faults)
}

fn say<L: ShardLedger, M: ShardLedger, W: Write, E: Write>(
    alloc: Global,
    ended: Result<FinalBook<L, M>, Stop>,
    out: &mut W,
    faults: &mut E,
) -> Status
    ensures { IsSaid ended
        (outcome_of result
        (change_of (W.contents out.old) (W.contents out.new))
        (change_of (E.contents faults.old) (E.contents faults.new))) }
{
    match ended {
        Ok(book) => say_accepted(alloc, book.settled.accepted(), out, faults),
        Err(Stop::Memory) => tell(alloc, faults, Problem::Memory),
        Err(Stop::Accept) => tell(alloc, faults, Problem::Socket),
    }
}

pub(crate) fn say_accepted<W: Write, E: Write>(
    alloc: Global,
    accepted: u128,
    out: &mut W,
    faults: &mut E,
) -> Status
    ensures { SaysAccepted accepted
        (outcome_of result
        (change_of (W.contents out.old) (W.contents out.new))
        (change_of (E.contents faults.old) (E.contents faults.new))) }
{
    match print_line(alloc, out, &AcceptedLine { accepted }) {
        Ok(()) => Status::Done,
        Err(fault) => tell(alloc, faults, Problem::from(fault)),
    }
}
