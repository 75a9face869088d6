//! The command that serves vehicles over a journal.
ghost use Rattle.std.specs.Prelude.{◌≡◌, ◌⊎◌, ℕ, List, Result, ⊤, IfOk, IfErr, IsSome, MatchOption};
ghost use Rattle.mds_file.specs.declared.fault.FileFault.{FileFault as Unopened};
ghost use Rattle.mds_book.specs.Books.{IsSeatCount};
ghost use Rattle.mds_follow.specs.Reading.{IsAtFirstRequest};
ghost use Rattle.mds_follow.specs.Restart.{BeginsOver};
ghost use Rattle.mds_pool.specs.Serving.{Fits, names_of};
ghost use Rattle.mds_commands.specs.Change.{change_of};
ghost use Rattle.mds_city.specs.Outcome.{outcome_of};
ghost use Rattle.mds_city.specs.Journal.{CameToServeOver, HadJournal, IsFileProblem, IsJournalStop, IsListenProblem, IsServeTold, IsServingProblem, IsStartProblem, IsStopProblem};
ghost use Rattle.mds_city.specs.Journal.{ServedBook, ServedOver, StopsBook, StopsOver};

use crate::figures::prepare;
use crate::page::{ListeningLine, print_line};
use crate::serve::{ListenFault, Listens, ServeOptions, say_accepted};
use crate::start_room::StartRoom;
use mds_book::{NamedLedger, Packed};
use mds_commands::{JournalProblem, Problem, Source, Status, tables_in, tell_journal_problem};
use mds_file::FileFault;
use mds_follow::{Aside, Disk, RecordLog, RequestReader, StartFault};
use mds_io::{MAX_CALLS, PrintError, write_all_of};
use mds_journal::Device;
use mds_log::BlankLog;
use mds_pool::{Alarm, Held, NewBook, RecordedBook, RecordedStop, Stop};
use mds_table::Tables;
use std::alloc::{AllocError, Global};
use std::hash::RandomState;
use std::io::{Read, Write};
use std::marker::Brand;
use std::random::RandomSource;
use std::sync::Wait;
use std::sync::atomic::{AtomicBool, Ordering};
use std::thread::Threads;

/// What opens the journal of a server.
pub trait OpensJournals {
    /// An open journal, which no other process has.
    type Journal: Device + Drop + Send;

    // what may come of opening the journal of this path
    ghost opens_journal: { Self → List ℕ → Result Self.Journal Unopened → Type 0 } = { λ _ _ _. ⊤ };

    /// Opens the journal of this path, or makes the file.
    ///
    /// # Errors
    ///
    /// [`FileFault`] says when each comes. Nothing of the file was changed.
    fn open_journal(&self, path: &str) -> Result<Self::Journal, FileFault>
        ensures opened { opens_journal self.now path.now result }
        ensures usable { IfOk result Self.Journal.may_be_used };

    /// Tells whoever runs the server, in one line, that what was accepted can't be written to the journal.
    fn tell_not_kept(&self);

    /// Hears what the journal told at the start, if figures are told.
    fn tell_held(&self, _held: Held) {}
}

/// Where a server puts what is cut off a journal.
pub trait PutsAside {
    /// Where bytes go that are cut off.
    type Cuttings: Aside + Drop;

    /// Where bytes go that are cut off the journal of this path: a new file, whose path is that one with `.cut` behind it, or also a
    /// number, where files stand there already. It tells whoever runs the server how many they are.
    ///
    /// # Errors
    ///
    /// `AllocError` where there is no memory for its path.
    fn aside(&self, alloc: Global, path: &str) -> Result<Self::Cuttings, AllocError>;
}

/// Tells of the first write that fails, and of no other, while a server runs.
#[derive(Drop)]
struct FirstFailure<'a, H: OpensJournals> {
    host: &'a H,
    is_told: AtomicBool,
    room: StartRoom,
}

impl<H: OpensJournals> Alarm for FirstFailure<'_, H> {
    fn tell_not_kept(&self) {
        if !self.is_told.swap(true, Ordering::SeqCst) {
            self.host.tell_not_kept();
        }
    }
}

/// Why a server over a journal ended before its end.
#[derive(Clone, Copy, Debug)]
pub(crate) enum ServeProblem<'a> {
    /// Another process has the journal.
    InUse,
    /// What was accepted isn't all recorded, or that stays open.
    NotRecorded,
    /// What may hinder other commands over a journal too.
    Journal(JournalProblem<'a>),
}

impl<'a> From<Problem<'a>> for ServeProblem<'a> {
    ghost use Rattle.std.specs.Prelude.{◌≡◌};
    ghost use Rattle.mds_commands.specs.declared.vehicles.problem.JournalProblem.TheVariants as journal;
    ghost use Rattle.mds_city.specs.declared.journal.ServeProblem.TheVariants.{Journal};

    ghost from_gives = { λ problem more. more ≡ Journal (journal.Other problem) };

    fn from(problem: Problem<'a>) -> Self {
        ServeProblem::Journal(JournalProblem::Other(problem))
    }
}

/// Why a book over a journal wasn't served to its end.
#[derive(Clone, Copy, Debug, PartialEq, Eq)]
pub(crate) enum BookStop {
    /// It wasn't opened.
    Start(StartFault),
    /// Nothing listens at the port.
    Listen(ListenFault),
    /// The line that says where it listens could not be printed.
    Print(PrintError),
    /// It was served, and stopped.
    Serve(RecordedStop),
}

/// Serves vehicles over a journal, and over the tables of a table file, or where none is given over the profile's, at a port of
/// the host. The book holds what the journal tells; then it prints where it listens. No answer goes out before all stands in
/// the journal that it rests on. At the end it prints how many requests the book holds. It answers the status that the program
/// ends with; a problem is told to `faults` in one line.
pub fn serve_over<
    R: Threads + Wait + RandomSource + Copy + Send + Sync + 'static,
    H: Listens + OpensJournals + PutsAside + Sync,
    T: Read + Drop,
    W: Write,
    E: Write,
>(
    rt: &R,
    alloc: Global,
    host: &H,
    table: Option<Source<'_, T>>,
    path: &str,
    asked: ServeOptions,
    out: &mut W,
    faults: &mut E,
) -> Status
    requires { IsSeatCount asked.workers }
    ensures { CameToServeOver
        (record { listens = H.listens host.now; opens_journal = H.opens_journal host.now })
        (record { bytes = T.remaining; file = table.entry }) path.now asked
        (outcome_of result
        (change_of (W.contents out.old) (W.contents out.new))
        (change_of (E.contents faults.old) (E.contents faults.new))) }
{
    // What listens is kept until it is told how serving ended: answers leave until it is let go.
    let (accepted, _listening) = match serve_to_end(rt, alloc, host, table, path, asked, out) {
        Ok(served) => served,
        Err((problem, _listening)) => return tell_serve_problem(alloc, faults, problem),
    };
    say_accepted(alloc, accepted, out, faults)
}

/// Serves as [`serve_over`], up to its end: how many requests the book holds then, or the problem; and what listened, if it came to
/// that, by which answers leave still.
fn serve_to_end<
    'a,
    R: Threads + Wait + RandomSource + Copy + Send + Sync + 'static,
    H: Listens + OpensJournals + PutsAside + Sync,
    T: Read + Drop,
    W: Write,
>(
    rt: &R,
    alloc: Global,
    host: &H,
    table: Option<Source<'a, T>>,
    path: &'a str,
    asked: ServeOptions,
    out: &mut W,
) -> Result<(u128, H::Listening), (ServeProblem<'a>, Option<H::Listening>)>
    requires { IsSeatCount asked.workers }
    ensures ok { IfOk result (λ served. ServedOver
        (record { listens = H.listens host.now; opens_journal = H.opens_journal host.now })
        (record { bytes = T.remaining; file = table.entry }) path.now asked
        (change_of (W.contents out.old) (W.contents out.new)) served.0) }
    ensures err { IfErr result (λ stopped. StopsOver
        (record { listens = H.listens host.now; opens_journal = H.opens_journal host.now })
        (record { bytes = T.remaining; file = table.entry }) path.now asked
        (change_of (W.contents out.old) (W.contents out.new)) stopped.0) }
{
    let tables = match tables_in(alloc, table) {
        Ok(tables) => tables,
        Err(problem) => return Err((ServeProblem::from(problem), None)),
    };
    let (Ok(first), Ok(second)) = (RandomState::new(rt), RandomState::new(rt)) else {
        return Err((ServeProblem::from(Problem::Random), None));
    };
    match prepare(rt, alloc, host, asked) {
        Ok(()) => {}
        Err(fault) => return Err((problem_of_listening(fault), None)),
    }
    let reader = match open_reader(alloc, host, path) {
        Ok(reader) => reader,
        Err(problem) => return Err((problem, None)),
    };
    let hashers = [first, second];
    match serve_opened(rt, alloc, host, &tables, hashers, path, reader, asked, out) {
        Ok(served) => Ok(served),
        Err((stop, listening)) => Err((problem_of_stop(path, stop), listening)),
    }
}

/// The journal of this path, to be read from its first request on.
fn open_reader<'a, H: OpensJournals>(
    alloc: Global,
    host: &H,
    path: &'a str,
) -> Result<RequestReader<H::Journal>, ServeProblem<'a>>
    ensures ok { IfOk result (λ reader.
        IsAtFirstRequest H.Journal.seen H.Journal.may_leave H.Journal.may_be_used H.Journal.is_true
        reader) }
    ensures had { IfOk result (λ _. HadJournal (H.opens_journal host.now) path.now) }
    ensures err { IfErr result (IsJournalStop (H.opens_journal host.now) path.now) }
{
    let file = match host.open_journal(path) {
        Ok(file) => file,
        Err(fault) => return Err(problem_of_file(path, fault)),
    };
    match RequestReader::open(alloc, file) {
        Ok(reader) => Ok(reader),
        Err((fault, _file)) => Err(problem_of_start(path, fault)),
    }
}

/// Serves as [`serve_over`], over the journal of this path, which was opened. Where a group was cut off that the tables refuse, it
/// starts once more, over the same file, which stays locked.
fn serve_opened<R: Threads + Wait + Sync, H: Listens + OpensJournals + PutsAside + Sync, W: Write>(
    rt: &R,
    alloc: Global,
    host: &H,
    tables: &Tables,
    hashers: [RandomState; 2],
    path: &str,
    reader: RequestReader<H::Journal>,
    asked: ServeOptions,
    out: &mut W,
) -> Result<(u128, H::Listening), (BookStop, Option<H::Listening>)>
    requires seats { IsSeatCount asked.workers }
    requires at_first { IsAtFirstRequest H.Journal.seen H.Journal.may_leave H.Journal.may_be_used
        H.Journal.is_true reader }
    ensures ok { IfOk result (λ served. ServedBook (H.listens host.now asked.port)
        tables.now asked.workers asked.each
        (change_of (W.contents out.old) (W.contents out.new)) served.0) }
    ensures err { IfErr result (λ stopped. StopsBook (H.listens host.now asked.port)
        (change_of (W.contents out.old) (W.contents out.new)) stopped.0) }
{
    let mut aside = match host.aside(alloc, path) {
        Ok(aside) => aside,
        Err(AllocError) => return Err((BookStop::Start(StartFault::Memory), None)),
    };
    let (stop, listening, file) = match serve_new(
        rt, alloc, host, tables, hashers, reader, &mut aside, asked, out,
    ) {
        Ok(served) => return Ok(served),
        Err(ended) => ended,
    };
    let Some(file) = file else {
        return Err((stop, listening));
    };
    let reader = match RequestReader::open(alloc, file) {
        Ok(reader) => reader,
        Err((fault, _file)) => return Err((BookStop::Start(fault), None)),
    };
    match serve_new(
        rt, alloc, host, tables, hashers, reader, &mut aside, asked, out,
    ) {
        Ok(served) => Ok(served),
        Err((stop, listening, _file)) => Err((stop, listening)),
    }
}

/// Serves a new book over these tables, as [`serve_reader`].
fn serve_new<R: Threads + Wait + Sync, H: Listens + OpensJournals + Sync, A: Aside, W: Write>(
    rt: &R,
    alloc: Global,
    host: &H,
    tables: &Tables,
    hashers: [RandomState; 2],
    reader: RequestReader<H::Journal>,
    aside: &mut A,
    asked: ServeOptions,
    out: &mut W,
) -> Result<(u128, H::Listening), (BookStop, Option<H::Listening>, Option<H::Journal>)>
    requires seats { IsSeatCount asked.workers }
    requires at_first { IsAtFirstRequest H.Journal.seen H.Journal.may_leave H.Journal.may_be_used
        H.Journal.is_true reader }
    ensures ok { IfOk result (λ served. ServedBook (H.listens host.now asked.port)
        tables.now asked.workers asked.each
        (change_of (W.contents out.old) (W.contents out.new)) served.0) }
    ensures err { IfErr result (λ stopped. StopsBook (H.listens host.now asked.port)
        (change_of (W.contents out.old) (W.contents out.new)) stopped.0) }
    ensures again { IfErr result (λ stopped. MatchOption stopped.2 ⊤ H.Journal.may_be_used) }
    ensures silent { IfErr result (λ stopped. IsSome stopped.2
        → W.contents out.new ≡ W.contents out.old) }
{
    let copied = match tables.copy(alloc) {
        Ok(copied) => copied,
        Err(AllocError) => return Err((BookStop::Start(StartFault::Memory), None, None)),
    };
    let opening = NewBook::of(copied, asked.workers, hashers);
    let log = BlankLog::new();
    serve_reader::<R, H, Brand, Brand, Brand, A, W>(
        rt, alloc, host, opening, reader, log, aside, asked, out,
    )
}

/// Opens a book over the journal, which keeps what it has packed, prints where it listens, and serves: how many requests the book
/// holds at the end, or why it wasn't served to that; and what listened, if a connection could come of it. Where a group was cut
/// off that the tables refuse, the file comes back, over which the start is to be done again.
fn serve_reader<
    R: Threads + Wait + Sync,
    H: Listens + OpensJournals + Sync,
    L: NamedLedger + Send + Sync,
    M: NamedLedger + Send + Sync,
    J: RecordLog + Send + Sync,
    A: Aside,
    W: Write,
>(
    rt: &R,
    alloc: Global,
    host: &H,
    opening: NewBook,
    reader: RequestReader<H::Journal>,
    log: BlankLog,
    aside: &mut A,
    asked: ServeOptions,
    out: &mut W,
) -> Result<(u128, H::Listening), (BookStop, Option<H::Listening>, Option<H::Journal>)>
    requires fits { Fits (names_of L.name L.parts L.log L.marks L.tables)
        (names_of M.name M.parts M.log M.marks M.tables) opening }
    requires at_first { IsAtFirstRequest H.Journal.seen H.Journal.may_leave H.Journal.may_be_used
        H.Journal.is_true reader }
    requires log { log ≡ J.log }
    requires begins { BeginsOver J.start J.held (H.Journal.moment reader.opening.device)
        (H.Journal.seen reader.opening.device) }
    ensures ok { IfOk result (λ served. ServedBook (H.listens host.now asked.port)
        opening.tables opening.seats asked.each
        (change_of (W.contents out.old) (W.contents out.new)) served.0) }
    ensures err { IfErr result (λ stopped. StopsBook (H.listens host.now asked.port)
        (change_of (W.contents out.old) (W.contents out.new)) stopped.0) }
    ensures again { IfErr result (λ stopped. MatchOption stopped.2 ⊤ H.Journal.may_be_used) }
    ensures silent { IfErr result (λ stopped. IsSome stopped.2
        → W.contents out.new ≡ W.contents out.old) }
{
    let book = match open_recorded::<R, H, L, M, J, A>(
        rt, alloc, host, opening, reader, log, aside, asked,
    ) {
        Ok(book) => book,
        Err((fault, file)) => return Err((BookStop::Start(fault), None, file)),
    };
    let room = match StartRoom::beside(alloc, asked.workers) {
        Ok(room) => room,
        Err(AllocError) => return Err((BookStop::Start(StartFault::Memory), None, None)),
    };
    let (listening, port) = match host.listen(alloc, asked.port) {
        Ok(had) => had,
        Err(fault) => return Err((BookStop::Listen(fault), None, None)),
    };
    match print_line(alloc, out, &ListeningLine { port }) {
        Ok(()) => {}
        Err(fault) => return Err((BookStop::Print(fault), None, None)),
    }
    let alarm = FirstFailure {
        host,
        is_told: AtomicBool::new(false),
        room,
    };
    match book.serve(rt, alloc, &listening, asked.each, &alarm) {
        Ok(end) => Ok((end.book.settled.accepted(), listening)),
        Err(stop) => Err((BookStop::Serve(stop), Some(listening), None)),
    }
}

/// Opens a book over the journal, and records in it what the book holds of a group that no gate opened. Where a group was cut off
/// that the tables refuse, the file comes back.
fn open_recorded<
    R: Threads + Wait + Sync,
    H: Listens + OpensJournals + Sync,
    L: NamedLedger + Send + Sync,
    M: NamedLedger + Send + Sync,
    J: RecordLog + Send + Sync,
    A: Aside,
>(
    rt: &R,
    alloc: Global,
    host: &H,
    opening: NewBook,
    reader: RequestReader<H::Journal>,
    log: BlankLog,
    aside: &mut A,
    asked: ServeOptions,
) -> Result<
    RecordedBook<Disk<H::Journal>, Packed<L>, Packed<M>, J>,
    (StartFault, Option<H::Journal>),
>
    requires fits { Fits (names_of L.name L.parts L.log L.marks L.tables)
        (names_of M.name M.parts M.log M.marks M.tables) opening }
    requires at_first { IsAtFirstRequest H.Journal.seen H.Journal.may_leave H.Journal.may_be_used
        H.Journal.is_true reader }
    requires log { log ≡ J.log }
    requires begins { BeginsOver J.start J.held (H.Journal.moment reader.opening.device)
        (H.Journal.seen reader.opening.device) }
    ensures opened { IfOk result (λ own. (own.tables ≡ opening.tables)
        × (own.seats ≡ opening.seats)) }
    ensures again { IfErr result (λ error. MatchOption error.1 ⊤ H.Journal.may_be_used) }
{
    let mut book = match RecordedBook::<Disk<H::Journal>, Packed<L>, Packed<M>, J>::open(
        rt, alloc, opening, reader, log, aside,
    ) {
        Ok(book) => book,
        Err((StartFault::CutOff, file)) => return Err((StartFault::CutOff, Some(file))),
        Err((fault, _file)) => return Err((fault, None)),
    };
    match book.record_all(rt) {
        Ok(()) => {}
        Err(fault) => return Err((StartFault::from(fault), None)),
    }
    if asked.metrics.is_some() {
        match book.held(rt, alloc) {
            Ok(held) => host.tell_held(held),
            Err(AllocError) => return Err((StartFault::Memory, None)),
        }
    }
    Ok(book)
}

fn problem_of_file<'a>(path: &'a str, fault: FileFault) -> ServeProblem<'a>
    ensures { IsFileProblem path.now fault result }
{
    match fault {
        FileFault::CannotRead => ServeProblem::from(Problem::CannotRead(path)),
        FileFault::InUse => ServeProblem::InUse,
        FileFault::Memory => ServeProblem::from(Problem::Memory),
    }
}

fn problem_of_start<'a>(path: &'a str, fault: StartFault) -> ServeProblem<'a>
    ensures { IsStartProblem path.now fault result }
{
    match fault {
        StartFault::Memory => ServeProblem::from(Problem::Memory),
        StartFault::Device | StartFault::Shared | StartFault::CutOff => {
            ServeProblem::from(Problem::CannotRead(path))
        }
        StartFault::Journal(fault) => ServeProblem::Journal(JournalProblem::from(fault)),
    }
}

fn problem_of_stop<'a>(path: &'a str, stop: BookStop) -> ServeProblem<'a>
    ensures { IsStopProblem path.now stop result }
{
    match stop {
        BookStop::Start(fault) => problem_of_start(path, fault),
        BookStop::Listen(fault) => problem_of_listening(fault),
        BookStop::Print(fault) => ServeProblem::from(Problem::from(fault)),
        BookStop::Serve(stop) => problem_of_serving(stop),
    }
}

fn problem_of_listening<'a>(fault: ListenFault) -> ServeProblem<'a>
    ensures { IsListenProblem fault result }
{
    match fault {
        ListenFault::Refused => ServeProblem::from(Problem::Socket),
        ListenFault::Memory => ServeProblem::from(Problem::Memory),
    }
}

fn problem_of_serving<'a>(stop: RecordedStop) -> ServeProblem<'a>
    ensures { IsServingProblem stop result }
{
    let stop = match stop {
        RecordedStop::Journal => return ServeProblem::NotRecorded,
        RecordedStop::Serve(stop) => stop,
    };
    match stop {
        Stop::Memory => ServeProblem::from(Problem::Memory),
        Stop::Accept => ServeProblem::from(Problem::Socket),
    }
}

/// Tells the problem in one line, and answers its status. Where there is no memory to lay the line out, the problem that is
/// told is that. Where the writer fails the status stays.
fn tell_serve_problem<E: Write>(alloc: Global, faults: &mut E, problem: ServeProblem<'_>) -> Status
    ensures { IsServeTold problem.entry result
        (change_of (E.contents faults.old) (E.contents faults.new))
        ⊎ IsServeTold (ServeProblem.Journal (JournalProblem.Other Problem.Memory)) result
        (change_of (E.contents faults.old) (E.contents faults.new)) }
{
    let mut calls = MAX_CALLS;
    match problem {
        ServeProblem::InUse => {
            let _ = write_all_of(faults, b"mds_city: journal in use\n", &mut calls);
            Status::Fault
        }
        ServeProblem::NotRecorded => {
            let _ = write_all_of(faults, b"mds_city: journal\n", &mut calls);
            Status::Fault
        }
        ServeProblem::Journal(problem) => tell_journal_problem(alloc, faults, problem),
    }
}
