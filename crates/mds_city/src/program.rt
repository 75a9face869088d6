//! What the program does with the words of its command line, over any files and streams.
ghost use Rattle.std.specs.Prelude.{◌≡◌, ◌≢◌, ◌↔◌, ℕ, List, Option, ⊤, Err, codes, map, option_map, true, false, IsTrue, IfOk, IfErr, OnOk};
ghost use Rattle.std.specs.IoError.{error_kind};
ghost use Rattle.mds_args.specs.Error.{words_kind};
ghost use Rattle.mds_book.specs.Books.{IsSeatCount};
ghost use Rattle.mds_commands.specs.Change.{change_of};
ghost use Rattle.mds_commands.specs.Debug.{Debugs};
ghost use Rattle.mds_commands.specs.Files.{files_of};
ghost use Rattle.mds_commands.specs.Problem.{Tells};
ghost use Rattle.mds_io.specs.Page.{AppendsUpTo, with_newline};
ghost use Rattle.mds_trace.specs.WithFault.{IsWorkerCount};
ghost use Rattle.mds_city.specs.Outcome.{outcome_of};
ghost use Rattle.mds_city.specs.Program.{Carries, CarriesCompact, CarriesCuts, CarriesEvents, CarriesFollow, CarriesReplay, CarriesServe, CarriesVehicles, Explains, ExplainsJudged, HasWorkers, IsFileNamed, IsFileOf, IsGivenAgain, IsJudged, Runs};
ghost use Rattle.mds_city.specs.Program.{connections_each, first_kept, form_if, opening_if, options_of};

use crate::compact::{CompactAsked, MakesFiles, compact_to};
use crate::cuts::cuts_of;
use crate::follow::{FollowAsked, FollowsJournals, follow_to};
use crate::journal::{OpensJournals, PutsAside, serve_over};
use crate::serve::{Listens, ServeOptions, serve_at};
use mds_args::{Command, CutWords, WordsError, WordsErrorKind, parse_words};
use mds_commands::{
    Form, JournalProblem, Named, Problem, ReplayOptions, Source, Status, debug_live_to, debug_to,
    events_to, judge_journal, replay_to, replay_unlimited_to, table_to, tell, tell_debug,
    tell_journal_problem, vehicles_to,
};
use mds_io::{MAX_CALLS, write_all_of};
use mds_trace::Opening;
use std::alloc::Global;
use std::convert::AsStr;
use std::env::Args;
use std::io::{self, ErrorKind as ReadKind, Read, Write};
use std::random::RandomSource;
use std::sync::Wait;
use std::thread::Threads;

/// What opens files by their paths.
pub trait Opens {
    /// An open file.
    type File: Read + Drop;

    // what may come of opening the file of this path
    ghost opens: { Self → List ℕ → Option Self.File → Type 0 } = { λ _ _ _. ⊤ };

    /// Opens the file of this path, or answers `None` where it can't be opened.
    fn open(&self, path: &str) -> Option<Self::File>
        ensures { opens self.now path.now result };
}

/// Why the words of the command line can't be read.
#[derive(Clone, Copy, Debug, PartialEq, Eq)]
pub enum WordsFault {
    /// A word isn't text in UTF-8.
    NotText,
    /// There is no memory for them.
    Memory,
}

/// The words of the command line, of which the system gave these or none.
pub fn words_of(alloc: Global, args: io::Result<Args>) -> Result<Vec<String>, WordsFault>
    ensures not_text { IfErr args (λ error. error_kind error ≢ ReadKind.OutOfMemory
        → result ≡ Err WordsFault.NotText) }
    ensures memory { IfErr args (λ error. error_kind error ≡ ReadKind.OutOfMemory
        → result ≡ Err WordsFault.Memory) }
    ensures given { IfOk args (λ _. IfErr result (λ fault. fault ≡ WordsFault.Memory)) }
{
    match args {
        Ok(words) => words.collect(alloc).map_err(|_| WordsFault::Memory),
        Err(error) => Err(match error.kind() {
            ReadKind::OutOfMemory => WordsFault::Memory,
            _ => WordsFault::NotText,
        }),
    }
}

/// Tells why the words of the command line can't be read.
pub fn tell_words<E: Write>(alloc: Global, faults: &mut E, fault: WordsFault) -> Status
    ensures not_text { fault ≡ WordsFault.NotText → (result ≡ Status.BadWords)
        × AppendsUpTo (E.contents faults.old) (E.contents faults.new)
        (with_newline (codes "error: the words of the command line aren't text")) }
    ensures memory { fault ≡ WordsFault.Memory → (result ≡ Status.NoMemory)
        × Tells (E.contents faults.old) (E.contents faults.new) Problem.Memory }
{
    match fault {
        WordsFault::Memory => tell(alloc, faults, Problem::Memory),
        WordsFault::NotText => {
            let mut calls = MAX_CALLS;
            let _ = write_all_of(
                faults,
                b"error: the words of the command line aren't text\n",
                &mut calls,
            );
            Status::BadWords
        }
    }
}

/// Carries out what the words of the command line ask for, of which the first is the program's name, over these files and
/// streams, or says why they ask for nothing. It answers the status that the program ends with.
pub fn run<
    R: Threads + Wait + RandomSource + Copy + Send + Sync + 'static,
    S: AsStr,
    O: Opens + Listens + OpensJournals + PutsAside + MakesFiles + FollowsJournals + Sync,
    I: Read + Drop,
    W: Write,
    E: Write,
>(rt: &R, alloc: Global, words: &[S], files: &O, input: I, out: &mut W, faults: &mut E) -> Status
    ensures { Runs (record {
      opener = record { opens = O.opens files.now; bytes = O.File.remaining };
      maker = record {
        names = O.names_file files.now;
        may_stand = O.New.may_stand;
        is_true = O.New.is_true;
        keeps = O.New.keeps;
        is_taken = O.New.is_taken;
        is_over = O.New.is_over;
      };
    })
        (record {
          follows = O.follows files.now;
          content = O.Followed.content;
          is_all = O.Followed.is_all;
        })
        (record { listens = O.listens files.now; opens_journal = O.opens_journal files.now })
        (record { bytes = I.remaining; reader = input }) (map S.text words.now)
        (outcome_of result
        (change_of (W.contents out.old) (W.contents out.new))
        (change_of (E.contents faults.old) (E.contents faults.new))) }
{
    match parse_words(alloc, words) {
        Ok(command) => carry_out(rt, alloc, files, command, input, out, faults),
        Err(error) => explain(alloc, &error, out, faults),
    }
}

/// As [`run`], with a terminal as standard input: there the debugger answers each line as it comes.
pub fn run_at_terminal<
    R: Threads + Wait + RandomSource + Copy + Send + Sync + 'static,
    S: AsStr,
    O: Opens + Listens + OpensJournals + PutsAside + MakesFiles + FollowsJournals + Sync,
    I: Read + Drop,
    W: Write,
    E: Write,
>(rt: &R, alloc: Global, words: &[S], files: &O, input: I, out: &mut W, faults: &mut E) -> Status {
    if let Ok(
        Command::Debug {
            file,
            provider,
            device,
            table,
        },
    ) = parse_words(alloc, words)
    {
        let named = Named { provider, device };
        let table = file_if_named(files, table);
        let file = file_of(files, file);
        let mut script = input;
        return debug_live_to(alloc, table, file, named, &mut script, out, faults);
    }
    run(rt, alloc, words, files, input, out, faults)
}

/// Prints the help that was asked for to `out`, or tells `faults` why the words gave no command. Where `faults` fails the
/// status stays.
fn explain<W: Write, E: Write>(
    alloc: Global,
    error: &WordsError,
    out: &mut W,
    faults: &mut E,
) -> Status
    ensures { Explains (words_kind error.now)
        (outcome_of result
        (change_of (W.contents out.old) (W.contents out.new))
        (change_of (E.contents faults.old) (E.contents faults.new))) }
{
    match error.kind() {
        WordsErrorKind::Help => {
            if write!(out, "{error}").is_ok() {
                return Status::Done;
            }
            tell(alloc, faults, Problem::Output)
        }
        WordsErrorKind::Mistake => {
            let _ = write!(faults, "{error}");
            Status::BadWords
        }
        WordsErrorKind::Memory => tell(alloc, faults, Problem::Memory),
    }
}

/// Carries out a command over these files and streams, and answers the status that the program ends with. The file `-` of
/// a replay is `input`; the table file is one of its name, whatever that is.
fn carry_out<
    R: Threads + Wait + RandomSource + Copy + Send + Sync + 'static,
    O: Opens + Listens + OpensJournals + PutsAside + MakesFiles + FollowsJournals + Sync,
    I: Read + Drop,
    W: Write,
    E: Write,
>(
    rt: &R,
    alloc: Global,
    files: &O,
    command: Command<'_>,
    input: I,
    out: &mut W,
    faults: &mut E,
) -> Status
    requires { HasWorkers command }
    ensures { Carries (record {
      opener = record { opens = O.opens files.now; bytes = O.File.remaining };
      maker = record {
        names = O.names_file files.now;
        may_stand = O.New.may_stand;
        is_true = O.New.is_true;
        keeps = O.New.keeps;
        is_taken = O.New.is_taken;
        is_over = O.New.is_over;
      };
    })
        (record {
          follows = O.follows files.now;
          content = O.Followed.content;
          is_all = O.Followed.is_all;
        })
        (record { listens = O.listens files.now; opens_journal = O.opens_journal files.now })
        (record { bytes = I.remaining; reader = input }) command.entry
        (outcome_of result
        (change_of (W.contents out.old) (W.contents out.new))
        (change_of (E.contents faults.old) (E.contents faults.new))) }
{
    match command {
        Command::Serve {
            port,
            each,
            workers,
            table,
            journal,
            metrics,
        } => {
            let table = file_if_named(files, table);
            let asked = ServeOptions {
                port,
                workers,
                each: connections_each(each),
                metrics,
            };
            serve_named(rt, alloc, files, table, journal, asked, out, faults)
        }
        Command::Debug {
            file,
            provider,
            device,
            table,
        } => {
            let named = Named { provider, device };
            debug_file(alloc, files, file, table, named, input, out, faults)
        }
        Command::Table { table } => table_to(alloc, file_if_named(files, table), out, faults),
        Command::Replay {
            file,
            table,
            any,
            lines,
            unlimited,
            workers,
        } => {
            let options = options_of(any, lines, workers);
            replay_asked(
                rt, alloc, files, file, table, options, unlimited, input, out, faults,
            )
        }
        Command::Vehicles { file, table, check } => {
            list_vehicles(rt, alloc, files, file, table, check, input, out, faults)
        }
        Command::Compact {
            old,
            new,
            before,
            cuts,
            follow,
            table,
        } => {
            let before = first_kept(before);
            compact_asked(
                rt, alloc, files, old, new, before, &cuts, follow, table, out, faults,
            )
        }
        Command::Events {
            file,
            provider,
            device,
        } => {
            let named = Named { provider, device };
            print_events(alloc, files, file, named, input, out, faults)
        }
    }
}

/// Serves over the journal of this path, or over none.
fn serve_named<
    R: Threads + Wait + RandomSource + Copy + Send + Sync + 'static,
    O: Opens + Listens + OpensJournals + PutsAside + Sync,
    W: Write,
    E: Write,
>(
    rt: &R,
    alloc: Global,
    files: &O,
    table: Option<Source<'_, O::File>>,
    journal: Option<&str>,
    asked: ServeOptions,
    out: &mut W,
    faults: &mut E,
) -> Status
    requires { IsSeatCount asked.workers }
    ensures { CarriesServe
        (record { listens = O.listens files.now; opens_journal = O.opens_journal files.now })
        (record { bytes = O.File.remaining; file = table.entry })
        (option_map (λ named. named.now) journal.entry) asked
        (outcome_of result
        (change_of (W.contents out.old) (W.contents out.new))
        (change_of (E.contents faults.old) (E.contents faults.new))) }
{
    match journal {
        Some(path) => serve_over(rt, alloc, files, table, path, asked, out, faults),
        None => serve_at(rt, alloc, files, table, asked, out, faults),
    }
}

/// Replays the file of this path, within the limits of a batch or without them.
fn replay_asked<R: Threads + Sync, O: Opens, I: Read + Drop, W: Write, E: Write>(
    rt: &R,
    alloc: Global,
    files: &O,
    path: &str,
    table: Option<&str>,
    options: ReplayOptions,
    unlimited: bool,
    input: I,
    out: &mut W,
    faults: &mut E,
) -> Status
    requires { IsWorkerCount options.workers }
    ensures { unlimited ≡ false → (table_file : Option (Source O.File))
        × IsFileNamed (O.opens files.now) (option_map (λ named. named.now) table.entry) table_file
        × CarriesReplay (record { opens = O.opens files.now; bytes = O.File.remaining })
        (record { bytes = I.remaining; reader = input }) options path.now table_file
        (outcome_of result
        (change_of (W.contents out.old) (W.contents out.new))
        (change_of (E.contents faults.old) (E.contents faults.new))) }
{
    if unlimited {
        let opening = options.opening;
        return replay_unlimited(alloc, files, path, table, opening, input, out, faults);
    }
    replay_file(rt, alloc, files, path, table, options, input, out, faults)
}

/// Replays the file of this path, which is standard input for `-`, over the tables of the file that is named.
fn replay_file<R: Threads + Sync, O: Opens, I: Read + Drop, W: Write, E: Write>(
    rt: &R,
    alloc: Global,
    files: &O,
    path: &str,
    table: Option<&str>,
    options: ReplayOptions,
    input: I,
    out: &mut W,
    faults: &mut E,
) -> Status
    requires { IsWorkerCount options.workers }
    ensures { (table_file : Option (Source O.File))
        × IsFileNamed (O.opens files.now) (option_map (λ named. named.now) table.entry) table_file
        × CarriesReplay (record { opens = O.opens files.now; bytes = O.File.remaining })
        (record { bytes = I.remaining; reader = input }) options path.now table_file
        (outcome_of result
        (change_of (W.contents out.old) (W.contents out.new))
        (change_of (E.contents faults.old) (E.contents faults.new))) }
{
    let table = file_if_named(files, table);
    if is_standard_input(path) {
        let file = source_of(path, input);
        return replay_to(rt, alloc, table, file, options, out, faults);
    }
    replay_to(rt, alloc, table, file_of(files, path), options, out, faults)
}

/// Replays the lines of the file of this path, which is standard input for `-`, however many there are, over the tables of the
/// file that is named.
fn replay_unlimited<O: Opens, I: Read + Drop, W: Write, E: Write>(
    alloc: Global,
    files: &O,
    path: &str,
    table: Option<&str>,
    opening: Opening,
    input: I,
    out: &mut W,
    faults: &mut E,
) -> Status {
    let table = file_if_named(files, table);
    if is_standard_input(path) {
        let file = source_of(path, input);
        return replay_unlimited_to(alloc, table, file, opening, out, faults);
    }
    replay_unlimited_to(alloc, table, file_of(files, path), opening, out, faults)
}

/// Steps through the events of a vehicle in the file of this path, over the tables of the file that is named.
fn debug_file<O: Opens, I: Read + Drop, W: Write, E: Write>(
    alloc: Global,
    files: &O,
    path: &str,
    table: Option<&str>,
    named: Named<'_>,
    input: I,
    out: &mut W,
    faults: &mut E,
) -> Status
    ensures { (table_file : Option (Source O.File))
        × IsFileNamed (O.opens files.now) (option_map (λ named. named.now) table.entry) table_file
        × (events : Source O.File) × IsFileOf (O.opens files.now) path.now events
        × (input_new : Option (List ℕ))
        × Debugs (files_of O.File.remaining table_file O.File.remaining events) named.entry result
        (change_of (I.remaining input) input_new)
        (change_of (W.contents out.old) (W.contents out.new))
        (change_of (E.contents faults.old) (E.contents faults.new)) }
{
    let table = file_if_named(files, table);
    let file = file_of(files, path);
    let mut script = input;
    debug_to(alloc, table, file, named, &mut script, out, faults)
}

/// Lists the vehicles of the journal of this path, which is standard input for `-`, over the tables of the file that is named.
fn list_vehicles<R: RandomSource, O: Opens, I: Read + Drop, W: Write, E: Write>(
    rt: &R,
    alloc: Global,
    files: &O,
    path: &str,
    table: Option<&str>,
    check: bool,
    input: I,
    out: &mut W,
    faults: &mut E,
) -> Status
    ensures { (table_file : Option (Source O.File))
        × IsFileNamed (O.opens files.now) (option_map (λ named. named.now) table.entry) table_file
        × CarriesVehicles (record { opens = O.opens files.now; bytes = O.File.remaining })
        (record { bytes = I.remaining; reader = input }) path.now check table_file
        (outcome_of result
        (change_of (W.contents out.old) (W.contents out.new))
        (change_of (E.contents faults.old) (E.contents faults.new))) }
{
    let table = file_if_named(files, table);
    if is_standard_input(path) {
        let file = source_of(path, input);
        let again = input_again(path, check);
        return vehicles_to(rt, alloc, table, file, again, out, faults);
    }
    let again = file_again(files, path, check);
    vehicles_to(rt, alloc, table, file_of(files, path), again, out, faults)
}

/// Standard input can't be read again.
fn input_again<'a, R: Read + Drop>(path: &'a str, check: bool) -> Option<Source<'a, R>>
    ensures { IsGivenAgain (λ source. source.reader ≡ None) check result }
{
    if check {
        Some(Source { path, reader: None })
    } else {
        None
    }
}

fn file_again<'a, O: Opens>(files: &O, path: &'a str, check: bool) -> Option<Source<'a, O::File>>
    ensures { IsGivenAgain (IsFileOf (O.opens files.now) path.now) check result }
{
    if check {
        Some(file_of(files, path))
    } else {
        None
    }
}

/// Makes a new journal of an old one, beside a server or not.
fn compact_asked<
    R: Wait + RandomSource,
    O: Opens + MakesFiles + FollowsJournals,
    W: Write,
    E: Write,
>(
    rt: &R,
    alloc: Global,
    files: &O,
    old: &str,
    new: &str,
    before: u64,
    words: &[CutWords<'_>],
    follow: bool,
    table: Option<&str>,
    out: &mut W,
    faults: &mut E,
) -> Status
    ensures cut { follow ≡ false → CarriesCuts (record {
      opener = record { opens = O.opens files.now; bytes = O.File.remaining };
      maker = record {
        names = O.names_file files.now;
        may_stand = O.New.may_stand;
        is_true = O.New.is_true;
        keeps = O.New.keeps;
        is_taken = O.New.is_taken;
        is_over = O.New.is_over;
      };
    })
        (option_map (λ named. named.now) table.entry)
        (record { old = old.entry; new = new.entry; before = before; words = words.now })
        (outcome_of result
        (change_of (W.contents out.old) (W.contents out.new))
        (change_of (E.contents faults.old) (E.contents faults.new))) }
    ensures beside { follow ≡ true → CarriesFollow (record {
      opener = record { opens = O.opens files.now; bytes = O.File.remaining };
      maker = record {
        names = O.names_file files.now;
        may_stand = O.New.may_stand;
        is_true = O.New.is_true;
        keeps = O.New.keeps;
        is_taken = O.New.is_taken;
        is_over = O.New.is_over;
      };
    })
        (record {
          follows = O.follows files.now;
          content = O.Followed.content;
          is_all = O.Followed.is_all;
        })
        (option_map (λ named. named.now) table.entry)
        (record { old = old.entry; new = new.entry; before = before })
        (outcome_of result
        (change_of (W.contents out.old) (W.contents out.new))
        (change_of (E.contents faults.old) (E.contents faults.new))) }
{
    if follow {
        let asked = FollowAsked { old, new, before };
        return follow_judged(rt, alloc, files, asked, table, out, faults);
    }
    compact_cut(
        rt, alloc, files, old, new, before, words, table, out, faults,
    )
}

/// Makes a new journal of an old one beside a server. Where a table file is named, the old one is judged by its tables first.
fn follow_judged<
    R: Wait + RandomSource,
    O: Opens + MakesFiles + FollowsJournals,
    W: Write,
    E: Write,
>(
    rt: &R,
    alloc: Global,
    files: &O,
    asked: FollowAsked<'_>,
    table: Option<&str>,
    out: &mut W,
    faults: &mut E,
) -> Status
    ensures { CarriesFollow (record {
      opener = record { opens = O.opens files.now; bytes = O.File.remaining };
      maker = record {
        names = O.names_file files.now;
        may_stand = O.New.may_stand;
        is_true = O.New.is_true;
        keeps = O.New.keeps;
        is_taken = O.New.is_taken;
        is_over = O.New.is_over;
      };
    })
        (record {
          follows = O.follows files.now;
          content = O.Followed.content;
          is_all = O.Followed.is_all;
        })
        (option_map (λ named. named.now) table.entry) asked.entry
        (outcome_of result
        (change_of (W.contents out.old) (W.contents out.new))
        (change_of (E.contents faults.old) (E.contents faults.new))) }
{
    match judge_if_named(rt, alloc, files, table, asked.old) {
        Ok(()) => follow_to(rt, alloc, files, asked, out, faults),
        Err(problem) => tell_journal_problem(alloc, faults, problem),
    }
}

/// Makes a new journal of an old one, with these cuts and an event's time from which on all stay that the cuts leave.
fn compact_cut<R: RandomSource, O: Opens + MakesFiles, W: Write, E: Write>(
    rt: &R,
    alloc: Global,
    files: &O,
    old: &str,
    new: &str,
    before: u64,
    words: &[CutWords<'_>],
    table: Option<&str>,
    out: &mut W,
    faults: &mut E,
) -> Status
    ensures { CarriesCuts (record {
      opener = record { opens = O.opens files.now; bytes = O.File.remaining };
      maker = record {
        names = O.names_file files.now;
        may_stand = O.New.may_stand;
        is_true = O.New.is_true;
        keeps = O.New.keeps;
        is_taken = O.New.is_taken;
        is_over = O.New.is_over;
      };
    })
        (option_map (λ named. named.now) table.entry)
        (record { old = old.entry; new = new.entry; before = before; words = words.now })
        (outcome_of result
        (change_of (W.contents out.old) (W.contents out.new))
        (change_of (E.contents faults.old) (E.contents faults.new))) }
{
    match cuts_of(alloc, words) {
        Ok(cuts) => {
            let asked = CompactAsked {
                old,
                new,
                before,
                cuts: &cuts,
            };
            compact_judged(rt, alloc, files, asked, table, out, faults)
        }
        Err(problem) => tell_debug(alloc, faults, problem),
    }
}

/// Where no time is given all events stay that the cuts leave: none is of a time before this one.
fn first_kept(before: Option<u64>) -> u64
    ensures { result ≡ first_kept before }
{
    before.unwrap_or(0)
}

/// Makes a new journal of an old one. Where a table file is named, the old one is judged by its tables first.
fn compact_judged<R: RandomSource, O: Opens + MakesFiles, W: Write, E: Write>(
    rt: &R,
    alloc: Global,
    files: &O,
    asked: CompactAsked<'_>,
    table: Option<&str>,
    out: &mut W,
    faults: &mut E,
) -> Status
    ensures { CarriesCompact (record {
      opener = record { opens = O.opens files.now; bytes = O.File.remaining };
      maker = record {
        names = O.names_file files.now;
        may_stand = O.New.may_stand;
        is_true = O.New.is_true;
        keeps = O.New.keeps;
        is_taken = O.New.is_taken;
        is_over = O.New.is_over;
      };
    })
        (option_map (λ named. named.now) table.entry) asked.entry
        (outcome_of result
        (change_of (W.contents out.old) (W.contents out.new))
        (change_of (E.contents faults.old) (E.contents faults.new))) }
{
    match judge_if_named(rt, alloc, files, table, asked.old) {
        Ok(()) => compact_to(rt, alloc, files, asked, out, faults),
        Err(problem) => tell_journal_problem(alloc, faults, problem),
    }
}

/// Judges the journal of this path by the tables of the file that is named, if one is.
fn judge_if_named<'a, R: RandomSource, O: Opens>(
    rt: &R,
    alloc: Global,
    files: &O,
    table: Option<&'a str>,
    old: &'a str,
) -> Result<(), JournalProblem<'a>>
    ensures ok { OnOk result
        (IsJudged (record { opens = O.opens files.now; bytes = O.File.remaining })
        (option_map (λ named. named.now) table.entry) old.now) }
    ensures err { IfErr result
        (ExplainsJudged (record { opens = O.opens files.now; bytes = O.File.remaining })
        (option_map (λ named. named.now) table.entry) old.now) }
{
    let table = file_if_named(files, table);
    if table.is_none() {
        return Ok(());
    }
    judge_journal(rt, alloc, table, file_of(files, old))
}

/// Prints the lines of a vehicle's events in the journal of this path, which is standard input for `-`.
fn print_events<O: Opens, I: Read + Drop, W: Write, E: Write>(
    alloc: Global,
    files: &O,
    path: &str,
    named: Named<'_>,
    input: I,
    out: &mut W,
    faults: &mut E,
) -> Status
    ensures { CarriesEvents (record { opens = O.opens files.now; bytes = O.File.remaining })
        (record { bytes = I.remaining; reader = input }) path.now named.entry
        (outcome_of result
        (change_of (W.contents out.old) (W.contents out.new))
        (change_of (E.contents faults.old) (E.contents faults.new))) }
{
    if is_standard_input(path) {
        let file = source_of(path, input);
        return events_to(alloc, file, named, out, faults);
    }
    events_to(alloc, file_of(files, path), named, out, faults)
}

fn options_of(any: bool, lines: bool, workers: usize) -> ReplayOptions
    ensures { result ≡ options_of any lines workers }
{
    ReplayOptions {
        opening: opening_if(any),
        form: form_if(lines),
        workers,
    }
}

fn opening_if(any: bool) -> Opening
    ensures { result ≡ opening_if any }
{
    if any { Opening::Any } else { Opening::Removed }
}

/// Where a worker goes on until the process is stopped, that is as many connections as can be counted: more than ever come.
fn connections_each(each: Option<usize>) -> usize
    ensures { result ≡ connections_each each }
{
    match each {
        Some(each) => each,
        None => usize::MAX,
    }
}

fn form_if(lines: bool) -> Form
    ensures { result ≡ form_if lines }
{
    if lines { Form::Lines } else { Form::Batch }
}

fn is_standard_input(file: &str) -> bool
    ensures { IsTrue result ↔ (file.now ≡ codes "-") }
{
    file == "-"
}

fn source_of<'a, R: Read + Drop>(path: &'a str, reader: R) -> Source<'a, R>
    ensures path { result.path.now ≡ path.now }
    ensures reader { result.reader ≡ Some reader }
{
    Source {
        path,
        reader: Some(reader),
    }
}

fn file_if_named<'a, O: Opens>(files: &O, path: Option<&'a str>) -> Option<Source<'a, O::File>>
    ensures { IsFileNamed (O.opens files.now) (option_map (λ named. named.now) path.entry) result }
{
    Some(file_of(files, path?))
}

fn file_of<'a, O: Opens>(files: &O, path: &'a str) -> Source<'a, O::File>
    ensures { IsFileOf (O.opens files.now) path.now result }
{
    Source {
        path,
        reader: files.open(path),
    }
}
