//! The words of the command line, read by `clap`.
ghost use Rattle.std.specs.Prelude.{◌≡◌, ◌≢◌, ◌↔◌, ◌<◌, ◌^◌, ◌∷◌, [], None, Some, true, false};
ghost use Rattle.std.specs.Prelude.{codes, map, IsTrue, IfOk, IfErr, MatchOption};
ghost use Rattle.clap.specs.Words.{App, app_of, fault_of, first_of, found_of, kind_of, new_app, new_rule, rows_of, rule_of, subcommand_of, subcommand_rows_of, takes, with_rule, with_subcommand};
ghost use Rattle.mds_args.specs.Error.{HasCause, IsCause, SaysMissing, missing_kind, words_kind};
ghost use Rattle.mds_args.specs.Words.{Asks, AsksNothing, IsAskedBy, AreTaken, HasNoNumber, HasValues, IsEach, IsMetrics, IsNumber, IsTold, HasCuts, IsBefore, IsSet, LacksBefore, LacksEach, LacksFileOrWorkers, LacksMetrics, LacksNumber, LacksOneOf};
ghost use Rattle.mds_args.specs.Words.{name_of, before_rule, compact_app, cut_rule, debug_app, each_rule, events_app, flag_rule, long_rule, max_each, max_port, max_time, max_workers, needed_number_rule, number_rule, option_rule, program_app, replay_app, journal_rule, metrics_rule, serve_app, table_app, table_rule, vehicles_app, word_rule, workers_rule};

use crate::VERSION;
use crate::cuts::{CutWords, cuts_of};
use crate::error::{WordsError, WordsErrorKind};
use clap::builder::ValueParser;
use clap::error::ErrorKind;
use clap::{Arg, ArgAction, ArgMatches, Error};
use std::alloc::{AllocError, Global};
use std::convert::AsStr;

/// What the command line asks for.
#[derive(Debug, PartialEq, Eq, Drop)]
pub enum Command<'a> {
    /// Serve vehicles over HTTP, at an address of this machine.
    Serve {
        /// The number of the port, or 0 for a free one.
        port: u16,
        /// How many connections each worker answers, or `None` where it goes on until the process is stopped.
        each: Option<usize>,
        /// How many workers there are, 1 to 64.
        workers: usize,
        /// As for `Replay`.
        table: Option<&'a str>,
        /// The path of the journal in which what is accepted is recorded, or `None`: then all that is known ends with the
        /// process. Here `-` is a file of that name.
        journal: Option<&'a str>,
        /// The number of the port at which figures are told, or `None`: then none are.
        metrics: Option<u16>,
    },
    /// Replay the events of a file.
    Replay {
        /// The file's path, or `-` for standard input.
        file: &'a str,
        /// The path of a file with a table of transitions, or with several and their times; or `None`
        /// for the profile's table. Here `-` is a file of that name.
        table: Option<&'a str>,
        /// Whether a vehicle may hold any state before its first event.
        any: bool,
        /// Whether each line of the file is an item; else the file is one batch of them.
        lines: bool,
        /// Whether lines are taken without the limits of a batch. It is so of lines alone.
        unlimited: bool,
        /// How many workers share the replay of a batch, 1 to 64.
        workers: usize,
    },
    /// Step through the accepted events of a vehicle.
    Debug {
        /// The path of a file of events. Here `-` is a file of that name.
        file: &'a str,
        /// The vehicle's provider, as it was written.
        provider: &'a str,
        /// The vehicle's device, as it was written.
        device: &'a str,
        /// As for `Replay`.
        table: Option<&'a str>,
    },
    /// Print the table of transitions, or each of several.
    Table {
        /// As for `Replay`.
        table: Option<&'a str>,
    },
    /// List the vehicles of a journal.
    Vehicles {
        /// The file's path, or `-` for standard input.
        file: &'a str,
        /// As for `Replay`.
        table: Option<&'a str>,
        /// Whether it's also told how many lines the journal has, and how many groups of requests.
        check: bool,
    },
    /// Make a new journal of an old one, without those of its old events that no state needs, and without those that cuts name.
    Compact {
        /// The path of the old journal. Here `-` is a file of that name.
        old: &'a str,
        /// The path of the new one. Here `-` is a file of that name.
        new: &'a str,
        /// The time, in milliseconds since the Unix epoch, before which events are old, or `None`: then none are, and there is a
        /// cut.
        before: Option<u64>,
        /// The vehicles of which the first events alone stay.
        cuts: Vec<CutWords<'a>>,
        /// Whether what comes meanwhile is put behind, until no server has the old one. Then there is no cut.
        follow: bool,
        /// The path of a table file by which the old one is judged first, or `None`: then it isn't judged. Here `-` is a file of
        /// that name.
        table: Option<&'a str>,
    },
    /// Print the lines of a journal that tell an event of a vehicle.
    Events {
        /// The journal's path, or `-` for standard input.
        file: &'a str,
        /// As for `Debug`.
        provider: &'a str,
        /// As for `Debug`.
        device: &'a str,
    },
}

/// The command that `words` ask for, of which the first is the program's name.
///
/// # Errors
///
/// `Help` where the words ask for help or for the version, `Mistake` where they don't parse or ask for no command,
/// `Memory` where there is no memory to read them. `Display` gives the text for the user.
pub fn parse_words<'a, S: AsStr>(alloc: Global, words: &'a [S]) -> Result<Command<'a>, WordsError>
    ensures ok { IfOk result (IsAskedBy (map S.text words.entry.now)) }
    ensures cause { IfErr result (HasCause (map S.text words.entry.now)) }
    // Words that are taken and ask for some command give it, where there is memory.
    ensures err { IfErr result (λ error. AreTaken (map S.text words.entry.now)
        → words_kind error ≡ WordsErrorKind.Memory) }
{
    match command_in(alloc, words) {
        Ok(command) => Ok(command),
        Err(error) => Err(WordsError::new(error)),
    }
}

fn command_in<'a, S: AsStr>(alloc: Global, words: &'a [S]) -> Result<Command<'a>, Error>
    ensures ok { IfOk result (Asks (subcommand_of program_app (map S.text words.entry.now))) }
    // Words in which `clap` finds a fault give no command, and the error is of a kind that it finds.
    ensures taken { IfOk result (λ _. fault_of program_app (map S.text words.entry.now) ≡ []) }
    ensures kind { IfErr result (IsCause (map S.text words.entry.now)) }
    // Words that `clap` takes and that ask for some command give it, where there is memory.
    ensures err { IfErr result (λ error. takes program_app (map S.text words.entry.now) ≡ true
        → (AsksNothing (subcommand_of program_app (map S.text words.entry.now)) → ⊥)
        → kind_of error ≡ ErrorKind.OutOfMemory) }
{
    match program_form(alloc) {
        Ok(mut form) => command_by(alloc, &mut form, words),
        Err(error) => Err(Error::from(error)),
    }
}

/// `form` is the program's.
fn command_by<'a, S: AsStr>(
    alloc: Global,
    form: &mut clap::Command<'a>,
    words: &'a [S],
) -> Result<Command<'a>, Error>
    requires { app_of form.old ≡ program_app }
    ensures ok { IfOk result (Asks (subcommand_of program_app (map S.text words.entry.now))) }
    ensures taken { IfOk result (λ _. fault_of program_app (map S.text words.entry.now) ≡ []) }
    ensures kind { IfErr result (IsCause (map S.text words.entry.now)) }
    ensures err { IfErr result (λ error. takes program_app (map S.text words.entry.now) ≡ true
        → (AsksNothing (subcommand_of program_app (map S.text words.entry.now)) → ⊥)
        → kind_of error ≡ ErrorKind.OutOfMemory) }
{
    let matches = form.try_get_matches_from_mut(words)?;
    command_or_error(alloc, form, &matches)
}

fn command_or_error<'a>(
    alloc: Global,
    form: &mut clap::Command<'a>,
    matches: &ArgMatches<'a>,
) -> Result<Command<'a>, Error>
    ensures ok { IfOk result (Asks (subcommand_rows_of matches.now)) }
    ensures err { IfErr result (SaysMissing (subcommand_rows_of matches.now)) }
{
    match command_of(alloc, matches)? {
        Some(command) => Ok(command),
        None => Err(missing(form, matches)?),
    }
}

/// What is missing where the words ask for no command: an option of a command that they name, or its name.
fn missing<'a>(form: &mut clap::Command<'a>, matches: &ArgMatches<'a>) -> Result<Error, AllocError>
    ensures { IfOk result (λ error. kind_of error ≡ missing_kind (subcommand_rows_of matches.now)) }
{
    match matches.subcommand() {
        Some((name, values)) => form.error(
            ErrorKind::MissingRequiredArgument,
            missing_option(name, values),
        ),
        None => form.error(ErrorKind::MissingSubcommand, "a command is needed"),
    }
}

/// What the words of a command lack that `clap` took.
fn missing_option(name: &str, values: &ArgMatches<'_>) -> &'static str {
    match name {
        "replay" => "--unlimited is for --lines alone",
        "compact" => missing_of_compact(values),
        _ => "one of --each <N> and --until-stopped is needed, and not both",
    }
}

/// What the words of `compact` lack, or which of them don't go together.
fn missing_of_compact(values: &ArgMatches<'_>) -> &'static str
    ensures together { first_of (codes "cut") (rows_of (found_of values.now)) ≢ None
        → first_of (codes "follow") (rows_of (found_of values.now)) ≡ Some (codes "true")
        → result.now ≡ codes "--follow and --cut don't go together" }
    ensures neither { first_of (codes "cut") (rows_of (found_of values.now)) ≡ None
        → result.now ≡ codes "one of --before <TIME> and --cut <PROVIDER> <DEVICE> <N> is needed" }
{
    match values.get_str("cut") {
        Some(_) if is_set(values, "follow") => "--follow and --cut don't go together",
        Some(_) => "the <N> of --cut <PROVIDER> <DEVICE> <N> is a number of events",
        None => "one of --before <TIME> and --cut <PROVIDER> <DEVICE> <N> is needed",
    }
}

fn command_of<'a>(
    alloc: Global,
    matches: &ArgMatches<'a>,
) -> Result<Option<Command<'a>>, AllocError>
    ensures { IfOk result (λ found. MatchOption found
        (AsksNothing (subcommand_rows_of matches.now)) (Asks (subcommand_rows_of matches.now))) }
{
    let Some((name, values)) = matches.subcommand() else {
        return Ok(None);
    };
    if name == "compact" {
        return compact_of(alloc, values);
    }
    Ok(command_named(name, values))
}

/// The command of this name, which isn't `compact`.
fn command_named<'a>(name: &str, values: &ArgMatches<'a>) -> Option<Command<'a>>
    requires { name.now ≢ codes "compact" }
    ensures { MatchOption result (AsksNothing (Some (name.now, rows_of (found_of values.now))))
        (Asks (Some (name.now, rows_of (found_of values.now)))) }
{
    if name == "serve" {
        return serve_of(values);
    }
    if name == "replay" {
        return replay_of(values);
    }
    if name == "debug" {
        return debug_of(values);
    }
    if name == "table" {
        return Some(table_of(values));
    }
    if name == "vehicles" {
        return vehicles_of(values);
    }
    if name == "events" {
        return events_of(values);
    }
    None
}

/// The greatest number of a port: TCP writes it in 16 bits.
const MAX_PORT: u64 = 65_535;

/// The most connections that each worker may be asked to answer, where it is asked for a number.
const MAX_EACH: u64 = 1_000_000;

/// The most workers. Each of a server takes a seat of the book, which has at most `mds_book::MAX_SEATS` of them, and a
/// replay has at most `mds_trace::MAX_WORKERS`. It may not be greater than these: the program's proof then fails.
const MAX_WORKERS: u64 = 64;

/// The greatest time that `--before` may name: an event has none that is greater.
const MAX_TIME: u64 = 9_007_199_254_740_991;

fn serve_of<'a>(values: &ArgMatches<'a>) -> Option<Command<'a>>
    ensures { MatchOption result (LacksNumber (rows_of (found_of values.now)))
        (λ command. (name_of command ≡ codes "serve")
        × HasValues (rows_of (found_of values.now)) command) }
{
    let port = number_of(values, "port", 0, MAX_PORT)?;
    let each = each_of(values)?;
    let workers = workers_of(values)?;
    let metrics = metrics_of(values)?;
    Some(Command::Serve {
        port: port as u16,
        each,
        workers,
        table: values.get_str("table"),
        journal: values.get_str("journal"),
        metrics,
    })
}

/// The port at which figures are told, if one is named.
fn metrics_of(values: &ArgMatches<'_>) -> Option<Option<u16>>
    ensures { MatchOption result (LacksMetrics (rows_of (found_of values.now)))
        (IsMetrics (rows_of (found_of values.now))) }
{
    match values.get_str("metrics") {
        Some(_) => Some(Some(number_of(values, "metrics", 1, MAX_PORT)? as u16)),
        None => Some(None),
    }
}

/// How many connections each worker answers, where that is told by one of the two options.
fn each_of(values: &ArgMatches<'_>) -> Option<Option<usize>>
    ensures { MatchOption result (LacksEach (rows_of (found_of values.now)))
        (IsEach (rows_of (found_of values.now))) }
{
    if !is_set(values, "until-stopped") {
        return Some(Some(number_of(values, "each", 0, MAX_EACH)? as usize));
    }
    match values.get_str("each") {
        Some(_) => None,
        None => Some(None),
    }
}

fn workers_of(values: &ArgMatches<'_>) -> Option<usize>
    ensures { MatchOption result
        (HasNoNumber 1 max_workers (first_of (codes "workers") (rows_of (found_of values.now))))
        (IsNumber 1 max_workers (first_of (codes "workers") (rows_of (found_of values.now)))) }
{
    Some(number_of(values, "workers", 1, MAX_WORKERS)? as usize)
}

fn number_of(values: &ArgMatches<'_>, name: &str, least: u64, most: u64) -> Option<u64>
    ensures { MatchOption result
        (HasNoNumber least most (first_of name.now (rows_of (found_of values.now))))
        (IsNumber least most (first_of name.now (rows_of (found_of values.now)))) }
{
    number_in(values.get_str(name)?, least, most)
}

pub(crate) fn number_in(text: &str, least: u64, most: u64) -> Option<u64>
    ensures { MatchOption result (HasNoNumber least most (Some text.now))
        (IsNumber least most (Some text.now)) }
{
    let number = text.parse::<u64>().ok()?;
    if least <= number && number <= most {
        Some(number)
    } else {
        None
    }
}

fn replay_of<'a>(values: &ArgMatches<'a>) -> Option<Command<'a>>
    ensures { MatchOption result (LacksFileOrWorkers (rows_of (found_of values.now)))
        (λ command. (name_of command ≡ codes "replay")
        × HasValues (rows_of (found_of values.now)) command) }
{
    let file = values.get_str("FILE")?;
    let workers = workers_of(values)?;
    let lines = is_set(values, "lines");
    let unlimited = is_set(values, "unlimited");
    if unlimited && !lines {
        return None;
    }
    Some(Command::Replay {
        file,
        table: values.get_str("table"),
        any: is_set(values, "any"),
        lines,
        unlimited,
        workers,
    })
}

fn is_set(values: &ArgMatches<'_>, name: &str) -> bool
    ensures { IsTrue result ↔ (first_of name.now (rows_of (found_of values.now)) ≡ Some
        (codes "true")) }
{
    match values.get_str(name) {
        Some(value) => is_true(value),
        None => false,
    }
}

fn is_true(value: &str) -> bool
    ensures { IsTrue result ↔ (value.now ≡ codes "true") }
{
    value == "true"
}

fn debug_of<'a>(values: &ArgMatches<'a>) -> Option<Command<'a>>
    ensures { MatchOption result
        (LacksOneOf (codes "FILE" ∷ codes "PROVIDER" ∷ codes "DEVICE" ∷ [])
        (rows_of (found_of values.now)))
        (λ command. (name_of command ≡ codes "debug")
        × HasValues (rows_of (found_of values.now)) command) }
{
    let file = values.get_str("FILE")?;
    let provider = values.get_str("PROVIDER")?;
    let device = values.get_str("DEVICE")?;
    Some(Command::Debug {
        file,
        provider,
        device,
        table: values.get_str("table"),
    })
}

fn table_of<'a>(values: &ArgMatches<'a>) -> Command<'a>
    ensures { (name_of result ≡ codes "table") × HasValues (rows_of (found_of values.now)) result }
{
    Command::Table {
        table: values.get_str("table"),
    }
}

fn vehicles_of<'a>(values: &ArgMatches<'a>) -> Option<Command<'a>>
    ensures { MatchOption result
        (LacksOneOf (codes "FILE" ∷ []) (rows_of (found_of values.now)))
        (λ command. (name_of command ≡ codes "vehicles")
        × HasValues (rows_of (found_of values.now)) command) }
{
    let file = values.get_str("FILE")?;
    Some(Command::Vehicles {
        file,
        table: values.get_str("table"),
        check: is_set(values, "check"),
    })
}

fn compact_of<'a>(alloc: Global, values: &ArgMatches<'a>) -> Result<Option<Command<'a>>, AllocError>
    ensures { IfOk result (λ found. MatchOption found
        (AsksNothing (Some (codes "compact", rows_of (found_of values.now))))
        (Asks (Some (codes "compact", rows_of (found_of values.now))))) }
{
    let Some(cuts) = cuts_of(alloc, values)? else {
        return Ok(None);
    };
    Ok(compact_by(values, cuts))
}

fn compact_by<'a>(values: &ArgMatches<'a>, cuts: Vec<CutWords<'a>>) -> Option<Command<'a>>
    requires { HasCuts (rows_of (found_of values.now)) cuts.items }
    ensures { MatchOption result
        (AsksNothing (Some (codes "compact", rows_of (found_of values.now))))
        (Asks (Some (codes "compact", rows_of (found_of values.now)))) }
{
    let old = values.get_str("OLD")?;
    let new = values.get_str("NEW")?;
    let before = before_of(values)?;
    if before.is_none() && cuts.is_empty() {
        return None;
    }
    let follow = follow_of(values, &cuts)?;
    Some(Command::Compact {
        old,
        new,
        before,
        cuts,
        follow,
        table: values.get_str("table"),
    })
}

/// Whether a server is followed. Nothing is cut then.
fn follow_of(values: &ArgMatches<'_>, cuts: &[CutWords<'_>]) -> Option<bool>
    ensures { MatchOption result
        (IsSet (codes "follow") (rows_of (found_of values.now)) × (cuts.now ≢ []))
        (λ follow. (IsTrue follow ↔ IsSet (codes "follow") (rows_of (found_of values.now)))
        × (IsTrue follow → cuts.now ≡ [])) }
{
    let follow = is_set(values, "follow");
    if follow && !cuts.is_empty() {
        return None;
    }
    Some(follow)
}

/// The time before which events are old, if one is given.
fn before_of(values: &ArgMatches<'_>) -> Option<Option<u64>>
    ensures { MatchOption result (LacksBefore (rows_of (found_of values.now)))
        (IsBefore (rows_of (found_of values.now))) }
{
    match values.get_str("before") {
        Some(_) => Some(Some(number_of(values, "before", 0, MAX_TIME)?)),
        None => Some(None),
    }
}

fn events_of<'a>(values: &ArgMatches<'a>) -> Option<Command<'a>>
    ensures { MatchOption result
        (LacksOneOf (codes "FILE" ∷ codes "PROVIDER" ∷ codes "DEVICE" ∷ [])
        (rows_of (found_of values.now)))
        (λ command. (name_of command ≡ codes "events")
        × HasValues (rows_of (found_of values.now)) command) }
{
    Some(Command::Events {
        file: values.get_str("FILE")?,
        provider: values.get_str("PROVIDER")?,
        device: values.get_str("DEVICE")?,
    })
}

/// What `clap` is told of a command, where there is memory for it.
type Form<'a> = Result<clap::Command<'a>, AllocError>;

fn program_form<'a>(alloc: Global) -> Form<'a>
    ensures { IsTold program_app result }
{
    let form = clap::Command::new(alloc, "mds_city")
        .about("Keeps the states of shared vehicles")
        .version(VERSION)
        .subcommand_required(true);
    let with_serve = with_command(Ok(form), serve_form(alloc));
    let with_replay = with_command(with_serve, replay_form(alloc));
    let with_debug = with_command(with_replay, debug_form(alloc));
    let with_table_command = with_command(with_debug, table_form(alloc));
    let with_vehicles = with_command(with_table_command, vehicles_form(alloc));
    let with_compact = with_command(with_vehicles, compact_form(alloc));
    with_command(with_compact, events_form(alloc))
}

fn with_command<'a>(form: Form<'a>, command: Form<'a>) -> Form<'a>
    ensures { (app sub : App) → IsTold app form.entry → IsTold sub command.entry
        → sub.top.is_plain ≡ true → IsTold (with_subcommand app sub.top) result }
{
    match form {
        Ok(form) => add_command(form, command),
        Err(error) => Err(error),
    }
}

fn add_command<'a>(form: clap::Command<'a>, command: Form<'a>) -> Form<'a>
    ensures { (sub : App) → IsTold sub command.entry → sub.top.is_plain ≡ true
        → IsTold (with_subcommand (app_of form.entry) sub.top) result }
{
    match command {
        Ok(command) => form.subcommand(command),
        Err(error) => Err(error),
    }
}

fn serve_form<'a>(alloc: Global) -> Form<'a>
    ensures { IsTold serve_app result }
{
    let bare = bare_form(alloc, "serve", "Serves vehicles over HTTP at 127.0.0.1");
    let with_port = with_number(
        alloc,
        bare,
        "port",
        MAX_PORT,
        "The port's number; 0 is a free one",
    );
    let with_each = with_each(alloc, with_port);
    let with_until_stopped = with_flag(
        alloc,
        with_each,
        "until-stopped",
        "Goes on until the process is stopped, in place of --each",
    );
    let with_tables = with_table(alloc, with_workers(alloc, with_until_stopped, "4"));
    with_metrics(alloc, with_journal(alloc, with_tables))
}

fn replay_form<'a>(alloc: Global) -> Form<'a>
    ensures { IsTold replay_app result }
{
    let bare = bare_form(alloc, "replay", "Replays the events of a file");
    let with_file = with_word(
        alloc,
        bare,
        "FILE",
        "The file of events; - is standard input",
    );
    let with_any = with_flag(
        alloc,
        with_table(alloc, with_file),
        "any",
        "Lets a vehicle hold any state before its first event",
    );
    let with_lines = with_flag(
        alloc,
        with_any,
        "lines",
        "Takes each line of the file as an item",
    );
    let with_unlimited = with_flag(
        alloc,
        with_lines,
        "unlimited",
        "Takes lines without the limits of a batch",
    );
    with_workers(alloc, with_unlimited, "1")
}

fn debug_form<'a>(alloc: Global) -> Form<'a>
    ensures { IsTold debug_app result }
{
    let bare = bare_form(
        alloc,
        "debug",
        "Steps through the accepted events of a vehicle, as standard input says",
    );
    let with_file = with_word(alloc, bare, "FILE", "The file of events");
    let with_provider = with_word(alloc, with_file, "PROVIDER", "The provider's identifier");
    let with_device = with_word(alloc, with_provider, "DEVICE", "The vehicle's identifier");
    with_table(alloc, with_device)
}

fn table_form<'a>(alloc: Global) -> Form<'a>
    ensures { IsTold table_app result }
{
    let bare = bare_form(
        alloc,
        "table",
        "Prints the table of transitions, or each of several",
    );
    with_table(alloc, bare)
}

fn vehicles_form<'a>(alloc: Global) -> Form<'a>
    ensures { IsTold vehicles_app result }
{
    let bare = bare_form(alloc, "vehicles", "Lists the vehicles of a journal");
    let with_file = with_word(alloc, bare, "FILE", "The journal; - is standard input");
    with_flag(
        alloc,
        with_table(alloc, with_file),
        "check",
        "Tells how many lines and groups there are, too",
    )
}

fn compact_form<'a>(alloc: Global) -> Form<'a>
    ensures { IsTold compact_app result }
{
    let bare = bare_form(
        alloc,
        "compact",
        "Makes a new journal of an old one, without old events that no state needs, or events to be cut",
    );
    let with_old = with_word(alloc, bare, "OLD", "The journal, which stays as it is");
    let with_new = with_word(alloc, with_old, "NEW", "The file to make");
    let with_cuts = with_cut(alloc, with_before(alloc, with_new));
    let with_follow = with_flag(
        alloc,
        with_cuts,
        "follow",
        "Goes on with what comes meanwhile, until no server has OLD",
    );
    with_judge(alloc, with_follow)
}

fn events_form<'a>(alloc: Global) -> Form<'a>
    ensures { IsTold events_app result }
{
    let bare = bare_form(
        alloc,
        "events",
        "Prints the lines of a journal that tell an event of a vehicle",
    );
    let with_file = with_word(alloc, bare, "FILE", "The journal; - is standard input");
    let with_provider = with_word(alloc, with_file, "PROVIDER", "The provider's identifier");
    with_word(alloc, with_provider, "DEVICE", "The vehicle's identifier")
}

fn bare_form<'a>(alloc: Global, name: &'a str, about: &'a str) -> Form<'a>
    ensures { IsTold (new_app name.entry.now) result }
{
    Ok(clap::Command::new(alloc, name).about(about))
}

fn with_word<'a>(alloc: Global, form: Form<'a>, name: &'a str, help: &'a str) -> Form<'a>
    ensures { (app : App) → IsTold app form.entry
        → IsTold (with_rule app (word_rule name.entry.now)) result }
{
    with_arg(form, argument(alloc, name, help).required(true))
}

/// A flag takes no value.
fn with_flag<'a>(alloc: Global, form: Form<'a>, name: &'a str, help: &'a str) -> Form<'a>
    ensures { (app : App) → IsTold app form.entry
        → IsTold (with_rule app (flag_rule name.entry.now)) result }
{
    with_arg(
        form,
        long_argument(alloc, name, help).action(ArgAction::SetTrue),
    )
}

fn with_number<'a>(
    alloc: Global,
    form: Form<'a>,
    name: &'a str,
    most: u64,
    help: &'a str,
) -> Form<'a>
    ensures { (app : App) → IsTold app form.entry
        → IsTold (with_rule app (needed_number_rule name.entry.now most)) result }
{
    with_arg(
        form,
        number_option(alloc, name, 0, most, help).required(true),
    )
}

fn with_before<'a>(alloc: Global, form: Form<'a>) -> Form<'a>
    ensures { (app : App) → IsTold app form.entry → IsTold (with_rule app before_rule) result }
{
    let help =
        "The time from which on all events stay, in milliseconds since 1970; without it all do";
    with_arg(form, time_option(alloc, "before", help))
}

fn with_cut<'a>(alloc: Global, form: Form<'a>) -> Form<'a>
    ensures { (app : App) → IsTold app form.entry → IsTold (with_rule app cut_rule) result }
{
    let help = "A vehicle of which the first N events alone stay; may be given again";
    with_arg(
        form,
        long_argument(alloc, "cut", help)
            .value_names(CUT_NAMES)
            .action(ArgAction::Append),
    )
}

/// What the words of a cut are called in help.
const CUT_NAMES: &[&str] = &["PROVIDER", "DEVICE", "N"];

fn with_each<'a>(alloc: Global, form: Form<'a>) -> Form<'a>
    ensures { (app : App) → IsTold app form.entry → IsTold (with_rule app each_rule) result }
{
    let help = "How many connections each worker answers";
    with_arg(form, number_option(alloc, "each", 0, MAX_EACH, help))
}

fn with_workers<'a>(alloc: Global, form: Form<'a>, default: &'a str) -> Form<'a>
    ensures { (app : App) → IsTold app form.entry
        → IsTold (with_rule app (workers_rule default.entry.now)) result }
{
    let help = "How many workers there are";
    let workers = number_option(alloc, "workers", 1, MAX_WORKERS, help);
    with_arg(form, workers.default_value(default))
}

fn with_table<'a>(alloc: Global, form: Form<'a>) -> Form<'a>
    ensures { (app : App) → IsTold app form.entry → IsTold (with_rule app table_rule) result }
{
    let help = "A table of transitions, or several with times; without it the profile's";
    with_arg(form, option(alloc, "table", "FILE", help))
}

/// The option `--table` of a command that judges a journal only where it is given.
fn with_judge<'a>(alloc: Global, form: Form<'a>) -> Form<'a>
    ensures { (app : App) → IsTold app form.entry → IsTold (with_rule app table_rule) result }
{
    let help = "A table of transitions, or several with times, by which OLD is judged first";
    with_arg(form, option(alloc, "table", "FILE", help))
}

fn with_journal<'a>(alloc: Global, form: Form<'a>) -> Form<'a>
    ensures { (app : App) → IsTold app form.entry → IsTold (with_rule app journal_rule) result }
{
    let help = "A journal of what is accepted; without it that ends with the process";
    with_arg(form, option(alloc, "journal", "FILE", help))
}

fn with_metrics<'a>(alloc: Global, form: Form<'a>) -> Form<'a>
    ensures { (app : App) → IsTold app form.entry → IsTold (with_rule app metrics_rule) result }
{
    let help = "A port of its own, at which figures are told, and readiness";
    with_arg(form, number_option(alloc, "metrics", 1, MAX_PORT, help))
}

fn with_arg<'a>(form: Form<'a>, arg: Arg<'a>) -> Form<'a>
    requires { arg.global ≡ false }
    ensures { (app : App) → IsTold app form.entry
        → IsTold (with_rule app (rule_of arg.entry)) result }
{
    match form {
        Ok(form) => form.arg(arg),
        Err(error) => Err(error),
    }
}

fn number_option<'a>(alloc: Global, name: &'a str, least: u64, most: u64, help: &'a str) -> Arg<'a>
    ensures rule { rule_of result ≡ number_rule name.entry.now least most }
    ensures local { result.global ≡ false }
{
    option(alloc, name, "N", help).value_parser(ValueParser::unsigned(least, most))
}

fn time_option<'a>(alloc: Global, name: &'a str, help: &'a str) -> Arg<'a>
    ensures rule { rule_of result ≡ number_rule name.entry.now 0 max_time }
    ensures local { result.global ≡ false }
{
    option(alloc, name, "TIME", help).value_parser(ValueParser::unsigned(0, MAX_TIME))
}

/// In help the option's value is called `value`.
fn option<'a>(alloc: Global, name: &'a str, value: &'a str, help: &'a str) -> Arg<'a>
    ensures rule { rule_of result ≡ option_rule name.entry.now }
    ensures local { result.global ≡ false }
{
    long_argument(alloc, name, help).value_name(value)
}

fn long_argument<'a>(alloc: Global, name: &'a str, help: &'a str) -> Arg<'a>
    ensures rule { rule_of result ≡ long_rule name.entry.now }
    ensures local { result.global ≡ false }
{
    argument(alloc, name, help).long(name)
}

fn argument<'a>(alloc: Global, name: &'a str, help: &'a str) -> Arg<'a>
    ensures rule { rule_of result ≡ new_rule name.entry.now }
    ensures local { result.global ≡ false }
{
    Arg::new(alloc, name).help(help)
}
