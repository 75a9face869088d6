//! The debugger's command.
ghost use Rattle.std.specs.Prelude.{◌≡◌, ◌≢◌, ◌⊎◌, List, IfOk, IfErr, OnOk, MatchOption};
ghost use Rattle.uuid.specs.Text.{parsed};
ghost use Rattle.mds_core.specs.declared.key.Key.{Key as Vehicle};
ghost use Rattle.mds_batch.specs.declared.item.EventItem.{EventItem as Item};
ghost use Rattle.mds_trace.specs.Walk.{Walk};
ghost use Rattle.mds_trace.specs.declared.line.CountsLine.{CountsLine as Counts};
ghost use Rattle.mds_trace.specs.Vehicle.{told_of};
ghost use Rattle.mds_commands.specs.Source.{HasItemsIn, ExplainsFile};
ghost use Rattle.mds_commands.specs.Files.{files_of};
ghost use Rattle.mds_commands.specs.Change.{change_of};
ghost use Rattle.mds_commands.specs.Debug.{Debugs, DebugWentOut, ExplainsDebug, HasSession, IsNamed, IsOpened, IsOther, Shown, StopsShowing, TellsDebug, debug_status_of};

use crate::commands::status_on;
use crate::problem::{Problem, tell};
use crate::source::{Form, Source, each_item_in, tables_in};
use crate::status::Status;
use mds_core::Key;
use mds_io::{MAX_CALLS, PrintError, write_all_of};
use mds_table::Tables;
use mds_trace::{
    MAX_SCRIPT, ScriptCommand, ScriptLines, VehicleReplay, VehicleSession, print_start, print_walk,
    read_script, script_of,
};
use std::alloc::{AllocError, Global};
use std::io::{Read, Write};
use uuid::Uuid;

/// The words that name a vehicle.
#[derive(Clone, Copy, Debug)]
pub struct Named<'a> {
    /// Its provider's identifier.
    pub provider: &'a str,
    /// Its device's.
    pub device: &'a str,
}

impl Named<'_> {
    /// The vehicle, if both are identifiers.
    pub fn key(&self) -> Option<Key>
        ensures { MatchOption result ((key : Vehicle) → IsNamed self.now key
            → ⊥) (IsNamed self.now) }
    {
        let provider = identifier(self.provider)?;
        let device = identifier(self.device)?;
        Some(Key { provider, device })
    }
}

fn identifier(word: &str) -> Option<Uuid>
    ensures { result ≡ parsed word.now }
{
    Uuid::try_parse(word).ok()
}

/// Why the debugger's command could not be carried out.
#[derive(Clone, Copy, Debug)]
pub enum DebugProblem<'a> {
    /// A word that should name the vehicle is no identifier.
    BadIdentifier,
    /// No event of the file is of the vehicle.
    NotInFile,
    /// What may hinder other commands too.
    Other(Problem<'a>),
}

impl<'a> From<Problem<'a>> for DebugProblem<'a> {
    ghost use Rattle.mds_commands.specs.declared.debug.DebugProblem.TheVariants.{Other};

    ghost from_gives = { λ problem more. more ≡ Other problem };

    fn from(problem: Problem<'a>) -> Self {
        DebugProblem::Other(problem)
    }
}

impl From<AllocError> for DebugProblem<'_> {
    ghost use Rattle.mds_commands.specs.declared.problem.Problem.TheVariants.{Memory};
    ghost use Rattle.mds_commands.specs.declared.debug.DebugProblem.TheVariants.{Other};

    ghost from_gives = { λ _ problem. problem ≡ Other Memory };

    fn from(_refused: AllocError) -> Self {
        DebugProblem::Other(Problem::Memory)
    }
}

impl From<PrintError> for DebugProblem<'_> {
    ghost use Rattle.mds_commands.specs.Problem.{written_problem};
    ghost use Rattle.mds_commands.specs.declared.debug.DebugProblem.TheVariants.{Other};

    ghost from_gives = { λ fault problem. problem ≡ Other (written_problem fault) };

    fn from(fault: PrintError) -> Self {
        DebugProblem::Other(fault.into())
    }
}

/// Opens the debugger on a vehicle: replays the file over the tables, each vehicle registered before its first event, prints
/// how many of the vehicle's events were accepted and how many refused, and the first place of the session over the
/// accepted ones; and then carries out the commands of `script`, a line each. It answers the status that the program ends
/// with: `Done` where each event of the vehicle was accepted, `Refused` where one was not or the file has none,
/// `BadWords` where a word is no identifier, and else the one of the problem. A problem is told to `faults` in one line. The
/// words are looked at first, then the table file, the file, and the vehicle.
pub fn debug_to<T: Read + Drop, R: Read + Drop, I: Read, W: Write, E: Write>(
    alloc: Global,
    table: Option<Source<'_, T>>,
    file: Source<'_, R>,
    named: Named<'_>,
    script: &mut I,
    out: &mut W,
    faults: &mut E,
) -> Status
    ensures { Debugs (files_of T.remaining table.entry R.remaining file.entry) named.entry result
        (change_of (I.remaining script.old) (I.remaining script.new))
        (change_of (W.contents out.old) (W.contents out.new))
        (change_of (E.contents faults.old) (E.contents faults.new)) }
{
    match debug_into(alloc, table, file, named, script, out) {
        Ok(refused) => status_on(refused),
        Err(problem) => tell_debug(alloc, faults, problem),
    }
}

/// Tells the problem in one line, and answers its status. Where there is no memory to lay the line out, the problem that
/// is told is that. Where the writer fails the status stays.
pub fn tell_debug<E: Write>(alloc: Global, faults: &mut E, problem: DebugProblem<'_>) -> Status
    ensures { ((result ≡ debug_status_of problem.entry)
        × TellsDebug (E.contents faults.old) (E.contents faults.new) problem.entry)
        ⊎ (IsOther problem.entry × (result ≡ Status.NoMemory)
        × TellsDebug (E.contents faults.old) (E.contents faults.new)
        (DebugProblem.Other Problem.Memory)) }
{
    let mut calls = MAX_CALLS;
    match problem {
        DebugProblem::BadIdentifier => {
            let _ = write_all_of(faults, b"mds_city: bad identifier\n", &mut calls);
            Status::BadWords
        }
        DebugProblem::NotInFile => {
            let _ = write_all_of(faults, b"mds_city: vehicle not in file\n", &mut calls);
            Status::Refused
        }
        DebugProblem::Other(problem) => tell(alloc, faults, problem),
    }
}

/// As [`debug_to`], but each line of the script is answered as it comes, and nothing is read behind the first `quit`: as someone
/// at a terminal wants it. What is printed is the same.
pub fn debug_live_to<T: Read + Drop, R: Read + Drop, I: Read, W: Write, E: Write>(
    alloc: Global,
    table: Option<Source<'_, T>>,
    file: Source<'_, R>,
    named: Named<'_>,
    script: &mut I,
    out: &mut W,
    faults: &mut E,
) -> Status {
    match debug_live(alloc, table, file, named, script, out) {
        Ok(refused) => status_on(refused),
        Err(problem) => tell_debug(alloc, faults, problem),
    }
}

fn debug_live<'a, T: Read + Drop, R: Read + Drop, I: Read, W: Write>(
    alloc: Global,
    table: Option<Source<'a, T>>,
    file: Source<'a, R>,
    named: Named<'a>,
    script: &mut I,
    out: &mut W,
) -> Result<usize, DebugProblem<'a>> {
    let opened = session_on(alloc, table, file, named)?;
    let refused = opened.counts.refused;
    answer_lines(alloc, opened, script, out)?;
    Ok(refused)
}

fn answer_lines<'a, I: Read, W: Write>(
    alloc: Global,
    opened: VehicleSession,
    script: &mut I,
    out: &mut W,
) -> Result<(), DebugProblem<'a>> {
    let counts = opened.counts;
    let mut session = opened.session;
    print_start(alloc, out, &session, counts)?;
    let mut lines = ScriptLines::new(alloc);
    for _ in 0..MAX_SCRIPT {
        let Some(command) = lines.next_command(script)? else {
            return Ok(());
        };
        if command == Some(ScriptCommand::Quit) {
            return Ok(());
        }
        print_walk(alloc, out, &mut session, &[command])?;
    }
    Ok(())
}

fn debug_into<'a, T: Read + Drop, R: Read + Drop, I: Read, W: Write>(
    alloc: Global,
    table: Option<Source<'a, T>>,
    file: Source<'a, R>,
    named: Named<'a>,
    script: &mut I,
    out: &mut W,
) -> Result<usize, DebugProblem<'a>>
    ensures ok { IfOk result (λ refused. (walk : Walk) × (counts : Counts)
        × HasSession (files_of T.remaining table.entry R.remaining file.entry)
        named.entry walk counts
        × Shown walk counts (I.remaining script.old) (I.remaining script.new) (W.contents out.old)
        (W.contents out.new) × (refused ≡ counts.refused)) }
    ensures err { IfErr result (λ problem. ExplainsDebug
        (files_of T.remaining table.entry R.remaining file.entry) named.entry problem
        × DebugWentOut (files_of T.remaining table.entry R.remaining file.entry) named.entry problem
        (change_of (I.remaining script.old) (I.remaining script.new))
        (change_of (W.contents out.old) (W.contents out.new))) }
{
    let opened = session_on(alloc, table, file, named)?;
    let refused = opened.counts.refused;
    show(alloc, opened, script, out)?;
    Ok(refused)
}

fn session_on<'a, T: Read + Drop, R: Read + Drop>(
    alloc: Global,
    table: Option<Source<'a, T>>,
    file: Source<'a, R>,
    named: Named<'a>,
) -> Result<VehicleSession, DebugProblem<'a>>
    ensures ok { IfOk result (λ opened. HasSession
        (files_of T.remaining table.entry R.remaining file.entry) named.entry
        opened.session opened.counts) }
    ensures err { IfErr result (λ problem. ExplainsDebug
        (files_of T.remaining table.entry R.remaining file.entry) named.entry problem
        × (problem ≢ DebugProblem.Other Problem.Output)) }
{
    let Some(key) = named.key() else {
        return Err(DebugProblem::BadIdentifier);
    };
    let tables = tables_in(alloc, table)?;
    match open_on(alloc, tables, file, key)? {
        Some(opened) => Ok(opened),
        None => Err(DebugProblem::NotInFile),
    }
}

/// The items are replayed as they are read: of each but the vehicle's accepted events nothing is kept.
fn open_on<'a, R: Read + Drop>(
    alloc: Global,
    tables: Tables,
    file: Source<'a, R>,
    key: Key,
) -> Result<Option<VehicleSession>, Problem<'a>>
    ensures ok { IfOk result (λ found. (items : List Item)
        × HasItemsIn Form.Batch R.remaining file.entry items
        × MatchOption found (told_of key items ≡ 0)
        (λ opened. IsOpened tables items key opened.session opened.counts)) }
    ensures err { IfErr result (ExplainsFile Form.Batch R.remaining file.entry) }
{
    let mut replay = VehicleReplay::open(alloc, tables, key);
    each_item_in(alloc, file, &mut replay)?;
    let opened = replay.finish();
    if opened.counts.events == 0 && opened.counts.refused == 0 {
        return Ok(None);
    }
    Ok(Some(opened))
}

fn show<'a, I: Read, W: Write>(
    alloc: Global,
    opened: VehicleSession,
    script: &mut I,
    out: &mut W,
) -> Result<(), DebugProblem<'a>>
    ensures ok { OnOk result (Shown opened.session opened.counts (I.remaining script.old)
        (I.remaining script.new) (W.contents out.old) (W.contents out.new)) }
    ensures err { IfErr result (λ problem. StopsShowing problem opened.session opened.counts
        (change_of (I.remaining script.old) (I.remaining script.new))
        (change_of (W.contents out.old) (W.contents out.new))) }
{
    let mut session = opened.session;
    print_start(alloc, out, &session, opened.counts)?;
    let script = read_script(alloc, script)?;
    let commands = script_of(alloc, &script.bytes)?;
    print_walk(alloc, out, &mut session, &commands)?;
    Ok(())
}
