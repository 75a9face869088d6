//! What a session prints.
ghost use Rattle.std.specs.Prelude.{◌≡◌, ◌≢◌, ◌⊎◌, ◌++◌, Some, string_bytes, OnOk, OnErr, IfOk, IfErr, length};
ghost use Rattle.std.specs.Io.KnownBytes.{Appends, Keeps};
ghost use Rattle.std.specs.Prelude.{List, ℕ};
ghost use Rattle.mds_io.specs.Page.{AppendsFront, Passes, with_newline};
ghost use Rattle.mds_trace.specs.declared.session.Place.{Place as At};
ghost use Rattle.mds_steps.specs.StateSet.{AreInCodeOrder};
ghost use Rattle.mds_trace.specs.Session.{ArePossible, KeepsEvents};
ghost use Rattle.mds_trace.specs.declared.script.ScriptCommand.TheVariants.{Quit};
ghost use Rattle.mds_trace.specs.Printed.{goes_on, halt_of, line_text, moved_to, IsPlaceLine, LeadsTo, Prints, PrintsChain, PrintsFront, PrintsMove, PrintsScript, PrintsStart};

use crate::line::{Chain, CountsLine, Line};
use crate::{Halt, Move, ScriptCommand, Session};
use mds_io::{PrintError, add_line, end_page, flush_page};
use mds_steps::StateSet;
use std::alloc::{AllocError, Global};
use std::io::Write;

/// Prints how many of a vehicle's events were accepted and how many refused, and the place at which the session over the
/// accepted ones stands.
///
/// # Errors
///
/// `Memory` where there was none to lay the lines out, `Device` where the writer failed; a front of the text went out.
pub fn print_start<W: Write>(
    alloc: Global,
    writer: &mut W,
    session: &Session,
    counts: CountsLine,
) -> Result<(), PrintError>
    ensures ok { OnOk result ((text : List ℕ) × PrintsStart session.now counts text
        × Appends (W.contents writer.old) (W.contents writer.new) text) }
    ensures err { OnErr result ((text : List ℕ) × PrintsStart session.now counts text
        × AppendsFront (W.contents writer.old) (W.contents writer.new) text) }
{
    let line = place_line(session);
    let mut page = String::new(alloc);
    add_line(writer, &mut page, &counts)?;
    end_page(writer, &mut page, &line)
}

/// Carries out the commands of a script up to the first `quit`, and prints a line for each.
///
/// # Errors
///
/// `Memory` where there was none for a line, `Device` where the writer failed, and then not all went out that the commands
/// print. A front went out of what the first of them print. The session may stand at any place, over the same events.
pub fn print_walk<W: Write>(
    alloc: Global,
    writer: &mut W,
    session: &mut Session,
    script: &[Option<ScriptCommand>],
) -> Result<(), PrintError>
    ensures ok { OnOk result ((text : List ℕ) × PrintsScript session.old script.now
        session.new.place text
        × Appends (W.contents writer.old) (W.contents writer.new) text) }
    ensures kept { KeepsEvents session.old session.new }
    ensures err { IfErr result (λ fault. PrintsFront fault session.old script.now
        (W.contents writer.old) (W.contents writer.new)) }
{
    let mut page = String::new(alloc);
    for command in script {
        if !goes_on(*command) {
            break;
        }
        add_answer(alloc, writer, &mut page, session, *command)?;
    }
    flush_page(writer, &mut page)
}

fn goes_on(command: Option<ScriptCommand>) -> bool
    ensures { result ≡ goes_on command }
{
    !matches!(command, Some(ScriptCommand::Quit))
}

fn add_answer<W: Write>(
    alloc: Global,
    writer: &mut W,
    page: &mut String,
    session: &mut Session,
    command: Option<ScriptCommand>,
) -> Result<(), PrintError>
    ensures ok { command ≢ Some Quit → OnOk result ((text : List ℕ)
        × Prints session.old command session.new.place text
        × Passes (W.contents writer.old) (W.contents writer.new)
        (string_bytes page.old ++ with_newline text) (string_bytes page.new)) }
    ensures kept { KeepsEvents session.old session.new }
    ensures err { command ≢ Some Quit → OnErr result (Keeps (W.contents writer.old)
        (W.contents writer.new)
        ⊎ ((to : At) × (text : List ℕ) × Prints session.old command to text
        × AppendsFront (W.contents writer.old) (W.contents writer.new)
        (string_bytes page.old ++ with_newline text))) }
    ensures device { command ≢ Some Quit → IfErr result (λ fault. fault ≡ PrintError.Device
        → (to : At) × (text : List ℕ) × Prints session.old command to text
        × AppendsFront (W.contents writer.old) (W.contents writer.new)
        (string_bytes page.old ++ with_newline text)) }
{
    match carry_out(alloc, session, command) {
        Ok(line) => add_line(writer, page, &line),
        Err(AllocError) => Err(PrintError::Memory),
    }
}

fn carry_out(
    alloc: Global,
    session: &mut Session,
    command: Option<ScriptCommand>,
) -> Result<Line, AllocError>
    ensures prints { command ≢ Some Quit → IfOk result
        (λ line. Prints session.old command session.new.place (line_text line)) }
    ensures kept { KeepsEvents session.old session.new }
{
    match command {
        Some(ScriptCommand::Move(to_make)) => Ok(moved_line(session, to_make)),
        Some(ScriptCommand::Chain) => chain_line(alloc, session),
        Some(ScriptCommand::Quit) | None => Ok(Line::Unknown),
    }
}

fn moved_line(session: &mut Session, to_make: Move) -> Line
    ensures prints { PrintsMove session.old to_make session.new.place (line_text result) }
    ensures kept { KeepsEvents session.old session.new }
{
    match make_move(session, to_make) {
        Ok(()) => place_line(session),
        Err(halt) => Line::Halt(halt),
    }
}

fn make_move(session: &mut Session, to_make: Move) -> Result<(), Halt>
    ensures kept { KeepsEvents session.old session.new }
    ensures moved { OnOk result (LeadsTo session.old to_make session.new.place) }
    ensures halt { IfErr result (λ halt. (halt ≡ halt_of to_make) × ((to : At)
        → LeadsTo session.old to_make to → ⊥)) }
    ensures stays { OnErr result (session.new.place ≡ session.old.place) }
{
    match to_make {
        Move::Step => session.step(),
        Move::Back => session.back(),
        Move::Next => session.next_event(),
        Move::Run(state) => session.run_to(state),
    }
}

fn place_line(session: &Session) -> Line
    ensures { IsPlaceLine session.now (line_text result) }
{
    Line::Place {
        place: session.place(),
        state: session.state(),
        possible: possible_of(session),
    }
}

/// Of each set `states` says that its members stand in the order of their codes.
fn possible_of(session: &Session) -> StateSet
    ensures possible { ArePossible session.now result }
    ensures order { AreInCodeOrder result }
{
    let possible = session.possible();
    let _in_order = possible.states();
    possible
}

fn chain_line(alloc: Global, session: &Session) -> Result<Line, AllocError>
    ensures { IfOk result (λ line. PrintsChain session.now (line_text line)) }
{
    Ok(match session.chain(alloc)? {
        Some(states) => Line::Chain(Chain { states }),
        None => Line::Halt(Halt::AtEnd),
    })
}
