//! The commands of a script.
ghost use Rattle.std.specs.Prelude.{◌≡◌, ◌≢◌, ◌<◌, length, IfOk, IfSome, IfNone, [], Some};
ghost use Rattle.mds_lines.specs.Stream.{IsFirstLine};
ghost use Rattle.mds_trace.specs.declared.script.ScriptCommand.{ScriptCommand as Command};
ghost use Rattle.mds_trace.specs.Script.{command_text, IsCommandOf, IsScript, move_text};

use mds_table::State;
use std::alloc::{AllocError, Global};
use std::str;

/// How a script moves a session.
#[derive(Clone, Copy, Debug, PartialEq, Eq)]
pub enum Move {
    /// Past one type.
    Step,
    /// One step back.
    Back,
    /// On to the next event.
    Next,
    /// To the first later place before an event, or at the end, at which this state is held.
    Run(State),
}

/// A command of a script.
#[derive(Clone, Copy, Debug, PartialEq, Eq)]
pub enum ScriptCommand {
    /// The session moves: `step`, `back`, `next`, or `run` and a state's name.
    Move(Move),
    /// The least chain of the present event is printed: `chain`.
    Chain,
    /// The script ends here: `quit`.
    Quit,
}

impl ScriptCommand {
    /// The command of a line, or `None` where the line isn't a command's text, byte for byte.
    pub fn of_line(line: &[u8]) -> Option<ScriptCommand>
        ensures { IsCommandOf line.now result }
    {
        match str::from_utf8(line) {
            Ok(text) => command_of(text),
            Err(_) => None,
        }
    }
}

fn command_of(text: &str) -> Option<ScriptCommand>
    ensures { IsCommandOf text.now result }
{
    match text {
        "step" => Some(ScriptCommand::Move(Move::Step)),
        "back" => Some(ScriptCommand::Move(Move::Back)),
        "next" => Some(ScriptCommand::Move(Move::Next)),
        "chain" => Some(ScriptCommand::Chain),
        "quit" => Some(ScriptCommand::Quit),
        _ => {
            let state = State::of_name(text.strip_prefix("run ")?)?;
            Some(ScriptCommand::Move(Move::Run(state)))
        }
    }
}

/// What each line of a script says: a command, or `None` where it says none. A line ends with a line feed, or at the end
/// of the script; after the last line feed there is no line more.
///
/// # Errors
///
/// `AllocError` where there is no memory for the commands.
pub fn script_of(alloc: Global, bytes: &[u8]) -> Result<Vec<Option<ScriptCommand>>, AllocError>
    ensures { IfOk result (λ script. IsScript bytes.now script.items) }
{
    let mut script = Vec::new(alloc);
    let mut rest = bytes;
    while !rest.is_empty() {
        let (line, next) = first_line(rest);
        script.push(ScriptCommand::of_line(line))?;
        rest = next;
    }
    Ok(script)
}

fn first_line(bytes: &[u8]) -> (&[u8], &[u8])
    requires { bytes.now ≢ [] }
    ensures first { IsFirstLine bytes.now result.0.now result.1.now }
    ensures shorter { length result.1.now < length bytes.now }
{
    match bytes.iter().position(|byte| *byte == b'\n') {
        Some(at) => (&bytes[..at], &bytes[at + 1..]),
        None => (bytes, &[]),
    }
}
