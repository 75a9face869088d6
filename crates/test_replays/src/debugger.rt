//! The debugger's readers and writers that fail, and its calls where memory is wanting.
use mds_batch::{BatchFault, each_event};
use mds_io::PrintError;
use mds_table::State::Removed;
use mds_trace::{
    Move, ScriptCommand, ScriptEnd, ScriptLines, VehicleReplay, VehicleSession, print_start,
    print_walk, read_script, script_of,
};
use std::alloc::{AllocError, Global};
use test_fixtures::{
    A, ENDS, Expects, FAILS, Lack, Last, PAUSES, Stream, again, fence, key, profile, rows,
};

/// What is read of a stream: how many bytes, how many are left, the number of calls, and how reading ends.
type Taken = (usize, usize, u32, ScriptEnd);

/// The length of a stream, how it goes on, and what is read of it.
type Case = (usize, Last, Taken);

const CASES: &[Case] = &[
    (70_000, ENDS, (70_000, 0, 6, ScriptEnd::Whole)),
    (70_000, FAILS, (70_000, 0, 6, ScriptEnd::Broken)),
    (0, FAILS, (0, 0, 2, ScriptEnd::Broken)),
    (5, PAUSES, (5, 0, 5_000_000, ScriptEnd::Broken)),
    (1_048_576, FAILS, (1_048_576, 0, 32, ScriptEnd::Whole)),
    (1_048_577, ENDS, (1_048_576, 1, 32, ScriptEnd::Whole)),
    (1_048_575, ENDS, (1_048_575, 0, 34, ScriptEnd::Whole)),
];

/// What is read of a stream of this length that goes on so, and is interrupted before each call.
fn taken(alloc: Global, left: usize, last: Last) -> Result<Taken, AllocError> {
    let mut reader = Stream::new((left, usize::MAX, true, last));
    let script = read_script(alloc, &mut reader)?;
    Ok((script.bytes.len(), reader.left, reader.calls, script.end))
}

/// The place of the first stream of which something else is read.
fn first_other(alloc: Global, cases: &[Case]) -> Result<Option<usize>, AllocError> {
    for (at, (length, last, expected)) in cases.iter().enumerate() {
        if taken(alloc, *length, *last)? != *expected {
            return Ok(Some(at));
        }
    }
    Ok(None)
}

#[test]
fn reading_ends_at_the_end_the_limit_or_a_fault(rt: HostRuntime) {
    assert_eq!(rt; first_other(rt.alloc(), CASES), Ok(None));
}

/// What the line of a script says.
type Said = Option<ScriptCommand>;

const STEP: Said = Some(ScriptCommand::Move(Move::Step));

const BACK: Said = Some(ScriptCommand::Move(Move::Back));

const NEXT: Said = Some(ScriptCommand::Move(Move::Next));

const CHAIN: Said = Some(ScriptCommand::Chain);

const QUIT: Said = Some(ScriptCommand::Quit);

/// A script, and what its lines say.
const SCRIPT: &[u8] = b"step\n\nback\nnext\nchain\nquit";

const SAID: &[Said] = &[STEP, None, BACK, NEXT, CHAIN, QUIT];

/// Whether this is read of it.
fn is_read(alloc: Global) -> Result<bool, AllocError> {
    let mut reader = SCRIPT;
    let script = read_script(alloc, &mut reader)?;
    let said = again!(script_of(alloc, &script.bytes))?;
    Ok(script.end == ScriptEnd::Whole && said.as_slice() == SAID)
}

/// Each call, made again where its growth is refused (by `tests/refused-growths`).
#[test]
fn a_script_is_read_after_a_refused_growth(rt: HostRuntime) {
    assert_eq!(rt; again!(is_read(rt.alloc())), Ok(true));
}

/// Whether its lines are had one by one, and no line more.
fn is_had(alloc: Global) -> Result<bool, AllocError> {
    let mut reader = SCRIPT;
    let mut lines = ScriptLines::new(alloc);
    for said in SAID {
        if lines.next_command(&mut reader)? != Some(*said) {
            return Ok(false);
        }
    }
    Ok(lines.next_command(&mut reader)?.is_none())
}

/// The script, begun anew where a growth is refused (by `tests/refused-growths`).
#[test]
fn lines_are_had_after_a_refused_growth(rt: HostRuntime) {
    assert_eq!(rt; again!(is_had(rt.alloc())), Ok(true));
}

/// Two events of A, of which the second comes too soon, between them one of B, and an item that is none.
const EVENTS: &str = r#"[
{"provider_id":"00000000-0000-4000-8000-000000000001","device_id":"00000000-0000-4000-8000-00000000000a","event_id":"00000000-0000-4000-8000-0000000000e1","vehicle_state":"available","event_types":["provider_drop_off"],"timestamp":1000},
{"provider_id":"00000000-0000-4000-8000-000000000001","device_id":"00000000-0000-4000-8000-00000000000b","event_id":"00000000-0000-4000-8000-0000000000e1","vehicle_state":"available","event_types":["provider_drop_off"],"timestamp":1000},
7,
{"provider_id":"00000000-0000-4000-8000-000000000001","device_id":"00000000-0000-4000-8000-00000000000a","event_id":"00000000-0000-4000-8000-0000000000e2","vehicle_state":"on_trip","event_types":["trip_start"],"timestamp":999}
]"#;

/// A session over the event of A that was accepted, and what is counted.
fn opened(alloc: Global) -> Result<VehicleSession, Lack> {
    let mut replay = VehicleReplay::open(alloc, profile(alloc)?, key(A));
    match each_event(alloc, EVENTS.as_bytes(), &mut replay) {
        Ok(()) => Ok(replay.finish()),
        Err(BatchFault::Memory) => Err(Lack::Memory),
        Err(_) => Err(Lack::Case),
    }
}

/// How a printing ended, and whether all that was expected went out.
type Printed = (Result<(), PrintError>, bool);

/// How a printing to this writer ended, unless memory was wanting.
fn printed(end: Result<(), PrintError>, writer: &Expects<'_>) -> Result<Printed, Lack> {
    match end {
        Err(PrintError::Memory) => Err(Lack::Memory),
        end => Ok((end, writer.rest.is_empty())),
    }
}

/// The printing of a session's start.
fn started(alloc: Global) -> Result<Printed, Lack> {
    let VehicleSession { session, counts } = opened(alloc)?;
    let mut writer = Expects {
        rest: b"events 1 refused 1\n0 0 removed possible removed\n",
    };
    let end = print_start(alloc, &mut writer, &session, counts);
    printed(end, &writer)
}

/// The printing of what a script does in a new session.
fn walked(alloc: Global, script: &[Said], rest: &'static [u8]) -> Result<Printed, Lack> {
    let mut session = opened(alloc)?.session;
    let mut writer = Expects { rest };
    let end = print_walk(alloc, &mut writer, &mut session, script);
    printed(end, &writer)
}

#[test]
fn a_start_is_printed_after_a_refused_growth(rt: HostRuntime) {
    assert_eq!(rt; again!(started(rt.alloc())), Ok((Ok(()), true)));
}

/// A short script, and what it prints.
const WALK: &[Said] = &[CHAIN, NEXT, None];

const WALKED: &[u8] = b"removed available\n1 0 available possible available\nunknown command\n";

#[test]
fn a_walk_is_printed_after_a_refused_growth(rt: HostRuntime) {
    let printed = again!(walked(rt.alloc(), WALK, WALKED));
    assert_eq!(rt; printed, Ok((Ok(()), true)));
}

/// The writer fails within the second line.
#[test]
fn a_writer_that_fails_ends_the_script(rt: HostRuntime) {
    let printed = walked(rt.alloc(), &[BACK, BACK], b"at start\nat star");
    assert_eq!(rt; printed, Ok((Err(PrintError::Device), true)));
}

/// Lines, and what they say.
const LINES: &[(&[u8], Said)] = rows! {
    (b"chain", CHAIN),
    (b"run removed", Some(ScriptCommand::Move(Move::Run(Removed)))),
    (b"run flying", None),
    (b"\xff", None),
};

/// The place of the first of these lines that says something else.
fn first_misread(lines: &[(&[u8], Said)]) -> Option<usize> {
    for (at, (line, said)) in lines.iter().enumerate() {
        if ScriptCommand::of_line(line) != *said {
            return Some(at);
        }
    }
    None
}

/// The same between two fences, and how a script that quits ends, which prints nothing.
fn misread_and_quit(
    alloc: Global,
    lines: &[(&[u8], Said)],
) -> Result<(Option<usize>, Result<(), PrintError>), Lack> {
    let mut session = opened(alloc)?.session;
    let mut writer = Expects { rest: b"" };
    let _begun = fence(alloc);
    let misread = first_misread(lines);
    let end = print_walk(alloc, &mut writer, &mut session, &[QUIT, None]);
    let _ended = fence(alloc);
    Ok((misread, end))
}

/// Lines are read, and a script that quits prints nothing.
#[test]
fn lines_are_read_with_every_growth_refused(rt: HostRuntime) {
    assert_eq!(rt; misread_and_quit(rt.alloc(), LINES), Ok((None, Ok(()))));
}
