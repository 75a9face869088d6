//! Each command, from bytes to bytes, carried out again where a growth is refused (by `tests/refused-growths`).
ghost use Rattle.mds_trace.specs.WithFault.{IsWorkerCount};

use crate::told::FIVE_EVENTS as FIVE_EVENTS_IN_LINES;
use mds_commands::{
    Form, Named, Problem, ReplayOptions, Source, debug_live_to, debug_to, judge_journal, replay_to,
    replay_unlimited_to, table_to, tables_in, tell, torn_to,
};
use mds_trace::Opening;
use std::alloc::Global;
use std::random::RandomSource;
use std::thread::Threads;
use test_fixtures::{Expects, PAUSES, Stream, again, fence, rows};

/// The five-event run, and the lines that it prints.
const FIVE_EVENTS: &str = r#"[
{"provider_id":"00000000-0000-4000-8000-000000000001","device_id":"00000000-0000-4000-8000-00000000000a","event_id":"00000000-0000-4000-8000-0000000000e1","vehicle_state":"available","event_types":["provider_drop_off"],"timestamp":1000},
{"provider_id":"00000000-0000-4000-8000-000000000001","device_id":"00000000-0000-4000-8000-00000000000a","event_id":"00000000-0000-4000-8000-0000000000e2","vehicle_state":"on_trip","event_types":["trip_start"],"timestamp":2000},
{"provider_id":"00000000-0000-4000-8000-000000000001","device_id":"00000000-0000-4000-8000-00000000000b","event_id":"00000000-0000-4000-8000-0000000000e1","vehicle_state":"available","event_types":["agency_drop_off"],"timestamp":1500},
{"provider_id":"00000000-0000-4000-8000-000000000001","device_id":"00000000-0000-4000-8000-00000000000a","event_id":"00000000-0000-4000-8000-0000000000e3","vehicle_state":"non_operational","event_types":["battery_low"],"timestamp":3000},
{"provider_id":"00000000-0000-4000-8000-000000000001","device_id":"00000000-0000-4000-8000-00000000000a","event_id":"00000000-0000-4000-8000-0000000000e4","vehicle_state":"available","event_types":["trip_end"],"timestamp":1999}
]"#;

const FIVE_LINES: &str = "0 ok available
1 ok on_trip
2 ok available
3 refused no_chain on_trip 0
4 refused late 2000
vehicle 00000000-0000-4000-8000-000000000001 00000000-0000-4000-8000-00000000000a on_trip 2
vehicle 00000000-0000-4000-8000-000000000001 00000000-0000-4000-8000-00000000000b available 1
accepted 3 refused 2
";

/// What `run on_trip` shows of the five events.
const FIVE_SHOWN: &str = "events 2 refused 2
0 0 removed possible removed
2 0 on_trip possible on_trip
";

/// A table of one row, and what is printed of it.
const ONE_ROW: &str = r#"{"rows":[{"from":"removed","type":"wake","to":"available"}]}"#;

const ONE_ROW_LINES: &str = "wake removed available\nrows 1\n";

/// A table from 0, another from 2000, and what is printed of both.
const TWO_TABLES: &str = r#"{"tables":[
{"from_time":0,"rows":[{"from":"removed","type":"wake","to":"available"}]},
{"from_time":2000,"rows":[{"from":"available","type":"rest","to":"removed"}]}]}"#;

const TWO_TABLES_LINES: &str =
    "from 0\nwake removed available\nrows 1\nfrom 2000\nrest available removed\nrows 1\n";

/// Two events of a vehicle, a script, and what it shows of them.
const TWO_EVENTS: &str = r#"[
{"provider_id":"00000000-0000-4000-8000-000000000001","device_id":"00000000-0000-4000-8000-00000000000a","event_id":"00000000-0000-4000-8000-0000000000e1","vehicle_state":"non_contactable","event_types":["comms_lost"],"timestamp":1000},
{"provider_id":"00000000-0000-4000-8000-000000000001","device_id":"00000000-0000-4000-8000-00000000000a","event_id":"00000000-0000-4000-8000-0000000000e2","vehicle_state":"available","event_types":["comms_restored","trip_end"],"timestamp":2000}
]"#;

const SCRIPT: &str = "next\nstep\nchain\nstep\nstep\nstep\nback\nrun removed\n";

const SCRIPT_LINES: &str = "events 2 refused 0
0 0 removed possible removed
1 0 non_contactable possible non_contactable
1 1 non_contactable possible removed,available,non_operational,reserved,on_trip,elsewhere
non_contactable on_trip available
1 2 non_contactable possible available
2 0 available possible available
at end
1 2 non_contactable possible available
at end
";

/// The provider and the device of both.
const PROVIDER: &str = "00000000-0000-4000-8000-000000000001";

const DEVICE: &str = "00000000-0000-4000-8000-00000000000a";

/// The line that tells the want of memory.
const NO_MEMORY: &str = "mds_city: out of memory\n";

/// A command on the file of a text.
#[derive(Clone, Copy)]
enum Asked {
    Replay(Form),
    /// A replay of a batch by four workers.
    ByFour,
    /// A replay of lines without the limits of a batch.
    Unlimited,
    /// A print of the file's tables.
    Table,
    /// The debugger on the vehicle of this device, with this script.
    Debug(&'static str, &'static str),
    /// The same, each line of the script being answered as it comes.
    DebugLive(&'static str, &'static str),
}

/// A command, the text of its file, and the lines that it prints.
type Run = (Asked, &'static str, &'static str);

/// What a command came to: its status, whether all its lines went out, and whether the want of memory was told.
type Came = (u8, bool, bool);

/// A file of this text.
fn file<'a>(path: &'a str, text: &'a str) -> Source<'a, &'a [u8]> {
    Source {
        path,
        reader: Some(text.as_bytes()),
    }
}

/// A writer of which this text is expected.
fn expecting(text: &str) -> Expects<'_> {
    Expects {
        rest: text.as_bytes(),
    }
}

/// The code of the status of a replay of a file of this form by so many workers.
fn replayed<P: Threads + Sync>(
    rt: &P,
    alloc: Global,
    file: Source<'_, &[u8]>,
    form: Form,
    workers: usize,
    out: &mut Expects<'_>,
    faults: &mut Expects<'_>,
) -> u8
    requires { IsWorkerCount workers }
{
    let table: Option<Source<'_, &[u8]>> = None;
    let options = ReplayOptions {
        opening: Opening::Removed,
        form,
        workers,
    };
    replay_to(rt, alloc, table, file, options, out, faults).code()
}

/// The code of the status of a replay of a file's lines without limits.
fn replayed_whole(
    alloc: Global,
    file: Source<'_, &[u8]>,
    out: &mut Expects<'_>,
    faults: &mut Expects<'_>,
) -> u8 {
    let table: Option<Source<'_, &[u8]>> = None;
    replay_unlimited_to(alloc, table, file, Opening::Removed, out, faults).code()
}

/// The code of the status of the debugger that answers each line as it comes.
fn debugged_live(
    alloc: Global,
    file: Source<'_, &[u8]>,
    named: Named<'_>,
    script: &str,
    out: &mut Expects<'_>,
    faults: &mut Expects<'_>,
) -> u8 {
    let table: Option<Source<'_, &[u8]>> = None;
    let mut keys = script.as_bytes();
    debug_live_to(alloc, table, file, named, &mut keys, out, faults).code()
}

/// What the command comes to, where this is expected of its faults.
fn came<P: Threads + Sync>(rt: &P, alloc: Global, run: &Run, fault: &str) -> Came {
    let (asked, text, lines) = *run;
    let mut out = expecting(lines);
    let mut faults = expecting(fault);
    let read = file("F", text);
    let status = match asked {
        Asked::Replay(form) => replayed(rt, alloc, read, form, 1, &mut out, &mut faults),
        Asked::ByFour => replayed(rt, alloc, read, Form::Batch, 4, &mut out, &mut faults),
        Asked::Unlimited => replayed_whole(alloc, read, &mut out, &mut faults),
        Asked::Table => table_to(alloc, Some(read), &mut out, &mut faults).code(),
        Asked::Debug(device, script) => {
            let provider = PROVIDER;
            let named = Named { provider, device };
            let table: Option<Source<'_, &[u8]>> = None;
            let mut keys = script.as_bytes();
            debug_to(alloc, table, read, named, &mut keys, &mut out, &mut faults).code()
        }
        Asked::DebugLive(device, script) => {
            let provider = PROVIDER;
            let named = Named { provider, device };
            debugged_live(alloc, read, named, script, &mut out, &mut faults)
        }
    };
    (status, out.rest.is_empty(), faults.rest.is_empty())
}

/// The same, carried out again where the want of memory, and nothing else, was told.
fn came_again<P: Threads + Sync>(rt: &P, alloc: Global, run: &Run) -> Came {
    match came(rt, alloc, run, NO_MEMORY) {
        (4, _, true) => came(rt, alloc, run, NO_MEMORY),
        first => first,
    }
}

/// Each command, its status, and what it prints.
const RUNS: &[(u8, Run)] = rows! {
    (1, (Asked::Replay(Form::Batch), FIVE_EVENTS, FIVE_LINES)),
    (1, (Asked::ByFour, FIVE_EVENTS, FIVE_LINES)),
    (1, (Asked::Replay(Form::Lines), FIVE_EVENTS_IN_LINES, FIVE_LINES)),
    (1, (Asked::Unlimited, FIVE_EVENTS_IN_LINES, FIVE_LINES)),
    (0, (Asked::Table, ONE_ROW, ONE_ROW_LINES)),
    (0, (Asked::Table, TWO_TABLES, TWO_TABLES_LINES)),
    (0, (Asked::Debug(DEVICE, SCRIPT), TWO_EVENTS, SCRIPT_LINES)),
    (1, (Asked::Debug(DEVICE, "run on_trip"), FIVE_EVENTS, FIVE_SHOWN)),
    (0, (Asked::DebugLive(DEVICE, SCRIPT), TWO_EVENTS, SCRIPT_LINES)),
    (1, (Asked::DebugLive(DEVICE, "run on_trip"), FIVE_EVENTS, FIVE_SHOWN)),
};

/// The first command that comes to something else.
fn first_other<P: Threads + Sync>(rt: &P, alloc: Global) -> Option<usize> {
    for (at, (status, run)) in RUNS.iter().enumerate() {
        if came_again(rt, alloc, run) != (*status, true, false) {
            return Some(at);
        }
    }
    None
}

#[test]
fn commands_succeed_after_a_refused_growth(rt: HostRuntime) {
    assert_eq!(rt; first_other(&rt, rt.alloc()), None);
}

/// Bad words are told without memory, before the file is looked at.
#[test]
fn bad_words_are_told_with_every_growth_refused(rt: HostRuntime) {
    let fault = "mds_city: bad identifier\n";
    let _begun = fence(rt.alloc());
    let whole = came(&rt, rt.alloc(), &(Asked::Debug("a", ""), "{", ""), fault);
    let live = came(
        &rt,
        rt.alloc(),
        &(Asked::DebugLive("a", ""), "{", ""),
        fault,
    );
    let _ended = fence(rt.alloc());
    assert_eq!(rt; [whole, live], [(2, true, true); 2]);
}

/// A file of this text, if one is given.
fn source_of(text: Option<&'static str>) -> Option<Source<'static, &'static [u8]>> {
    Some(file("T", text?))
}

/// How many tables are had of a file, or where none is given, asked for again where a growth is refused; 0 where there are none
/// to be had.
fn table_count(alloc: Global, text: Option<&'static str>) -> usize {
    match again!(tables_in(alloc, source_of(text))) {
        Ok(tables) => tables.len(),
        Err(_) => 0,
    }
}

#[test]
fn tables_are_had_after_a_refused_growth(rt: HostRuntime) {
    let profile = table_count(rt.alloc(), None);
    let two = table_count(rt.alloc(), Some(TWO_TABLES));
    assert_eq!(rt; (profile, two), (1, 2));
}

/// A journal of one registration.
const JOURNAL: &str = " {\"form\":\"mds_city\",\"version\":1}
 {\"device_id\":\"00000000-0000-4000-8000-00000000000a\",\"provider_id\":\"00000000-0000-4000-8000-000000000001\"}
";

/// Whether the requests of a journal are accepted over two tables, judged again where a growth is refused.
fn is_accepted<R: RandomSource>(rt: &R, alloc: Global, text: &str) -> bool {
    let judged = again!(judge_journal(rt, alloc, source_of(Some(TWO_TABLES)), file("J", text)));
    judged.is_ok()
}

#[test]
fn a_journal_is_judged_after_a_refused_growth(rt: HostRuntime) {
    let whole = is_accepted(&rt, rt.alloc(), JOURNAL);
    let none = is_accepted(&rt, rt.alloc(), "");
    assert_eq!(rt; (whole, none), (true, false));
}

/// What is answered to the want of memory, whether it was told, and the status of a table file that was not opened.
fn told(alloc: Global) -> (u8, bool, Option<u8>) {
    let mut faults = expecting(NO_MEMORY);
    let status = tell(alloc, &mut faults, Problem::Memory);
    let (path, reader): (_, Option<&[u8]>) = ("-", None);
    let unopened = tables_in(alloc, Some(Source { path, reader })).err();
    let code = unopened.map(|problem| problem.status().code());
    (status.code(), faults.rest.is_empty(), code)
}

#[test]
fn problems_are_told_with_every_growth_refused(rt: HostRuntime) {
    let _begun = fence(rt.alloc());
    let told = told(rt.alloc());
    let _ended = fence(rt.alloc());
    assert_eq!(rt; told, (4, true, Some(3)));
}

/// The status of telling where notes don't fit, and whether all of this went out.
fn torn(shard: usize, place: usize, text: &str) -> (u8, bool) {
    let mut faults = expecting(text);
    let status = torn_to(&mut faults, shard, place);
    (status.code(), faults.rest.is_empty())
}

/// The same of a writer that takes three bytes and is interrupted from then on, and in how many calls.
fn torn_in_vain() -> (u8, u32) {
    let mut faults = Stream::new((3, 1, true, PAUSES));
    (torn_to(&mut faults, 1, 2).code(), faults.calls)
}

/// The longest line, too, is told without memory.
#[test]
fn torn_is_told_with_every_growth_refused(rt: HostRuntime) {
    let most = "mds_city: torn 18446744073709551615 18446744073709551615\n";
    let _begun = fence(rt.alloc());
    let short = torn(1, 2, "mds_city: torn 1 2\n");
    let long = torn(usize::MAX, usize::MAX, most);
    let (broken, vain) = (torn(1, 2, ""), torn_in_vain());
    let _ended = fence(rt.alloc());
    let told = [short, long, broken];
    assert_eq!(rt;
        (told, vain),
        ([(5, true), (5, true), (3, true)], (3, 5_000_000))
    );
}
