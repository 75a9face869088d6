//! The worked cases of lines, and that each call can succeed.
use crate::told::{Expected, FIVE_EVENTS, FIVE_REPORT, NOTHING, is_report};
use mds_batch::ItemFault;
use mds_trace::{
    ItemsFault, LineFault, LineReplay, Opening, Report, UnlimitedItems, UnlimitedReplay, Verdict,
};
use std::alloc::{AllocError, Global};
use test_fixtures::{Lack, again, fence, profile};

/// Ten items that are no objects.
const TEN: &str = "7\n7\n7\n7\n7\n7\n7\n7\n7\n7";

/// What they come to.
const NO_OBJECTS: Expected = Expected(&[Verdict::Fault(ItemFault::NotObject); 10], &[], (0, 10));

/// A stream, how long the pieces are in which it is fed, what vehicles are taken to hold first, and what it comes to.
type Stream = (
    &'static str,
    usize,
    Opening,
    Result<&'static Expected, LineFault>,
);

/// The fault of the second line.
const SECOND: LineFault = LineFault::NotJson { line: 1 };

/// The report of the five events.
const FIVE: Result<&Expected, LineFault> = Ok(&FIVE_REPORT);

const STREAMS: &[Stream] = &[
    (FIVE_EVENTS, usize::MAX, Opening::Removed, FIVE),
    (FIVE_EVENTS, 1, Opening::Removed, FIVE),
    (FIVE_EVENTS, 100, Opening::Removed, FIVE),
    (FIVE_EVENTS, 16_384, Opening::Removed, FIVE),
    (FIVE_EVENTS, usize::MAX, Opening::Any, FIVE),
    (FIVE_EVENTS, 1, Opening::Any, FIVE),
    ("", 1, Opening::Removed, Ok(&NOTHING)),
    (TEN, 3, Opening::Any, Ok(&NO_OBJECTS)),
    ("7\n{", 1, Opening::Any, Err(SECOND)),
];

/// A replay over the profile of a stream of which nothing has come.
fn opened(alloc: Global, opening: Opening) -> Result<LineReplay, AllocError> {
    let tables = profile(alloc)?;
    Ok(LineReplay::open(alloc, tables, opening))
}

/// The replay of a stream that is fed in pieces of this length, up to its first fault.
fn fed(mut replay: LineReplay, stream: &str, len: usize) -> Result<Report, LineFault> {
    for piece in stream.as_bytes().chunks(len.max(1)) {
        replay.feed(piece)?;
    }
    replay.finish()
}

/// Whether a stream comes to what is expected.
fn comes_out(alloc: Global, stream: &Stream) -> Result<bool, Lack> {
    let (text, len, opening, expected) = *stream;
    match (fed(opened(alloc, opening)?, text, len), expected) {
        (Err(LineFault::Memory), _) => Err(Lack::Memory),
        (Ok(report), Ok(expected)) => Ok(is_report(&report, expected)),
        (ended, expected) => Ok(ended.err() == expected.err()),
    }
}

/// The place of the first stream that comes to something else.
fn first_other(alloc: Global, streams: &[Stream]) -> Result<Option<usize>, Lack> {
    for (at, stream) in streams.iter().enumerate() {
        if !comes_out(alloc, stream)? {
            return Ok(Some(at));
        }
    }
    Ok(None)
}

#[test]
fn worked_streams(rt: HostRuntime) {
    assert_eq!(rt; first_other(rt.alloc(), STREAMS), Ok(None));
}

/// The faults of a replay whose second line is none: at that line, behind it, and at the end.
fn told_again(alloc: Global) -> Result<[Option<LineFault>; 3], AllocError> {
    let mut replay = opened(alloc, Opening::Removed)?;
    let first = replay.feed(b"7\n{\n").err();
    let again = replay.feed(b"7\n").err();
    Ok([first, again, replay.finish().err()])
}

#[test]
fn a_fault_is_told_again(rt: HostRuntime) {
    assert_eq!(rt; told_again(rt.alloc()), Ok([Some(SECOND); 3]));
}

/// How a replay that takes in no byte goes, between two fences.
fn begun(alloc: Global) -> Result<Result<(), LineFault>, AllocError> {
    let tables = profile(alloc)?;
    let _begun = fence(alloc);
    let mut replay = LineReplay::open(alloc, tables, Opening::Any);
    let fed = replay.feed(b"");
    let _ended = fence(alloc);
    Ok(fed)
}

/// A replay is opened and takes in no byte (`tests/refused-growths` refuses each growth meanwhile).
#[test]
fn a_stream_begins_with_every_growth_refused(rt: HostRuntime) {
    assert_eq!(rt; begun(rt.alloc()), Ok(Ok(())));
}

/// The stream of the five events, in other pieces.
const IN_PIECES: Stream = (FIVE_EVENTS, 300, Opening::Any, FIVE);

/// The replay of the five events, begun anew where a growth is refused (by `tests/refused-growths`).
#[test]
fn lines_are_replayed_after_a_refused_growth(rt: HostRuntime) {
    assert_eq!(rt; again!(comes_out(rt.alloc(), &IN_PIECES)), Ok(true));
}

/// The next verdict on the items of a stream, the item being taken again where a growth is refused; or `None` at its end.
fn next_verdict(
    items: &mut UnlimitedItems<&[u8]>,
    replay: &mut UnlimitedReplay,
) -> Result<Option<Verdict>, Lack> {
    match items.next_item() {
        Ok(Some(item)) => Ok(Some(again!(replay.take(item))?)),
        Ok(None) => Ok(None),
        Err(ItemsFault::Memory) => Err(Lack::Memory),
        Err(_) => Err(Lack::Case),
    }
}

/// What a replay comes to that takes the items of the five events one by one.
fn taken_one_by_one(alloc: Global) -> Result<Report, Lack> {
    let mut items = UnlimitedItems::new(alloc, FIVE_EVENTS.as_bytes());
    let mut replay = UnlimitedReplay::open(alloc, profile(alloc)?, Opening::Removed);
    let mut lines = Vec::new(alloc);
    for _ in 0..FIVE_EVENTS.len() {
        let Some(verdict) = next_verdict(&mut items, &mut replay)? else {
            break;
        };
        lines.push(verdict)?;
    }
    let end = replay.finish()?;
    Ok(Report {
        lines,
        vehicles: end.vehicles,
        accepted: end.accepted,
        refused: end.refused,
    })
}

/// Whether that is the report of the five events.
fn is_taken_one_by_one(alloc: Global) -> Result<bool, Lack> {
    Ok(is_report(&taken_one_by_one(alloc)?, &FIVE_REPORT))
}

/// The same, begun anew where a growth is refused (by `tests/refused-growths`).
#[test]
fn items_are_taken_without_limits_after_a_refused_growth(rt: HostRuntime) {
    assert_eq!(rt; again!(is_taken_one_by_one(rt.alloc())), Ok(true));
}
