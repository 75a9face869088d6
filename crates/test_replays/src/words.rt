//! What words ask for.
use mds_args::{Command, CutWords, WordsErrorKind, parse_words};
use std::alloc::Global;
use test_fixtures::fence;

/// Words, of which the first is the program's name, and the command that they ask for, or why they ask for none.
type Case<'a> = (&'a [&'a str], Result<Command<'a>, WordsErrorKind>);

fn cases() -> [Case<'static>; 8] {
    [
        (
            &["mds_city", "replay", "--workers=64", "F", "--any"],
            Ok(replay()),
        ),
        (&["mds_city", "table"], Ok(Command::Table { table: None })),
        (&["mds_city", "replay", "-", "--workers=65"], mistake()),
        (&["mds_city", "compact", "OLD", "NEW"], mistake()),
        (
            &["mds_city", "compact", "OLD", "NEW", "--cut", "P", "D"],
            mistake(),
        ),
        (
            &["mds_city", "compact", "OLD", "NEW", "--cut", "P", "D", "x"],
            mistake(),
        ),
        (&[], mistake()),
        (&["mds_city", "--help"], Err(WordsErrorKind::Help)),
    ]
}

fn replay() -> Command<'static> {
    Command::Replay {
        file: "F",
        table: None,
        any: true,
        lines: false,
        unlimited: false,
        workers: 64,
    }
}

fn mistake() -> Result<Command<'static>, WordsErrorKind> {
    Err(WordsErrorKind::Mistake)
}

/// The command that words ask for, or why they ask for none.
fn command_of<'a>(alloc: Global, words: &'a [&'a str]) -> Result<Command<'a>, WordsErrorKind> {
    parse_words(alloc, words).map_err(|error| error.kind())
}

/// The same, asked again where a growth is refused.
fn command_again<'a>(alloc: Global, words: &'a [&'a str]) -> Result<Command<'a>, WordsErrorKind> {
    match command_of(alloc, words) {
        Err(WordsErrorKind::Memory) => command_of(alloc, words),
        other => other,
    }
}

/// The place of the first case that comes to something else.
fn first_other(alloc: Global, cases: &[Case<'_>]) -> Option<usize> {
    for (place, (words, came)) in cases.iter().enumerate() {
        if command_again(alloc, words) != *came {
            return Some(place);
        }
    }
    None
}

/// Words that ask for cuts of two vehicles.
const CUT: &[&str] = &[
    "mds_city", "compact", "OLD", "NEW", "--cut", "P", "D", "3", "--cut", "Q", "E", "0",
];

/// Whether these words ask for a compaction by these cuts, and no time.
fn cuts_are(alloc: Global, words: &[&str], wanted: &[CutWords<'_>]) -> bool {
    match command_again(alloc, words) {
        Ok(Command::Compact { before, cuts, .. }) => {
            before.is_none() && cuts.as_slice() == wanted
        }
        _ => false,
    }
}

#[test]
fn cuts_are_read_after_a_refused_growth(rt: HostRuntime) {
    let wanted = [("P", "D", 3), ("Q", "E", 0)].map(|(provider, device, events)| CutWords {
        provider,
        device,
        events,
    });
    assert!(rt; cuts_are(rt.alloc(), CUT, &wanted));
}

/// Growths are refused by `tests/refused-growths`.
#[test]
fn words_are_read_after_a_refused_growth(rt: HostRuntime) {
    assert_eq!(rt; first_other(rt.alloc(), &cases()), None);
}

#[test]
fn kinds_are_told_with_every_growth_refused(rt: HostRuntime) {
    let came = parse_words(rt.alloc(), &["mds_city", "table", "X"]);
    let _begun = fence(rt.alloc());
    let kind = came.map_err(|error| error.kind()).err();
    let _ended = fence(rt.alloc());
    assert_eq!(rt; kind, Some(WordsErrorKind::Mistake));
}
