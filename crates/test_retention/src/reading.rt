//! The parts of a compaction: lines that are read, passes, and a draft.
use crate::texts::{
    CHECKED, FORM, FREE_1, FREE_3, GROUP, OF_CHECKED, REGISTRATION, RIDE_2, RIDE_4, RIDES,
    WITHOUT_LOOP, lines_of,
};
use mds_compact::Cutting;
use mds_file::NewFileFault;
use mds_journal::{Group, Memory};
use mds_retention::{
    CompactError, Draft, LinesError, RequestLines, events_of, kept_lines, marks_of, survey_of,
    thinning_of,
};
use std::alloc::Global;
use std::hash::RandomState;
use std::random::RandomSource;
use test_fixtures::{A, again, key};

/// Whether the vehicle's registration is read, and nothing behind it.
fn reads_a_registration(alloc: Global) -> Result<bool, LinesError> {
    let bytes = lines_of(alloc, &[FORM, REGISTRATION])?;
    let mut lines = RequestLines::open(alloc, bytes.as_slice());
    let first = lines.next()?;
    let second = lines.next()?;
    Ok(first.is_some_and(|it| *it.key() == key(A)) && second.is_none() && lines.count() == 1)
}

#[test]
fn requests_are_read_after_a_refused_growth(rt: HostRuntime) {
    assert_eq!(rt; again!(reads_a_registration(rt.alloc())), Ok(true));
}

/// The lines of the vehicle's events, by a journal of either version.
fn lines_of_events(alloc: Global) -> Result<[Option<Vec<u8>>; 2], LinesError> {
    let plain = lines_of(alloc, RIDES)?;
    let groups = lines_of(alloc, GROUP)?;
    Ok([
        events_of(alloc, plain.as_slice(), key(A))?,
        events_of(alloc, groups.as_slice(), key(A))?,
    ])
}

/// Whether these are the rides, without their gates.
fn reads_events(alloc: Global) -> Result<bool, LinesError> {
    let mut wanted = Vec::new(alloc);
    for text in [FREE_1, RIDE_2, FREE_3, RIDE_4] {
        wanted.extend_from_slice(text.as_bytes())?;
        wanted.push(b'\n')?;
    }
    let found = lines_of_events(alloc)?;
    Ok(
        found.iter().all(|lines| match lines {
            Some(lines) => lines.as_slice() == wanted.as_slice(),
            None => false,
        }),
    )
}

#[test]
fn events_are_read_after_a_refused_growth(rt: HostRuntime) {
    assert_eq!(rt; again!(reads_events(rt.alloc())), Ok(true));
}

/// Whether the passes, made one by one, leave the loop of the rides out.
fn passes_leave_a_loop_out(alloc: Global, hasher: RandomState) -> Result<bool, CompactError> {
    let old = lines_of(alloc, RIDES)?;
    let cutting = Cutting::open(alloc, &[], hasher)?;
    let surveyed = survey_of(alloc, old.as_slice(), cutting, hasher)?;
    let stays = surveyed.marks;
    let thinning = thinning_of(alloc, old.as_slice(), surveyed.survey, &stays, 10)?;
    let marked = marks_of(alloc, old.as_slice(), thinning, &stays)?;
    let mut draft = Draft::new(alloc, Group::new(alloc)?, Memory::new(alloc, b"")?);
    draft.begin()?;
    kept_lines(alloc, old.as_slice(), &marked.marks, &mut draft)?;
    draft.flush()?;
    Ok(draft.into_file().bytes() == lines_of(alloc, WITHOUT_LOOP)?.as_slice())
}

/// The same, where there may be no random numbers.
fn passes<R: RandomSource>(rt: &R, alloc: Global) -> Result<bool, CompactError> {
    let Ok(hasher) = RandomState::new(rt) else {
        return Ok(false);
    };
    again!(passes_leave_a_loop_out(alloc, hasher))
}

#[test]
fn passes_are_made_after_a_refused_growth(rt: HostRuntime) {
    assert_eq!(rt; passes(&rt, rt.alloc()), Ok(true));
}

/// Two groups, of a registration and of a ride.
const TWO_GROUPS: &[&str] = &[
    CHECKED,
    OF_CHECKED,
    REGISTRATION,
    "{\"crc32\":\"3b29ed11\"}",
    FREE_1,
    "{\"crc32\":\"b056d061\"}",
];

/// Whether the lines of a draft are those that were added.
fn a_draft_has_its_texts(alloc: Global) -> Result<bool, NewFileFault> {
    let mut draft = Draft::new(alloc, Group::new(alloc)?, Memory::new(alloc, b"")?);
    draft.begin()?;
    draft.add_text(REGISTRATION.as_bytes())?;
    draft.flush()?;
    draft.add_text(FREE_1.as_bytes())?;
    draft.flush()?;
    Ok(draft.into_file().bytes() == lines_of(alloc, TWO_GROUPS)?.as_slice())
}

/// What is answered where a text that is as long as a check is added.
fn text_of_a_check(alloc: Global) -> Result<NewFileFault, NewFileFault> {
    let mut draft = Draft::new(alloc, Group::new(alloc)?, Memory::new(alloc, b"")?);
    draft.begin()?;
    match draft.add_text(b"01234567890123456789") {
        Err(fault) if fault != NewFileFault::Memory => Ok(fault),
        _ => Err(NewFileFault::Memory),
    }
}

#[test]
fn lines_are_drafted_after_a_refused_growth(rt: HostRuntime) {
    assert_eq!(rt; again!(a_draft_has_its_texts(rt.alloc())), Ok(true));
}

#[test]
fn no_text_is_taken_for_a_check_after_a_refused_growth(rt: HostRuntime) {
    assert_eq!(rt;
        again!(text_of_a_check(rt.alloc())),
        Ok(NewFileFault::CannotWrite)
    );
}
