//! The groups of a journal's lines: that the calls succeed, and the very bytes of checks, as zlib has them.
use mds_groups::{GroupError, GroupStream, JournalForm, WholeGroup, end_group, form_check};
use mds_journal::Group;
use std::alloc::Global;
use std::fmt::Write as _;

const PLAIN: &str = "{\"form\":\"mds_city\",\"version\":1}";

const CHECKED: &str = "{\"form\":\"mds_city\",\"version\":2}";

const FORM_CHECK: &str = "{\"crc32\":\"033c3350\"}";

const AB_CHECK: &str = "{\"crc32\":\"f2d2bcd7\"}";

const C_CHECK: &str = "{\"crc32\":\"69094e88\"}";

/// The lines of a file, and what is told of them: each group behind a bar, with the number of its first line, and the fault
/// behind a mark.
const READ: &[(&[&str], &str)] = &[
    (&[], "!form"),
    (&["{}"], "!form"),
    (&[PLAIN], ""),
    (&[PLAIN, "a", "b"], "|1 a|2 b"),
    (&[PLAIN, "a", AB_CHECK], "|1 a!damaged 0"),
    (&[CHECKED], "!damaged 0"),
    (&[CHECKED, "a"], "!damaged 0"),
    (&[CHECKED, C_CHECK], "!damaged 0"),
    (&[CHECKED, FORM_CHECK], ""),
    (
        &[CHECKED, FORM_CHECK, "a", "b", AB_CHECK, "c", C_CHECK],
        "|2 a b|5 c",
    ),
    (
        &[CHECKED, FORM_CHECK, "a", "b", AB_CHECK, "a", "b", C_CHECK],
        "|2 a b!damaged 5",
    ),
    (
        &[CHECKED, FORM_CHECK, "a", "b", AB_CHECK, "c"],
        "|2 a b!damaged 5",
    ),
];

/// The texts of a group, and its lines in a file of this form.
const WRITTEN: &[(JournalForm, &[&str], &str)] = &[
    (JournalForm::Plain, &["a", "b"], " a\n b\n"),
    (JournalForm::Checked, &[], ""),
    (
        JournalForm::Checked,
        &[CHECKED],
        " {\"form\":\"mds_city\",\"version\":2}\n {\"crc32\":\"033c3350\"}\n",
    ),
    (
        JournalForm::Checked,
        &["a", "b"],
        " a\n b\n {\"crc32\":\"f2d2bcd7\"}\n",
    ),
];

fn add_group(told: &mut String, group: &WholeGroup) -> Option<()> {
    write!(told, "|{}", group.first).ok()?;
    for text in &group.texts {
        write!(told, " {}", str::from_utf8(text).ok()?).ok()?;
    }
    Some(())
}

/// What is told of these lines; nothing where there was no memory.
fn told_of(alloc: Global, lines: &[&str]) -> Option<String> {
    let mut stream = GroupStream::new(alloc);
    let mut told = String::new(alloc);
    for (number, line) in lines.iter().enumerate() {
        match stream.take(number, line.as_bytes()) {
            Ok(None) => {}
            Ok(Some(group)) => add_group(&mut told, &group)?,
            Err(GroupError::Memory) => return None,
            Err(GroupError::Fault(fault)) => {
                write!(told, "!{fault}").ok()?;
                return Some(told);
            }
        }
    }
    if let Err(fault) = stream.finish(lines.len()) {
        write!(told, "!{fault}").ok()?;
    }
    Some(told)
}

fn is_read(alloc: Global, lines: &[&str], wanted: &str) -> Option<bool> {
    Some(told_of(alloc, lines)?.as_str() == wanted)
}

/// The lines of a group of these texts, as they stand in a file of this form.
fn is_written(alloc: Global, form: JournalForm, texts: &[&str], wanted: &str) -> Option<bool> {
    let mut group = Group::new(alloc).ok()?;
    for text in texts {
        group.push(text.as_bytes()).ok()?;
    }
    end_group(&mut group, form).ok()?;
    Some(group.open_lines() == wanted.as_bytes())
}

/// The place of the first file of which something else is told, at once and at a second try.
fn first_misread(alloc: Global) -> Option<usize> {
    for (at, (lines, wanted)) in READ.iter().enumerate() {
        if is_read(alloc, lines, wanted).or_else(|| is_read(alloc, lines, wanted)) != Some(true) {
            return Some(at);
        }
    }
    None
}

/// The place of the first group that is written otherwise, at once and at a second try.
fn first_miswritten(alloc: Global) -> Option<usize> {
    for (at, (form, texts, wanted)) in WRITTEN.iter().enumerate() {
        let written = is_written(alloc, *form, texts, wanted);
        if written.or_else(|| is_written(alloc, *form, texts, wanted)) != Some(true) {
            return Some(at);
        }
    }
    None
}

#[test]
fn groups_are_read_after_a_refused_growth(rt: HostRuntime) {
    assert_eq!(rt; first_misread(rt.alloc()), None);
}

#[test]
fn groups_are_written_after_a_refused_growth(rt: HostRuntime) {
    assert_eq!(rt; first_miswritten(rt.alloc()), None);
}

#[test]
fn the_lines_before_the_first_group_are_known(rt: HostRuntime) {
    let named = [JournalForm::Plain, JournalForm::Checked].map(|form| form.first_line());
    assert!(rt; named == [PLAIN, CHECKED] && form_check().as_slice() == FORM_CHECK.as_bytes());
}
