//! Room ahead in files of lines.
use mds_journal::{Group, Memory, read_all};
use std::alloc::Global;

/// How many bytes are written ahead.
pub(crate) const ROOM: usize = 1_048_576;

/// A group of one line with a text of so many bytes.
fn group_of(alloc: Global, length: u32) -> Option<Group> {
    let mut text = Vec::new(alloc);
    text.resize(length as usize, b'x').ok()?;
    let mut group = Group::new(alloc).ok()?;
    group.push(&text).ok()?;
    Some(group)
}

/// How long a file of 6 bytes is behind each of some groups, and its bytes then.
fn grown(alloc: Global) -> Option<(Vec<usize>, Vec<u8>)> {
    let (short, small) = (group_of(alloc, 10)?, group_of(alloc, 1_000)?);
    let (large, longer) = (group_of(alloc, 1_048_000)?, group_of(alloc, 1_048_576)?);
    let device = Memory::new(alloc, b" one\n#").ok()?;
    let Ok((mut journal, _lines)) = read_all(alloc, device, 8) else {
        return None;
    };
    journal.append(&short).ok()?;
    let made = journal.device.bytes().len();
    journal.append(&short).ok()?;
    let there = journal.device.bytes().len();
    journal.append(&large).ok()?;
    let nearly_full = journal.device.bytes().len();
    journal.append(&small).ok()?;
    let made_again = journal.device.bytes().len();
    journal.append(&longer).ok()?;
    let without = journal.device.bytes().len();
    journal.append(&short).ok()?;
    let bytes = Vec::from_slice(alloc, journal.device.bytes()).ok()?;
    let last = bytes.len();
    let found = [made, there, nearly_full, made_again, without, last];
    let lengths = Vec::from_slice(alloc, &found).ok()?;
    Some((lengths, bytes))
}

/// How many lines a file stands for, and how long it is once its end is repaired.
fn opened(alloc: Global, file: &[u8]) -> Option<(usize, usize)> {
    let device = Memory::new(alloc, file).ok()?;
    let Ok((journal, lines)) = read_all(alloc, device, 1_048_576) else {
        return None;
    };
    Some((lines.len(), journal.device.bytes().len()))
}

/// How long the file is: room is made behind the gate at 5, and is there for the next group, and for a large one; of it 550 bytes
/// are left then, behind the gate at 1,048,031. A group that is longer than the room has none.
const LENGTHS: &[usize] = &[
    6 + ROOM,
    6 + ROOM,
    6 + ROOM,
    1_048_032 + ROOM,
    2_097_612,
    2_097_612 + ROOM,
];

/// Whether the file grows so, and stands for its seven lines, behind which the room is cut off.
fn is_so(alloc: Global) -> bool {
    match grown(alloc) {
        Some((lengths, bytes)) => lengths.as_slice() == LENGTHS
            && opened(alloc, &bytes) == Some((7, 2_097_624)),
        None => false,
    }
}

#[test]
fn room_is_made_after_a_refused_growth(rt: HostRuntime) {
    assert!(rt; is_so(rt.alloc()) || is_so(rt.alloc()));
}
