//! What no clause says: that the calls succeed, and the very bytes.
use crate::ahead::ROOM;
use mds_journal::{Device, Group, JournalFault, Memory, OpenError, Opening, read_all};
use std::alloc::Global;
use test_fixtures::room_behind;

/// A file's bytes, the texts that are added to it, and its bytes then, behind which so many of the room stand.
type Case = (
    &'static [u8],
    &'static [&'static [u8]],
    &'static [u8],
    usize,
);

const CASES: &[Case] = &[
    (b"", &[b"a"], b" a\n#", 0),
    (b"#", &[], b"#", 0),
    (b" one\n", &[b"two"], b" one\n two\n#", ROOM - 5),
    (
        b" one\n#torn\n x\n#",
        &[b"two", b"three"],
        b" one\n two\n three\n#",
        ROOM - 12,
    ),
    (b" one\n tw", &[], b" one\n#", 0),
];

/// The bytes of a file, once it was opened and a group of these texts was added, where memory allowed.
fn bytes_with(alloc: Global, file: &[u8], texts: &[&[u8]]) -> Option<Vec<u8>> {
    let mut group = Group::new(alloc).ok()?;
    for text in texts {
        group.push(text).ok()?;
    }
    let device = Memory::new(alloc, file).ok()?;
    let Ok((mut journal, _lines)) = read_all(alloc, device, 8) else {
        return None;
    };
    journal.append(&group).ok()?;
    Vec::from_slice(alloc, journal.device.bytes()).ok()
}

/// Whether a case comes to its bytes.
fn is_now(alloc: Global, case: &Case) -> bool {
    let (file, texts, wanted, room) = case;
    match bytes_with(alloc, file, texts) {
        Some(bytes) => room_behind(&bytes, *wanted) == Some(*room),
        None => false,
    }
}

/// The same, at once or at a second try: where a growth is refused the device may make no room, which is no error.
fn is_so(alloc: Global, case: &Case) -> bool {
    is_now(alloc, case) || is_now(alloc, case)
}

/// The place of the first case that comes to other bytes.
fn first_other(alloc: Global, cases: &[Case]) -> Option<usize> {
    for (at, case) in cases.iter().enumerate() {
        if !is_so(alloc, case) {
            return Some(at);
        }
    }
    None
}

#[test]
fn lines_are_added_after_a_refused_growth(rt: HostRuntime) {
    assert_eq!(rt; first_other(rt.alloc(), CASES), None);
}

/// The bytes of a file without lines, once it was opened step by step.
fn bytes_opened(alloc: Global) -> Option<Vec<u8>> {
    let device = Memory::new(alloc, b"").ok()?;
    let Ok(mut opening) = Opening::start(alloc, device, 8) else {
        return None;
    };
    let mut line = Vec::new(alloc);
    let Ok(false) = opening.next_line(&mut line) else {
        return None;
    };
    let Ok(journal) = opening.finish() else {
        return None;
    };
    Vec::from_slice(alloc, journal.device.bytes()).ok()
}

/// The bytes of a file in memory behind each call of a device.
fn bytes_behind(alloc: Global) -> Option<(usize, Vec<u8>)> {
    let mut device = Memory::new(alloc, b"old").ok()?;
    device.write_at(0, b"new").ok()?;
    device.sync().ok()?;
    let size = device.size().ok()?;
    let mut buffer = [0; 2];
    device.read_at(1, &mut buffer).ok()?;
    device.cut(0).ok()?;
    Some((size, Vec::from_slice(alloc, &buffer).ok()?))
}

#[test]
fn calls_are_made_after_a_refused_growth(rt: HostRuntime) {
    let alloc = rt.alloc();
    let opened = bytes_opened(alloc).or_else(|| bytes_opened(alloc));
    let behind = bytes_behind(alloc).or_else(|| bytes_behind(alloc));
    let is_so = match (opened, behind) {
        (Some(bytes), Some((3, read))) => bytes.as_slice() == b"#".as_slice()
            && read.as_slice() == b"ew".as_slice(),
        _ => false,
    };
    assert!(rt; is_so);
}

/// The lengths of lines that end before, at and behind the end of a piece that is read, and of one over several pieces.
const LENGTHS: &[u32] = &[65_530, 65_531, 65_532, 65_533, 200_000];

/// A file of a short line, one of so many bytes, and another short one.
fn long_file(alloc: Global, length: u32) -> Option<Vec<u8>> {
    let mut file = Vec::from_slice(alloc, b" a\n ").ok()?;
    file.resize(4 + length as usize, b'x').ok()?;
    file.extend_from_slice(b"\n bc\n#").ok()?;
    Some(file)
}

/// The fault of a file whose second line has more bytes than this.
fn fault_of(alloc: Global, file: &[u8], longest: u32) -> Option<JournalFault> {
    let device = Memory::new(alloc, file).ok()?;
    let Ok(mut opening) = Opening::start(alloc, device, longest as usize) else {
        return None;
    };
    let mut line = Vec::new(alloc);
    let Ok(true) = opening.next_line(&mut line) else {
        return None;
    };
    match opening.next_line(&mut line) {
        Err(OpenError::TooLong) => Some(JournalFault::TooLong(opening.number())),
        _ => None,
    }
}

/// The lengths of the lines of such a file, and its fault where one byte less is allowed.
fn lengths_of(alloc: Global, length: u32) -> Option<(usize, usize, usize, JournalFault)> {
    let file = long_file(alloc, length)?;
    let device = Memory::new(alloc, file.as_slice()).ok()?;
    let Ok((_journal, lines)) = read_all(alloc, device, length as usize) else {
        return None;
    };
    let fault = fault_of(alloc, file.as_slice(), length.saturating_sub(1))?;
    match lines.as_slice() {
        [first, second, third] => Some((first.len(), second.len(), third.len(), fault)),
        _ => None,
    }
}

/// The first length of which something else comes, at once and at a second try.
fn first_other_length(alloc: Global, lengths: &[u32]) -> Option<u32> {
    for length in lengths {
        let wanted = (1, *length as usize, 2, JournalFault::TooLong(1));
        let found = lengths_of(alloc, *length).or_else(|| lengths_of(alloc, *length));
        if found != Some(wanted) {
            return Some(*length);
        }
    }
    None
}

#[test]
fn long_lines_are_read_after_a_refused_growth(rt: HostRuntime) {
    assert_eq!(rt; first_other_length(rt.alloc(), LENGTHS), None);
}
