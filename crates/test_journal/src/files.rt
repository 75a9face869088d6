//! Journals in files of the system. A test runs in a folder of its own.
use crate::ahead::ROOM;
use mds_file::{
    FileFault, Followed, FollowedFile, NewFile, NewFileFault, NewName, make_file, open_file,
};
use mds_journal::{Device, Group, read_all};
use std::alloc::Global;
use std::fs;
use std::io::Read;
use std::marker::Brand;
use std::os::unix::fs::symlink;
use test_fixtures::room_behind;

/// Opens a journal, adds a line, and says how many lines it had.
fn grow<D: Device + Drop>(alloc: Global, device: D) -> Option<usize>
    requires { D.may_be_used device }
{
    let mut group = Group::new(alloc).ok()?;
    group.push(b"one").ok()?;
    let Ok((mut journal, lines)) = read_all(alloc, device, 8) else {
        return None;
    };
    journal.append(&group).ok()?;
    Some(lines.len())
}

/// The same of the file of a path.
fn grow_at(rt: &HostRuntime, path: &str) -> Option<usize> {
    grow(rt.alloc(), open_file::<Brand>(rt, path).ok()?)
}

/// How many lines a file had that isn't there at first, twice, and its bytes then.
fn grown(rt: &HostRuntime) -> Option<(usize, usize, Vec<u8>)> {
    let _ = fs::remove_file(rt, "grown");
    let none = grow_at(rt, "grown")?;
    let one = grow_at(rt, "grown")?;
    Some((none, one, fs::read(rt, "grown").ok()?))
}

#[test]
fn a_file_grows_after_a_refused_growth(rt: HostRuntime) {
    let is_so = match grown(&rt).or_else(|| grown(&rt)) {
        Some((none, one, bytes)) => none == 0
            && one == 1
            && room_behind(&bytes, b" one\n one\n#") == Some(ROOM - 5),
        None => false,
    };
    assert!(rt; is_so);
}

/// What is told of the path of a file that is open, of a link to it, of a folder, of a path into none and of a device.
const FAULTS: &[(&str, FileFault)] = &[
    ("held", FileFault::InUse),
    ("link", FileFault::InUse),
    ("folder", FileFault::CannotRead),
    ("none/held", FileFault::CannotRead),
    ("/dev/null", FileFault::CannotRead),
];

/// The first path that is opened, or of which something else is told, while the file `held` is open.
fn first_other<'a>(rt: &HostRuntime, faults: &[(&'a str, FileFault)]) -> Option<&'a str> {
    for (path, wanted) in faults {
        let found = open_file::<Brand>(rt, *path).err();
        if found != Some(*wanted) && open_file::<Brand>(rt, *path).err() != Some(*wanted) {
            return Some(*path);
        }
    }
    None
}

/// Whether each path is told its fault, and whether a link to nothing makes what it leads to.
fn told(rt: &HostRuntime) -> Option<(bool, bool)> {
    let _ = fs::create_dir(rt, "folder");
    let _ = symlink(rt, "held", "link");
    let _ = symlink(rt, "made", "dangling");
    let held = open_file::<Brand>(rt, "held").ok()?;
    let is_told = first_other(rt, FAULTS).is_none();
    drop(held);
    open_file::<Brand>(rt, "dangling").ok()?;
    Some((is_told, fs::exists(rt, "made").ok()?))
}

#[test]
fn faults_are_told_after_a_refused_growth(rt: HostRuntime) {
    assert_eq!(rt; told(&rt).or_else(|| told(&rt)), Some((true, true)));
}

/// Makes a file with these bytes under a name, over what an earlier process left.
fn make(rt: &HostRuntime, path: &str, bytes: &[u8]) -> Result<(), NewFileFault> {
    let mut name = NewFile::<Brand>::at(*rt, rt.alloc(), path)?;
    make_file(&mut name, bytes)
}

/// Whether a new file is made with its bytes and loses its other name, and whether none is made over it.
fn made(rt: &HostRuntime) -> Option<(bool, bool)> {
    let _ = fs::remove_file(rt, "new");
    fs::write(rt, "new.part", b"what was left there").ok()?;
    make(rt, "new", b"all").ok()?;
    let is_alone = !fs::exists(rt, "new.part").ok()?;
    let again = make(rt, "new", b"other").err();
    if again == Some(NewFileFault::Memory) {
        return None;
    }
    let bytes = fs::read(rt, "new").ok()?;
    let is_whole = bytes.as_slice() == b"all".as_slice();
    Some((is_alone && is_whole, again == Some(NewFileFault::IsThere)))
}

#[test]
fn a_new_file_is_made_after_a_refused_growth(rt: HostRuntime) {
    assert_eq!(rt; made(&rt).or_else(|| made(&rt)), Some((true, true)));
}

/// What is told where a file comes under the name while the new one is written, and whether that stays and the other one goes.
fn overtaken(rt: &HostRuntime) -> Option<(Option<NewFileFault>, bool)> {
    let _ = fs::remove_file(rt, "late");
    let mut name = NewFile::<Brand>::at(*rt, rt.alloc(), "late").ok()?;
    let mut file = name.draft().ok()?;
    file.write_at(0, b"new").ok()?;
    file.sync().ok()?;
    fs::write(rt, "late", b"other").ok()?;
    let told = name.link(file).err();
    if told == Some(NewFileFault::Memory) {
        return None;
    }
    let is_other = fs::read(rt, "late").ok()?.as_slice() == b"other".as_slice();
    Some((told, is_other && !fs::exists(rt, "late.part").ok()?))
}

#[test]
fn a_file_that_came_stays_after_a_refused_growth(rt: HostRuntime) {
    assert_eq!(rt;
        overtaken(&rt).or_else(|| overtaken(&rt)),
        Some((Some(NewFileFault::IsThere), true))
    );
}

/// What is told of a file that another one makes, and whether it goes where it's let go.
fn held(rt: &HostRuntime) -> Option<(Option<NewFileFault>, bool)> {
    let mut name = NewFile::<Brand>::at(*rt, rt.alloc(), "shared").ok()?;
    let file = name.draft().ok()?;
    let told = name.draft().err();
    if told == Some(NewFileFault::Memory) {
        return None;
    }
    name.discard(file);
    Some((told, !fs::exists(rt, "shared.part").ok()?))
}

#[test]
fn a_file_in_work_is_left_after_a_refused_growth(rt: HostRuntime) {
    assert_eq!(rt;
        held(&rt).or_else(|| held(&rt)),
        Some((Some(NewFileFault::CannotWrite), true))
    );
}

/// Whether a file is left while another one has it, whether once it hasn't, what is told then of who opens it, and whether it has
/// what was added meanwhile.
fn followed(rt: &HostRuntime) -> Option<(bool, bool, Option<FileFault>, bool)> {
    let _ = fs::remove_file(rt, "followed");
    let mut held = open_file::<Brand>(rt, "followed").ok()?;
    held.write_at(0, b"one").ok()?;
    let mut followed = FollowedFile::open(*rt, "followed").ok()?;
    let was_left = followed.is_left().ok()?;
    held.write_at(0, b"onetwo").ok()?;
    drop(held);
    let is_left = followed.is_left().ok()?;
    let told = open_file::<Brand>(rt, "followed").err();
    if told == Some(FileFault::Memory) {
        return None;
    }
    let mut room = [0u8; 8];
    let count = followed.rest(2).ok()?.read(&mut room).ok()?;
    let rest = room.get(..count)?;
    Some((was_left, is_left, told, rest == b"etwo".as_slice()))
}

#[test]
fn a_file_is_followed_after_a_refused_growth(rt: HostRuntime) {
    assert_eq!(rt;
        followed(&rt).or_else(|| followed(&rt)),
        Some((false, true, Some(FileFault::InUse), true))
    );
}
