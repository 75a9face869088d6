//! A device of which one call fails, and what a journal makes of that.
ghost use Rattle.std.specs.Prelude.{◌≡◌, ◌+◌, true, false, IsTrue, cond};

use crate::ahead::ROOM;
use mds_journal::{AppendError, Device, DeviceError, Group, Memory, OpenError, read_all};
use std::alloc::Global;
use test_fixtures::room_behind;

/// Which call fails.
#[derive(Drop)]
struct Fuse {
    /// How many calls come before it.
    before: usize,
    /// Whether it has come.
    is_blown: bool,
}

impl Fuse {
    /// Counts a call, and says whether it is the one that fails.
    fn blows(&mut self) -> bool
        ensures blown { IsTrue result → (self.old.is_blown ≡ false) × (self.new.is_blown ≡ true) }
        ensures same { result ≡ false → self.new.is_blown ≡ self.old.is_blown }
    {
        if self.is_blown {
            return false;
        }
        if self.before > 0 {
            self.before -= 1;
            return false;
        }
        self.is_blown = true;
        true
    }
}

/// A device of which one call fails, and changes nothing.
#[derive(Drop)]
struct Frail<D: Device> {
    device: D,
    fuse: Fuse,
}

impl<D: Device> Device for Frail<D> {
    ghost seen = { λ f. D.seen f.device };

    ghost may_leave = { λ f. D.may_leave f.device };

    ghost moment = { λ f. D.moment f.device };

    ghost left_since = { λ f. D.left_since f.device };

    ghost faults = { λ f. D.faults f.device + cond f.fuse.is_blown 1 0 };

    ghost may_be_used = { λ f. D.may_be_used f.device };

    ghost is_true = { λ f. D.is_true f.device };

    ghost counts_now = { λ f t c le now. D.counts_now f.device t c le now };

    ghost only_now = { λ f c left. D.only_now f.device c left };

    fn size(&mut self) -> Result<usize, DeviceError> {
        if self.fuse.blows() {
            return Err(DeviceError::Failed);
        }
        self.device.size()
    }

    fn read_at(&mut self, at: usize, buffer: &mut [u8]) -> Result<usize, DeviceError> {
        if self.fuse.blows() {
            return Err(DeviceError::Failed);
        }
        self.device.read_at(at, buffer)
    }

    fn write_at(&mut self, at: usize, bytes: &[u8]) -> Result<(), DeviceError> {
        if self.fuse.blows() {
            return Err(DeviceError::Failed);
        }
        self.device.write_at(at, bytes)
    }

    fn cut(&mut self, size: usize) -> Result<(), DeviceError> {
        if self.fuse.blows() {
            return Err(DeviceError::Failed);
        }
        self.device.cut(size)
    }

    fn sync(&mut self) -> Result<(), DeviceError> {
        if self.fuse.blows() {
            return Err(DeviceError::Failed);
        }
        self.device.sync()
    }
}

/// How many calls come before the one that fails, what comes of an opening, of a group that is added and of the same group
/// again, and the file's bytes then, behind which so many of the room stand. At first it is one open line and a closed gate.
type Failing = (usize, Outcome, &'static [u8], usize);

/// What came of it.
#[derive(Clone, Copy, Debug, PartialEq, Eq)]
enum Outcome {
    Unopened(OpenError),
    Twice(Result<(), AppendError>, Result<(), AppendError>),
}

const UNOPENED: Outcome = Outcome::Unopened(OpenError::Device(DeviceError::Failed));

const UNKNOWN: Outcome = Outcome::Twice(
    Err(AppendError::Unknown(DeviceError::Failed)),
    Err(AppendError::Lost),
);

/// An opening syncs, reads, asks for the size, cuts, syncs, writes the gate and syncs. Room is made for the first group. A group
/// is written and synced, and its gate is written and synced.
const FAILING: &[Failing] = &[
    (0, UNOPENED, b" one\n#", 0),
    (1, UNOPENED, b" one\n#", 0),
    (2, UNOPENED, b" one\n#", 0),
    (3, UNOPENED, b" one\n#", 0),
    (4, UNOPENED, b" one\n", 0),
    (5, UNOPENED, b" one\n", 0),
    (6, UNOPENED, b" one\n#", 0),
    // without room the group is kept, and room isn't tried again for the next
    (7, Outcome::Twice(Ok(()), Ok(())), b" one\n two\n two\n#", 0),
    (
        8,
        Outcome::Twice(Err(AppendError::NotWritten(DeviceError::Failed)), Ok(())),
        b" one\n two\n#",
        ROOM - 5,
    ),
    (9, UNKNOWN, b" one\n#two\n#", ROOM - 5),
    (10, UNKNOWN, b" one\n#two\n#", ROOM - 5),
    (11, UNKNOWN, b" one\n two\n#", ROOM - 5),
    (
        12,
        Outcome::Twice(Ok(()), Err(AppendError::NotWritten(DeviceError::Failed))),
        b" one\n two\n#",
        ROOM - 5,
    ),
];

/// What came of it where the call behind so many fails, and the file's bytes.
fn outcome_of(alloc: Global, before: usize) -> Option<(Outcome, Vec<u8>)> {
    let mut group = Group::new(alloc).ok()?;
    group.push(b"two").ok()?;
    let device = Frail {
        device: Memory::new(alloc, b" one\n#").ok()?,
        fuse: Fuse {
            before,
            is_blown: false,
        },
    };
    let (outcome, device) = match read_all(alloc, device, 8) {
        Ok((mut journal, _lines)) => {
            let first = journal.append(&group);
            (
                Outcome::Twice(first, journal.append(&group)),
                journal.device,
            )
        }
        Err((error, device)) => (Outcome::Unopened(error), device),
    };
    Some((outcome, Vec::from_slice(alloc, device.device.bytes()).ok()?))
}

/// Whether a case comes out so.
fn is_so(alloc: Global, case: &Failing) -> bool {
    let (before, wanted, bytes, room) = case;
    match outcome_of(alloc, *before) {
        Some((found, left)) => found == *wanted && room_behind(&left, *bytes) == Some(*room),
        None => false,
    }
}

/// The first case that comes out otherwise, at once and at a second try.
fn first_other(alloc: Global, cases: &[Failing]) -> Option<usize> {
    for case in cases {
        if !is_so(alloc, case) && !is_so(alloc, case) {
            return Some(case.0);
        }
    }
    None
}

#[test]
fn a_call_fails_after_a_refused_growth(rt: HostRuntime) {
    assert_eq!(rt; first_other(rt.alloc(), FAILING), None);
}
