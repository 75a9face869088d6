//! New journals of ones that another process goes on with.
use crate::files::MemoryName;
use crate::texts::{
    CHECKED, FREE_1, FREE_5, GROUP, OF_CHECKED, REGISTRATION, RIDE_4, RIDE_6, RIDES, lines_of,
};
use mds_file::{FileFault, Followed, NewFileFault};
use mds_groups::GroupFault;
use mds_journal::JournalFault;
use mds_retention::{
    CompactError, LinesError, Readings, Totals, begin_journal, drop_journal, end_journal,
};
use std::alloc::Global;
use std::hash::RandomState;
use std::random::RandomSource;
use std::sync::Wait;
use test_fixtures::{Lack, again};

/// A journal that another process goes on with: so many of its bytes are there, and all once it was asked whether it is left.
#[derive(Drop)]
struct Growing<'a> {
    bytes: &'a [u8],
    there: usize,
}

impl<'a> Followed for Growing<'a> {
    ghost use Rattle.std.specs.Prelude.{None, ⊤};

    type Rest = &'a [u8];

    ghost content = { λ _. None };

    ghost left = { λ _. ⊤ };

    ghost is_all = { λ _. ⊤ };

    fn rest(&mut self, from: usize) -> Result<&'a [u8], FileFault> {
        self.bytes
            .get(from..self.there)
            .ok_or(FileFault::CannotRead)
    }

    fn is_left(&mut self) -> Result<bool, FileFault> {
        let is_left = self.there == self.bytes.len();
        self.there = self.bytes.len();
        Ok(is_left)
    }
}

/// A journal of four rides, and the lines that come behind them.
struct Case {
    old: &'static [&'static str],
    since: &'static [&'static str],
    /// What comes of the new one.
    end: Came,
}

/// What comes of a new journal.
#[derive(Clone, Copy, Debug, PartialEq, Eq)]
enum Came {
    /// It has what stays of the rides, and of the two since.
    Whole,
    /// It has something else.
    Otherwise,
    /// It is given up once it is begun.
    Dropped,
    /// There is none, for this.
    Failed(CompactError),
}

/// What stays of the rides, and those since.
const STAYS: &[&str] = &[
    CHECKED,
    OF_CHECKED,
    REGISTRATION,
    FREE_1,
    RIDE_4,
    FREE_5,
    RIDE_6,
    "{\"crc32\":\"bcd24c92\"}",
];

/// Its totals.
const TOTALS: Totals = Totals {
    registrations: 1,
    events: 6,
    kept: 4,
};

const CASES: &[Case] = &[
    Case {
        old: RIDES,
        since: &[FREE_5, RIDE_6],
        end: Came::Whole,
    },
    Case {
        old: RIDES,
        since: &[FREE_5, RIDE_6],
        end: Came::Dropped,
    },
    Case {
        old: GROUP,
        since: &[FREE_5, RIDE_6, "{\"crc32\":\"dd703660\"}"],
        end: Came::Whole,
    },
    // Lines of another kind have their numbers, and so has a group whose check isn't that of its lines.
    Case {
        old: RIDES,
        since: &[REGISTRATION, "7"],
        end: Came::Failed(CompactError::Old(LinesError::Fault(GroupFault::Journal(
            JournalFault::BadLine(7),
        )))),
    },
    Case {
        old: GROUP,
        since: &[REGISTRATION, "7", "{\"crc32\":\"03580a69\"}"],
        end: Came::Failed(CompactError::Old(LinesError::Fault(GroupFault::Journal(
            JournalFault::BadLine(9),
        )))),
    },
    Case {
        old: GROUP,
        since: &[REGISTRATION, "{\"crc32\":\"03580a69\"}"],
        end: Came::Failed(CompactError::Old(LinesError::Fault(GroupFault::Damaged(8)))),
    },
];

/// What comes of a case.
fn came_of<R: RandomSource + Wait>(
    rt: &R,
    alloc: Global,
    hasher: RandomState,
    case: &Case,
) -> Result<Came, CompactError> {
    let old = lines_of(alloc, case.old)?;
    let mut all = lines_of(alloc, case.old)?;
    all.extend_from_slice(&lines_of(alloc, case.since)?)?;
    let readings = Readings {
        first: old.as_slice(),
        second: old.as_slice(),
        third: old.as_slice(),
        fourth: old.as_slice(),
    };
    let mut followed = Growing {
        bytes: &all,
        there: old.len(),
    };
    let mut name = MemoryName::new(alloc, false);
    let begun = begin_journal(alloc, readings, &mut followed, 10, hasher, &mut name)?;
    if case.end == Came::Dropped {
        drop_journal(begun, &mut name);
        return Ok(Came::Dropped);
    }
    let totals = end_journal(rt, alloc, begun, &mut followed, &mut name)?;
    if totals == TOTALS && name.has(&lines_of(alloc, STAYS)?) {
        return Ok(Came::Whole);
    }
    Ok(Came::Otherwise)
}

/// Whether a case comes to its end.
fn is_so<R: RandomSource + Wait>(
    rt: &R,
    alloc: Global,
    hasher: RandomState,
    case: &Case,
) -> Result<bool, Lack> {
    match came_of(rt, alloc, hasher, case) {
        Err(CompactError::Old(LinesError::Memory) | CompactError::New(NewFileFault::Memory)) => {
            Err(Lack::Memory)
        }
        Err(error) => Ok(case.end == Came::Failed(error)),
        Ok(came) => Ok(case.end == came),
    }
}

/// The place of the first case that comes to something else.
fn first_other<R: RandomSource + Wait>(rt: &R, alloc: Global) -> Result<Option<usize>, Lack> {
    let Ok(hasher) = RandomState::new(rt) else {
        return Err(Lack::Memory);
    };
    for (at, case) in CASES.iter().enumerate() {
        if !again!(is_so(rt, alloc, hasher, case))? {
            return Ok(Some(at));
        }
    }
    Ok(None)
}

#[test]
fn new_journals_are_ended_after_a_refused_growth(rt: HostRuntime) {
    assert_eq!(rt; again!(first_other(&rt, rt.alloc())), Ok(None));
}
