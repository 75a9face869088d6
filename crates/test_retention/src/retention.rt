//! Journals that are compacted at once.
use crate::files::{Broken, MemoryName};
use crate::texts::{
    CHECKED, FLIGHT, FORM, FREE_1, FREE_3, FREE_5, GROUP, OF_CHECKED, REGISTRATION, RIDE_2, RIDE_4,
    RIDES, WITHOUT_LOOP, lines_of,
};
use mds_compact::Cut;
use mds_core::Key;
use mds_file::NewFileFault;
use mds_groups::GroupFault;
use mds_journal::JournalFault;
use mds_retention::{CompactError, Compacted, LinesError, Readings, Totals, compact};
use std::alloc::{AllocError, Global};
use std::hash::RandomState;
use std::io::Read;
use std::random::RandomSource;
use test_fixtures::{A, B, Lack, again, key};

/// A journal that is compacted.
struct Case {
    /// What the file has at first, and what at the fourth reading.
    old: &'static [&'static str],
    last: &'static [&'static str],
    /// Each event of this time or later stays.
    from: u64,
    /// The vehicle that is cut, if one is, and how many of its events stay.
    cut: Option<(u64, usize)>,
    /// What the new file has, and how many of four events stay; or why there is none.
    end: Result<(&'static [&'static str], usize), CompactError>,
}

const CASES: &[Case] = &[
    // A loop goes, of either version.
    Case {
        old: RIDES,
        last: RIDES,
        from: 10,
        cut: None,
        end: Ok((WITHOUT_LOOP, 2)),
    },
    Case {
        old: GROUP,
        last: GROUP,
        from: 10,
        cut: None,
        end: Ok((WITHOUT_LOOP, 2)),
    },
    // Recent events stay.
    Case {
        old: RIDES,
        last: RIDES,
        from: 2,
        cut: None,
        end: Ok((GROUP, 4)),
    },
    // A vehicle's first events stay, and what a cut leaves is thinned.
    Case {
        old: RIDES,
        last: RIDES,
        from: 0,
        cut: Some((A, 3)),
        end: Ok((
            &[
                CHECKED,
                OF_CHECKED,
                REGISTRATION,
                FREE_1,
                RIDE_2,
                FREE_3,
                "{\"crc32\":\"30d66eb7\"}",
            ],
            3,
        )),
    },
    Case {
        old: RIDES,
        last: RIDES,
        from: 10,
        cut: Some((A, 2)),
        end: Ok((
            &[
                CHECKED,
                OF_CHECKED,
                REGISTRATION,
                FREE_1,
                RIDE_2,
                "{\"crc32\":\"596896aa\"}",
            ],
            2,
        )),
    },
    Case {
        old: RIDES,
        last: RIDES,
        from: 10,
        cut: Some((B, 1)),
        end: Err(CompactError::NotThere),
    },
    // Another form, a group without its check, and a line that tells nothing.
    Case {
        old: &["{\"form\":\"mds_city\",\"version\":3}", REGISTRATION],
        last: &[],
        from: 10,
        cut: None,
        end: Err(CompactError::Old(LinesError::Fault(GroupFault::Journal(JournalFault::Form)))),
    },
    Case {
        old: &[CHECKED, REGISTRATION, FREE_1],
        last: &[],
        from: 10,
        cut: None,
        end: Err(CompactError::Old(LinesError::Fault(GroupFault::Damaged(0)))),
    },
    Case {
        old: &[FORM, REGISTRATION, FREE_1, FLIGHT],
        last: &[],
        from: 10,
        cut: None,
        end: Err(CompactError::Old(LinesError::Fault(GroupFault::Journal(JournalFault::BadLine(
            3,
        ))))),
    },
    // The file lost lines meanwhile, and it has more.
    Case {
        old: RIDES,
        last: &[FORM, REGISTRATION, FREE_1],
        from: 10,
        cut: None,
        end: Err(CompactError::Old(LinesError::Changed)),
    },
    Case {
        old: RIDES,
        last: &[FORM, REGISTRATION, FREE_1, RIDE_2, FREE_3, RIDE_4, FREE_5],
        from: 10,
        cut: None,
        end: Ok((WITHOUT_LOOP, 2)),
    },
];

/// Whether the totals are those of a journal of one vehicle and four events, of which so many stay.
fn tells(compacted: &Compacted, kept: usize) -> bool {
    let totals = Totals {
        registrations: 1,
        events: 4,
        kept,
    };
    compacted.totals == totals && compacted.cuts.iter().all(|told| told.events == 4)
}

/// What a compaction answers, but for a want of memory.
fn answered<T: Drop>(made: Result<T, CompactError>) -> Result<Result<T, CompactError>, Lack> {
    match made {
        Err(CompactError::Old(LinesError::Memory) | CompactError::New(NewFileFault::Memory)) => {
            Err(Lack::Memory)
        }
        made => Ok(made),
    }
}

/// The cuts of a case.
fn cuts_of(alloc: Global, cut: Option<(u64, usize)>) -> Result<Vec<Cut>, AllocError> {
    let mut cuts = Vec::new(alloc);
    if let Some((device, events)) = cut {
        cuts.push(Cut {
            key: key(device),
            events,
        })?;
    }
    Ok(cuts)
}

/// Whether a case comes to its end.
fn is_so(alloc: Global, hasher: RandomState, case: &Case) -> Result<bool, Lack> {
    let old = lines_of(alloc, case.old)?;
    let last = lines_of(alloc, case.last)?;
    let cuts = cuts_of(alloc, case.cut)?;
    let readings = Readings {
        first: old.as_slice(),
        second: old.as_slice(),
        third: old.as_slice(),
        fourth: last.as_slice(),
    };
    let mut name = MemoryName::new(alloc, false);
    let made = compact(alloc, readings, case.from, &cuts, hasher, &mut name);
    match (answered(made)?, case.end) {
        (Ok(compacted), Ok((wanted, kept))) => {
            let is_told = tells(&compacted, kept) && compacted.cuts.len() == cuts.len();
            Ok(is_told && name.has(&lines_of(alloc, wanted)?))
        }
        (Err(error), Err(wanted)) => Ok(error == wanted),
        _ => Ok(false),
    }
}

/// The place of the first case that comes to something else.
fn first_other<R: RandomSource>(rt: &R, alloc: Global) -> Result<Option<usize>, Lack> {
    let Ok(hasher) = RandomState::new(rt) else {
        return Err(Lack::Memory);
    };
    for (at, case) in CASES.iter().enumerate() {
        if !again!(is_so(alloc, hasher, case))? {
            return Ok(Some(at));
        }
    }
    Ok(None)
}

#[test]
fn journals_are_compacted_after_a_refused_growth(rt: HostRuntime) {
    assert_eq!(rt; again!(first_other(&rt, rt.alloc())), Ok(None));
}

/// Why a compaction by readings that fail behind their bytes comes to nothing.
fn fault_of<R: RandomSource>(
    rt: &R,
    alloc: Global,
    texts: &[&str],
    is_taken: bool,
) -> Result<Option<CompactError>, Lack> {
    let Ok(hasher) = RandomState::new(rt) else {
        return Err(Lack::Memory);
    };
    let bytes = lines_of(alloc, texts)?;
    let readings = Readings {
        first: Broken { bytes: &bytes },
        second: Broken { bytes: &bytes },
        third: Broken { bytes: &bytes },
        fourth: Broken { bytes: &bytes },
    };
    let mut name = MemoryName::new(alloc, is_taken);
    let made = compact(alloc, readings, 10, &[], hasher, &mut name);
    Ok(answered(made)?.err())
}

#[test]
fn a_reading_that_fails_is_told_after_a_refused_growth(rt: HostRuntime) {
    assert_eq!(rt;
        again!(fault_of(&rt, rt.alloc(), RIDES, false)),
        Ok(Some(CompactError::Old(LinesError::Read)))
    );
}

#[test]
fn a_name_that_is_taken_is_told_first_after_a_refused_growth(rt: HostRuntime) {
    assert_eq!(rt;
        again!(fault_of(&rt, rt.alloc(), &[], true)),
        Ok(Some(CompactError::New(NewFileFault::IsThere)))
    );
}
