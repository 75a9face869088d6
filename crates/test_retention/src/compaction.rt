//! Compactions of lists of requests.
use Ask::{Register, Report, ReportAt};
use State::{Available, OnTrip, Removed, Reserved};
use mds_compact::{Cut, Cutting, Marking, Survey, Thinning, compaction};
use mds_core::Request;
use mds_table::State;
use std::alloc::{AllocError, Global};
use std::hash::RandomState;
use std::random::RandomSource;
use test_fixtures::{A, Ask, B, C, DROP_OFF, Lack, again, key, request_of, requests_of};

/// What was asked, and which of it stays where each event of a time stays.
struct Case {
    asked: &'static [Ask],
    from: u64,
    stays: &'static [bool],
}

/// A vehicle that is available twice.
const RIDES: &[Ask] = &[
    Register(A),
    Report(A, 1, DROP_OFF, Available, 1),
    Report(A, 2, DROP_OFF, OnTrip, 2),
    Report(A, 3, DROP_OFF, Available, 3),
    Report(A, 4, DROP_OFF, OnTrip, 4),
];

const CASES: &[Case] = &[
    Case {
        asked: &[],
        from: 10,
        stays: &[],
    },
    Case {
        asked: RIDES,
        from: 10,
        stays: &[true, true, false, false, true],
    },
    // Recent events stay.
    Case {
        asked: RIDES,
        from: 2,
        stays: &[true, true, true, true, true],
    },
    Case {
        asked: RIDES,
        from: 4,
        stays: &[true, true, false, false, true],
    },
    // Another vehicle's requests stand between.
    Case {
        asked: &[
            Register(A),
            Report(A, 1, DROP_OFF, Available, 1),
            Register(B),
            Report(A, 2, DROP_OFF, OnTrip, 2),
            Report(A, 3, DROP_OFF, Available, 3),
            Report(B, 4, DROP_OFF, Available, 3),
            Report(A, 5, DROP_OFF, OnTrip, 4),
        ],
        from: 10,
        stays: &[true, true, true, false, false, true, true],
    },
    // The last event with a position stays.
    Case {
        asked: &[
            Register(A),
            ReportAt(A, 1, DROP_OFF, Available, 1, (1, 1)),
            ReportAt(A, 2, DROP_OFF, OnTrip, 2, (1, 1)),
            Report(A, 3, DROP_OFF, Available, 3),
            Report(A, 4, DROP_OFF, Reserved, 4),
            Report(A, 5, DROP_OFF, Available, 5),
            Report(A, 6, DROP_OFF, OnTrip, 6),
        ],
        from: 10,
        stays: &[true, true, true, true, false, false, true],
    },
    // Each vehicle is thinned by itself, and events of its last time stay.
    Case {
        asked: &[
            Register(A),
            Register(B),
            Report(A, 1, DROP_OFF, Available, 1),
            Report(B, 2, DROP_OFF, Reserved, 1),
            Report(A, 3, DROP_OFF, OnTrip, 2),
            Report(B, 4, DROP_OFF, OnTrip, 2),
            Report(A, 5, DROP_OFF, Removed, 3),
            Report(B, 6, DROP_OFF, Reserved, 3),
            Report(A, 7, DROP_OFF, Available, 4),
            Report(B, 8, DROP_OFF, Available, 3),
        ],
        from: 10,
        stays: &[
            true, true, false, true, false, true, false, true, true, true,
        ],
    },
];

/// The marks of a compaction of what was asked.
fn marks_at_once(alloc: Global, hasher: RandomState, case: &Case) -> Result<Vec<bool>, Lack> {
    let history = requests_of(alloc, case.asked)?;
    Ok(compaction(alloc, &history, case.from, hasher)?)
}

/// The survey of a history.
fn survey_of(
    alloc: Global,
    hasher: RandomState,
    history: &[Request],
) -> Result<Survey, AllocError> {
    let mut survey = Survey::open(alloc, hasher);
    for request in history {
        survey.note(request)?;
    }
    Ok(survey)
}

/// The thinning of a history.
fn thinning_of(survey: Survey, history: &[Request], from: u64) -> Result<Thinning, AllocError> {
    let mut thinning = Thinning::open(survey, from);
    for request in history {
        thinning.take(request)?;
    }
    Ok(thinning)
}

/// The marks of a history by the passes, made one by one.
fn marks_by_passes(alloc: Global, hasher: RandomState, case: &Case) -> Result<Vec<bool>, Lack> {
    let history = requests_of(alloc, case.asked)?;
    let survey = survey_of(alloc, hasher, &history)?;
    let mut marking = Marking::open(thinning_of(survey, &history, case.from)?);
    let mut marks = Vec::new(alloc);
    for request in &history {
        marks.push(marking.next_mark(request))?;
    }
    Ok(marks)
}

/// Whether the requests of a case stay that are to stay, by a compaction and by its passes.
fn is_so(alloc: Global, hasher: RandomState, case: &Case) -> Result<bool, Lack> {
    let at_once = marks_at_once(alloc, hasher, case)?;
    let by_passes = marks_by_passes(alloc, hasher, case)?;
    Ok(at_once.as_slice() == case.stays && by_passes.as_slice() == case.stays)
}

/// The place of the first case of which others stay.
fn first_other<R: RandomSource>(rt: &R, alloc: Global) -> Result<Option<usize>, Lack> {
    let Ok(hasher) = RandomState::new(rt) else {
        return Err(Lack::Memory);
    };
    for (at, case) in CASES.iter().enumerate() {
        if !again!(is_so(alloc, hasher, case))? {
            return Ok(Some(at));
        }
    }
    Ok(None)
}

#[test]
fn histories_are_compacted_after_a_refused_growth(rt: HostRuntime) {
    assert_eq!(rt; again!(first_other(&rt, rt.alloc())), Ok(None));
}

/// The marks of cuts that leave A two of its events, and one, and a vehicle that isn't there none; and how many events A and that
/// vehicle have.
#[derive(Clone, Copy, Debug, PartialEq, Eq)]
struct CutMarks {
    marks: [bool; 5],
    events: (Option<usize>, Option<usize>),
}

/// What is asked of two vehicles.
const OF_TWO: [Ask; 5] = [
    Register(A),
    Register(B),
    Report(A, 1, DROP_OFF, Available, 1),
    Report(A, 2, DROP_OFF, OnTrip, 2),
    Report(B, 3, DROP_OFF, Available, 3),
];

fn cut_marks<R: RandomSource>(rt: &R, alloc: Global) -> Result<CutMarks, Lack> {
    let Ok(hasher) = RandomState::new(rt) else {
        return Err(Lack::Memory);
    };
    let cuts = [(A, 2), (A, 1), (C, 0)].map(|(device, events)| Cut {
        key: key(device),
        events,
    });
    let mut cutting = Cutting::open(alloc, &cuts, hasher)?;
    let mut marks = [false; 5];
    for (mark, ask) in marks.iter_mut().zip(&OF_TWO) {
        *mark = cutting.next_mark(&request_of(ask).ok_or(Lack::Case)?);
    }
    Ok(CutMarks {
        marks,
        events: (cutting.events_of(&key(A)), cutting.events_of(&key(C))),
    })
}

#[test]
fn cuts_leave_the_first_events_after_a_refused_growth(rt: HostRuntime) {
    let wanted = CutMarks {
        marks: [true, true, true, false, true],
        events: (Some(2), None),
    };
    assert_eq!(rt; again!(cut_marks(&rt, rt.alloc())), Ok(wanted));
}
