//! Steps that several tests take, and the tables by which they are judged.
use mds_core::Outcome::{self, Done, Refused};
use mds_core::Refusal::NoChain;
use mds_core::Standing;
use mds_table::State::{Available, Removed};
use mds_table::{MAX_TABLES, Tables, TablesFault};
use std::alloc::{AllocError, Global};
use std::hash::RandomState;
use std::random::RandomSource;
use test_fixtures::Ask::{self, Register, Report};
use test_fixtures::{A, DROP_OFF, E1, Lack, profile};

/// What is asked, how many requests were accepted before it, and what becomes of it.
pub type Step = (Ask, usize, Outcome);

/// No file: the profile's table.
pub const PROFILE: Option<&str> = None;

/// A file of two tables: by the first, which is in force until 2000, removed vehicles wake; by the second available
/// ones rest.
pub const WAKE_THEN_REST: Option<&str> = Some(
    r#"{"tables":[
{"from_time":0,"rows":[{"from":"removed","type":"wake","to":"available"}]},
{"from_time":2000,"rows":[{"from":"available","type":"rest","to":"removed"}]}]}"#,
);

/// A file of a table by which vehicles are stored in a depot and go out again.
pub const DEPOT: Option<&str> = Some(
    r#"{"rows":[
{"from":"removed","type":"wake","to":"available"},
{"from":"available","type":"store","to":"in_depot"},
{"from":"in_depot","type":"go","to":"available"}]}"#,
);

/// The first event of A.
pub const DROPPED_OFF: Ask = Report(A, E1, DROP_OFF, Available, 1000);

/// Registered, and nothing more.
pub const NEW: Standing = Standing {
    state: Removed,
    events: 0,
    last: None,
    position: None,
};

/// Available, after one event at 1000.
pub const AVAILABLE: Standing = Standing {
    state: Available,
    events: 1,
    last: Some(1000),
    ..NEW
};

/// The refusals of an event whose first type has no row from the state that is held.
pub const STUCK_AVAILABLE: Outcome = Refused(NoChain {
    held: Available,
    at: 0,
});

pub const STUCK_REMOVED: Outcome = Refused(NoChain {
    held: Removed,
    at: 0,
});

/// The tables of the file.
pub fn tables_of(alloc: Global, file: Option<&str>) -> Result<Tables, Lack> {
    let Some(text) = file else {
        return Ok(profile(alloc)?);
    };
    match Tables::from_json(alloc, text.as_bytes()) {
        Err(TablesFault::Memory) => Err(Lack::Memory),
        Err(_) => Err(Lack::Case),
        Ok(tables) => Ok(tables),
    }
}

/// As many tables as there may be, each in force for a second: by turns removed vehicles wake, and available ones rest.
pub fn most_tables(alloc: Global) -> Result<Tables, Lack> {
    let two = tables_of(alloc, WAKE_THEN_REST)?;
    let mut entries = Vec::new(alloc);
    for at in 0..MAX_TABLES as u64 {
        entries.push((1000 * at, two.at(at % 2 * 2000).copy(alloc)?))?;
    }
    Tables::new(entries).map_err(|_| Lack::Case)
}

/// The change of the table that starts at one time, as A reports it at another, and its refusal where another is in
/// force.
fn change(start: u64, time: u64) -> (Ask, Outcome) {
    if start % 2000 == 0 {
        (Report(A, start, &["wake"], Available, time), STUCK_REMOVED)
    } else {
        (Report(A, start, &["rest"], Removed, time), STUCK_AVAILABLE)
    }
}

/// A's registration, the change of the first of those tables as it starts, and that of each other one, first one
/// millisecond before it starts and then as it does.
pub fn turns(alloc: Global) -> Result<Vec<Step>, AllocError> {
    let mut steps = Vec::new(alloc);
    steps.push((Register(A), 0, Done))?;
    steps.push((change(0, 0).0, 1, Done))?;
    for place in 2..MAX_TABLES + 1 {
        let start = 1000 * (place as u64 - 1);
        let (early, stuck) = change(start, start - 1);
        steps.push((early, place, stuck))?;
        steps.push((change(start, start).0, place, Done))?;
    }
    Ok(steps)
}

/// A hasher of the runtime.
pub fn hasher<R: RandomSource>(rt: &R) -> Result<RandomState, Lack> {
    RandomState::new(rt).map_err(|_| Lack::Case)
}
