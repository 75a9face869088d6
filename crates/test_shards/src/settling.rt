//! What no clause says: the worked cases, and that each call can succeed.
mod cases;
mod verdicts;

use mds_settle::Note;
use std::alloc::Global;
use test_fixtures::Lack;
use test_steps::{Noted, put};

/// The notes of one caller.
fn notes_of(alloc: Global, noted: &[Noted]) -> Result<Vec<Note>, Lack> {
    let mut notes = Vec::with_capacity(alloc, noted.len())?;
    for one in noted {
        put(&mut notes, one)?;
    }
    Ok(notes)
}
