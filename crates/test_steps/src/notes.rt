//! Notes of calls, told in a few words.
use mds_core::{Outcome, Reply};
use mds_settle::Note;
use test_fixtures::{Ask, Lack, request_of};

/// A note: the shard that was asked, what was asked, and the place and the outcome of the reply.
pub type Noted = (usize, Ask, usize, Outcome);

/// Puts the note behind the others.
pub fn put(notes: &mut Vec<Note>, noted: &Noted) -> Result<(), Lack> {
    let (shard, asked, place, outcome) = noted;
    let request = request_of(asked).ok_or(Lack::Case)?;
    let reply = Reply {
        place: *place,
        outcome: *outcome,
    };
    notes.push(Note {
        shard: *shard,
        request,
        reply,
    })?;
    Ok(())
}
