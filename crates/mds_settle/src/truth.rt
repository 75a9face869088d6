//! Notes beside the history: whether each reply is right, and each accepted note at its place.
ghost use Rattle.std.specs.Prelude.{◌≡◌, ◌↔◌, IsTrue, true, false, All, Any};
ghost use Rattle.mds_core.specs.Lawful.{IsLawful};
ghost use Rattle.mds_core.specs.Headline.{is_done};
ghost use Rattle.mds_settle.specs.Settled.{HasRightReply, IsStored};
ghost use Rattle.mds_settle.specs.Bounds.{IsBelow, IsLowered, IsTrueTo, IsWrong, IsTrueBelow, IsWrongAt};

use crate::same::{is_same_reply, is_same_request};
use crate::{Note, NoteList};
use mds_core::{Outcome, Request, answer};
use mds_table::Tables;

pub(crate) fn lowered_by_lists<S: NoteList>(
    lawful: bool,
    tables: &Tables,
    shard: usize,
    history: &[Request],
    lists: &[S],
    bound: Option<usize>,
) -> Option<usize>
    requires { lawful ≡ true → IsLawful tables.now history.now }
    ensures { IsLowered
        (λ new. All (λ list.
        All (IsTrueBelow tables.now shard history.now new) (S.seen list)) lists.now)
        (λ place. Any (λ list.
        Any (IsWrongAt tables.now shard history.now place) (S.seen list)) lists.now)
        bound result }
{
    let mut least = bound;
    for list in lists {
        least = lowered_by_notes(lawful, tables, shard, history, list.notes(), least);
    }
    least
}

fn lowered_by_notes(
    lawful: bool,
    tables: &Tables,
    shard: usize,
    history: &[Request],
    notes: &[Note],
    bound: Option<usize>,
) -> Option<usize>
    requires { lawful ≡ true → IsLawful tables.now history.now }
    ensures { IsLowered
        (λ new. All (IsTrueBelow tables.now shard history.now new) notes.now)
        (λ place. Any (IsWrongAt tables.now shard history.now place) notes.now)
        bound result }
{
    let mut least = bound;
    for note in notes {
        least = lowered_by_note(lawful, tables, shard, history, note, least);
    }
    least
}

fn lowered_by_note(
    lawful: bool,
    tables: &Tables,
    shard: usize,
    history: &[Request],
    note: &Note,
    bound: Option<usize>,
) -> Option<usize>
    requires { lawful ≡ true → IsLawful tables.now history.now }
    ensures { IsLowered
        (λ new. IsTrueBelow tables.now shard history.now new note.now)
        (λ place. IsWrongAt tables.now shard history.now place note.now)
        bound result }
{
    let place = note.reply.place;
    if note.shard != shard || !is_below(place, bound) || is_true(lawful, tables, history, note) {
        return bound;
    }
    Some(place)
}

pub(crate) fn is_below(place: usize, bound: Option<usize>) -> bool
    ensures yes { result ≡ true → IsBelow place bound }
    ensures no { result ≡ false → IsBelow place bound → ⊥ }
{
    match bound {
        Some(bound) => place < bound,
        None => true,
    }
}

/// Whether the note's reply is right, and its place, if it is accepted. In a lawful history the second tells the first.
fn is_true(lawful: bool, tables: &Tables, history: &[Request], note: &Note) -> bool
    requires { lawful ≡ true → IsLawful tables.now history.now }
    ensures yes { result ≡ true → IsTrueTo tables.now history.now note.now }
    ensures no { result ≡ false → IsWrong tables.now history.now note.now }
{
    if is_done(&note.reply.outcome) {
        if !is_stored(history, note) {
            return false;
        }
        if lawful {
            return true;
        }
    }
    has_right_reply(tables, history, note)
}

pub(crate) fn is_done(outcome: &Outcome) -> bool
    ensures { result ≡ is_done outcome.now }
{
    matches!(outcome, Outcome::Done)
}

fn is_stored(history: &[Request], note: &Note) -> bool
    ensures { IsTrue result ↔ IsStored history.now note.now }
{
    match history.get(note.reply.place) {
        Some(entry) => is_same_request(entry, &note.request),
        None => false,
    }
}

fn has_right_reply(tables: &Tables, history: &[Request], note: &Note) -> bool
    ensures { IsTrue result ↔ HasRightReply tables.now history.now note.now }
{
    match history.get(..note.reply.place) {
        Some(before) => is_same_reply(&answer(tables, before, &note.request), &note.reply),
        None => false,
    }
}
