//! Each caller's notes in their own order: which of them have a place before the least that they may have.
ghost use Rattle.std.specs.Prelude.{◌≡◌, ◌⊎◌, ◌<◌, ◌≤◌, All, Any, AllPairs};
ghost use Rattle.mds_settle.specs.Settled.{least_after};
ghost use Rattle.mds_settle.specs.Notes.{IsAt};
ghost use Rattle.mds_settle.specs.Faults.{HasLate};
ghost use Rattle.mds_settle.specs.Bounds.{IsLowered, IsPromptBelow, IsInOrderBelow};

use crate::truth::{is_below, is_done};
use crate::{Note, NoteList};

pub(crate) fn lowered_by_orders<S: NoteList>(
    shard: usize,
    lists: &[S],
    bound: Option<usize>,
) -> Option<usize>
    ensures { IsLowered
        (λ new. All (λ list. AllPairs (IsInOrderBelow shard new) (S.seen list)) lists.now)
        (λ place. Any (λ list. HasLate shard place (S.seen list)) lists.now)
        bound result }
{
    let mut least = bound;
    for list in lists {
        least = lowered_by_order(shard, list.notes(), least);
    }
    least
}

fn lowered_by_order(shard: usize, notes: &[Note], bound: Option<usize>) -> Option<usize>
    ensures { IsLowered
        (λ new. AllPairs (IsInOrderBelow shard new) notes.now)
        (λ place. HasLate shard place notes.now)
        bound result }
{
    let mut least = bound;
    let mut next = 0;
    for note in notes {
        least = lowered_by_late(shard, note, next, least);
        next = next_after(shard, note, next);
    }
    least
}

fn lowered_by_late(shard: usize, note: &Note, next: u128, bound: Option<usize>) -> Option<usize>
    ensures { IsLowered
        (λ new. IsPromptBelow shard next new note.now)
        (λ place. IsAt shard place note.now × (place < next))
        bound result }
{
    let place = note.reply.place;
    if note.shard != shard || !is_below(place, bound) || next <= place as u128 {
        return bound;
    }
    Some(place)
}

fn next_after(shard: usize, note: &Note, next: u128) -> u128
    ensures kept { next ≤ result }
    ensures asked { note.now.shard ≡ shard → least_after note.now ≤ result }
    ensures one { (result ≡ next) ⊎ ((note.now.shard ≡ shard) × (result ≡ least_after note.now)) }
{
    if note.shard != shard {
        return next;
    }
    next.max(least_after(note))
}

/// It may be one more than the greatest `usize`.
fn least_after(note: &Note) -> u128
    ensures { result ≡ least_after note.now }
{
    let place = note.reply.place as u128;
    if is_done(&note.reply.outcome) {
        place + 1
    } else {
        place
    }
}
