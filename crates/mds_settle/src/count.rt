//! How many accepted notes each place has: exactly one is right.
ghost use Rattle.std.specs.Prelude.{◌≡◌, ◌↔◌, ℕ, ◌<◌, ◌≤◌, IsTrue, true, Any, MatchOption, count_by};
ghost use Rattle.mds_settle.specs.Notes.{accepted_at, notes_at};
ghost use Rattle.mds_settle.specs.Bounds.{accepted_below, notes_below, AreOnceBelow, IsFirstMiscounted};

use crate::truth::is_done;
use crate::{Note, NoteList};

/// How many lists are walked side by side. The notes of further ones are counted place by place.
const MAX_WALKED: usize = 64;

pub(crate) fn first_miscounted<S: NoteList>(shard: usize, end: usize, lists: &[S]) -> Option<usize>
    ensures { MatchOption result
        (AreOnceBelow shard end S.seen lists.now)
        (IsFirstMiscounted shard end S.seen lists.now) }
{
    let place = walk_length(shard, end, lists);
    if !are_few(shard, place, lists) {
        return Some(first_twice(shard, place, lists));
    }
    if place == end {
        return None;
    }
    if !is_once(shard, place, lists) {
        return Some(place);
    }
    first_miscounted_plain(shard, end, lists)
}

/// How far, up to the end, a walk over all lists side by side finds an accepted note of the shard for each place.
fn walk_length<S: NoteList>(shard: usize, end: usize, lists: &[S]) -> usize
    ensures within { result ≤ end }
    ensures found { (place : ℕ) → place < result → 1 ≤ notes_at shard place S.seen lists.now }
{
    let mut cursors = [0; MAX_WALKED];
    for place in 0..end {
        if !is_found(shard, place, lists, &mut cursors) {
            return place;
        }
    }
    end
}

/// Whether some list has an accepted note of the shard with this place, looked for from the cursors on, one a list, which
/// go on to the first accepted notes with this place or a later one.
fn is_found<S: NoteList>(
    shard: usize,
    place: usize,
    lists: &[S],
    cursors: &mut [usize; MAX_WALKED],
) -> bool
    ensures { result ≡ true →
        Any (λ list. Any (λ note. accepted_at shard place note ≡ true) (S.seen list)) lists.now }
{
    for (list, cursor) in lists.iter().zip(cursors.iter_mut()) {
        let notes = list.notes();
        *cursor = next_accepted(shard, place, notes, *cursor);
        if is_at_cursor(shard, place, notes, *cursor) {
            return true;
        }
    }
    false
}

/// Where in the list, from the cursor on, the first accepted note of the shard with this place or a later one stands, or
/// a place past the end.
fn next_accepted(shard: usize, place: usize, notes: &[Note], cursor: usize) -> usize {
    let mut next = cursor;
    while let Some(note) = notes.get(next) {
        if note.shard == shard && note.reply.place >= place && is_done(&note.reply.outcome) {
            return next;
        }
        next += 1;
    }
    next
}

fn is_at_cursor(shard: usize, place: usize, notes: &[Note], cursor: usize) -> bool
    ensures { result ≡ true → Any (λ note. accepted_at shard place note ≡ true) notes.now }
{
    match notes.get(cursor) {
        Some(note) => is_accepted_at(shard, place, note),
        None => false,
    }
}

fn are_few<S: NoteList>(shard: usize, place: usize, lists: &[S]) -> bool
    ensures { IsTrue result ↔ (notes_below shard place S.seen lists.now ≤ place) }
{
    let mut left = place as u128 + 1;
    for list in lists {
        left = left.saturating_sub(count_below(shard, place, list.notes()) as u128);
    }
    left > 0
}

fn is_once<S: NoteList>(shard: usize, place: usize, lists: &[S]) -> bool
    ensures { IsTrue result ↔ (notes_at shard place S.seen lists.now ≡ 1) }
{
    let mut left = 2usize;
    for list in lists {
        left = left.saturating_sub(count_at(shard, place, list.notes()));
    }
    left == 1
}

/// It is found by halves.
fn first_twice<S: NoteList>(shard: usize, end: usize, lists: &[S]) -> usize
    requires found { (place : ℕ) → place < end → 1 ≤ notes_at shard place S.seen lists.now }
    requires many { end < notes_below shard end S.seen lists.now }
    ensures { IsFirstMiscounted shard end S.seen lists.now result }
{
    let mut few = 0;
    let mut many = end;
    while many - few > 1 {
        let middle = few + (many - few) / 2;
        if are_few(shard, middle, lists) {
            few = middle;
        } else {
            many = middle;
        }
    }
    few
}

/// [`first_miscounted`] without a walk: place by place.
fn first_miscounted_plain<S: NoteList>(shard: usize, end: usize, lists: &[S]) -> Option<usize>
    ensures { MatchOption result
        (AreOnceBelow shard end S.seen lists.now)
        (IsFirstMiscounted shard end S.seen lists.now) }
{
    for place in 0..end {
        if !is_once(shard, place, lists) {
            return Some(place);
        }
    }
    None
}

fn count_below(shard: usize, place: usize, notes: &[Note]) -> usize
    ensures { result ≡ count_by (accepted_below shard place) notes.now }
{
    notes
        .iter()
        .filter(|note| note.shard == shard
            && note.reply.place < place
            && is_done(&note.reply.outcome))
        .count()
}

fn count_at(shard: usize, place: usize, notes: &[Note]) -> usize
    ensures { result ≡ count_by (accepted_at shard place) notes.now }
{
    notes
        .iter()
        .filter(|note| is_accepted_at(shard, place, note))
        .count()
}

fn is_accepted_at(shard: usize, place: usize, note: &Note) -> bool
    ensures { result ≡ accepted_at shard place note.now }
{
    note.shard == shard && note.reply.place == place && is_done(&note.reply.outcome)
}
