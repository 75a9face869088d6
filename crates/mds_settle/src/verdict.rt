//! Whether callers' notes fit the history of a shard, and if not, the least place at which they don't.
ghost use Rattle.std.specs.Prelude.{◌≡◌, ◌↔◌, true, IsOk, IfErr, MatchResult};
ghost use Rattle.mds_core.specs.Lawful.{IsLawful};
ghost use Rattle.mds_settle.specs.Settled.{IsSettled};
ghost use Rattle.mds_settle.specs.Faults.{IsLeastFault};
ghost use Rattle.mds_settle.specs.Bounds.{end_by};

use crate::NoteList;
use crate::count::first_miscounted;
use crate::order::lowered_by_orders;
use crate::truth::lowered_by_lists;
use mds_core::Request;
use mds_table::Tables;

/// Whether the notes of a shard's callers, one list for each of them, fit the shard's history: those notes count that
/// are of the shard. The tables decide what the answer to a request is: an event is judged by the table in force at its
/// time. It takes no memory.
///
/// An accepted note is answered from the whole history before its place, as a refusal is and a look: where the history
/// is known to be lawful, [`judge_lawful`] is faster.
///
/// # Errors
///
/// The least place at which one of these holds:
/// - a note with this place has a reply that isn't the answer after so many entries, or there aren't so many;
/// - an accepted note with this place has another request than the entry;
/// - two accepted notes have this place;
/// - the entry at this place has no accepted note;
/// - a caller's note with this place follows one of its notes with a greater place, or one of its accepted notes with
///   this place.
pub fn judge<S: NoteList>(
    tables: &Tables,
    shard: usize,
    history: &[Request],
    notes: &[S],
) -> Result<(), usize>
    ensures exact { IsOk result ↔ IsSettled tables.now shard history.now S.seen notes.now }
    ensures fault { IfErr result (IsLeastFault tables.now shard history.now S.seen notes.now) }
{
    judge_with(false, tables, shard, history, notes)
}

/// [`judge`] for a history that is lawful, as a shard's history is at every moment. There an accepted note is right
/// where its request is the entry at its place, and so notes of accepted calls alone cost as much as there are entries
/// and notes, times the number of lists; each other note costs a look through the history before its place. It takes no
/// memory.
///
/// # Errors
///
/// As in [`judge`].
pub fn judge_lawful<S: NoteList>(
    tables: &Tables,
    shard: usize,
    history: &[Request],
    notes: &[S],
) -> Result<(), usize>
    requires { IsLawful tables.now history.now }
    ensures exact { IsOk result ↔ IsSettled tables.now shard history.now S.seen notes.now }
    ensures fault { IfErr result (IsLeastFault tables.now shard history.now S.seen notes.now) }
{
    judge_with(true, tables, shard, history, notes)
}

/// Judges; `lawful` tells that the history is known to be so. Each of three looks lowers the place of the least fault so
/// far: at wrong notes, at late ones, and at places that haven't exactly one accepted note.
fn judge_with<S: NoteList>(
    lawful: bool,
    tables: &Tables,
    shard: usize,
    history: &[Request],
    lists: &[S],
) -> Result<(), usize>
    requires { lawful ≡ true → IsLawful tables.now history.now }
    ensures { MatchResult result
        (λ _. IsSettled tables.now shard history.now S.seen lists.now)
        (IsLeastFault tables.now shard history.now S.seen lists.now) }
{
    let wrong = lowered_by_lists(lawful, tables, shard, history, lists, None);
    let late = lowered_by_orders(shard, lists, wrong);
    let end = end_of(late, history.len());
    match first_miscounted(shard, end, lists) {
        Some(place) => Err(place),
        None => match late {
            Some(place) => Err(place),
            None => Ok(()),
        },
    }
}

fn end_of(bound: Option<usize>, count: usize) -> usize
    ensures { result ≡ end_by bound count }
{
    match bound {
        Some(bound) => bound.min(count),
        None => count,
    }
}
