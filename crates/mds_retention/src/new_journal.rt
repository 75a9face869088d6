//! A new journal that is made while another process adds lines to the old one.
ghost use Rattle.std.specs.Prelude.{◌≡◌, ◌⊎◌, ◌≤◌, [], ℕ, List, length, Option, Some, IfOk, IfErr, OnOk};
ghost use Rattle.mds_core.specs.declared.request.Request.{Request as Requested};
ghost use Rattle.mds_retention.specs.Draft.{IsWritten};
ghost use Rattle.mds_retention.specs.Compacting.{AreReadings, IsOfNew, IsReadAgain, IsWriteFault, StandsWhole};
ghost use Rattle.mds_retention.specs.Telling.{IsTaken};
ghost use Rattle.mds_retention.specs.NewJournal.{HasSince, IsBeginFault, IsFirstOf, IsFollowed, IsFollowedTo, IsMarksFault, IsNewJournal, MayBeEnded};
ghost use Rattle.mds_retention.specs.Rest.{IsEndFault};

use crate::compacting::Readings;
use crate::copying::kept_lines;
use crate::draft::Draft;
use crate::error::CompactError;
use crate::passes::{Totals, marks_of, survey_of, thinning_of};
use crate::rest::{Reached, read_on};
use mds_compact::Cutting;
use mds_file::{Followed, NewName};
use mds_journal::{Device, Group};
use std::alloc::Global;
use std::hash::RandomState;
use std::io::Read;
use std::sync::Wait;

/// A new journal that has no name yet: it has what stays of the first lines of the old one, and all lines behind them, as far
/// as that was read.
#[derive(Drop)]
pub struct NewJournal<D: Device + Drop> {
    draft: Draft<D>,
    reached: Reached,
}

/// What stays of the first lines of a journal, and how far these reach.
#[derive(Drop)]
struct First {
    marks: Vec<bool>,
    reached: Reached,
}

/// Begins a new journal: of the requests that the lines of an old one tell at first, those that stay in a compaction, and behind
/// them all that came since. Each event of the time `from` or later stays.
///
/// # Errors
///
/// Those of [`compact`](crate::compact); the faults of the lines that came since are told in the same way. Nothing is left of the
/// new file then.
pub fn begin_journal<R: Read + Drop, F: Followed, N: NewName>(
    alloc: Global,
    old: Readings<R>,
    followed: &mut F,
    from: u64,
    hasher: RandomState,
    name: &mut N,
) -> Result<NewJournal<N::File>, CompactError>
    ensures open { IfOk result (MayBeEnded N.File.seen N.File.may_leave N.File.is_true N.File.may_be_used) }
    ensures begun { IfOk result (λ journal. (first : List ℕ) → AreReadings R.remaining first old
        → HasSince first (F.content followed.old) → IsNewJournal N.File.seen N.File.may_leave
        N.File.is_true from first (F.content followed.new) journal) }
    ensures stands { (found : Option (List ℕ)) → N.may_stand name.new found → N.may_stand name.old found }
    ensures fault { IfErr result
        (IsBeginFault R.remaining old (F.content followed.old) (F.content followed.new)) }
    ensures over { N.is_over name.new → N.is_over name.old }
    ensures kept { N.keeps name.new → N.keeps name.old }
    // Where something has the name, that is told first.
    ensures free { OnOk result (N.keeps name.new → N.is_taken name.old → ⊥) }
    ensures order { IfErr result (λ error. N.keeps name.new → N.is_taken name.old → IsOfNew error) }
{
    name.is_free()?;
    let first = marked_by(alloc, old.first, old.second, old.third, from, hasher)?;
    let room = Group::new(alloc)?;
    let file = name.draft()?;
    let mut draft = Draft::new(alloc, room, file);
    match begin_draft(alloc, old.fourth, first, followed, &mut draft) {
        Ok(reached) => Ok(NewJournal { draft, reached }),
        Err(error) => {
            name.discard(draft.into_file());
            Err(error)
        }
    }
}

/// Which of the requests stay that the lines of an old journal tell, by three readings of it.
fn marked_by<R: Read + Drop>(
    alloc: Global,
    first: R,
    second: R,
    third: R,
    from: u64,
    hasher: RandomState,
) -> Result<First, CompactError>
    ensures within { IfOk result (λ one. one.reached.totals.kept ≤ one.reached.totals.events) }
    ensures count { IfOk result (λ one. (history : List Requested)
        × IsTaken (R.remaining first) history × (length one.marks.items ≡ length history)) }
    ensures marks { IfOk result (λ one. (bytes : List ℕ) → R.remaining first ≡ Some bytes
        → IsReadAgain bytes (R.remaining second) → IsReadAgain bytes (R.remaining third)
        → IsFirstOf from bytes one.marks.items one.reached) }
    ensures fault { IfErr result
        (IsMarksFault (R.remaining first) (R.remaining second) (R.remaining third)) }
{
    let cutting = Cutting::open(alloc, &[], hasher)?;
    let surveyed = survey_of(alloc, first, cutting, hasher)?;
    let survey = surveyed.survey;
    let stays = surveyed.marks.as_slice();
    let thinning = thinning_of(alloc, second, survey, stays, from)?;
    let marked = marks_of(alloc, third, thinning, stays)?;
    Ok(First {
        marks: marked.marks,
        reached: Reached {
            place: surveyed.place,
            totals: marked.totals,
        },
    })
}

/// Writes the marked texts of a reader into an empty file, and all that came behind them.
fn begin_draft<R: Read + Drop, F: Followed, D: Device + Drop>(
    alloc: Global,
    reader: R,
    first: First,
    followed: &mut F,
    draft: &mut Draft<D>,
) -> Result<Reached, CompactError>
    requires usable { D.may_be_used draft.old.file }
    requires start { draft.old.size ≡ 0 }
    requires page { draft.old.page.items ≡ [] }
    requires group { draft.old.group ≡ [] }
    requires within { first.reached.totals.kept ≤ first.reached.totals.events }
    ensures open { IfOk result (λ reached. MayBeEnded D.seen D.may_leave D.is_true D.may_be_used
        (record { draft = draft.new; reached = reached })) }
    ensures begun { IfOk result (λ reached. (from : ℕ) (bytes : List ℕ)
        → IsFirstOf from bytes first.marks.items first.reached → IsReadAgain bytes (R.remaining reader)
        → HasSince bytes (F.content followed.old)
        → IsNewJournal D.seen D.may_leave D.is_true from bytes (F.content followed.new)
        (record { draft = draft.new; reached = reached })) }
    ensures fault { IfErr result (λ error.
        IsWriteFault (R.remaining reader) (length first.marks.items) error
        ⊎ ((from : ℕ) (bytes : List ℕ)
        → IsFirstOf from bytes first.marks.items first.reached → IsReadAgain bytes (R.remaining reader)
        → HasSince bytes (F.content followed.old) → IsEndFault (F.content followed.new) error)) }
{
    draft.begin()?;
    kept_lines(alloc, reader, &first.marks, draft)?;
    let reached = read_on(alloc, followed, first.reached, draft)?;
    Ok(reached)
}

/// Reads the old journal on until no other process has it, and gives the new one its name. It answers how many requests the old
/// one tells by then, and how many of them are in the new one.
///
/// # Errors
///
/// As [`begin_journal`].
pub fn end_journal<R: Wait, F: Followed, N: NewName>(
    rt: &R,
    alloc: Global,
    journal: NewJournal<N::File>,
    followed: &mut F,
    name: &mut N,
) -> Result<Totals, CompactError>
    requires { MayBeEnded N.File.seen N.File.may_leave N.File.is_true N.File.may_be_used journal }
    ensures made { IfOk result (λ totals. (from : ℕ) (first : List ℕ)
        → IsNewJournal N.File.seen N.File.may_leave N.File.is_true from first (F.content followed.old) journal
        → N.is_true name.new → (found : Option (List ℕ)) → N.may_stand name.new found
        → (last : List ℕ) × (F.content followed.new ≡ Some last)
        × StandsWhole (IsFollowedTo from first last totals) found) }
    // Whatever crash ends it, also before this returns.
    ensures crash { (from : ℕ) (first : List ℕ)
        → IsNewJournal N.File.seen N.File.may_leave N.File.is_true from first (F.content followed.old) journal
        → N.is_true name.new → (found : Option (List ℕ)) → N.may_stand name.new found
        → N.may_stand name.old found ⊎ ((last : List ℕ) × (F.content followed.new ≡ Some last)
        × StandsWhole (IsFollowed from first last) found) }
    ensures fault { IfErr result (λ error. (from : ℕ) (first : List ℕ)
        → IsNewJournal N.File.seen N.File.may_leave N.File.is_true from first (F.content followed.old) journal
        → IsEndFault (F.content followed.new) error) }
    // The last look came once no other process had the old journal: that is all that it ever has.
    ensures all { OnOk result (F.is_all followed.new) }
    // Nothing that had the name lost it.
    ensures over { N.keeps name.new → N.is_over name.new → N.is_over name.old }
    ensures kept { N.keeps name.new → N.keeps name.old }
{
    let mut draft = journal.draft;
    match read_to_end(rt, alloc, followed, journal.reached, &mut draft) {
        Ok(totals) => {
            name.link(draft.into_file())?;
            Ok(totals)
        }
        Err(error) => {
            name.discard(draft.into_file());
            Err(error)
        }
    }
}

/// Copies all lines behind a place until no other process has the journal, and puts them on the disk.
fn read_to_end<R: Wait, F: Followed, D: Device + Drop>(
    rt: &R,
    alloc: Global,
    followed: &mut F,
    start: Reached,
    draft: &mut Draft<D>,
) -> Result<Totals, CompactError>
    requires { MayBeEnded D.seen D.may_leave D.is_true D.may_be_used
        (record { draft = draft.old; reached = start }) }
    ensures written { IfOk result (λ totals. (from : ℕ) (first : List ℕ)
        → IsNewJournal D.seen D.may_leave D.is_true from first (F.content followed.old)
        (record { draft = draft.old; reached = start })
        → (last : List ℕ) × (F.content followed.new ≡ Some last) × (out : List ℕ)
        × IsFollowedTo from first last totals out × IsWritten D.may_leave D.is_true out draft.new) }
    ensures fault { IfErr result (λ error. (from : ℕ) (first : List ℕ)
        → IsNewJournal D.seen D.may_leave D.is_true from first (F.content followed.old)
        (record { draft = draft.old; reached = start })
        → IsEndFault (F.content followed.new) error) }
    ensures all { OnOk result (F.is_all followed.new) }
{
    let mut reached = start;
    for _ in rt.forever() {
        // What is there once nobody has it is all that ever comes.
        let is_left = followed.is_left()?;
        reached = read_on(alloc, followed, reached, draft)?;
        if is_left {
            draft.flush()?;
            return Ok(reached.totals);
        }
    }
    unreachable!()
}

/// Gives the new journal up.
pub fn drop_journal<N: NewName>(journal: NewJournal<N::File>, name: &mut N)
    ensures over { N.is_over name.new → N.is_over name.old }
    ensures stands { (found : Option (List ℕ)) → N.may_stand name.new found → N.may_stand name.old found }
{
    name.discard(journal.draft.into_file());
}
