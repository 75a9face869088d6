//! A new journal, made of an old one.
ghost use Rattle.std.specs.Prelude.{◌≡◌, ◌⊎◌, ℕ, List, Bool, [], length, Option, IfOk, IfErr, OnOk};
ghost use Rattle.mds_core.specs.declared.request.Request.{Request as Requested};
ghost use Rattle.mds_compact.specs.Cutting.{IsCuttingOf};
ghost use Rattle.mds_retention.specs.Copying.{HasKeptIn, IsCompactedJournal, cut_totals};
ghost use Rattle.mds_retention.specs.Draft.{IsWritten};
ghost use Rattle.mds_retention.specs.Compacting.{AreReadings, IsCompactFault, IsCompactedTo, IsCutFault, IsOfNew, IsWriteFault, StandsWhole};

use crate::copying::kept_lines;
use crate::draft::Draft;
use crate::error::CompactError;
use crate::passes::{Totals, marks_of, survey_of, thinning_of};
use mds_compact::{Cut, Cutting};
use mds_file::NewName;
use mds_journal::{Device, Group};
use std::alloc::Global;
use std::hash::RandomState;
use std::io::Read;

/// A journal that was opened once for each time that it is read from its start. Lines may be added to it meanwhile.
#[derive(Drop)]
pub struct Readings<R> {
    /// For the survey. The lines that count in it are those that count.
    pub first: R,
    /// For the thinning.
    pub second: R,
    /// For the marks.
    pub third: R,
    /// For the lines that stay.
    pub fourth: R,
}

/// A vehicle of which events are cut.
#[derive(Clone, Copy, Debug, PartialEq, Eq)]
pub struct CutTotals {
    /// How many of its events may stay.
    pub cut: Cut,
    /// How many events it has.
    pub events: usize,
}

/// What came of a compaction.
#[derive(Debug, Drop)]
pub struct Compacted {
    /// The vehicles of which events are cut, in the order of the cuts.
    pub cuts: Vec<CutTotals>,
    /// How many requests there are, and how many stay.
    pub totals: Totals,
}

/// Makes a new journal under a name: of the requests that the lines of an old one tell, and that cuts leave, those that stay in a
/// compaction. Each event of the time `from` or later stays.
///
/// # Errors
///
/// `New` with `IsThere` where something stands under the name; that is looked for first. `Old` with the first fault of the old
/// journal's lines. `NotThere` where a vehicle that a cut names isn't in it. Else `New` or `Old` where the new file can't be written, or the old one not read; and where there is no
/// memory. The new file isn't there then, but where that can't be known.
pub fn compact<R: Read + Drop, N: NewName>(
    alloc: Global,
    old: Readings<R>,
    from: u64,
    cuts: &[Cut],
    hasher: RandomState,
    name: &mut N,
) -> Result<Compacted, CompactError>
    ensures made { IfOk result (λ compacted. (first : List ℕ) → AreReadings R.remaining first old
        → N.is_true name.new → (found : Option (List ℕ)) → N.may_stand name.new found
        → StandsWhole (IsCompactedTo from cuts.now first compacted) found) }
    // Whatever crash ends it, also before this returns.
    ensures crash { (first : List ℕ) → AreReadings R.remaining first old → N.is_true name.new
        → (found : Option (List ℕ)) → N.may_stand name.new found
        → N.may_stand name.old found ⊎ StandsWhole (IsCompactedJournal from cuts.now first) found }
    ensures fault { IfErr result (IsCompactFault R.remaining old cuts.now) }
    // Nothing that had the name at any moment lost it; and where something has it from the start, that is told first.
    ensures over { N.keeps name.new → N.is_over name.new → N.is_over name.old }
    ensures free { OnOk result (N.keeps name.new → N.is_taken name.old → ⊥) }
    ensures order { IfErr result (λ error. N.keeps name.new → N.is_taken name.old → IsOfNew error) }
{
    name.is_free()?;
    let cutting = Cutting::open(alloc, cuts, hasher)?;
    let surveyed = survey_of(alloc, old.first, cutting, hasher)?;
    let cut = cut_totals_of(alloc, &surveyed.cutting, cuts)?;
    let thinning = thinning_of(alloc, old.second, surveyed.survey, &surveyed.marks, from)?;
    let marked = marks_of(alloc, old.third, thinning, &surveyed.marks)?;
    write_new(alloc, old.fourth, &marked.marks, name)?;
    Ok(Compacted {
        cuts: cut,
        totals: marked.totals,
    })
}

/// How many events the vehicles have that cuts name, once a pass by these cuts took all requests.
fn cut_totals_of(
    alloc: Global,
    cutting: &Cutting,
    cuts: &[Cut],
) -> Result<Vec<CutTotals>, CompactError>
    ensures totals { IfOk result (λ all. (history : List Requested) (marks : List Bool)
        → IsCuttingOf cuts.now history marks cutting.now
        → all.items ≡ cut_totals history cuts.now) }
    ensures fault { IfErr result (λ error. (history : List Requested) (marks : List Bool)
        → IsCuttingOf cuts.now history marks cutting.now → IsCutFault history cuts.now error) }
{
    let mut all = Vec::with_capacity(alloc, cuts.len())?;
    for cut in cuts {
        let Some(events) = cutting.events_of(&cut.key) else {
            return Err(CompactError::NotThere);
        };
        all.push(CutTotals { cut: *cut, events })?;
    }
    Ok(all)
}

/// Makes the new file of the marked lines of a reader.
fn write_new<R: Read + Drop, N: NewName>(
    alloc: Global,
    reader: R,
    marks: &[bool],
    name: &mut N,
) -> Result<(), CompactError>
    ensures made { OnOk result (N.is_true name.new → (found : Option (List ℕ))
        → N.may_stand name.new found → StandsWhole (HasKeptIn (R.remaining reader) marks.now) found) }
    ensures crash { N.is_true name.new → (found : Option (List ℕ)) → N.may_stand name.new found
        → N.may_stand name.old found ⊎ StandsWhole (HasKeptIn (R.remaining reader) marks.now) found }
    ensures fault { IfErr result (IsWriteFault (R.remaining reader) (length marks.now)) }
    ensures over { N.keeps name.new → N.is_over name.new → N.is_over name.old }
    ensures kept { N.keeps name.new → N.keeps name.old }
{
    let room = Group::new(alloc)?;
    let file = name.draft()?;
    let mut draft = Draft::new(alloc, room, file);
    match write_kept(alloc, reader, marks, &mut draft) {
        Ok(()) => {
            name.link(draft.into_file())?;
            Ok(())
        }
        Err(error) => {
            name.discard(draft.into_file());
            Err(error)
        }
    }
}

/// Writes the marked lines of a reader into an empty file, and puts all on the disk.
fn write_kept<R: Read + Drop, D: Device + Drop>(
    alloc: Global,
    reader: R,
    marks: &[bool],
    draft: &mut Draft<D>,
) -> Result<(), CompactError>
    requires usable { D.may_be_used draft.old.file }
    requires start { draft.old.size ≡ 0 }
    requires page { draft.old.page.items ≡ [] }
    requires group { draft.old.group ≡ [] }
    ensures kept { OnOk result ((out : List ℕ) × HasKeptIn (R.remaining reader) marks.now out
        × IsWritten D.may_leave D.is_true out draft.new) }
    ensures fault { IfErr result (IsWriteFault (R.remaining reader) (length marks.now)) }
{
    draft.begin()?;
    kept_lines(alloc, reader, marks, draft)?;
    draft.flush()?;
    Ok(())
}
