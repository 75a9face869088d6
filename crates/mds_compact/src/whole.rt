//! The compaction of a list of requests.
ghost use Rattle.std.specs.Prelude.{◌≡◌, ℕ, [], length, IfOk};
ghost use Rattle.mds_table.specs.Tables.{Tables};
ghost use Rattle.mds_core.specs.Lawful.{IsLawful};
ghost use Rattle.mds_compact.specs.Compaction.{kept_of, IsCompaction, IsThin};
ghost use Rattle.mds_compact.specs.Passes.{IsSurveyOf, IsThinningOf};

use crate::{Marking, Survey, Thinning};
use mds_core::Request;
use std::alloc::{AllocError, Global};
use std::hash::RandomState;

/// Marks which requests of a history stay: a mark for each. Those that are left out are old events, of which `from` is the
/// first time that isn't old.
///
/// # Errors
///
/// `AllocError` where there is no memory for the passes or the marks.
pub fn compaction(
    alloc: Global,
    history: &[Request],
    from: u64,
    hasher: RandomState,
) -> Result<Vec<bool>, AllocError>
    ensures count { IfOk result (λ marks. length marks.items ≡ length history.now) }
    ensures compaction { IfOk result (λ marks.
        IsCompaction from history.now (kept_of marks.items history.now)) }
    ensures thin { IfOk result (λ marks. (tables : Tables) → IsLawful tables history.now
        → IsThin from history.now (kept_of marks.items history.now)) }
{
    let survey = survey_of(alloc, history, hasher)?;
    let thinning = thinning_of(survey, history, from)?;
    marks_of(alloc, thinning, history)
}

fn survey_of(alloc: Global, history: &[Request], hasher: RandomState) -> Result<Survey, AllocError>
    ensures { IfOk result (IsSurveyOf history.now) }
{
    let mut survey = Survey::open(alloc, hasher);
    for request in history {
        survey.note(request)?;
    }
    Ok(survey)
}

fn thinning_of(survey: Survey, history: &[Request], from: u64) -> Result<Thinning, AllocError>
    ensures { IfOk result (λ thinning.
        IsSurveyOf history.now survey → IsThinningOf from history.now [] thinning) }
{
    let mut thinning = Thinning::open(survey, from);
    for request in history {
        thinning.take(request)?;
    }
    Ok(thinning)
}

fn marks_of(alloc: Global, thinning: Thinning, history: &[Request]) -> Result<Vec<bool>, AllocError>
    ensures count { IfOk result (λ marks. length marks.items ≡ length history.now) }
    ensures compaction { IfOk result (λ marks. (from : ℕ)
        → IsThinningOf from history.now [] thinning
        → IsCompaction from history.now (kept_of marks.items history.now)) }
    ensures thin { IfOk result (λ marks. (from : ℕ) (tables : Tables)
        → IsThinningOf from history.now [] thinning → IsLawful tables history.now
        → IsThin from history.now (kept_of marks.items history.now)) }
{
    let mut marking = Marking::open(thinning);
    let mut marks = Vec::with_capacity(alloc, history.len())?;
    for request in history {
        let mark = marking.next_mark(request);
        marks.push(mark)?;
    }
    Ok(marks)
}
