//! The passes of a compaction over the lines of a journal.
ghost use Rattle.std.specs.Prelude.{◌≡◌, ◌+◌, ◌<◌, ◌≤◌, ◌∷◌, ◌++◌, [], ℕ, List, Bool, false, Some, cond, length, IfOk, IfErr, OnOk};
ghost use Rattle.mds_core.specs.declared.request.Request.{Request as Requested};
ghost use Rattle.mds_compact.specs.Compaction.{kept_of};
ghost use Rattle.mds_compact.specs.Cutting.{IsCuttingOf};
ghost use Rattle.mds_compact.specs.Passes.{IsSurveyOf, IsThinningOf, IsMarkingOf};
ghost use Rattle.mds_compact.specs.declared.cutting.Cut.{Cut as Cuts};
ghost use Rattle.mds_retention.specs.Telling.{BeginsWith, IsJournalFault, IsAgainFault};
ghost use Rattle.mds_retention.specs.Place.{IsTakenTo};
ghost use Rattle.mds_retention.specs.Copying.{AreTotalsOf, IsMarkedBy, IsSurveyed};

use crate::error::LinesError;
use crate::lines::RequestLines;
use crate::place::Place;
use mds_compact::{Cutting, Marking, Survey, Thinning};
use mds_core::Request;
use std::alloc::{AllocError, Global};
use std::hash::RandomState;
use std::io::Read;

/// What the first pass learns.
#[derive(Debug, Drop)]
pub struct Surveyed {
    /// How many events there are of the vehicles that cuts name.
    pub cutting: Cutting,
    /// What is to come of each vehicle, of what the cuts leave.
    pub survey: Survey,
    /// Whether the cuts leave each request. The later passes read so many, and none behind them.
    pub marks: Vec<bool>,
    /// How far the lines were read.
    pub place: Place,
}

impl Surveyed {
    /// Takes the next request.
    fn note(&mut self, request: &Request) -> Result<(), LinesError>
        ensures count { OnOk result (length self.new.marks.items ≡ length self.old.marks.items + 1) }
        ensures surveyed { OnOk result ((cuts : List Cuts) (history : List Requested)
            → length history < usize.MAX → IsSurveyed cuts history self.old
            → IsSurveyed cuts (history ++ request.now ∷ []) self.new) }
        ensures memory { IfErr result (λ error. error ≡ LinesError.Memory) }
    {
        let is_left = self.cutting.next_mark(request);
        self.marks.push(is_left)?;
        if is_left {
            self.survey.note(request)?;
        }
        Ok(())
    }
}

/// How many requests there are, and how many of them stay.
#[derive(Clone, Copy, Debug, PartialEq, Eq)]
pub struct Totals {
    /// How many are no events.
    pub registrations: usize,
    /// How many events there are.
    pub events: usize,
    /// How many of them stay.
    pub kept: usize,
}

impl Totals {
    /// Counts a request, and whether it stays.
    pub(crate) fn count(&mut self, request: &Request, stays: bool)
        requires few { self.old.registrations + self.old.events < usize.MAX }
        requires within { self.old.kept ≤ self.old.events }
        ensures within { self.new.kept ≤ self.new.events }
        ensures counted { (history kept : List Requested) → AreTotalsOf history kept self.old
            → AreTotalsOf (history ++ request.now ∷ [])
            (kept ++ cond stays (request.now ∷ []) []) self.new }
    {
        if request.event().is_none() {
            self.registrations += 1;
            return;
        }
        self.events += 1;
        if stays {
            self.kept += 1;
        }
    }
}

/// What the third pass tells.
#[derive(Drop)]
pub struct Marked {
    /// Whether each request stays.
    pub marks: Vec<bool>,
    /// How many there are.
    pub totals: Totals,
}

/// The survey of what the cuts of a pass, which has taken no request yet, leave of the requests that a reader's lines tell.
///
/// # Errors
///
/// `Fault` with the first fault of the lines, `Read`, `Memory`.
pub fn survey_of<R: Read + Drop>(
    alloc: Global,
    reader: R,
    cutting: Cutting,
    hasher: RandomState,
) -> Result<Surveyed, LinesError>
    ensures survey { IfOk result (λ surveyed. (history : List Requested)
        × IsTakenTo (R.remaining reader) history surveyed.place
        × (length surveyed.marks.items ≡ length history)
        × ((cuts : List Cuts) → IsCuttingOf cuts [] [] cutting → IsSurveyed cuts history surveyed)) }
    ensures fault { IfErr result (IsJournalFault (R.remaining reader)) }
{
    let mut lines = RequestLines::open(alloc, reader);
    let mut surveyed = Surveyed {
        cutting,
        survey: Survey::open(alloc, hasher),
        marks: Vec::new(alloc),
        place: Place::start(),
    };
    'requests: loop {
        let Some(request) = lines.next()? else {
            surveyed.place = lines.place();
            return Ok(surveyed);
        };
        surveyed.note(&request)?;
    }
}

/// The thinning of the requests that were surveyed: of so many, those that stay by the cuts. They have to be the first that the
/// reader's lines tell.
///
/// # Errors
///
/// `Changed` where its lines tell fewer; else those of [`survey_of`].
pub fn thinning_of<R: Read + Drop>(
    alloc: Global,
    reader: R,
    survey: Survey,
    stays: &[bool],
    from: u64,
) -> Result<Thinning, LinesError>
    ensures thinning { IfOk result (λ thinning. (bytes : List ℕ) (history : List Requested)
        → R.remaining reader ≡ Some bytes → BeginsWith bytes history
        → length stays.now ≡ length history → IsSurveyOf (kept_of stays.now history) survey
        → IsThinningOf from (kept_of stays.now history) [] thinning) }
    ensures fault { IfErr result (IsAgainFault (R.remaining reader) (length stays.now)) }
{
    let mut lines = RequestLines::open(alloc, reader);
    let mut thinning = Thinning::open(survey, from);
    for mark in stays {
        let Some(request) = lines.next()? else {
            return Err(LinesError::Changed);
        };
        take_if(&mut thinning, *mark, &request)?;
    }
    Ok(thinning)
}

/// Takes the next request if it stays by the cuts.
fn take_if(thinning: &mut Thinning, stays: bool, request: &Request) -> Result<(), AllocError>
    ensures { OnOk result ((from : ℕ) (old rest : List Requested)
        → IsThinningOf from old (cond stays (request.now ∷ []) [] ++ rest) thinning.old
        → IsThinningOf from (old ++ cond stays (request.now ∷ []) []) rest thinning.new) }
{
    if stays {
        thinning.take(request)
    } else {
        Ok(())
    }
}

/// The marks of so many requests, once those that stay by the cuts were thinned: whether each stays. They have to be the first
/// that the reader's lines tell.
///
/// # Errors
///
/// Those of [`thinning_of`].
pub fn marks_of<R: Read + Drop>(
    alloc: Global,
    reader: R,
    thinning: Thinning,
    stays: &[bool],
) -> Result<Marked, LinesError>
    ensures marks { IfOk result (λ marked. (from : ℕ) (bytes : List ℕ) (history : List Requested)
        → R.remaining reader ≡ Some bytes → BeginsWith bytes history
        → length stays.now ≡ length history
        → IsThinningOf from (kept_of stays.now history) [] thinning
        → IsMarkedBy from (kept_of stays.now history) history marked.marks.items
        × AreTotalsOf history (kept_of marked.marks.items history) marked.totals) }
    ensures count { IfOk result (λ marked. length marked.marks.items ≡ length stays.now) }
    ensures within { IfOk result (λ marked. marked.totals.kept ≤ marked.totals.events) }
    ensures fault { IfErr result (IsAgainFault (R.remaining reader) (length stays.now)) }
{
    let mut lines = RequestLines::open(alloc, reader);
    let mut marking = Marking::open(thinning);
    let mut marks = Vec::with_capacity(alloc, stays.len())?;
    let mut totals = Totals {
        registrations: 0,
        events: 0,
        kept: 0,
    };
    for left in stays {
        let Some(request) = lines.next()? else {
            return Err(LinesError::Changed);
        };
        let mark = mark_if(&mut marking, *left, &request);
        totals.count(&request, mark);
        marks.push(mark)?;
    }
    Ok(Marked { marks, totals })
}

/// Whether the next request stays, which stays by the cuts or doesn't.
fn mark_if(marking: &mut Marking, stays: bool, request: &Request) -> bool
    ensures less { stays ≡ false → result ≡ false }
    ensures marks { (from : ℕ) (old rest : List Requested) (marks : List Bool)
        → IsMarkingOf from old (cond stays (request.now ∷ []) [] ++ rest) marks marking.old
        → IsMarkingOf from (old ++ cond stays (request.now ∷ []) []) rest
        (marks ++ cond stays (result ∷ []) []) marking.new }
{
    if stays {
        marking.next_mark(request)
    } else {
        false
    }
}
