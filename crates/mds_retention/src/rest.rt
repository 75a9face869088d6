//! What a journal has behind a place, copied as it stands.
ghost use Rattle.std.specs.Prelude.{◌≡◌, ◌≤◌, ◌++◌, ◌∷◌, [], ℕ, List, Option, IfOk, IfErr, OnOk};
ghost use Rattle.std.specs.List.{AllZip};
ghost use Rattle.mds_core.specs.declared.request.Request.{Request as Requested};
ghost use Rattle.mds_entries.specs.Entry.{Tells};
ghost use Rattle.mds_file.specs.Followed.{Grows};
ghost use Rattle.mds_groups.specs.Form.{texts_in};
ghost use Rattle.mds_retention.specs.Copying.{AreTotalsOf};
ghost use Rattle.mds_retention.specs.Draft.{IsDraft, IsDraftOf};
ghost use Rattle.mds_retention.specs.Place.{Begins, HasAll, IsPlaceOf};
ghost use Rattle.mds_retention.specs.Rest.{IsEndFault};
ghost use Rattle.mds_retention.specs.Telling.{Gives};

use crate::draft::Draft;
use crate::error::{CompactError, LinesError};
use crate::lines::RequestLines;
use crate::passes::Totals;
use crate::place::Place;
use mds_core::Request;
use mds_file::Followed;
use mds_journal::Device;
use std::alloc::Global;
use std::io::Read;

/// How far a journal was read, whole groups.
#[derive(Clone, Copy, Debug, PartialEq, Eq)]
pub(crate) struct Reached {
    /// The place behind its lines.
    pub(crate) place: Place,
    /// How many requests they tell, and how many of them stay.
    pub(crate) totals: Totals,
}

/// Copies the texts of all lines that a journal has behind a place, as they stand, and answers how far that was.
///
/// # Errors
///
/// `Old` with the first fault of these lines, or where they can't be read; `New` where their texts can't be written.
pub(crate) fn read_on<F: Followed, D: Device + Drop>(
    alloc: Global,
    followed: &mut F,
    start: Reached,
    draft: &mut Draft<D>,
) -> Result<Reached, CompactError>
    requires usable { D.may_be_used draft.old.file }
    requires draft { IsDraft D.seen D.may_leave D.is_true draft.old }
    requires within { start.totals.kept ≤ start.totals.events }
    ensures usable { OnOk result (D.may_be_used draft.new.file) }
    ensures draft { OnOk result (IsDraft D.seen D.may_leave D.is_true draft.new) }
    ensures within { IfOk result (λ next. next.totals.kept ≤ next.totals.events) }
    ensures grows { Grows (F.content followed.old) (F.content followed.new) }
    ensures all { OnOk result (F.left followed.old → F.is_all followed.new) }
    ensures read { IfOk result (λ next. (rest : List (List ℕ)) × (tail : List Requested)
        × AllZip Tells rest tail
        × ((lines : List (List ℕ)) (groups : List (List (List ℕ)))
        → Begins lines (F.content followed.new) → IsPlaceOf lines groups start.place
        → HasAll (F.content followed.new) (texts_in groups ++ rest) next.place)
        × ((old new : List Requested) → AreTotalsOf old new start.totals
        → AreTotalsOf (old ++ tail) (new ++ tail) next.totals)
        × ((texts : List (List ℕ)) → IsDraftOf D.seen D.may_leave D.is_true texts draft.old
        → IsDraftOf D.seen D.may_leave D.is_true (texts ++ rest) draft.new)) }
    ensures fault { IfErr result (λ error. (lines : List (List ℕ)) (groups : List (List (List ℕ)))
        (history : List Requested)
        → Begins lines (F.content followed.new) → IsPlaceOf lines groups start.place
        → AllZip Tells (texts_in groups) history → IsEndFault (F.content followed.new) error) }
{
    let rest = followed.rest(start.place.bytes)?;
    let next = copy_rest(alloc, rest, start, draft)?;
    Ok(next)
}

/// Copies the texts of all lines of a reader, before which those up to a place stand, and answers how far that was.
fn copy_rest<R: Read + Drop, D: Device + Drop>(
    alloc: Global,
    reader: R,
    start: Reached,
    draft: &mut Draft<D>,
) -> Result<Reached, CompactError>
    requires usable { D.may_be_used draft.old.file }
    requires draft { IsDraft D.seen D.may_leave D.is_true draft.old }
    requires within { start.totals.kept ≤ start.totals.events }
    ensures usable { OnOk result (D.may_be_used draft.new.file) }
    ensures within { IfOk result (λ next. next.totals.kept ≤ next.totals.events) }
    ensures copied { IfOk result (λ next. (rest : List (List ℕ)) × (tail : List Requested)
        × AllZip Tells rest tail
        × ((known : Option (List ℕ)) (lines : List (List ℕ)) (groups : List (List (List ℕ)))
        → IsPlaceOf lines groups start.place → Gives known lines (R.remaining reader)
        → HasAll known (texts_in groups ++ rest) next.place)
        × ((old new : List Requested) → AreTotalsOf old new start.totals
        → AreTotalsOf (old ++ tail) (new ++ tail) next.totals)
        × ((texts : List (List ℕ)) → IsDraftOf D.seen D.may_leave D.is_true texts draft.old
        → IsDraftOf D.seen D.may_leave D.is_true (texts ++ rest) draft.new)) }
    ensures fault { IfErr result (λ error. (known : Option (List ℕ)) (lines : List (List ℕ))
        (groups : List (List (List ℕ))) (history : List Requested)
        → IsPlaceOf lines groups start.place → Gives known lines (R.remaining reader)
        → AllZip Tells (texts_in groups) history → IsEndFault known error) }
{
    let mut lines = RequestLines::behind(alloc, reader, start.place);
    let mut totals = start.totals;
    'lines: loop {
        let Some(request) = lines.next()? else {
            return Ok(Reached {
                place: lines.place(),
                totals,
            });
        };
        draft.add_text(lines.text())?;
        totals = with_one(totals, &request)?;
    }
}

/// The totals of one request more, which stays.
fn with_one(totals: Totals, request: &Request) -> Result<Totals, LinesError>
    requires { totals.kept ≤ totals.events }
    ensures within { IfOk result (λ next. next.kept ≤ next.events) }
    ensures counted { IfOk result (λ next. (old new : List Requested)
        → AreTotalsOf old new totals
        → AreTotalsOf (old ++ request.now ∷ []) (new ++ request.now ∷ []) next) }
    ensures cause { IfErr result (λ error. error ≡ LinesError.Read) }
{
    if totals
        .registrations
        .checked_add(totals.events)
        .is_none_or(|all| all == usize::MAX)
    {
        return Err(LinesError::Read);
    }
    let mut more = totals;
    more.count(request, true);
    Ok(more)
}
