//! A call of `mds_retention`.
ghost use Rattle.std.specs.Prelude.{IfErr, IfOk, MatchOption, Some};
ghost use Rattle.mds_retention.specs.Events.{HasEvents, HasNothingOf};
ghost use Rattle.mds_retention.specs.Telling.{IsJournalFault};

use mds_core::Key;
use mds_retention::{LinesError, events_of};
use std::alloc::Global;

/// The lines of a journal that tell an event of a vehicle; none where no line is about it.
pub fn lines_about(alloc: Global, journal: &[u8], key: Key) -> Result<Option<Vec<u8>>, LinesError>
    ensures told { IfOk result (λ found. MatchOption found (HasNothingOf key (Some journal.now))
        (λ lines. HasEvents key (Some journal.now) lines.items)) }
    ensures fault { IfErr result (IsJournalFault (Some journal.now)) }
{
    events_of(alloc, journal, key)
}
