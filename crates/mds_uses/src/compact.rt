//! A call of `mds_compact`.
ghost use Rattle.std.specs.Prelude.{IfOk};
ghost use Rattle.mds_table.specs.Tables.{Tables};
ghost use Rattle.mds_core.specs.Lawful.{IsLawful};
ghost use Rattle.mds_compact.specs.Compaction.{IsCompaction, kept_of};

use mds_compact::compaction;
use mds_core::Request;
use std::alloc::{AllocError, Global};
use std::hash::RandomState;

/// Which requests of a history stay where events before this time may go, each by a mark: what stays is as lawful.
pub fn marks_before(
    alloc: Global,
    history: &[Request],
    from: u64,
    hasher: RandomState,
) -> Result<Vec<bool>, AllocError>
    ensures stays { IfOk result (λ marks.
        IsCompaction from history.now (kept_of marks.items history.now)) }
    ensures lawful { IfOk result (λ marks. (tables : Tables)
        → IsLawful tables history.now → IsLawful tables (kept_of marks.items history.now)) }
{
    compaction(alloc, history, from, hasher)
}
