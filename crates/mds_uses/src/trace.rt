//! A call of `mds_trace`.
ghost use Rattle.std.specs.Prelude.{IfOk, List};
ghost use Rattle.mds_batch.specs.declared.item.EventItem.{EventItem as Item};
ghost use Rattle.mds_batch.specs.Batch.{HasItems};
ghost use Rattle.mds_batch.specs.Items.{IsEventItem};
ghost use Rattle.mds_trace.specs.Replay.{IsReport};
ghost use Rattle.mds_trace.specs.ReplayLaws.{AreOutcomes};

use mds_batch::{BatchFault, read_events};
use mds_table::Tables;
use mds_trace::{Opening, Report, replay};
use std::alloc::Global;

/// Replays a batch of events of vehicles that begin `removed`. The verdicts are the outcomes that the machine would give.
pub fn replay_text(alloc: Global, tables: Tables, text: &[u8]) -> Result<Report, BatchFault>
    ensures { IfOk result (λ report. (items : List Item) × HasItems IsEventItem text.now items
        × IsReport Opening.Removed tables items report
        × AreOutcomes tables items report.lines.items) }
{
    let items = read_events(alloc, text)?;
    replay(alloc, tables, &items, Opening::Removed).map_err(|_| BatchFault::Memory)
}
