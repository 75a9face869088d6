//! A replay that takes its items one by one.
ghost use Rattle.std.specs.Prelude.{◌≡◌, ◌<◌, ◌++◌, ◌∷◌, [], List, length, IfOk, OnOk, OnErr};
ghost use Rattle.mds_batch.specs.declared.item.EventItem.{EventItem as Item};
ghost use Rattle.mds_trace.specs.Replay.{IsReport};
ghost use Rattle.mds_trace.specs.ReplayLaws.{AreOutcomes};
ghost use Rattle.mds_trace.specs.Replayer.{Took};

use crate::judge::{Vehicles, judge_item};
use crate::replayer::{ends_of, report_of};
use crate::{Opening, Report, Verdict};
use mds_batch::{EventItem, TakesItems};
use mds_known::KnownVehicles;
use mds_table::Tables;
use std::alloc::{AllocError, Global};
use std::marker::Model;

/// A replay that takes its items one by one, as they come: it comes to the same report as [`replay`](crate::replay) of
/// these items.
///
/// It keeps a verdict on each item, and what it has to know of the vehicles, but no item.
#[derive(Drop)]
pub struct Replayer {
    tables: Tables,
    opening: Opening,
    vehicles: Vehicles,
    lines: Vec<Verdict>,
}

impl Model for Replayer {
    ghost use Rattle.mds_trace.specs.Replayer.{Replaying};

    ghost Value = { Replaying };

    ghost view = { λ replayer. record {
      tables = replayer.tables;
      opening = replayer.opening;
      lines = replayer.lines.items;
      vehicles = replayer.vehicles.entries;
      names = replayer.vehicles.names;
    } };
}

impl Replayer {
    /// A replay to which no item has come. It takes no memory.
    pub fn open(alloc: Global, tables: Tables, opening: Opening) -> Replayer
        ensures took { Took [] result }
        ensures tables { result.tables ≡ tables }
        ensures opening { result.opening ≡ opening }
    {
        Replayer {
            tables,
            opening,
            vehicles: KnownVehicles::new(alloc),
            lines: Vec::new(alloc),
        }
    }

    /// Takes the next item, and judges it by the items before it. It answers the verdict.
    ///
    /// # Errors
    ///
    /// `AllocError` where there is no memory for what is kept of the item. The replayer is then as it was, and may be given
    /// the item again.
    pub fn take(&mut self, item: &EventItem) -> Result<Verdict, AllocError>
        ensures judged { IfOk result (λ line. self.new.lines ≡ self.old.lines ++ line ∷ []) }
        ensures took { OnOk result ((items : List Item) → Took items self.old
            → length items < usize.MAX → Took (items ++ item.now ∷ []) self.new) }
        ensures kept { OnErr result (self.new ≡ self.old) }
        ensures tables { self.new.tables ≡ self.old.tables }
        ensures opening { self.new.opening ≡ self.old.opening }
    {
        // With room for the verdict first, nothing is kept of an item for which there is no memory.
        self.lines.reserve(1)?;
        let line = judge_item(&self.tables, self.opening, &mut self.vehicles, item)?;
        self.lines.push_reserved(line);
        Ok(line)
    }

    /// The report of the items that were taken: they end here.
    ///
    /// # Errors
    ///
    /// `AllocError` where there is no memory for where the vehicles end. The replay is then lost.
    pub fn finish(self) -> Result<Report, AllocError>
        ensures report { IfOk result (λ report. (items : List Item) → Took items self
            → IsReport self.opening self.tables items report) }
        // With `Removed` the verdicts are the outcomes of the machine, as those of [`replay`](crate::replay) are.
        ensures runs { IfOk result (λ report. (items : List Item) → Took items self
            → self.opening ≡ Opening.Removed → AreOutcomes self.tables items report.lines.items) }
    {
        let alloc = *self.lines.allocator();
        let vehicles = ends_of(alloc, &self.vehicles)?;
        Ok(report_of(self.lines, vehicles))
    }

    /// The tables, of a replay whose report isn't asked for.
    pub fn into_tables(self) -> Tables
        ensures { result ≡ self.tables }
    {
        self.tables
    }
}

/// It judges each item as it comes.
impl TakesItems for Replayer {
    ghost use Rattle.mds_trace.specs.Replayer.{TookSince};

    type Item = EventItem;

    ghost took = { TookSince };

    fn take(&mut self, item: &EventItem) -> Result<(), AllocError> {
        self.take(item)?;
        Ok(())
    }
}
