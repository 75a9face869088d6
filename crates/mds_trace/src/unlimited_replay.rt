//! A replay of any number of items, which keeps no verdict.
ghost use Rattle.std.specs.Prelude.{◌≡◌, ◌<◌, ◌++◌, ◌∷◌, [], List, length, IfOk, OnErr};
ghost use Rattle.mds_batch.specs.declared.item.EventItem.{EventItem as Item};
ghost use Rattle.mds_trace.specs.declared.report.Verdict.{Verdict as Line};
ghost use Rattle.mds_trace.specs.UnlimitedReplay.{TookAll, IsEndOfReplay};

use crate::judge::{Vehicles, judge_item};
use crate::replayer::ends_of;
use crate::{Opening, VehicleEnd, Verdict};
use mds_batch::EventItem;
use mds_known::KnownVehicles;
use mds_table::Tables;
use std::alloc::{AllocError, Global};
use std::marker::Model;

/// What a replay of any number of items comes to, beside the verdicts.
#[derive(Debug, Drop)]
pub struct ReplayEnd {
    /// The vehicles that the events name, in order of first mention.
    pub vehicles: Vec<VehicleEnd>,
    /// How many items were accepted.
    pub accepted: usize,
    /// How many were not.
    pub refused: usize,
}

/// A replay that takes its items one by one, as they come, and tells the verdict on each. It keeps what it has to know of
/// the vehicles and the identifiers of their accepted events, and no item and no verdict.
#[derive(Drop)]
pub struct UnlimitedReplay {
    alloc: Global,
    tables: Tables,
    opening: Opening,
    vehicles: Vehicles,
    accepted: usize,
    refused: usize,
}

impl Model for UnlimitedReplay {
    ghost use Rattle.mds_trace.specs.UnlimitedReplay.{ReplayingAll};

    ghost Value = { ReplayingAll };

    ghost view = { λ replay. record {
      tables = replay.tables;
      opening = replay.opening;
      vehicles = replay.vehicles.entries;
      names = replay.vehicles.names;
      accepted = replay.accepted;
      refused = replay.refused;
    } };
}

impl UnlimitedReplay {
    /// A replay to which no item has come. It takes no memory.
    pub fn open(alloc: Global, tables: Tables, opening: Opening) -> UnlimitedReplay
        ensures took { TookAll [] [] result }
        ensures tables { result.tables ≡ tables }
        ensures opening { result.opening ≡ opening }
    {
        UnlimitedReplay {
            alloc,
            tables,
            opening,
            vehicles: KnownVehicles::new(alloc),
            accepted: 0,
            refused: 0,
        }
    }

    /// Takes the next item, and judges it by the items before it. It answers the verdict.
    ///
    /// # Errors
    ///
    /// `AllocError` where there is no memory for what is kept of the item. The replay is then as it was, and may be given
    /// the item again.
    pub fn take(&mut self, item: &EventItem) -> Result<Verdict, AllocError>
        ensures took { IfOk result (λ line. (items : List Item) (lines : List Line)
            → TookAll items lines self.old → length items < usize.MAX
            → TookAll (items ++ item.now ∷ []) (lines ++ line ∷ []) self.new) }
        ensures kept { OnErr result (self.new ≡ self.old) }
        ensures tables { self.new.tables ≡ self.old.tables }
        ensures opening { self.new.opening ≡ self.old.opening }
    {
        let line = judge_item(&self.tables, self.opening, &mut self.vehicles, item)?;
        if line.accepts() {
            self.accepted = self.accepted.saturating_add(1);
        } else {
            self.refused = self.refused.saturating_add(1);
        }
        Ok(line)
    }

    /// Where the vehicles end after the items that were taken: they end here.
    ///
    /// # Errors
    ///
    /// `AllocError` where there is no memory for where the vehicles end. The replay is then lost.
    pub fn finish(self) -> Result<ReplayEnd, AllocError>
        ensures { IfOk result (λ end. (items : List Item) (lines : List Line)
            → TookAll items lines self
            → IsEndOfReplay self.opening self.tables items lines end) }
    {
        let vehicles = ends_of(self.alloc, &self.vehicles)?;
        Ok(ReplayEnd {
            vehicles,
            accepted: self.accepted,
            refused: self.refused,
        })
    }
}
