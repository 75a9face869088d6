//! Sets of rows that grow, entry by entry of a table file.
ghost use Rattle.std.specs.Prelude.{◌≡◌, ℕ, [], List, true, Contains, OnOk, IfOk};
ghost use Rattle.mds_table.specs.declared.row.Row.{Row};
ghost use Rattle.mds_table.specs.Row.{row_of, ascends};
ghost use Rattle.mds_table.specs.Moves.{moves_cmp};
ghost use Rattle.mds_table.specs.Entry.{HasRow, IsRowTo, Adds};
ghost use Rattle.mds_table.specs.RowSet.{AreSet, Grows};

use crate::entry::Entry;
use crate::mask::{self, Mask, bit_of};
use crate::moves::{Moves, masks_among, put_masks, rows_of};
use crate::table_file::MAX_ROWS;
use crate::{Row, State};
use std::alloc::{AllocError, Global};

/// A set of rows: where the events of each type lead, and how many rows that is.
#[derive(Drop)]
pub(crate) struct RowSet {
    /// The rows by types, each of which has a row.
    pub moves: Vec<Moves>,
    /// The number of rows. Past [`MAX_ROWS`] it may be any number past that.
    pub count: usize,
}

impl RowSet {
    pub fn new(alloc: Global) -> RowSet
        ensures set { AreSet [] result }
        ensures empty { result.moves.items ≡ [] }
    {
        RowSet {
            moves: Vec::new(alloc),
            count: 0,
        }
    }

    /// Adds the rows of the entry, which has one.
    pub fn add(&mut self, entry: &Entry) -> Result<(), AllocError>
        requires { ascends moves_cmp self.old.moves.items ≡ true }
        ensures { OnOk result ((rows : List Row) (row : Row)
            → AreSet rows self.old → HasRow entry.now row
            → (more : List Row) × AreSet more self.new × Adds rows more (HasRow entry.now)) }
    {
        let mut tally = Tally {
            masks: masks_among(&self.moves, &entry.kind),
            count: self.count,
        };
        tally.add_entry(entry, &State::ALL);
        put_masks(&mut self.moves, &entry.kind, tally.masks)?;
        self.count = tally.count;
        Ok(())
    }

    /// The rows, in order.
    pub fn rows(&self, alloc: Global) -> Result<Vec<Row>, AllocError>
        ensures { IfOk result (λ rows. (all : List Row) → AreSet all self.now → rows.items ≡ all) }
    {
        rows_of(alloc, &self.moves, self.count)
    }
}

/// The rows of one type of a set, and how many rows the set has.
#[derive(Clone, Copy)]
struct Tally {
    /// The states that its rows lead to, from each state by code.
    masks: [Mask; State::COUNT],
    count: usize,
}

impl Tally {
    fn add_entry(&mut self, entry: &Entry, states: &[State])
        ensures { Grows entry.now.kind self.old self.new
            (λ row. Contains states.now row.from × HasRow entry.now row) }
    {
        for from in states {
            if entry.from.has(*from) {
                self.add_rows(*from, entry, &State::ALL);
            }
        }
    }

    fn add_rows(&mut self, from: State, entry: &Entry, states: &[State])
        ensures { Grows entry.now.kind self.old self.new (IsRowTo from entry.now states.now) }
    {
        for to in states {
            if entry.to.has(*to) {
                self.add_row(from, *to);
            }
        }
    }

    fn add_row(&mut self, from: State, to: State)
        ensures { (kind : List ℕ)
            → Grows kind self.old self.new (λ row. row ≡ row_of from kind to) }
    {
        let at = usize::from(from.code());
        if mask::has(self.masks[at], to) {
            return;
        }
        self.masks[at] |= bit_of(to);
        if self.count <= MAX_ROWS {
            self.count += 1;
        }
    }
}
