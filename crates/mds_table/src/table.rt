//! Tables of allowed transitions.
ghost use Rattle.std.specs.Prelude.{◌≡◌, ◌↔◌, true, IsTrue, IfOk, IfErr, List, Contains, length, map};
ghost use Rattle.mds_table.specs.Row.{row_of, in_order};
ghost use Rattle.mds_table.specs.Mask.{AreMasks};
ghost use Rattle.mds_table.specs.Profile.{profile_rows};
ghost use Rattle.mds_table.specs.TableFile.{AreTableOf, HasTable, HasFault};
ghost use Rattle.mds_table.specs.Entry.{HasFaultIn};
ghost use Rattle.mds_table.specs.RowSet.{AreSet};
ghost use Rattle.serde_json.specs.View.{view};

use crate::mask::Mask;
use crate::moves::{Moves, masks_among, moves_of};
use crate::row_set::RowSet;
use crate::{Row, State, TableFault, TypeName, mask, profile, table_file};
use serde_json::Value;
use std::alloc::{AllocError, Global};
use std::marker::Model;

/// A table of allowed transitions: a set of rows. Contracts see it as the list of its rows, each once, in ascending
/// order of type (by bytes), from code and to code.
#[derive(Debug, Drop)]
pub struct Table {
    rows: Vec<Row>,
    /// The rows by types, for looking up.
    moves: Vec<Moves>,
}

impl Model for Table {
    ghost use Rattle.std.specs.Prelude.{◌≡◌, List, true};
    ghost use Rattle.mds_table.specs.declared.row.Row.{Row};
    ghost use Rattle.mds_table.specs.Row.{in_order};
    ghost use Rattle.mds_table.specs.Moves.{AreMoves};

    ghost Value = { List Row };

    ghost view = { λ table. table.rows.items };

    ghost invariant = { λ table. (in_order table.rows.items ≡ true)
        × AreMoves table.rows.items table.rows.items table.moves.items };
}

impl Table {
    /// The table of this project's profile.
    ///
    /// # Errors
    ///
    /// `AllocError` where there is no memory for its rows.
    pub fn profile(alloc: Global) -> Result<Table, AllocError>
        ensures { IfOk result (λ table. table ≡ profile_rows) }
    {
        Table::of_rows(alloc, profile::rows(alloc)?)
    }

    /// The table of a table file: a JSON object with a member `rows`, a list of entries
    /// `{"from":[..],"type":"..","to":[..]}`. `from` and `to` are a list of at least one state name, or a single one;
    /// `type` is a type name. Other members are ignored. An entry stands for all pairs of its states; a row that is
    /// written twice counts once.
    ///
    /// # Errors
    ///
    /// The first fault of the file, in the order of [`TableFault`]; `Memory` where there is no memory to read it.
    pub fn from_json(alloc: Global, text: &[u8]) -> Result<Table, TableFault>
        ensures table { IfOk result (λ table. HasTable text.now table) }
        ensures fault { IfErr result (λ fault. HasFault text.now fault) }
    {
        let set = table_file::set_in_file(alloc, text)?;
        Ok(Table::of_set(alloc, set)?)
    }

    pub(crate) fn of_entries(alloc: Global, entries: &[Value]) -> Result<Table, TableFault>
        ensures table { IfOk result (λ table. AreTableOf (map view entries.now) table) }
        ensures fault { IfErr result (λ fault. HasFaultIn (map view entries.now) fault) }
    {
        let set = table_file::set_of_entries(alloc, entries)?;
        Ok(Table::of_set(alloc, set)?)
    }

    /// Whether the table has the row by which an event of this type leads from the one state to the other.
    pub fn has_row(&self, from: State, kind: &TypeName, to: State) -> bool
        ensures { IsTrue result ↔ Contains self.now (row_of from kind.now to) }
    {
        let masks = self.masks(kind);
        mask::has(masks[usize::from(from.code())], to)
    }

    /// The states that events of this type may lead to, from each state by its code: all rows of the type, found at once. A
    /// type without a row leads nowhere.
    pub fn masks(&self, kind: &TypeName) -> [Mask; State::COUNT]
        ensures { AreMasks self.now kind.now result }
    {
        masks_among(&self.moves, kind)
    }

    /// A list of the rows of its own.
    ///
    /// # Errors
    ///
    /// `AllocError` where there is no memory for them.
    pub fn rows(&self, alloc: Global) -> Result<Vec<Row>, AllocError>
        ensures rows { IfOk result (λ rows. rows.items ≡ self.now) }
        ensures order { IfOk result (λ rows. in_order rows.items ≡ true) }
    {
        let mut rows = Vec::with_capacity(alloc, self.row_count())?;
        for row in &self.rows {
            rows.push(row.copy())?;
        }
        Ok(rows)
    }

    /// The number of rows.
    pub fn row_count(&self) -> usize
        ensures { result ≡ length self.now }
    {
        self.rows.len()
    }

    /// A copy.
    ///
    /// # Errors
    ///
    /// `AllocError` where there is no memory for its rows.
    pub fn copy(&self, alloc: Global) -> Result<Table, AllocError>
        ensures { IfOk result (λ table. table ≡ self.now) }
    {
        Table::of_rows(alloc, self.rows(alloc)?)
    }

    fn of_set(alloc: Global, set: RowSet) -> Result<Table, AllocError>
        requires { (rows : List Row) × AreSet rows set }
        ensures { IfOk result (λ table. (rows : List Row) → AreSet rows set → table ≡ rows) }
    {
        let rows = set.rows(alloc)?;
        let RowSet { moves, count: _ } = set;
        Ok(Table { rows, moves })
    }

    fn of_rows(alloc: Global, rows: Vec<Row>) -> Result<Table, AllocError>
        requires { in_order rows.items ≡ true }
        ensures { IfOk result (λ table. table ≡ rows.items) }
    {
        let moves = moves_of(alloc, &rows)?;
        Ok(Table { rows, moves })
    }
}
