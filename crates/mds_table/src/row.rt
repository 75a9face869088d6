//! Rows of a table, and sorted lists of them.
ghost use Rattle.std.specs.Prelude.{◌≡◌, ◌↔◌, ◌++◌, IsTrue, OnOk, Some, true, Contains, refl};
ghost use Rattle.std.specs.Cmp.{po, partial_equiv_from_equiv};
ghost use Rattle.mds_table.specs.State.{code_of};
ghost use Rattle.mds_table.specs.Row.{row_of, row_cmp, same_row, in_order};
ghost use Rattle.mds_table.specs.RowLaws.{row_cmp_total, same_row_equiv, same_row_ties};
ghost use Rattle.mds_table.specs.Entry.{Adds};

use crate::{State, TypeName};
use std::alloc::AllocError;
use std::cmp::Ordering;

/// A row of a table: an event of this type may lead from the one state to the other. Rows stand in the order of a table:
/// by type, then by the state before, then by the state after.
#[derive(Debug, Drop)]
pub struct Row {
    /// The state before the event.
    pub from: State,
    /// The type of the event.
    pub kind: TypeName,
    /// The state after it.
    pub to: State,
}

impl Row {
    /// A copy. It takes no memory.
    pub fn copy(&self) -> Row
        ensures { result ≡ self.now }
    {
        Row {
            from: self.from,
            kind: self.kind.copy(),
            to: self.to,
        }
    }
}

impl PartialEq for Row {
    ghost eq = { same_row };

    ghost laws = { partial_equiv_from_equiv same_row_equiv };

    fn eq(&self, other: &Row) -> bool {
        self.cmp(other).is_eq()
    }
}

impl Eq for Row {
    ghost laws = { same_row_equiv };
}

impl PartialOrd for Row {
    ghost partial_cmp = { λ a b. Some (row_cmp a b) };

    ghost laws = { po row_cmp_total same_row_ties };

    fn partial_cmp(&self, other: &Row) -> Option<Ordering> {
        Some(self.cmp(other))
    }
}

impl Ord for Row {
    ghost cmp = { row_cmp };

    ghost total = { row_cmp_total };

    ghost matches_partial_cmp = { λ _ _. refl };

    ghost matches_eq = { same_row_ties };

    fn cmp(&self, other: &Row) -> Ordering {
        compare(self, other.from, &other.kind, other.to)
    }
}

fn compare(row: &Row, from: State, kind: &TypeName, to: State) -> Ordering
    ensures { result ≡ row_cmp row.now (row_of from kind.now to) }
{
    row.kind
        .cmp(kind)
        .then(row.from.code().cmp(&from.code()))
        .then(row.to.code().cmp(&to.code()))
}

pub(crate) fn has_row_of(rows: &[Row], from: State, kind: &TypeName, to: State) -> bool
    requires { in_order rows.now ≡ true }
    ensures { IsTrue result ↔ Contains rows.now (row_of from kind.now to) }
{
    rows.binary_search_by(|row| compare(row, from, kind, to))
        .is_ok()
}

pub(crate) fn add_row(rows: &mut Vec<Row>, row: Row) -> Result<(), AllocError>
    requires { in_order rows.old.items ≡ true }
    ensures order { OnOk result (in_order rows.new.items ≡ true) }
    ensures rows { OnOk result (Adds rows.old.items rows.new.items (λ other. other ≡ row)) }
{
    let found = rows.binary_search_by(|other| compare(other, row.from, &row.kind, row.to));
    if let Err(at) = found {
        rows.insert(at, row)?;
    }
    Ok(())
}
