//! A call of `mds_steps`.
ghost use Rattle.std.specs.Prelude.{◌↔◌, Contains, IsTrue};
ghost use Rattle.mds_table.specs.Row.{row_of};

use mds_steps::admit;
use mds_table::{State, Table, TypeName};

/// Whether an event of this one type may lead from the state held to the state reported: the table has to have that row.
pub fn may_lead(table: &Table, held: State, kind: TypeName, reported: State) -> bool
    ensures { IsTrue result ↔ Contains table.now (row_of held kind reported) }
{
    admit(table, held, &[kind], reported).is_ok()
}
