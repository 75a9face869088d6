//! A call of `mds_settle`.
ghost use Rattle.std.specs.Prelude.{◌↔◌, IsTrue};
ghost use Rattle.mds_settle.specs.Settled.{IsSettled};

use mds_core::Request;
use mds_settle::{Note, judge};
use mds_table::Tables;

/// Whether what callers noted of their calls fits the history of a shard.
pub fn fit(tables: &Tables, shard: usize, history: &[Request], notes: &[Vec<Note>]) -> bool
    ensures { IsTrue result
        ↔ IsSettled tables.now shard history.now (λ caller. caller.items) notes.now }
{
    judge(tables, shard, history, notes).is_ok()
}
