//! Whether an event is admitted.
ghost use Rattle.std.specs.Prelude.{◌↔◌, Some, IsOk, IfErr};
ghost use Rattle.mds_table.specs.Chain.{Leads, IsStuckAt};
ghost use Rattle.mds_steps.specs.NoChain.{no_chain_text};
ghost use Rattle.mds_steps.specs.Stuck.{IsStuckFrom};

use crate::StateSet;
use crate::reach::follow;
use mds_table::{State, Table, TypeName};
use std::error::Error;
use std::fmt;

/// No chain leads from the state held to the state reported.
#[derive(Clone, Copy, Debug, PartialEq, Eq)]
pub struct NoChain {
    /// The place of the first type that no chain passes, or the number of types where all can be passed and only the
    /// state reported can't be reached.
    pub at: usize,
}

impl Error for NoChain {}

impl fmt::Display for NoChain {
    ghost output = { λ fault. Some (no_chain_text fault) };

    fn fmt<W: fmt::Write>(&self, f: &mut fmt::Formatter<W>) -> fmt::Result {
        write!(f, "no_chain {}", self.at)
    }
}

/// Whether an event with these types may lead from the state held to the state reported.
///
/// # Errors
///
/// [`NoChain`] where no chain leads there, with the place at which the event gets stuck.
pub fn admit(table: &Table, held: State, types: &[TypeName], reported: State) -> Result<(), NoChain>
    ensures exact { IsOk result ↔ Leads table.now held types.now reported }
    ensures fault { IfErr result (λ fault.
        (Leads table.now held types.now reported → ⊥)
        × IsStuckAt table.now held types.now fault.at) }
{
    let reached = follow(table, &StateSet::of(held), types)?;
    if reached.contains(reported) {
        Ok(())
    } else {
        Err(NoChain { at: types.len() })
    }
}

/// How far an event with these types gets from a set of states: the place of the first type that no chain from a state of
/// the set passes, or the number of types where all can be passed. Of the empty set that is 0.
pub fn stuck_from(table: &Table, set: &StateSet, types: &[TypeName]) -> usize
    ensures { IsStuckFrom table.now set.now types.now result }
{
    match follow(table, set, types) {
        Ok(_) => types.len(),
        Err(fault) => fault.at,
    }
}
