//! A call of `mds_known`.
ghost use Rattle.std.specs.Prelude.{◌≡◌, IfOk, OnErr, OnOk, Some, slice_get};
ghost use Rattle.mds_known.specs.Kept.{AreSame, PutsValue};

use mds_core::Key;
use mds_known::KnownVehicles;
use mds_table::State;
use std::alloc::AllocError;

/// Notes the state that a vehicle is in, whether it was known before or not, and answers its place.
pub fn note_state(
    known: &mut KnownVehicles<State>,
    key: &Key,
    state: State,
) -> Result<usize, AllocError>
    ensures puts { OnOk result (PutsValue key.now state known.old.entries known.new.entries) }
    ensures place { IfOk result (λ at. slice_get known.new.entries at ≡ Some (key.now, state)) }
    ensures unchanged { OnErr result (AreSame known.old known.new) }
{
    let place = known.find(key).map(|found| found.0);
    known.put(place, key, state)
}
