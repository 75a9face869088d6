//! Sets of states as the bits of a number.
ghost use Rattle.std.specs.Prelude.{◌≡◌, ◌^◌};
ghost use Rattle.mds_table.specs.State.{code_of};
ghost use Rattle.mds_table.specs.Mask.{has_bit};

use crate::State;

/// A set of states: the bit at a state's code is set where the set has the state. It has a bit for each of the
/// [`State::COUNT`] states.
pub type Mask = u16;

/// The set of this state alone.
pub fn bit_of(state: State) -> Mask
    ensures { result ≡ 2 ^ code_of state }
{
    1 << state.code()
}

/// Whether the set has the state.
pub fn has(mask: Mask, state: State) -> bool
    ensures { result ≡ has_bit mask state }
{
    (mask >> state.code()) & 1 == 1
}
