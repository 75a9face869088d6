//! Sets of states.
ghost use Rattle.std.specs.Prelude.{◌≡◌, ◌↔◌, ◌⊎◌, [], ◌∷◌, IsTrue, Contains};
ghost use Rattle.std.specs.Prelude.{Some};
ghost use Rattle.mds_steps.specs.StateSet.{all_states, states_in, mask_of, names_of, AreInCodeOrder, IsUnion, AreCommon};

use arrayvec::ArrayVec;
use bitflags::{Flag, Flags, bitflag_items};
use mds_table::State;
use mds_table::mask::{self, Mask};
use std::fmt;
use std::marker::Model;

/// The bits of a set of states: one for each state in it, at the place of the state's code.
#[derive(Clone, Copy, Debug, PartialEq, Eq)]
pub struct StateBits(Mask);

bitflag_items! {
    impl StateBits: Mask {
        const REMOVED = 1;
        const AVAILABLE = 2;
        const NON_OPERATIONAL = 4;
        const RESERVED = 8;
        const ON_TRIP = 16;
        const ELSEWHERE = 32;
        const NON_CONTACTABLE = 64;
        const MISSING = 128;
        const IN_DEPOT = 256;
    }
}

impl Flags for StateBits {
    ghost use Rattle.std.specs.Prelude.{⊤};
    ghost use Rattle.mds_steps.specs.StateSet.{flags_of_states};

    type Bits = Mask;

    ghost exact = { ⊤ };

    ghost table = { flags_of_states };

    ghost set_of = { λ bits. bits.0 };

    fn flags<'a>() -> &'a [Flag<StateBits>] {
        StateBits::FLAGS
    }

    fn bits(&self) -> Mask {
        self.0
    }

    fn from_bits_retain(bits: Mask) -> StateBits {
        StateBits(bits)
    }
}

/// A set of states. Contracts see it as the list of the states in it, each once, in the order of their codes.
#[derive(Clone, Copy, Debug)]
pub struct StateSet {
    bits: StateBits,
}

impl Model for StateSet {
    ghost use Rattle.std.specs.Prelude.{List, ◌<◌, ◌^◌};
    ghost use Rattle.mds_table.specs.declared.state.State.{State};
    ghost use Rattle.mds_table.specs.declared.state.TheConstants.State.{COUNT};
    ghost use Rattle.mds_steps.specs.StateSet.{states_in, mask_of};
    ghost use Rattle.std.specs.Prelude.{refl};
    ghost use Rattle.mds_steps.specs.Masks.{mask_given_back};

    ghost Value = { List State };

    ghost view = { λ set. states_in set.bits.0 };

    ghost invariant = { λ set. set.bits.0 < 2 ^ COUNT };

    ghost inverse = { λ states. record { bits = record { 0 = mask_of states } } };

    ghost inverse_ok = { λ set fits. Prim.rw (mask_given_back set.bits.0 fits) refl };
}

impl StateSet {
    /// The bits of every state.
    const ALL: Mask = Mask::MAX >> (Mask::BITS as usize - State::COUNT);

    /// The set without a state.
    #[tactic(auto, unfolding(crate::specs::StateSet::states_in, mds_table::specs::Mask::has_bit))]
    pub fn empty() -> StateSet
        ensures { result ≡ [] }
    {
        StateSet::of_mask(0)
    }

    /// The set of all states.
    #[tactic(auto, unfolding(crate::specs::StateSet::states_in, mds_table::specs::Mask::has_bit))]
    pub fn all() -> StateSet
        ensures { result ≡ all_states }
    {
        StateSet::of_mask(StateSet::ALL)
    }

    /// The set of this state alone.
    #[tactic(auto, using(crate::proofs::Members::one_state))]
    pub fn of(state: State) -> StateSet
        ensures { result ≡ state ∷ [] }
    {
        StateSet::of_mask(mask::bit_of(state))
    }

    #[tactic(auto, using(crate::proofs::Members::known_states))]
    pub(crate) fn of_mask(mask: Mask) -> StateSet
        ensures { result ≡ states_in mask }
    {
        StateSet {
            bits: StateBits(mask & StateSet::ALL),
        }
    }

    /// The set as a number.
    #[tactic(auto, using(crate::specs::Masks::mask_given_back))]
    pub fn bits(&self) -> StateBits
        ensures { result.0 ≡ mask_of self.now }
    {
        self.bits
    }

    /// Whether the set has the state.
    #[tactic(auto, using(crate::proofs::Members::members))]
    pub fn contains(&self, state: State) -> bool
        ensures { IsTrue result ↔ Contains self.now state }
    {
        mask::has(self.bits.0, state)
    }

    /// The states that are in either set.
    pub fn union(&self, other: &StateSet) -> StateSet
        ensures { IsUnion self.now other.now result }
    {
        StateSet::of_mask(self.bits.0 | other.bits.0)
    }

    pub(crate) fn intersection(&self, other: &StateSet) -> StateSet
        ensures { AreCommon self.now other.now result }
    {
        StateSet::of_mask(self.bits.0 & other.bits.0)
    }

    /// Whether the set has no state.
    #[tactic(auto, using(crate::proofs::Members::none_in_mask), unfolding(crate::specs::StateSet::states_in, mds_table::specs::Mask::has_bit))]
    pub fn is_empty(&self) -> bool
        ensures { IsTrue result ↔ (self.now ≡ []) }
    {
        self.bits.0 == 0
    }

    /// The states in the set, each once, in the order of their codes.
    pub fn states(&self) -> ArrayVec<State, { State::COUNT }>
        ensures items { result.items ≡ self.now }
        ensures order { AreInCodeOrder result.items }
    {
        let mask = self.bits.0;
        let mut states = ArrayVec::new();
        for state in State::ALL {
            if mask::has(mask, state) {
                states.push(state);
            }
        }
        states
    }

    /// A copy. It takes no memory.
    pub fn copy(&self) -> StateSet
        ensures { result ≡ self.now }
    {
        *self
    }
}

impl Default for StateSet {
    ghost is_default = { λ set. set ≡ [] };

    fn default() -> StateSet {
        StateSet::empty()
    }
}

/// The names of the states in the set, in the order of their codes, with a comma between.
impl fmt::Display for StateSet {
    ghost output = { λ set. Some (names_of set) };

    fn fmt<W: fmt::Write>(&self, f: &mut fmt::Formatter<W>) -> fmt::Result {
        let states = self.states();
        let Some((first, rest)) = states.split_first() else {
            return Ok(());
        };
        write!(f, "{first}")?;
        for state in rest {
            write!(f, ",{state}")?;
        }
        Ok(())
    }
}
