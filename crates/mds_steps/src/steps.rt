//! One step of an event: what a set of states becomes by one type.
ghost use Rattle.std.specs.Prelude.{◌≡◌};
ghost use Rattle.mds_table.specs.Mask.{mask_from};
ghost use Rattle.mds_steps.specs.StateSet.{states_in};
ghost use Rattle.mds_steps.specs.Step.{AreNext, ArePrevious};

use crate::StateSet;
use mds_table::mask::Mask;
use mds_table::{State, Table, TypeName};

/// The states to which rows of this type lead from a state of the set.
pub fn next_states(table: &Table, set: &StateSet, kind: &TypeName) -> StateSet
    ensures { AreNext table.now set.now kind.now result }
{
    let masks = table.masks(kind);
    let mut next = StateSet::empty();
    for from in State::ALL {
        if set.contains(from) {
            next = next.union(&led_to(&masks, from));
        }
    }
    next
}

/// The states from which rows of this type lead to a state of the set.
pub fn previous_states(table: &Table, kind: &TypeName, set: &StateSet) -> StateSet
    ensures { ArePrevious table.now set.now kind.now result }
{
    let masks = table.masks(kind);
    let mut previous = StateSet::empty();
    for from in State::ALL {
        if !led_to(&masks, from).intersection(set).is_empty() {
            previous = previous.union(&StateSet::of(from));
        }
    }
    previous
}

pub(crate) fn led_to(masks: &[Mask; State::COUNT], from: State) -> StateSet
    ensures { result ≡ states_in (mask_from masks.now from) }
{
    StateSet::of_mask(masks[usize::from(from.code())])
}
