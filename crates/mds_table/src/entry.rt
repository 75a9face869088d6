//! The entries of a table file.
ghost use Rattle.std.specs.Prelude.{◌≡◌, ◌≢◌, map, IfSome, IfNone, All, true};
ghost use Rattle.serde_json.specs.View.{view};
ghost use Rattle.mds_table.specs.State.{code_of};
ghost use Rattle.mds_table.specs.TableFile.{listed_values, IsStateName, ListsStates, IsRowEntry};
ghost use Rattle.mds_table.specs.Entry.{is_marked, AreMarked, IsEntryOf};

use crate::json::{state_of, type_name_of};
use crate::{State, TypeName};
use serde_json::Value;
use std::slice;

/// A set of states: which of them are marked, by code.
#[derive(Clone, Copy, Default)]
pub(crate) struct States {
    marks: [bool; State::COUNT],
}

impl States {
    pub fn has(&self, state: State) -> bool
        ensures { result ≡ is_marked self.now state }
    {
        self.marks[usize::from(state.code())]
    }

    fn mark(&mut self, state: State)
        ensures marked { is_marked self.new state ≡ true }
        ensures others { (other : State) → code_of other ≢ code_of state →
            is_marked self.new other ≡ is_marked self.old other }
    {
        self.marks[usize::from(state.code())] = true;
    }
}

/// An entry: it stands for all pairs of a state of `from` and a state of `to`.
#[derive(Drop)]
pub(crate) struct Entry {
    pub kind: TypeName,
    pub from: States,
    pub to: States,
}

impl Entry {
    pub fn of_value(value: &Value) -> Option<Entry>
        ensures form { IfSome result (λ _. IsRowEntry (view value.now)) }
        ensures rows { IfSome result (λ entry. IsEntryOf (view value.now) entry) }
        ensures none { IfNone result (IsRowEntry (view value.now) → ⊥) }
    {
        let from = states_in(value.get("from")?)?;
        let kind = type_name_of(value.get("type")?)?;
        let to = states_in(value.get("to")?)?;
        Some(Entry { kind, from, to })
    }
}

fn states_in(value: &Value) -> Option<States>
    ensures form { IfSome result (λ _. ListsStates (view value.now)) }
    ensures states { IfSome result (λ states. AreMarked (listed_values (view value.now)) states) }
    ensures none { IfNone result (ListsStates (view value.now) → ⊥) }
{
    let values = values_in(value);
    if values.is_empty() {
        return None;
    }
    states_among(values)
}

fn values_in(value: &Value) -> &[Value]
    ensures { map view result.now ≡ listed_values (view value.now) }
{
    match value.as_array() {
        Some(values) => values.as_slice(),
        None => slice::from_ref(value),
    }
}

fn states_among(values: &[Value]) -> Option<States>
    ensures form { IfSome result (λ _. All IsStateName (map view values.now)) }
    ensures states { IfSome result (λ states. AreMarked (map view values.now) states) }
    ensures none { IfNone result (All IsStateName (map view values.now) → ⊥) }
{
    let mut states = States::default();
    for value in values {
        states.mark(state_of(value)?);
    }
    Some(states)
}
