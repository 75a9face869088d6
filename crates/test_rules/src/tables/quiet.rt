//! The calls that take no memory, while each growth is refused (by `tests/refused-growths`).
use mds_table::json::{self, value_of};
use mds_table::mask::{Mask, bit_of, has};
use mds_table::{Row, State, Table, Tables, TypeName};
use serde_json::Value;
use std::alloc::Global;
use test_fixtures::{Lack, fence};

/// Of tables, the first of which lets removed vehicles go by the type that the value names: how many there are, and how many
/// rows the first has; the time that the value is, and when the first starts; whether a vehicle goes; and the type's masks.
type Told = ([usize; 2], [Option<u64>; 2], bool, [Mask; State::COUNT]);

fn told(list: Vec<(u64, Table)>, value: &Value) -> Option<Told> {
    let tables = Tables::new(list).ok()?;
    let kind = json::type_name_of(value)?.copy();
    let (start, table) = tables.entry(0)?;
    let masks = tables.at(7).masks(&kind);
    let row = Row {
        from: State::Removed,
        kind,
        to: State::Available,
    }
    .copy();
    let goes = table.has_row(row.from, &row.kind, row.to) && has(masks[0], row.to);
    let numbers = [tables.len(), table.row_count()];
    Some((numbers, [json::time_of(value), Some(start)], goes, masks))
}

/// The state of a name, its code and its bit, and whether a type has the state's name, and the value names no state.
fn state_told(name: &str, value: &Value) -> Option<(State, u8, u16, bool)> {
    let state = State::of_name(name)?;
    let kind = TypeName::new(state.name()).ok()?;
    let is_named = kind.as_str() == name
        && kind.as_bytes() == name.as_bytes()
        && json::state_of(value).is_none();
    Some((state, state.code(), bit_of(state), is_named))
}

/// The same of the profile, and of a value of this text, between two fences.
fn both_told(alloc: Global, text: &[u8]) -> Result<Option<(Told, (State, u8, u16, bool))>, Lack> {
    let value = value_of(alloc, text).ok().ok_or(Lack::Memory)?;
    let mut list = Vec::new(alloc);
    list.push((0, Table::profile(alloc)?))?;
    let _begun = fence(alloc);
    let found = (told(list, &value), state_told("on_trip", &value));
    let _ended = fence(alloc);
    Ok(found.0.zip(found.1))
}

#[test]
fn tables_are_told_of_with_every_growth_refused(rt: HostRuntime) {
    let tables = ([1, 74], [None, Some(0)], true, [2, 0, 0, 0, 0, 0, 0, 0, 0]);
    let state = (State::OnTrip, 4, 16, true);
    let found = both_told(rt.alloc(), br#""provider_drop_off""#);
    assert_eq!(rt; found, Ok(Some((tables, state))));
}
