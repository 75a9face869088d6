//! Each call that takes memory, made again where its growth is refused (by `tests/refused-growths`).
use mds_table::json::{self, value_of};
use mds_table::{Row, State, Table, TableFault, Tables, TablesFault};
use std::alloc::{AllocError, Global};
use test_fixtures::again;
use test_steps::WAKE_THEN_REST;

/// Two entries, of four rows and of one.
const TWO_ENTRIES: &[u8] =
    br#"{"rows":[{"from":["removed","available"],"type":"wake","to":["available","on_trip"]},
{"from":"removed","type":"agency_drop_off","to":"available"}]}"#;

/// Whether the first row is a drop-off by an agency, which the table has, and comes before the last, which it has not.
fn begins_with_drop_off(rows: &[Row], table: &Table) -> bool {
    let (Some(first), Some(last)) = (rows.first(), rows.last()) else {
        return false;
    };
    first < last
        && first.from == State::Removed
        && first.to == State::Available
        && first.kind.as_str() == "agency_drop_off"
        && table.has_row(first.from, &first.kind, first.to)
        && !table.has_row(last.from, &last.kind, last.to)
}

/// Whether the profile, copied, begins as the table of the file has it, and how many rows both have.
fn both_told(alloc: Global, text: &[u8]) -> Result<(bool, [usize; 2]), TableFault> {
    let profile = again!(Table::profile(alloc))?;
    let copy = again!(profile.copy(alloc))?;
    let rows = again!(copy.rows(alloc))?;
    let table = again!(Table::from_json(alloc, text))?;
    let counts = [rows.len(), table.row_count()];
    Ok((begins_with_drop_off(&rows, &table), counts))
}

#[test]
fn table_calls_succeed_after_a_refused_growth(rt: HostRuntime) {
    assert_eq!(rt; both_told(rt.alloc(), TWO_ENTRIES), Ok((true, [74, 5])));
}

/// The state that a text of JSON names in its member.
fn state_in_text(alloc: Global, text: &[u8]) -> Option<State> {
    let value = again!(value_of(alloc, text)).ok()?;
    json::state_of(value.get("state")?)
}

#[test]
fn a_text_is_read_after_a_refused_growth(rt: HostRuntime) {
    let state = state_in_text(rt.alloc(), br#"{"state":"on_trip"}"#);
    assert_eq!(rt; state, Some(State::OnTrip));
}

/// The starting time and the number of rows of each of the first three tables, copied.
fn shape_of_copy(alloc: Global, tables: &Tables) -> Result<[Option<(u64, usize)>; 3], AllocError> {
    let copy = again!(tables.copy(alloc))?;
    let mut shape = [None; 3];
    for (at, found) in shape.iter_mut().enumerate() {
        if let Some((start, table)) = copy.entry(at) {
            *found = Some((start, table.row_count()));
        }
    }
    Ok(shape)
}

/// The same of the tables of the file, and of the profile alone.
fn shapes(alloc: Global, text: &[u8]) -> Result<[[Option<(u64, usize)>; 3]; 2], TablesFault> {
    let two = again!(Tables::from_json(alloc, text))?;
    let one = again!(Tables::one(alloc, again!(Table::profile(alloc))?))?;
    Ok([shape_of_copy(alloc, &two)?, shape_of_copy(alloc, &one)?])
}

#[test]
fn tables_after_a_refused_growth(rt: HostRuntime) {
    let two = [Some((0, 1)), Some((2000, 1)), None];
    let one = [Some((0, 74)), None, None];
    let text = WAKE_THEN_REST.unwrap_or("");
    assert_eq!(rt; shapes(rt.alloc(), text.as_bytes()), Ok([two, one]));
}
