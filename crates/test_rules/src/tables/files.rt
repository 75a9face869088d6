//! Files of tables: how many rows or tables each has, or its fault; and tables that follow one another.
use TablesFault::{BadEntry, FirstNotZero, InTable, NoTables, NotRising, TooManyTables};
use mds_table::{Table, TableFault, Tables, TablesFault};
use std::alloc::{AllocError, Global};
use test_fixtures::rows;

/// How many rows a text has as the file of a table, and how many tables as a file of tables; or its faults.
type Found = (Result<usize, TableFault>, Result<usize, TablesFault>);

const EIGHT: &str =
    r#"["removed","available","non_operational","reserved","on_trip","elsewhere","non_contactable","missing"]"#;

/// How a text begins, how many types then have rows from all of these states to all, and how it ends; and what is found.
const FILES: &[((&str, usize, &str, &str), Found)] = rows! {
    ((r#"{"rows":[{"from":["available","available"],"type":"x","to":"on_trip"},{"from":"available","type":"x","to":["on_trip"]}]}"#, 0, "", ""), (Ok(1), Ok(1))),
    ((r#"{"rows":[]}"#, 0, "", ""), (Err(TableFault::Empty), Err(InTable { table: None, fault: TableFault::Empty }))),
    (("[]", 0, "", ""), (Err(TableFault::NotRows), Err(TablesFault::NotRows))),
    (("{", 0, "", ""), (Err(TableFault::NotJson), Err(TablesFault::NotJson))),
    ((r#"{"rows":[{"from":"flying","type":"x","to":"on_trip"}]}"#, 0, "", ""), (Err(TableFault::BadRow(0)), Err(InTable { table: None, fault: TableFault::BadRow(0) }))),
    ((r#"{"rows":["#, 64, r#""removed""#, r#"{"from":"removed","type":"y","to":"on_trip"}]}"#), (Err(TableFault::TooManyTypes), Err(InTable { table: None, fault: TableFault::TooManyTypes }))),
    ((r#"{"rows":["#, 64, EIGHT, r#"{"from":"removed","type":"y","to":"on_trip"}]}"#), (Err(TableFault::TooManyRows), Err(InTable { table: None, fault: TableFault::TooManyRows }))),
    ((r#"{"rows":["#, 64, EIGHT, r#"{"from":"removed","type":"x0","to":"on_trip"}]}"#), (Ok(4096), Ok(1))),
    ((r#"{"x":1}"#, 0, "", ""), (Err(TableFault::NotRows), Err(TablesFault::NotRows))),
    ((r#"{"tables":[]}"#, 0, "", ""), (Err(TableFault::NotRows), Err(NoTables))),
    ((r#"{"tables":[0,0,0,0,0,0,0,0,0,0,0,0,0,0,0,0,0,0,0,0,0,0,0,0,0,0,0,0,0,0,0,0,0,0,0,0,0,0,0,0,0,0,0,0,0,0,0,0,0,0,0,0,0,0,0,0,0,0,0,0,0,0,0,0,0]}"#, 0, "", ""), (Err(TableFault::NotRows), Err(TooManyTables))),
    ((r#"{"tables":[{"from_time":5,"rows":[{"from":"removed","type":"x","to":"on_trip"}]}]}"#, 0, "", ""), (Err(TableFault::NotRows), Err(FirstNotZero))),
    ((r#"{"tables":[{"from_time":0,"rows":[{"from":"removed","type":"x","to":"on_trip"}]},{"from_time":7,"rows":[{"from":"removed","type":"x","to":"on_trip"}]},{"from_time":7,"rows":[{"from":"removed","type":"x","to":"on_trip"}]}]}"#, 0, "", ""), (Err(TableFault::NotRows), Err(NotRising(2)))),
    ((r#"{"tables":[{"from_time":0,"rows":[]}]}"#, 0, "", ""), (Err(TableFault::NotRows), Err(InTable { table: Some(0), fault: TableFault::Empty }))),
};

fn found_in(alloc: Global, text: &(&str, usize, &str, &str)) -> Result<Found, AllocError> {
    let (front, count, states, end) = *text;
    let mut text = format!(in alloc; "{front}")?;
    for at in 0..count {
        let row = format!(in alloc; "{{\"from\":{states},\"type\":\"x{at}\",\"to\":{states}}},")?;
        text.push_str(row.as_str())?;
    }
    text.push_str(end)?;
    let table = Table::from_json(alloc, text.as_bytes()).map(|table| table.row_count());
    let tables = Tables::from_json(alloc, text.as_bytes()).map(|tables| tables.len());
    Ok((table, tables))
}

/// The place of the first file in which something else is found, and what.
fn first_other(alloc: Global) -> Result<Option<(usize, Found)>, AllocError> {
    for (at, (text, expected)) in FILES.iter().enumerate() {
        let found = found_in(alloc, text)?;
        if found != *expected {
            return Ok(Some((at, found)));
        }
    }
    Ok(None)
}

#[test]
fn files_of_tables(rt: HostRuntime) {
    assert_eq!(rt; first_other(rt.alloc()), Ok(None));
}

/// When tables start that may not follow one another, and their faults.
const STARTS: [&[u64]; 5] = [&[], &[0; 65], &[9_007_199_254_740_992], &[5], &[0, 7, 7]];

const FAULTS: &[Result<Option<TablesFault>, AllocError>] =
    rows! { Ok(Some(NoTables)), Ok(Some(TooManyTables)), Ok(Some(BadEntry(0))), Ok(Some(FirstNotZero)), Ok(Some(NotRising(2))) };

fn fault_of(alloc: Global, starts: &[u64]) -> Result<Option<TablesFault>, AllocError> {
    let mut entries = Vec::new(alloc);
    for start in starts {
        entries.push((*start, Table::profile(alloc)?))?;
    }
    Ok(Tables::new(entries).err())
}

#[test]
fn tables_that_follow_one_another(rt: HostRuntime) {
    let found = STARTS.map(|starts| fault_of(rt.alloc(), starts));
    assert_eq!(rt; found.as_slice(), FAULTS);
}
