//! Tables that change at stated times.
ghost use Rattle.std.specs.Prelude.{◌≡◌, ◌++◌, [], ◌∷◌, option_map, slice_get, length, IfOk, IfErr, OnOk, MatchResult};
ghost use Rattle.mds_table.specs.Tables.{rows_at};
ghost use Rattle.mds_table.specs.Timed.{AreTimed};
ghost use Rattle.mds_table.specs.TimedFile.{Follows, HasTimesFault, HasTables, HasTablesFault};
ghost use Rattle.mds_table.specs.TimedRead.{IsCount, IsCountFault, IsStartFault};

use crate::json::MAX_TIME;
use crate::{Table, TablesFault, tables_file};
use std::alloc::{AllocError, Global};
use std::marker::Model;

/// The most tables that follow one another.
pub const MAX_TABLES: usize = 64;

/// Tables of allowed transitions, each in force from its starting time until the next one starts: 1 to [`MAX_TABLES`], the
/// first from 0, each from a later time than the one before, none from a time past [`MAX_TIME`]. Times are milliseconds
/// since the Unix epoch. Contracts see the list of starting times and tables.
#[derive(Debug)]
pub struct Tables {
    entries: Vec<(u64, Table)>,
}

// By hand: crates above cite it.
impl Drop for Tables {
    fn drop(self) {
        let Tables { entries: _ } = self;
    }
}

impl Model for Tables {
    ghost use Rattle.mds_table.specs.Tables.{Entry};
    ghost use Rattle.mds_table.specs.Timed.{AreTimed};
    ghost use Rattle.std.specs.Prelude.{List};

    ghost Value = { List Entry };

    ghost view = { λ tables. tables.entries.items };

    ghost invariant = { λ tables. AreTimed tables.entries.items };
}

impl Tables {
    /// These tables, each from its starting time on. It takes no memory.
    ///
    /// # Errors
    ///
    /// The first fault of their number and their starting times, in the order of [`TablesFault`].
    pub fn new(entries: Vec<(u64, Table)>) -> Result<Tables, TablesFault>
        ensures tables { IfOk result (λ tables. tables ≡ entries.items) }
        ensures timed { IfOk result (λ tables. AreTimed tables) }
        ensures fault { IfErr result (HasTimesFault entries.items) }
    {
        check_count(entries.len())?;
        let mut last = None;
        for (at, entry) in entries.iter().enumerate() {
            let start = entry.0;
            if start > MAX_TIME {
                return Err(TablesFault::BadEntry(at));
            }
            check_start(at, last, start)?;
            last = Some(start);
        }
        Ok(Tables { entries })
    }

    /// This table alone, in force from 0 on.
    ///
    /// # Errors
    ///
    /// `AllocError` where there is no memory for the list of one.
    pub fn one(alloc: Global, table: Table) -> Result<Tables, AllocError>
        ensures { IfOk result (λ tables. tables ≡ (0, table) ∷ []) }
    {
        let mut entries = Vec::with_capacity(alloc, 1)?;
        add(&mut entries, 0, table)?;
        Ok(Tables { entries })
    }

    /// The tables of a file. An object with a member `rows` is a table file ([`Table::from_json`]), and its table is in
    /// force from 0 on. Else the file is an object with a member `tables`, a list of entries `{"from_time":N,"rows":[..]}`
    /// in order of time. Other members are ignored.
    ///
    /// # Errors
    ///
    /// The first fault of the file, in the order of [`TablesFault`]; `Memory` where there is no memory to read it.
    pub fn from_json(alloc: Global, text: &[u8]) -> Result<Tables, TablesFault>
        ensures tables { IfOk result (λ tables. HasTables text.now tables) }
        ensures fault { IfErr result (λ fault. HasTablesFault text.now fault) }
    {
        tables_file::tables_in_file(alloc, text)
    }

    /// The table in force at this time: the last one that has started by then. It halves the list at each step.
    pub fn at(&self, time: u64) -> &Table
        ensures { result.now ≡ rows_at self.now time }
    {
        let started = self.entries.partition_point(|entry| entry.0 <= time);
        // The first table starts at 0, so at least one has started.
        let entry = &self.entries[started - 1];
        &entry.1
    }

    /// The number of tables.
    pub fn len(&self) -> usize
        ensures len { result ≡ length self.now }
        ensures timed { AreTimed self.now }
    {
        self.entries.len()
    }

    /// The starting time and the table at this place, in order of time.
    pub fn entry(&self, at: usize) -> Option<(u64, &Table)>
        ensures { option_map (λ entry. (entry.0, entry.1.now)) result ≡ slice_get self.now at }
    {
        let entry = self.entries.get(at)?;
        Some((entry.0, &entry.1))
    }

    /// A copy.
    ///
    /// # Errors
    ///
    /// `AllocError` where there is no memory for them.
    pub fn copy(&self, alloc: Global) -> Result<Tables, AllocError>
        ensures { IfOk result (λ tables. tables ≡ self.now) }
    {
        let mut entries = Vec::with_capacity(alloc, self.entries.len())?;
        for entry in &self.entries {
            let table = entry.1.copy(alloc)?;
            add(&mut entries, entry.0, table)?;
        }
        Ok(Tables { entries })
    }

    pub(crate) fn of_entries(entries: Vec<(u64, Table)>) -> Tables
        requires { AreTimed entries.items }
        ensures { result ≡ entries.items }
    {
        Tables { entries }
    }
}

pub(crate) fn add(
    entries: &mut Vec<(u64, Table)>,
    start: u64,
    table: Table,
) -> Result<(), AllocError>
    ensures { OnOk result (entries.new.items ≡ entries.old.items ++ (start, table) ∷ []) }
{
    entries.push((start, table))?;
    Ok(())
}

pub(crate) fn check_count(count: usize) -> Result<(), TablesFault>
    ensures { MatchResult result (λ _. IsCount count) (IsCountFault count) }
{
    if count == 0 {
        return Err(TablesFault::NoTables);
    }
    if count > MAX_TABLES {
        return Err(TablesFault::TooManyTables);
    }
    Ok(())
}

pub(crate) fn check_start(at: usize, last: Option<u64>, start: u64) -> Result<(), TablesFault>
    ensures { MatchResult result (λ _. Follows last start) (IsStartFault at last start) }
{
    match last {
        None => {
            if start != 0 {
                return Err(TablesFault::FirstNotZero);
            }
        }
        Some(last) => {
            if start <= last {
                return Err(TablesFault::NotRising(at));
            }
        }
    }
    Ok(())
}
