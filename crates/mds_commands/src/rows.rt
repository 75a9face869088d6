//! The lines that are printed of tables.
ghost use Rattle.std.specs.Prelude.{Some};
ghost use Rattle.mds_commands.specs.Text.{row_line, count_line, from_line};

use mds_table::Row;
use std::fmt;

/// The line of a row: its type, and the states that it leads from and to.
#[derive(Clone, Copy)]
pub struct RowLine<'a> {
    /// The row.
    pub row: &'a Row,
}

impl fmt::Display for RowLine<'_> {
    ghost output = { λ line. Some (row_line line.row.now) };

    fn fmt<W: fmt::Write>(&self, f: &mut fmt::Formatter<W>) -> fmt::Result {
        let kind = self.row.kind.as_str();
        let from = self.row.from;
        let to = self.row.to;
        write!(f, "{kind} {from} {to}")
    }
}

/// The line before the rows of one of several tables.
#[derive(Clone, Copy)]
pub struct FromLine {
    /// The time from which the table is in force, in milliseconds since the Unix epoch.
    pub start: u64,
}

impl fmt::Display for FromLine {
    ghost output = { λ line. Some (from_line line.start) };

    fn fmt<W: fmt::Write>(&self, f: &mut fmt::Formatter<W>) -> fmt::Result {
        let start = self.start;
        write!(f, "from {start}")
    }
}

/// The last line of a table: how many rows it has.
#[derive(Clone, Copy)]
pub struct CountLine {
    /// How many rows.
    pub count: usize,
}

impl fmt::Display for CountLine {
    ghost output = { λ line. Some (count_line line.count) };

    fn fmt<W: fmt::Write>(&self, f: &mut fmt::Formatter<W>) -> fmt::Result {
        let count = self.count;
        write!(f, "rows {count}")
    }
}
