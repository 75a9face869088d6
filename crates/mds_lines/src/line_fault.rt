//! Why a stream's lines are no items.
ghost use Rattle.std.specs.Prelude.{Some};
ghost use Rattle.mds_lines.specs.LineFault.{line_fault_text};

use std::error::Error;
use std::fmt;

/// Why a stream's lines are no items: the first fault in the stream. At a line's end [`LineFault::NotJson`] is looked
/// for before [`LineFault::TooMany`].
#[derive(Clone, Copy, Debug, PartialEq, Eq)]
pub enum LineFault {
    /// There was no memory. This says nothing of the stream.
    Memory,
    /// The stream has more than [`MAX_BYTES`](mds_table::MAX_BYTES) bytes.
    TooLong,
    /// A line isn't a text of JSON in UTF-8, or it nests lists and objects more than 127 deep.
    NotJson {
        /// The number of the line, from 0.
        line: usize,
    },
    /// The stream has more than [`MAX_ITEMS`](mds_batch::MAX_ITEMS) items.
    TooMany,
}

impl Error for LineFault {}

impl fmt::Display for LineFault {
    ghost output = { λ fault. Some (line_fault_text fault) };

    fn fmt<W: fmt::Write>(&self, f: &mut fmt::Formatter<W>) -> fmt::Result {
        match self {
            LineFault::Memory => f.write_str("out of memory"),
            LineFault::TooLong => f.write_str("too_long"),
            LineFault::NotJson { line } => write!(f, "not_json {line}"),
            LineFault::TooMany => f.write_str("too_many"),
        }
    }
}
