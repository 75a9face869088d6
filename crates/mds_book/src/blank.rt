//! What a shard of a book is opened from.
ghost use Rattle.std.specs.Prelude.{◌≡◌};

use mds_log::{BlankLog, BlankMarks};
use std::marker::Model;
use std::sync::ledger;

/// What a shard of a book is opened from: a ledger, a log, and marks for the seats, none of which has a name yet.
#[derive(Drop)]
pub struct Blank {
    pub(crate) ledger: ledger::Blank,
    pub(crate) log: BlankLog,
    pub(crate) marks: BlankMarks,
}

impl Model for Blank {
    ghost use Rattle.mds_book.specs.Books.{Blanked};

    ghost Value = { Blanked };

    ghost view = { λ blank. record {
      name = blank.ledger.name;
      parts = blank.ledger.parts;
      log = blank.log;
      marks = blank.marks;
    } };
}

impl Blank {
    /// A blank whose ledger is cut into so many parts, one for each seat. It takes no memory.
    pub fn new(parts: u64) -> Blank
        ensures parts { result.parts ≡ parts }
    {
        Blank {
            ledger: ledger::Blank::new(parts),
            log: BlankLog::new(),
            marks: BlankMarks::new(),
        }
    }
}
