//! A list of calls that only clauses read.
ghost use Rattle.std.specs.Prelude.{◌≡◌, List, [], ◌∷◌};
ghost use Rattle.mds_file.specs.Record.{Entry, entries_code};

use std::marker::{Model, PhantomData};

/// The calls that were made of a file or of a name, each with its answer, the newest first. It takes no memory.
#[derive(Drop)]
pub struct Record {
    marker: PhantomData<u8>,
    pub ghost made: { List Entry } by { entries_code },
}

impl Model for Record {
    ghost use Rattle.std.specs.Borrow.{ftrue};

    ghost also_owns = { λ _. ftrue };
}

impl Record {
    pub(crate) fn new() -> Record
        ensures { result.made ≡ [] }
    {
        Record {
            marker: PhantomData,
        }
    }

    /// Adds a call: numbers that say which it was and how it ended, and its bytes.
    pub(crate) fn note(&mut self, _numbers: &[u64], _bytes: &[u8])
        ensures { self.new.made ≡ (_numbers.now, _bytes.now) ∷ self.old.made }
    {}
}
