//! What callers note of their calls.
ghost use Rattle.std.specs.Prelude.{◌≡◌, List};
ghost use Rattle.mds_settle.specs.declared.note.Note.{Note as Noted};

use mds_core::{Reply, Request};

/// A call that a caller noted.
#[derive(Clone, Copy, Debug, PartialEq, Eq)]
pub struct Note {
    /// The number of the shard that was asked.
    pub shard: usize,
    /// What was asked.
    pub request: Request,
    /// What was replied.
    pub reply: Reply,
}

/// The notes of one caller.
pub trait NoteList {
    ghost seen: { Self → List Noted };

    /// The notes of the caller's calls, in the order in which it made them.
    fn notes(&self) -> &[Note]
        ensures { result.now ≡ seen self.now };
}

impl NoteList for Vec<Note> {
    ghost seen = { λ notes. notes.items };

    fn notes(&self) -> &[Note] {
        self.as_slice()
    }
}
