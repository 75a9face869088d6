//! What a book's ledgers name, and in which forms a book over them keeps what it has.

use crate::notes::{NoteForm, NotePlace};
use mds_core::Request;
use mds_log::{Logged, Marked};
use mds_past::{KeptForm, PackedRequest};
use mds_settle::Note;
use std::marker::{Brand, PhantomData};
use std::sync::ledger::Ledger;

/// A ledger that counts what a shard accepted, cut into a part for each seat of the book, with the names of the shard's log and of
/// the seats' marks in it. Whoever opens a book picks them.
pub trait NamedLedger: Ledger + Logged + Marked {
    ghost use Rattle.std.specs.Prelude.{List};
    ghost use Rattle.mds_table.specs.Tables.{Tables};

    /// The tables of the book.
    ghost tables: { Tables };
}

impl NamedLedger for Brand {
    ghost use Rattle.std.specs.Prelude.{[]};

    ghost tables = { [] };
}

/// A named ledger of a book's shard, and the forms in which the shard keeps its history, and the seats their notes. A seat keeps
/// them in the form of the first shard's ledger.
pub trait ShardLedger: NamedLedger {
    /// A request of the history as it is kept.
    type Form: KeptForm;

    /// A note as it is kept.
    type Note: NoteForm;
}

/// The ledger of a shard that threads may share.
pub trait SharedLedger: ShardLedger<Form = Self::SharedForm, Note = Self::SharedNote>
    + Send
    + Sync {
    /// A request of the history as it is kept.
    type SharedForm: KeptForm + Send;

    /// A note as it is kept.
    type SharedNote: NoteForm + Send + Sync;
}

/// The ledger of a shard that keeps its history as it is, and so do the seats their notes.
pub struct Plain<L>(PhantomData<L>);

impl<L: NamedLedger> Ledger for Plain<L> {
    ghost name = { L.name };

    ghost parts = { L.parts };
}

impl<L: NamedLedger> Logged for Plain<L> {
    ghost log = { L.log };
}

impl<L: NamedLedger> Marked for Plain<L> {
    ghost marks = { L.marks };
}

impl<L: NamedLedger> NamedLedger for Plain<L> {
    ghost tables = { L.tables };
}

impl<L: NamedLedger> ShardLedger for Plain<L> {
    type Form = Request;

    type Note = Note;
}

impl<L: NamedLedger + Send + Sync> SharedLedger for Plain<L> {
    type SharedForm = Request;

    type SharedNote = Note;
}

/// The ledger of a shard that keeps its history packed, while the seats keep of each accepted call its place alone.
pub struct Packed<L>(PhantomData<L>);

impl<L: NamedLedger> Ledger for Packed<L> {
    ghost name = { L.name };

    ghost parts = { L.parts };
}

impl<L: NamedLedger> Logged for Packed<L> {
    ghost log = { L.log };
}

impl<L: NamedLedger> Marked for Packed<L> {
    ghost marks = { L.marks };
}

impl<L: NamedLedger> NamedLedger for Packed<L> {
    ghost tables = { L.tables };
}

impl<L: NamedLedger> ShardLedger for Packed<L> {
    type Form = PackedRequest;

    type Note = NotePlace;
}

impl<L: NamedLedger + Send + Sync> SharedLedger for Packed<L> {
    type SharedForm = PackedRequest;

    type SharedNote = NotePlace;
}
