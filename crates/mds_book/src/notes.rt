//! How a seat keeps the notes of its calls.
ghost use Rattle.std.specs.Prelude.{◌≡◌, ◌<◌, ◌≤◌, ◌+◌, ◌++◌, ◌∷◌, ◌^◌, ◌||◌, [], All, length, true, false, IsOk, OnOk};
ghost use Rattle.mds_core.specs.History.{key_of};
ghost use Rattle.mds_core.specs.Headline.{is_done as outcome_is_done};
ghost use Rattle.mds_book.specs.Shards.{shard_of as number_of};
ghost use Rattle.mds_book.specs.Notes.{IsNoted, TellMore};

use mds_core::{Outcome, Reply, Request};
use mds_settle::Note;
use std::alloc::{AllocError, Global};
use std::marker::Model;

/// One note as it is kept. What it tells may have to be read in what its seat has seen of the shard that was asked.
pub trait NoteForm: Copy {
    ghost use Rattle.std.specs.Prelude.{◌≡◌, ◌<◌, ◌++◌, ◌^◌, ◌||◌, ℕ, Bool, List, Some, slice_get, true};
    ghost use Rattle.mds_core.specs.declared.request.Request.{Request as Requested};
    ghost use Rattle.mds_core.specs.Headline.{is_done};
    ghost use Rattle.mds_settle.specs.declared.note.Note.{Note as Noted};

    /// The number of the shard that was asked.
    ghost number: { Self → ℕ };

    /// The note, beside what was seen of the shard's history.
    ghost tells: { Self → List Requested → Noted };

    /// Enough was seen of the shard's history to tell it.
    ghost is_within: { Self → List Requested → Type 0 };

    /// Every call can be noted, and not the accepted ones alone.
    ghost notes_all: { Bool };

    /// The note of a call. Where the call was accepted, its request has to stand at its place in what is seen of the shard.
    fn put(shard: usize, request: &Request, reply: &Reply) -> Self
        requires shard { shard < 2 }
        requires place { reply.now.place < 2 ^ 63 }
        requires may { (notes_all || is_done reply.now.outcome) ≡ true }
        ensures number { number result ≡ shard }
        ensures within { (history : List Requested)
            → (is_done reply.now.outcome ≡ true
            → slice_get history reply.now.place ≡ Some request.now)
            → is_within result history }
        ensures told { (history : List Requested)
            → (is_done reply.now.outcome ≡ true
            → slice_get history reply.now.place ≡ Some request.now)
            → tells result history
            ≡ record { shard = shard; request = request.now; reply = reply.now } };

    /// It tells the same where more was seen.
    ghost stays: { (note : Self) (history more : List Requested) → is_within note history
        → is_within note (history ++ more) × (tells note (history ++ more) ≡ tells note history) };

    /// It tells a note of its shard.
    ghost of_shard: { (note : Self) (history : List Requested)
        → (tells note history).shard ≡ number note };
}

impl NoteForm for Note {
    ghost use Rattle.std.specs.Prelude.{true, refl};

    ghost number = { λ note. note.shard };

    ghost tells = { λ note history. note };

    ghost is_within = { λ note history. Unit {0} };

    ghost notes_all = { true };

    fn put(shard: usize, request: &Request, reply: &Reply) -> Note {
        Note {
            shard,
            request: *request,
            reply: *reply,
        }
    }

    ghost stays = { λ note history more within. (within, refl) };

    ghost of_shard = { λ note history. refl };
}

/// The note of an accepted call: its place in the shard's history, twice, and the number of the shard. The request is the one
/// that stands there.
#[derive(Clone, Copy, Debug, PartialEq, Eq)]
pub struct NotePlace {
    doubled: u64,
}

impl NoteForm for NotePlace {
    ghost use Rattle.std.specs.Prelude.{false, refl};
    ghost use Rattle.mds_book.specs.NotePlaces.{number_in, note_at, is_at, still_at};

    ghost number = { λ note. number_in note.doubled };

    ghost tells = { λ note history. note_at note.doubled history };

    ghost is_within = { λ note history. is_at note.doubled history };

    ghost notes_all = { false };

    fn put(shard: usize, _request: &Request, reply: &Reply) -> NotePlace {
        NotePlace {
            doubled: 2 * reply.place as u64 + shard as u64,
        }
    }

    ghost stays = { λ note history more within. still_at note.doubled history more within };

    ghost of_shard = { λ note history. refl };
}

/// Notes as they are kept, in their order. Contracts see them, and for how many further ones there is room.
#[derive(Drop)]
pub(crate) struct Notes<N: NoteForm> {
    kept: Vec<N>,
}

impl<N: NoteForm> Model for Notes<N> {
    ghost use Rattle.std.specs.Prelude.{◌-◌, vec_len, vec_capacity};
    ghost use Rattle.mds_book.specs.Notes.{KeptNotes};

    ghost Value = { KeptNotes N };

    ghost view = { λ notes. record {
      list = notes.kept.items;
      room = vec_capacity notes.kept - vec_len notes.kept;
    } };
}

impl<N: NoteForm> Notes<N> {
    /// No notes. It takes no memory.
    pub(crate) fn new(alloc: Global) -> Notes<N>
        ensures { result.list ≡ [] }
    {
        Notes {
            kept: Vec::new(alloc),
        }
    }

    /// Makes room for so many further notes.
    pub(crate) fn reserve(&mut self, count: usize) -> Result<(), AllocError>
        ensures list { self.new.list ≡ self.old.list }
        ensures room { OnOk result (count ≤ self.new.room) }
    {
        self.kept.reserve(count)
    }

    fn push(&mut self, note: N)
        requires { 0 < self.old.room }
        ensures { self.new.list ≡ self.old.list ++ note ∷ [] }
    {
        self.kept.push_reserved(note);
    }

    /// Puts notes behind these, for which there is room.
    pub(crate) fn add(&mut self, more: &Notes<N>)
        requires { length more.now.list ≤ self.old.room }
        ensures list { self.new.list ≡ self.old.list ++ more.now.list }
        ensures room { self.old.room ≤ self.new.room + length more.now.list }
    {
        let Ok(()) = self.kept.extend_from_slice(more.kept.as_slice()) else {
            unreachable!();
        };
    }

    /// The notes as they are kept.
    pub(crate) fn as_slice(&self) -> &[N]
        ensures { result.now ≡ self.now.list }
    {
        self.kept.as_slice()
    }

    /// For its contract alone: it does nothing.
    pub(crate) fn tell(&self)
        ensures { TellMore N.number N.tells N.is_within self.now.list }
    {}
}

pub(crate) fn make_room<N: NoteForm>(notes: &mut Notes<N>, may_note: bool) -> Result<(), AllocError>
    ensures list { notes.new.list ≡ notes.old.list }
    ensures room { OnOk result (may_note ≡ true → 0 < notes.new.room) }
    ensures none { may_note ≡ false → IsOk result }
{
    if may_note {
        notes.reserve(1)?;
    }
    Ok(())
}

pub(crate) fn note_call<N: NoteForm>(
    notes: &mut Notes<N>,
    keeps_all: bool,
    shard: usize,
    request: &Request,
    reply: &Reply,
)
    requires number { shard ≡ number_of (key_of request.now) }
    requires shard { shard < 2 }
    requires place { reply.now.place < 2 ^ 63 }
    requires may { keeps_all ≡ true → N.notes_all ≡ true }
    requires room { (keeps_all || outcome_is_done reply.now.outcome) ≡ true → 0 < notes.old.room }
    ensures noted { IsNoted N.number N.tells N.is_within keeps_all request.now reply.now
        notes.old.list notes.new.list }
{
    if !is_noted(keeps_all, reply) {
        return;
    }
    let note = N::put(shard, request, reply);
    notes.push(note);
}

fn is_noted(keeps_all: bool, reply: &Reply) -> bool
    ensures { result ≡ (keeps_all || outcome_is_done reply.now.outcome) }
{
    keeps_all || matches!(reply.outcome, Outcome::Done)
}
