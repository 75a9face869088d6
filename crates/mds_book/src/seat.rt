//! What a caller holds: its part of each shard, and the notes of its calls.
ghost use Rattle.std.specs.Prelude.{◌≡◌, ◌≤◌, ◌+◌, length, true};
ghost use mathlib.Core.List.{IsPrefix};
ghost use Rattle.mds_book.specs.Seats.{accepted_in, new_seat, keeps_all};
ghost use Rattle.mds_book.specs.Sights.{rules_in};
ghost use Rattle.mds_book.specs.Copying.{copied_requests};
ghost use Rattle.mds_book.specs.Retired.{IsRetired};

use crate::gathered::Account;
use crate::notes::Notes;
use crate::part::Parts;
use crate::settling::Closing;
use crate::{Part, Progress, ShardLedger};
use mds_settle::{Note, NoteList};
use std::alloc::Global;
use std::marker::Model;

/// Which of its calls a seat notes.
#[derive(Clone, Copy, Debug, PartialEq, Eq)]
pub enum Keep {
    /// Every call.
    All,
    /// The calls that were accepted.
    Accepted,
}

/// What a caller holds of the book of its type: its part of each shard, and the notes of its calls in their order. Each note is
/// true to what the seat saw of the shards.
pub struct Seat<L: ShardLedger, M: ShardLedger> {
    pub(crate) first: Part<L>,
    pub(crate) second: Part<M>,
    pub(crate) notes: Notes<L::Note>,
    pub(crate) keeps_all: bool,
}

// By hand: crates above cite it.
impl<L: ShardLedger, M: ShardLedger> Drop for Seat<L, M> {
    fn drop(self) {
        let Seat {
            first: _,
            second: _,
            notes: _,
            keeps_all: _,
        } = self;
    }
}

impl<L: ShardLedger, M: ShardLedger> Model for Seat<L, M> {
    ghost use Rattle.mds_log.specs.Log.{requests};
    ghost use Rattle.mds_book.specs.Seats.{Seated};
    ghost use Rattle.std.specs.Prelude.{◌≡◌, true};
    ghost use Rattle.mds_book.specs.Sights.{AreTrue, rules_in};
    ghost use Rattle.mds_book.specs.Notes.{AreKept, seen_by, told};

    ghost Value = { Seated };

    ghost view = { λ seat. record {
      first = seat.first.count;
      second = seat.second.count;
      notes = told L.Note.number L.Note.tells
          (seen_by (requests seat.first.sight.seen) (requests seat.second.sight.seen))
          seat.notes.list;
      keeps_all = seat.keeps_all;
      first_seen = requests seat.first.sight.seen;
      second_seen = requests seat.second.sight.seen;
      first_turns = seat.first.sight.turns;
      second_turns = seat.second.sight.turns;
    } };

    ghost invariant = { λ seat.
        AreTrue (rules_in L.tables 0) seat.first.sight.seen seat.first.mark
        (told L.Note.number L.Note.tells
        (seen_by (requests seat.first.sight.seen) (requests seat.second.sight.seen))
        seat.notes.list) seat.first.count
        × AreTrue (rules_in M.tables 1) seat.second.sight.seen seat.second.mark
        (told L.Note.number L.Note.tells
        (seen_by (requests seat.first.sight.seen) (requests seat.second.sight.seen))
        seat.notes.list) seat.second.count
        × AreKept L.Note.number L.Note.is_within L.Note.notes_all
        (seen_by (requests seat.first.sight.seen) (requests seat.second.sight.seen))
        seat.notes.list seat.keeps_all };
}

impl<L: ShardLedger, M: ShardLedger> Seat<L, M> {
    pub(crate) fn of(
        alloc: Global,
        keep: Keep,
        first: &mut Parts<L>,
        second: &mut Parts<M>,
    ) -> Seat<L, M>
        requires first { 1 ≤ first.old.share.parts }
        requires second { 1 ≤ second.old.share.parts }
        requires keep { keeps_all keep ≡ true → L.Note.notes_all ≡ true }
        ensures seat { result ≡ new_seat (keeps_all keep) }
        ensures first { first.new.share.parts + 1 ≡ first.old.share.parts }
        ensures second { second.new.share.parts + 1 ≡ second.old.share.parts }
    {
        Seat {
            first: first.cut(),
            second: second.cut(),
            notes: Notes::new(alloc),
            keeps_all: keep == Keep::All,
        }
    }

    /// How many of the seat's calls were accepted in the shard of this number; 0 for a shard that isn't there.
    pub fn accepted(&self, shard: usize) -> u64
        ensures { result ≡ accepted_in self.now shard }
    {
        match shard {
            0 => self.first.count(),
            1 => self.second.count(),
            _ => 0,
        }
    }

    /// All that the seat has seen of both shards, as if it were copied.
    pub fn progress(&self) -> (Progress<L>, Progress<M>)
        ensures first { result.0
            ≡ record { seen = self.now.first_seen; count = length self.now.first_seen } }
        ensures second { result.1
            ≡ record { seen = self.now.second_seen; count = length self.now.second_seen } }
    {
        (self.first.progress(), self.second.progress())
    }

    /// Whether all that the seat has seen of both shards was copied.
    pub fn is_within(&self, first: &Progress<L>, second: &Progress<M>) -> bool
        ensures first { result ≡ true → IsPrefix self.now.first_seen (copied_requests first.now) }
        ensures second { result ≡ true
            → IsPrefix self.now.second_seen (copied_requests second.now) }
    {
        first.has(self.first.front()) && second.has(self.second.front())
    }

    pub(crate) fn retire(
        self,
        first: &mut Closing<L, 0>,
        second: &mut Closing<M, 1>,
    ) -> Account<L, M>
        ensures slots { (first.new.slot ≡ first.old.slot) × (second.new.slot ≡ second.old.slot) }
        ensures logs { (first.new.log ≡ first.old.log) × (second.new.log ≡ second.old.log) }
        ensures account { result ≡ self }
        ensures first { IsRetired (rules_in L.tables 0) first.old.log first.old.marks result first.new.marks }
        ensures second { IsRetired (rules_in M.tables 1) second.old.log second.old.marks result
            second.new.marks }
    {
        let Seat {
            first: one,
            second: other,
            notes,
            keeps_all,
        } = self;
        let (first_count, first_sight) = first.retire(one);
        let (second_count, second_sight) = second.retire(other);
        Account {
            first: first_count,
            second: second_count,
            notes,
            keeps_all,
            first_sight,
            second_sight,
        }
    }
}

impl<L: ShardLedger<Note = Note>, M: ShardLedger> Seat<L, M> {
    /// The notes of the seat's calls, in the order in which it made them; of a [refill](crate::Book::refill) those of the first shard
    /// before those of the second.
    pub fn notes(&self) -> &[Note]
        ensures { result.now ≡ self.now.notes }
    {
        self.notes.as_slice()
    }
}

impl<L: ShardLedger<Note = Note>, M: ShardLedger> NoteList for Seat<L, M> {
    ghost seen = { λ seat. seat.notes };

    fn notes(&self) -> &[Note] {
        self.notes.as_slice()
    }
}
