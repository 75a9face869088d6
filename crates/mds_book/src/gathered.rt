//! What is left of a book once all its seats came back.
ghost use Rattle.std.specs.Prelude.{◌≡◌, ◌+◌, length};
ghost use Rattle.std.specs.Option.{option_copied};
ghost use Rattle.mds_book.specs.Gathering.{IsWhole, history_of, notes_of};
ghost use Rattle.mds_book.specs.Settling.{AreBeginnings, IsSettledBook};
ghost use mathlib.Core.List.{IsPrefix};

use crate::notes::Notes;
use crate::{Progress, ShardLedger, Sight, Slot};
use mds_core::Request;
use mds_settle::Note;
use mds_table::Tables;
use std::marker::Model;

/// What is left of a seat that was handed back: its counts, its notes, and what it saw of each shard.
#[derive(Drop)]
pub(crate) struct Account<L: ShardLedger, M: ShardLedger> {
    pub(crate) first: u64,
    pub(crate) second: u64,
    pub(crate) notes: Notes<L::Note>,
    pub(crate) keeps_all: bool,
    pub(crate) first_sight: Sight<L>,
    pub(crate) second_sight: Sight<M>,
}

impl<L: ShardLedger, M: ShardLedger> Model for Account<L, M> {
    ghost use Rattle.mds_log.specs.Log.{requests};
    ghost use Rattle.mds_book.specs.Seats.{Seated};
    ghost use Rattle.mds_book.specs.Notes.{seen_by, told};

    ghost Value = { Seated };

    ghost view = { λ account. record {
      first = account.first;
      second = account.second;
      notes = told L.Note.number L.Note.tells
          (seen_by (requests account.first_sight.seen) (requests account.second_sight.seen))
          account.notes.list;
      keeps_all = account.keeps_all;
      first_seen = requests account.first_sight.seen;
      second_seen = requests account.second_sight.seen;
      first_turns = account.first_sight.turns;
      second_turns = account.second_sight.turns;
    } };
}

impl<L: ShardLedger<Note = Note>, M: ShardLedger> Account<L, M> {
    fn notes(&self) -> &[Note]
        ensures { result.now ≡ self.now.notes }
    {
        self.notes.as_slice()
    }
}

/// The histories of both shards, and the notes of all seats, with nothing judged. What the seats counted is what the
/// histories hold.
pub struct Gathered<L: ShardLedger, M: ShardLedger> {
    pub(crate) tables: Tables,
    pub(crate) first: Slot<L, 0>,
    pub(crate) second: Slot<M, 1>,
    pub(crate) seats: Vec<Account<L, M>>,
}

// By hand: crates above cite it.
impl<L: ShardLedger, M: ShardLedger> Drop for Gathered<L, M> {
    fn drop(self) {
        let Gathered {
            tables: _,
            first: _,
            second: _,
            seats: _,
        } = self;
    }
}

impl<L: ShardLedger, M: ShardLedger> Model for Gathered<L, M> {
    ghost use Rattle.std.specs.Prelude.{◌≡◌, length, sum_by};
    ghost use Rattle.mds_book.specs.Gathering.{Collected};

    ghost Value = { Collected };

    ghost view = { λ all. record {
      tables = all.tables;
      first = all.first.history;
      second = all.second.history;
      seats = all.seats.items;
    } };

    ghost invariant = { λ all. (all.tables ≡ L.tables) × (all.tables ≡ M.tables)
        × (length all.first.history ≡ sum_by (λ seat. seat.first) all.seats.items)
        × (length all.second.history ≡ sum_by (λ seat. seat.second) all.seats.items) };
}

/// What is left of a book whose seats all came back. Their notes fit the histories, and what each seat saw is a beginning of its
/// shard's history. The histories are the order in which the accepted calls took place, shard by shard; each was noted once,
/// and stands in its caller's order.
pub struct Settled<L: ShardLedger, M: ShardLedger> {
    gathered: Gathered<L, M>,
}

// By hand: crates above cite it.
impl<L: ShardLedger, M: ShardLedger> Drop for Settled<L, M> {
    fn drop(self) {
        let Settled { gathered: _ } = self;
    }
}

impl<L: ShardLedger, M: ShardLedger> Model for Settled<L, M> {
    ghost use Rattle.mds_book.specs.Gathering.{Collected};
    ghost use Rattle.mds_book.specs.Settling.{AreBeginnings, IsSettledBook};

    ghost Value = { Collected };

    ghost view = { λ settled. settled.gathered };

    ghost invariant = { λ settled.
        IsSettledBook settled.gathered × AreBeginnings settled.gathered };
}

impl<L: ShardLedger, M: ShardLedger> Gathered<L, M> {
    /// The tables of the book.
    pub fn tables(&self) -> &Tables
        ensures { result.now ≡ self.now.tables }
    {
        &self.tables
    }

    /// For its contract alone: it does nothing.
    pub(crate) fn tell(&self)
        ensures { IsWhole self.now }
    {
        // These calls' contracts say it of each history.
        let _ = self.first.shard();
        let _ = self.second.shard();
    }
}

impl<L: ShardLedger, M: ShardLedger> Settled<L, M> {
    pub(crate) fn of(gathered: Gathered<L, M>) -> Settled<L, M>
        requires settled { IsSettledBook gathered }
        requires beginnings { AreBeginnings gathered }
        ensures { result ≡ gathered }
    {
        Settled { gathered }
    }

    /// The tables of the book.
    pub fn tables(&self) -> &Tables
        ensures { result.now ≡ self.now.tables }
    {
        self.gathered.tables()
    }

    /// Tells that what was seen of each shard while the book was in use is a beginning of its history. It changes nothing.
    pub fn tell_begins(&mut self, first: &Progress<L>, second: &Progress<M>)
        ensures same { self.new ≡ self.old }
        ensures first { IsPrefix first.now.seen self.old.first }
        ensures second { IsPrefix second.now.seen self.old.second }
    {
        self.gathered.first.tell_begins(first);
        self.gathered.second.tell_begins(second);
    }

    /// How many calls were accepted, in both shards.
    pub fn accepted(&self) -> u128
        ensures total { result ≡ length self.now.first + length self.now.second }
        ensures settled { IsSettledBook self.now }
        ensures beginnings { AreBeginnings self.now }
        ensures whole { IsWhole self.now }
    {
        self.gathered.tell();
        self.gathered.first.shard().len() as u128 + self.gathered.second.shard().len() as u128
    }
}

impl<L: ShardLedger<Note = Note>, M: ShardLedger> Gathered<L, M> {
    /// The notes of the seat that was handed in at this place, in their order, or `None` where there was no such seat.
    pub fn notes(&self, seat: usize) -> Option<&[Note]>
        ensures { option_copied result ≡ notes_of self.now seat }
    {
        match self.seats.get(seat) {
            Some(account) => Some(account.notes()),
            None => None,
        }
    }
}

impl<L: ShardLedger<Note = Note>, M: ShardLedger> Settled<L, M> {
    /// The notes of the seat that was handed in at this place, in their order, or `None` where there was no such seat.
    pub fn notes(&self, seat: usize) -> Option<&[Note]>
        ensures { option_copied result ≡ notes_of self.now seat }
    {
        self.gathered.notes(seat)
    }
}

impl<L: ShardLedger<Form = Request>, M: ShardLedger<Form = Request>> Gathered<L, M> {
    /// What the shard of this number accepted, in its order, or `None` for a shard that isn't there.
    pub fn history(&self, shard: usize) -> Option<&[Request]>
        ensures { option_copied result ≡ history_of self.now shard }
    {
        match shard {
            0 => Some(self.first.shard().history()),
            1 => Some(self.second.shard().history()),
            _ => None,
        }
    }
}

impl<L: ShardLedger<Form = Request>, M: ShardLedger<Form = Request>> Settled<L, M> {
    /// What the shard of this number accepted, in its order, or `None` for a shard that isn't there.
    pub fn history(&self, shard: usize) -> Option<&[Request]>
        ensures { option_copied result ≡ history_of self.now shard }
    {
        self.gathered.history(shard)
    }
}
