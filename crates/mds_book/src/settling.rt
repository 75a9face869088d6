//! Settling: the seats are handed back beside what the shards hold.
ghost use Rattle.std.specs.Prelude.{◌≡◌, ◌≢◌, ◌+◌, ◌<◌, ◌≤◌, ◌++◌, ◌∷◌, [], length, vec_len, vec_capacity, sum_by};
ghost use mathlib.Core.List.{IsPrefix};
ghost use Rattle.mds_log.specs.Log.{requests};
ghost use Rattle.mds_log.specs.Marks.{Has, HasNot};
ghost use Rattle.mds_book.specs.Reconciled.{IsReconciled};
ghost use Rattle.mds_book.specs.Retired.{AreRetired};
ghost use Rattle.mds_book.specs.Sights.{rules_in};

use crate::gathered::Account;
use crate::{Book, Gathered, Part, Seat, Settled, ShardLedger, Sight, Slot};
use mds_log::{Front, Marks};
use std::sync::ledger::Share;

/// Why a book isn't settled.
#[derive(Drop)]
pub enum SettleFault<L: ShardLedger, M: ShardLedger> {
    /// The seats aren't all seats of the book; both are handed back.
    Missing {
        /// The book.
        book: Book<L, M>,
        /// The seats that were handed in.
        seats: Vec<Seat<L, M>>,
    },
    /// The notes don't fit the history of a shard.
    Torn {
        /// The number of the least such shard.
        shard: usize,
        /// The least place of its history at which they don't fit.
        place: usize,
        /// All that was gathered.
        gathered: Gathered<L, M>,
    },
}

/// Adds up the seats' parts of both ledgers: together they have counted the whole histories. It changes nothing.
pub(crate) fn count_all<L: ShardLedger, M: ShardLedger>(
    first: &mut Slot<L, 0>,
    second: &mut Slot<M, 1>,
    seats: &mut [Seat<L, M>],
)
    requires parts { (length seats.old ≡ L.parts) × (length seats.old ≡ M.parts) }
    requires some { 0 < length seats.old }
    ensures slots { (first.new ≡ first.old) × (second.new ≡ second.old) }
    ensures seats { seats.new ≡ seats.old }
    ensures first_total { length first.old.history ≡ sum_by (λ seat. seat.first) seats.old }
    ensures second_total { length second.old.history ≡ sum_by (λ seat. seat.second) seats.old }
{
    let seat = &mut seats[0];
    let mut ones = seat.first.share.empty();
    let mut others = seat.second.share.empty();
    count_seats(first, second, &mut ones, &mut others, seats);
}

/// Goes over the seats from the first on: lends each seat's parts to the shares, goes on, and gives the parts back.
fn count_seats<L: ShardLedger, M: ShardLedger>(
    first: &mut Slot<L, 0>,
    second: &mut Slot<M, 1>,
    ones: &mut Share<L>,
    others: &mut Share<M>,
    seats: &mut [Seat<L, M>],
)
    requires parts { (ones.old.parts + length seats.old ≡ L.parts)
        × (others.old.parts + length seats.old ≡ M.parts) }
    requires backed { (ones.old.parts ≡ 0 → ones.old.amount ≡ 0)
        × (others.old.parts ≡ 0 → others.old.amount ≡ 0) }
    ensures slots { (first.new ≡ first.old) × (second.new ≡ second.old) }
    ensures ones { (ones.new.parts ≡ ones.old.parts) × (ones.new.amount ≡ ones.old.amount) }
    ensures others { (others.new.parts ≡ others.old.parts)
        × (others.new.amount ≡ others.old.amount) }
    ensures seats { seats.new ≡ seats.old }
    ensures first_total { length first.old.history
        ≡ ones.old.amount + sum_by (λ seat. seat.first) seats.old }
    ensures second_total { length second.old.history
        ≡ others.old.amount + sum_by (λ seat. seat.second) seats.old }
{
    if seats.is_empty() {
        first.audit(ones);
        second.audit(others);
        return;
    }
    let (head, tail) = seats.split_at_mut(1);
    let Seat {
        first: one,
        second: other,
        notes: _,
        keeps_all: _,
    } = &mut head[0];
    let Part {
        share: one_share,
        count: one_count,
        sight: _,
        mark: _,
    } = one;
    let Part {
        share: other_share,
        count: other_count,
        sight: _,
        mark: _,
    } = other;
    let (one_held, other_held) = (*one_count, *other_count);
    one_share.give(ones, 1, one_held);
    other_share.give(others, 1, other_held);
    count_seats(first, second, ones, others, tail);
    ones.give(one_share, 1, one_held);
    others.give(other_share, 1, other_held);
}

/// A shard that is settled: what stood behind its lock, a front of its whole log, and the marks that were handed back.
#[derive(Drop)]
pub(crate) struct Closing<L: ShardLedger, const N: usize> {
    pub(crate) slot: Slot<L, N>,
    pub(crate) log: Front<L>,
    pub(crate) marks: Marks<L>,
    ghost whole: { requests log ≡ slot.history },
}

impl<L: ShardLedger, const N: usize> Closing<L, N> {
    pub(crate) fn of(slot: Slot<L, N>, marks: Marks<L>) -> Closing<L, N>
        ensures slot { result.slot ≡ slot }
        ensures marks { result.marks ≡ marks }
    {
        let log = slot.log();
        Closing { slot, log, marks }
    }

    pub(crate) fn retire(&mut self, part: Part<L>) -> (u64, Sight<L>)
        ensures slot { self.new.slot ≡ self.old.slot }
        ensures log { self.new.log ≡ self.old.log }
        ensures count { result.0 ≡ part.count }
        ensures sight { result.1 ≡ part.sight }
        ensures seen { IsPrefix part.sight.seen self.old.log }
        ensures fresh { HasNot self.old.marks part.mark }
        ensures here { Has self.new.marks part.mark }
        ensures begins { IsPrefix self.old.marks self.new.marks }
    {
        let Part {
            share: _,
            count,
            sight,
            mark,
        } = part;
        self.slot.show(&self.log, sight.front());
        self.marks.retire(mark);
        (count, sight)
    }
}

fn put<L: ShardLedger, M: ShardLedger>(room: &mut Vec<Account<L, M>>, account: Account<L, M>)
    requires { vec_len room.old < vec_capacity room.old }
    ensures items { room.new.items ≡ room.old.items ++ account ∷ [] }
    ensures len { vec_len room.new ≡ vec_len room.old + 1 }
    ensures capacity { vec_capacity room.old ≤ vec_capacity room.new }
{
    let Ok(()) = room.push(account) else {
        unreachable!();
    };
}

/// Takes all seats back, into room that was made when the book was opened.
pub(crate) fn retire_all<L: ShardLedger, M: ShardLedger>(
    first: &mut Closing<L, 0>,
    second: &mut Closing<M, 1>,
    mut room: Vec<Account<L, M>>,
    seats: Vec<Seat<L, M>>,
) -> Vec<Account<L, M>>
    requires room { (vec_len room ≡ 0) × (vec_len seats ≤ vec_capacity room) }
    ensures slots { (first.new.slot ≡ first.old.slot) × (second.new.slot ≡ second.old.slot) }
    ensures logs { (first.new.log ≡ first.old.log) × (second.new.log ≡ second.old.log) }
    ensures seats { result.items ≡ seats.items }
    ensures first { AreRetired (rules_in L.tables 0) first.new.log first.new.marks result.items }
    ensures second { AreRetired (rules_in M.tables 1) second.new.log second.new.marks result.items }
{
    for seat in seats {
        let account = seat.retire(first, second);
        put(&mut room, account);
    }
    room
}

/// Settles a book: opens its locks, and takes back its seats, all of them. It takes no memory.
///
/// Each accepted call stands once in its shard's history, in its caller's order, and each reply that was noted is the answer
/// after the entries before it. What a seat saw of a shard while the book was in use is a beginning of the shard's history.
/// The histories have no vehicle in common.
///
/// # Errors
///
/// [`SettleFault::Missing`] where the seats aren't all seats of the book. [`SettleFault::Torn`] never comes.
pub fn reconcile<L: ShardLedger, M: ShardLedger>(
    book: Book<L, M>,
    seats: Vec<Seat<L, M>>,
) -> Result<Settled<L, M>, SettleFault<L, M>>
    ensures { IsReconciled book seats.items result }
{
    if seats.len() != book.seats {
        return Err(SettleFault::Missing { book, seats });
    }
    Ok(Settled::of(book.gather(seats)))
}
