//! What callers of a book can rely on. Each law is a function that does nothing; its contract is the law.
ghost use Rattle.mds_book.specs.Laws.{AcceptedStands, OneBegins, SettledIsNotTorn, SightsAreOne};

use crate::{Seat, ShardLedger};

/// What two callers of a book saw of a shard are beginnings of one history, at any time: one begins the other.
pub fn sights_agree<L: ShardLedger, M: ShardLedger>(one: &Seat<L, M>, other: &Seat<L, M>)
    ensures first { OneBegins one.now.first_seen other.now.first_seen }
    ensures second { OneBegins one.now.second_seen other.now.second_seen }
{
    one.first.tell_order(&other.first);
    one.second.tell_order(&other.second);
}

/// In a settled book what two callers saw of a shard are beginnings of the shard's history, and so one begins the other.
pub fn sights_are_one()
    ensures { SightsAreOne }
{}

/// What a caller was told stands: a request that was accepted stays at its place in all that is seen later.
pub fn accepted_stands()
    ensures { AcceptedStands }
{}

/// A settled book isn't torn: judging its notes beside either history finds no place at fault.
pub fn settled_is_not_torn()
    ensures { SettledIsNotTorn }
{}
