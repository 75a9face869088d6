//! The connections that wait.
ghost use Rattle.std.specs.Prelude.{◌≡◌, ◌↔◌, ◌⊎◌, ◌+◌, ◌<◌, ◌≤◌, [], All, count_by, is_some, IsSome, IsSomeAnd, IsTrue, IfNone, IfOk, IfSome, OnErr, Some, None, length, slice_index_or, slice_set, vec_len};
ghost use Rattle.mds_waiting.specs.Waiting.{HasBegunSince, HasLeft, HasRoom, HasTime, HoldsFewer, IsEldest, IsEldestBefore, IsFull, IsInTime, IsLate, IsOver, IsVacant, SameWaiters, held_bytes, max_held, max_wait, max_waiting, weight};

use crate::least::{Found, Order, find_least};
use crate::waiter::{MAX_HELD, Waiter, weight_of};
use std::alloc::{AllocError, Global};
use std::marker::Model;
use std::mem;

/// The most connections that wait.
pub const MAX_WAITING: usize = 4_096;

/// The longest that is waited at a stretch, in milliseconds.
pub const MAX_WAIT: u64 = 1_000;

/// Connections that wait, each in a slot. A clause sees the slots; the number of a slot is the key of its connection.
#[derive(Drop)]
pub struct Waiting<S> {
    slots: Vec<Option<Waiter<S>>>,
    /// Keys whose connections left. One of them may have a connection again, and none is missed if one is lost.
    spare: Vec<usize>,
    /// How many connections wait.
    count: usize,
    /// How much they hold.
    held: usize,
    /// No connection's time is over before.
    soonest: u64,
}

impl<S> Model for Waiting<S> {
    ghost use Rattle.std.specs.Prelude.{List, Option};
    ghost use Rattle.mds_waiting.specs.declared.waiter.Waiter.{Waiter};
    ghost use Rattle.mds_waiting.specs.Waiting.{IsKept};

    ghost Value = { List (Option (Waiter S)) };

    ghost view = { λ waiting. waiting.slots.items };

    ghost invariant = { λ waiting. IsKept waiting.slots.items waiting.count
        waiting.held waiting.soonest };
}

impl<S> Waiting<S> {
    /// No connection.
    pub fn new(alloc: Global) -> Waiting<S>
        ensures { result ≡ [] }
    {
        Waiting {
            slots: Vec::new(alloc),
            spare: Vec::new(alloc),
            count: 0,
            held: 0,
            soonest: u64::MAX,
        }
    }

    /// How many connections wait.
    pub fn len(&self) -> usize
        ensures { result ≡ count_by is_some self.now }
    {
        self.count
    }

    /// How much the connections hold.
    pub fn held_bytes(&self) -> usize
        ensures held { result ≡ held_bytes self.now }
        ensures bound { result ≤ max_held }
    {
        self.held
    }

    /// Whether there is room for so many bytes more.
    pub fn has_room(&self, count: usize) -> bool
        ensures { IsTrue result ↔ HasRoom self.now count }
    {
        weight_of(count) <= MAX_HELD - self.held
    }

    /// A key that no connection has, if there is one.
    ///
    /// # Errors
    ///
    /// There was no memory for one more slot.
    pub fn vacancy(&mut self) -> Result<Option<usize>, AllocError>
    where
        S: Drop,
        ensures vacant { IfOk result (λ found. IfSome found (IsVacant self.new)) }
        ensures full { IfOk result (λ found. IfNone found (IsFull self.new)) }
        ensures memory { OnErr result (length self.old < max_waiting) }
        ensures same { SameWaiters self.old self.new }
    {
        if let Some(key) = self.spare.pop()
            && self.is_vacant(key)
        {
            return Ok(Some(key));
        }
        if self.slots.len() < MAX_WAITING {
            let key = self.slots.len();
            self.slots.push(None)?;
            return Ok(Some(key));
        }
        Ok(vacant_in(&self.slots))
    }

    /// Whether a slot of this number has no connection.
    pub fn is_vacant(&self, key: usize) -> bool
        ensures { IsTrue result ↔ IsVacant self.now key }
    {
        key < self.slots.len() && self.slots[key].is_none()
    }

    /// Lets a connection wait under this key.
    pub fn put(&mut self, key: usize, waiter: Waiter<S>)
    where
        S: Drop,
        requires vacant { IsVacant self.old key }
        requires room { HasRoom self.old (vec_len waiter.bytes) }
        ensures { self.new ≡ slice_set self.old key (Some waiter) }
    {
        self.count += 1;
        self.held += weight_of(waiter.bytes.len());
        self.soonest = self.soonest.min(waiter.until);
        fill(&mut self.slots, key, waiter);
    }

    /// Hands out the connection of this key, if there is one.
    pub fn take(&mut self, key: usize) -> Option<Waiter<S>>
        ensures taken { result ≡ slice_index_or self.old key None }
        ensures slots { self.new ≡ slice_set self.old key None }
    {
        let waiter = empty_slot(&mut self.slots, key)?;
        self.count -= 1;
        self.held -= weight_of(waiter.bytes.len());
        if self.spare.len() < MAX_WAITING {
            let _ = self.spare.push(key);
        }
        Some(waiter)
    }

    /// The connection whose time is over first, if it is over now. Without a time by the clock it is, whichever that is: so a
    /// clock that fails keeps nobody for ever.
    pub fn find_late(&mut self, now: Option<u64>) -> Option<usize>
        ensures late { IfSome result (IsLate now self.old) }
        ensures none { IfNone result (All (IsInTime now) self.old) }
        ensures same { self.new ≡ self.old }
    {
        if is_before(now, self.soonest) {
            return None;
        }
        match find_least(&self.slots, Order::Until) {
            None => {
                self.soonest = u64::MAX;
                None
            }
            Some(found) => {
                self.soonest = found.time;
                key_if_over(found, now)
            }
        }
    }

    /// How long may be waited from this time on, if the clock tells one, in milliseconds: no longer than until somebody's time
    /// is over.
    pub fn patience(&self, now: Option<u64>) -> u64
        ensures bound { result ≤ max_wait }
        ensures short { IfSome now (λ now. All (HasTime (now + result)) self.now ⊎ (result ≡ 0)) }
        ensures unclocked { now ≡ None → result ≡ max_wait }
    {
        match now {
            Some(now) => self.soonest.saturating_sub(now).min(MAX_WAIT),
            None => MAX_WAIT,
        }
    }

    /// The connection that began to wait first, of those that hold at least so many bytes.
    pub fn eldest_holding(&self, bytes: usize) -> Option<usize>
        ensures eldest { IfSome result (IsEldest bytes self.now) }
        ensures none { IfNone result (All (HoldsFewer bytes) self.now) }
    {
        let found = find_least(&self.slots, Order::Begun { bytes })?;
        Some(found.key)
    }

    /// The connection that began to wait first, if it did so before this time.
    pub fn eldest_before(&self, time: u64) -> Option<usize>
        ensures eldest { IfSome result (IsEldestBefore time self.now) }
        ensures none { IfNone result (All (HasBegunSince time) self.now) }
    {
        match find_least(&self.slots, Order::Begun { bytes: 0 }) {
            Some(found) if found.time < time => Some(found.key),
            _ => None,
        }
    }

    /// Lets go of the eldest connection that holds bytes, where there is no room for so many more.
    pub fn make_room(&mut self, count: usize) -> Option<Waiter<S>>
        ensures left { IfSome result (HasLeft self.old self.new) }
        ensures room { IfNone result (HasRoom self.new count) }
        ensures same { IfNone result (self.new ≡ self.old) }
        ensures fewer { IfSome result (λ _. held_bytes self.new < held_bytes self.old) }
        ensures needed { IfSome result (λ _. HasRoom self.old count → ⊥) }
    {
        if self.has_room(count) {
            return None;
        }
        let key = self.eldest_holding(1)?;
        self.take(key)
    }
}

fn is_before(now: Option<u64>, time: u64) -> bool
    ensures { IsTrue result → IsSomeAnd now (λ now. now < time) }
{
    now.is_some_and(|now| now < time)
}

/// The key of a connection with this time, if that is over now, or the clock tells no time.
fn key_if_over(found: Found, now: Option<u64>) -> Option<usize>
    ensures over { IfSome result (λ key. (key ≡ found.key) × IsOver now found.time) }
    ensures early { IfNone result (IsSomeAnd now (λ now. now < found.time)) }
{
    match now {
        Some(now) if now < found.time => None,
        _ => Some(found.key),
    }
}

fn fill<S: Drop>(slots: &mut Vec<Option<Waiter<S>>>, key: usize, waiter: Waiter<S>)
    requires { key < vec_len slots.old }
    ensures { slots.new.items ≡ slice_set slots.old.items key (Some waiter) }
{
    slots[key] = Some(waiter);
}

fn empty_slot<S>(slots: &mut Vec<Option<Waiter<S>>>, key: usize) -> Option<Waiter<S>>
    ensures taken { result ≡ slice_index_or slots.old.items key None }
    ensures slots { slots.new.items ≡ slice_set slots.old.items key None }
{
    if key >= slots.len() {
        return None;
    }
    mem::replace(&mut slots[key], None)
}

fn vacant_in<S>(slots: &[Option<Waiter<S>>]) -> Option<usize>
    ensures vacant { IfSome result (IsVacant slots.now) }
    ensures none { IfNone result (All IsSome slots.now) }
{
    for key in 0..slots.len() {
        if slots[key].is_none() {
            return Some(key);
        }
    }
    None
}
