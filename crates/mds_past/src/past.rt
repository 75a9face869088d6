//! The accepted requests of a shard, and the places beside them.
ghost use Rattle.std.specs.Prelude.{◌≡◌, ◌+◌, ◌<◌, ◌≤◌, ◌^◌, ◌++◌, [], ◌∷◌, Some, length, slice_get, option_map, IfSome, OnOk, OnErr};
ghost use Rattle.mds_core.specs.History.{key_of, report_of};
ghost use Rattle.mds_past.specs.Past.{place_before};

use crate::form::KeptForm;
use crate::pieces::Pieces;
use mds_core::{EventRef, Key, MAX_EVENT_TYPES, Request};
use mds_table::TypeName;
use std::alloc::{AllocError, Global};
use std::marker::Model;

/// How many places before a piece holds.
const PIECE: usize = 1 << 16;

/// The requests that a shard accepted, in their order, and beside each the place of the request about its vehicle before it.
///
/// It holds at most 2^32 - 1 requests, keys of vehicles and names of types, since it keeps their places in 32 bits. Contracts
/// see the requests, the places beside them, and for how many further requests there is room for certain.
pub struct Past<K: KeptForm> {
    keys: Vec<Key>,
    names: Vec<TypeName>,
    /// Where lists of types begin among the names.
    starts: Vec<usize>,
    kept: Pieces<K>,
    /// One more than the place before, and 0 where there is none.
    behind: Pieces<u32>,
    room: usize,
    limit: u32,
}

// By hand: a crate that drops a past then cites this function, and proves no destructor of what it holds.
impl<K: KeptForm> Drop for Past<K> {
    fn drop(self) {
        let Past {
            keys: _,
            names: _,
            starts: _,
            kept: _,
            behind: _,
            room: _,
            limit: _,
        } = self;
    }
}

impl<K: KeptForm> Model for Past<K> {
    ghost use Rattle.std.specs.Prelude.{map};
    ghost use Rattle.mds_past.specs.Past.{PastKept, AreKept, place_before};

    ghost Value = { PastKept };

    ghost view = { λ past. record {
      requests = map (λ kept. K.tells kept past.keys.items past.names.items) past.kept.items;
      before = map place_before past.behind.items;
      room = past.room;
    } };

    ghost invariant = { λ past. AreKept K.is_kept K.PIECE past.keys past.names past.kept
        past.behind past.room past.limit };
}

impl<K: KeptForm> Past<K> {
    /// No requests. It takes no memory.
    pub fn new(alloc: Global) -> Past<K>
        ensures { result ≡ record { requests = []; before = []; room = 0 } }
    {
        Past::with_limit(alloc, u32::MAX)
    }

    /// As [`Past::new`], with room for no more requests, keys of vehicles and names of types than this. Below 64, the most types
    /// of an event, there is room for none.
    pub fn with_limit(alloc: Global, limit: u32) -> Past<K>
        ensures { result ≡ record { requests = []; before = []; room = 0 } }
    {
        Past {
            keys: Vec::new(alloc),
            names: Vec::new(alloc),
            starts: Vec::new(alloc),
            kept: Pieces::new(alloc, K::PIECE),
            behind: Pieces::new(alloc, PIECE),
            room: 0,
            limit,
        }
    }

    /// How many requests there are.
    pub fn len(&self) -> usize
        ensures len { result ≡ length self.now.requests }
        ensures places { result ≡ length self.now.before }
        ensures small { result < 2 ^ 32 }
    {
        self.kept.len()
    }

    /// Makes room for a further request.
    ///
    /// # Errors
    ///
    /// `AllocError` where there is no memory for it, or it may be one past the most requests, keys or names; the requests stay as
    /// they are.
    pub fn reserve(&mut self) -> Result<(), AllocError>
        ensures requests { self.new.requests ≡ self.old.requests }
        ensures before { self.new.before ≡ self.old.before }
        ensures room { OnOk result (1 ≤ self.new.room) }
        ensures full { OnErr result (self.old.room ≡ 0) }
    {
        if self.room > 0 {
            return Ok(());
        }
        let limit = self.limit as usize;
        let last = self.keys.len().max(self.kept.len());
        if last >= limit || self.names.len() + MAX_EVENT_TYPES > limit {
            return Err(AllocError);
        }
        self.keys.reserve(1)?;
        self.names.reserve(MAX_EVENT_TYPES)?;
        self.kept.reserve()?;
        self.behind.reserve()?;
        self.room = 1;
        Ok(())
    }

    /// Adds a request for which there is room, and beside it the place of the request about its vehicle before it. The vehicle's
    /// key is looked for at `number` among the keys; whatever stands there, the request is kept.
    pub fn push(&mut self, request: &Request, number: usize, earlier: Option<usize>)
        requires room { 1 ≤ self.old.room }
        requires earlier { IfSome earlier (λ place. place < length self.old.requests) }
        ensures requests { self.new.requests ≡ self.old.requests ++ request.now ∷ [] }
        ensures before { self.new.before ≡ self.old.before ++ earlier ∷ [] }
    {
        let kept = K::put(
            request,
            number,
            &mut self.keys,
            &mut self.names,
            &mut self.starts,
        );
        self.kept.push(kept);
        self.behind.push(behind(earlier));
        self.room = 0;
    }

    /// The vehicle that the request at this place is about.
    pub fn key(&self, at: usize) -> &Key
        requires { at < length self.now.requests }
        ensures { option_map key_of (slice_get self.now.requests at) ≡ Some result.now }
    {
        self.kept.get(at).key(&self.keys, &self.names)
    }

    /// The event that the request at this place reports, or `None` where it reports none.
    pub fn event(&self, at: usize) -> Option<EventRef<'_>>
        requires { at < length self.now.requests }
        ensures { option_map report_of (slice_get self.now.requests at) ≡ Some result }
    {
        self.kept.get(at).event(&self.keys, &self.names)
    }

    /// The place of the request about the vehicle before the one at this place.
    pub fn earlier(&self, at: usize) -> Option<usize>
        requires { at < length self.now.requests }
        ensures { slice_get self.now.before at ≡ Some result }
    {
        place_of(*self.behind.get(at))
    }

    /// Puts a copy of the request at this place in the place of another one. Of an event only what it has of its own is written.
    pub fn copy_to(&self, at: usize, other: &mut Request)
        requires { at < length self.now.requests }
        ensures { slice_get self.now.requests at ≡ Some other.new }
    {
        self.kept.get(at).copy_to(&self.keys, &self.names, other);
    }
}

impl Past<Request> {
    /// The requests.
    pub fn requests(&self) -> &[Request]
        ensures { result.now ≡ self.now.requests }
    {
        self.kept.as_slice()
    }
}

/// As it stands beside a request.
fn behind(earlier: Option<usize>) -> u32
    requires { IfSome earlier (λ place. place + 1 < 2 ^ 32) }
    ensures { place_before result ≡ earlier }
{
    match earlier {
        Some(place) => place as u32 + 1,
        None => 0,
    }
}

fn place_of(behind: u32) -> Option<usize>
    ensures { result ≡ place_before behind }
{
    (behind as usize).checked_sub(1)
}
