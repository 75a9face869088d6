//! Cuts: of vehicles that are named the first events alone stay.
ghost use Rattle.std.specs.Prelude.{◌≡◌, ◌≢◌, ◌<◌, [], ◌∷◌, ◌++◌, List, Bool, None, length, nat_le, IfOk, OnOk};
ghost use Rattle.mds_core.specs.declared.request.Request.{Request as Requested};
ghost use Rattle.mds_core.specs.History.{requests_of};

use indexmap::IndexMap;
use mds_core::{Key, Request};
use std::alloc::{AllocError, Global};
use std::hash::RandomState;

/// Of a vehicle's events so many stay, the first ones.
#[derive(Clone, Copy, Debug, PartialEq, Eq)]
pub struct Cut {
    /// The vehicle.
    pub key: Key,
    /// How many of its events stay.
    pub events: usize,
}

/// What is kept of a vehicle of which events are cut.
#[derive(Clone, Copy, Debug)]
pub struct Front {
    /// How many of its events stay.
    most: usize,
    /// How many requests about it came.
    requests: usize,
    /// How many of them report an event.
    events: usize,
}

impl Front {
    ghost use Rattle.mds_compact.specs.Cutting.{front_at};

    /// Whether the vehicle's next request stays.
    fn next_mark(&mut self, request: &Request) -> bool
        ensures mark { result ≡ nat_le self.old.requests self.old.most }
        ensures front { (requests : List Requested) → length requests < usize.MAX
            → self.old ≡ front_at requests self.old.most
            → self.new ≡ front_at (requests ++ request.now ∷ []) self.old.most }
    {
        let mark = self.requests <= self.most;
        self.requests = self.requests.saturating_add(1);
        if request.event().is_some() {
            self.events = self.events.saturating_add(1);
        }
        mark
    }
}

/// A pass over a history that tells of each request whether it stays: of each vehicle that cuts name its registration and its
/// first events, of every other all. Contracts say which cuts these are, and which marks it has told of which requests.
#[derive(Debug, Drop)]
pub struct Cutting {
    fronts: IndexMap<Key, Front, RandomState>,
}

impl Cutting {
    ghost use Rattle.mds_compact.specs.declared.cutting.Cut.{Cut as OneCut};
    ghost use Rattle.mds_compact.specs.Cutting.{IsCuttingOf, events_in, most_events};

    /// The pass by these cuts. Where several name one vehicle, the one holds that leaves the fewest events. Its look-ups hash by
    /// `hasher`, as those of a [`Survey`](crate::Survey).
    ///
    /// # Errors
    ///
    /// `AllocError` where there is no memory for the cuts.
    pub fn open(alloc: Global, cuts: &[Cut], hasher: RandomState) -> Result<Cutting, AllocError>
        ensures { IfOk result (IsCuttingOf cuts.now [] []) }
    {
        let mut cutting = Cutting {
            fronts: IndexMap::with_hasher(alloc, hasher),
        };
        for cut in cuts {
            cutting.add(cut)?;
        }
        Ok(cutting)
    }

    /// Takes one cut more, before the first request.
    fn add(&mut self, cut: &Cut) -> Result<(), AllocError>
        ensures { OnOk result ((cuts : List OneCut) → IsCuttingOf cuts [] [] self.old
            → IsCuttingOf (cuts ++ cut.now ∷ []) [] [] self.new) }
    {
        if let Some(front) = self.fronts.get_mut(&cut.key) {
            front.most = front.most.min(cut.events);
            return Ok(());
        }
        let front = Front {
            most: cut.events,
            requests: 0,
            events: 0,
        };
        let Ok(_) = self.fronts.insert(cut.key, front) else {
            return Err(AllocError);
        };
        Ok(())
    }

    /// Whether the next request of the history stays.
    pub fn next_mark(&mut self, request: &Request) -> bool
        ensures { (cuts : List OneCut) (old : List Requested) (marks : List Bool)
            → length old < usize.MAX → IsCuttingOf cuts old marks self.old
            → IsCuttingOf cuts (old ++ request.now ∷ []) (marks ++ result ∷ []) self.new }
    {
        match self.fronts.get_mut(request.key()) {
            Some(front) => front.next_mark(request),
            None => true,
        }
    }

    /// How many events of a vehicle came, of those that stay and those that don't; or `None` where no request was about it. The
    /// vehicle has to be one that a cut names.
    pub fn events_of(&self, key: &Key) -> Option<usize>
        ensures { (cuts : List OneCut) (old : List Requested) (marks : List Bool)
            → IsCuttingOf cuts old marks self.now → most_events cuts key.now ≢ None
            → result ≡ events_in (requests_of old key.now) }
    {
        let front = self.fronts.get(key)?;
        if front.requests == 0 {
            return None;
        }
        Some(front.events)
    }
}
