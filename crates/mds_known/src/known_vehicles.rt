//! What is known of vehicles, looked up by key or by place.
ghost use Rattle.std.specs.Prelude.{◌≡◌, ℕ, ◌<◌, ◌≤◌, ◌^◌, [], ◌∷◌, ◌++◌, Some, false, length, not, slice_get, if◌then◌else◌, IsOk, IfOk, IfSome, OnOk, OnErr, option_map};
ghost use Rattle.std.specs.List.{list_any, IsDistinct};
ghost use Rattle.std.specs.Map.{keys_of};
ghost use Rattle.std.specs.Map.Iter.{ShowsInOrder, ShowsInReverse, ShowsValuesInOrder, deref_pair};
ghost use Rattle.indexmap.specs.IndexMap.{insert_entry};
ghost use Rattle.mds_core.specs.History.{same_key, same_event};
ghost use Rattle.mds_core.specs.declared.key.Key.{Key as Vehicle};
ghost use Rattle.mds_known.specs.Kept.{value_of, OfName, PutsValue, AreSame};

use crate::own_name::OwnName;
use indexmap::map::Iter;
use indexmap::{IndexMap, IndexSet};
use mds_core::Key;
use std::alloc::{AllocError, Global};
use std::hash::{BuildHasher, BuildHasherDefault, FoldHasher};
use std::marker::Model;
use uuid::Uuid;

/// The last place that a vehicle may have.
const MAX_PLACE: usize = u32::MAX as usize;

/// A value for each vehicle, in the order in which the vehicles came, and the names of their events, in theirs.
///
/// Each vehicle has a place, the first one 0, and keeps it. A name is kept by its vehicle's place, so it takes 20 bytes, and
/// the key of a vehicle whose place is known isn't looked up again.
///
/// Contracts see the values by key, the names, and for how many further names there is memory for certain.
#[derive(Debug)]
pub struct KnownVehicles<V, S: BuildHasher = BuildHasherDefault<FoldHasher>> {
    vehicles: IndexMap<Key, V, S>,
    names: IndexSet<OwnName, S>,
}

// By hand: crates above cite it.
impl<V: Drop, S: BuildHasher + Drop> Drop for KnownVehicles<V, S> {
    fn drop(self) {
        let KnownVehicles {
            vehicles: _,
            names: _,
        } = self;
    }
}

impl<V, S: BuildHasher> Model for KnownVehicles<V, S> {
    ghost use Rattle.std.specs.Prelude.{map};
    ghost use Rattle.indexmap.specs.IndexMap.{keys};
    ghost use Rattle.indexmap.specs.IndexSet.{spare};
    ghost use Rattle.mds_known.specs.Kept.{KeptVehicles, AreOwn, name_at};

    ghost Value = { KeptVehicles V };

    ghost view = { λ known. record {
      entries = known.vehicles.entries;
      names = map (name_at (keys known.vehicles)) known.names.keys;
      room = spare known.names;
    } };

    ghost invariant = { λ known. AreOwn (keys known.vehicles) known.names.keys };
}

impl<V> KnownVehicles<V> {
    /// Nothing is known yet. It takes no memory.
    pub fn new(alloc: Global) -> KnownVehicles<V>
        ensures vehicles { result.entries ≡ [] }
        ensures names { result.names ≡ [] }
    {
        KnownVehicles {
            vehicles: IndexMap::new(alloc),
            names: IndexSet::new(alloc),
        }
    }
}

impl<V, S: BuildHasher + Copy> KnownVehicles<V, S> {
    /// As [`KnownVehicles::new`], with look-ups that hash by `hasher`: where that is random, nobody can pick keys and
    /// identifiers that make them slow.
    pub fn with_hasher(alloc: Global, hasher: S) -> KnownVehicles<V, S>
        ensures vehicles { result.entries ≡ [] }
        ensures names { result.names ≡ [] }
    {
        KnownVehicles {
            vehicles: IndexMap::with_hasher(alloc, hasher),
            names: IndexSet::with_hasher(alloc, hasher),
        }
    }
}

impl<V, S: BuildHasher> KnownVehicles<V, S> {
    /// The place of the vehicle and what is kept of it, or `None` where nothing is. It's one look-up.
    pub fn find(&self, key: &Key) -> Option<(usize, &V)>
        ensures value { option_map (λ found. found.1.now) result ≡ value_of self.now.entries key.now }
        ensures place { IfSome result (λ found.
            slice_get self.now.entries found.0 ≡ Some (key.now, found.1.now)) }
    {
        let (place, _, value) = self.vehicles.get_full(key)?;
        Some((place, value))
    }

    /// The vehicle at this place and what is kept of it; `None` past the last.
    pub fn get_index(&self, place: usize) -> Option<(&Key, &V)>
        ensures entry { option_map deref_pair result ≡ slice_get self.now.entries place }
        ensures value { IfSome result (λ entry.
            value_of self.now.entries entry.0.now ≡ Some entry.1.now) }
    {
        self.vehicles.get_index(place)
    }

    /// The vehicles and what is kept of each, in the order of their places.
    pub fn iter(&self) -> Iter<'_, Key, V>
        ensures rest { result ≡ self.now.entries }
        ensures len { length result ≡ length self.now.entries }
        ensures runs { ShowsInOrder (deref_pair {K = Vehicle} {X = V}) }
        ensures runs_back { ShowsInReverse (deref_pair {K = Vehicle} {X = V}) }
        ensures values_run { ShowsValuesInOrder (deref_pair {K = Vehicle} {X = V}) }
        ensures apart { IsDistinct same_key (keys_of self.now.entries) }
        ensures small { length self.now.entries < 2 ^ 63 }
    {
        self.vehicles.iter()
    }

    /// How many vehicles there are.
    pub fn len(&self) -> usize
        ensures len { result ≡ length self.now.entries }
        ensures apart { IsDistinct same_key (keys_of self.now.entries) }
        ensures few { result ≤ 2 ^ 32 }
    {
        self.vehicles.len()
    }

    /// How many names of events there are.
    pub fn events(&self) -> usize
        ensures count { result ≡ length self.now.names }
        ensures small { result < 2 ^ 63 }
    {
        self.names.len()
    }

    fn own_name(&self, place: usize, id: Uuid) -> OwnName
        requires { place < length self.now.entries }
        ensures { result ≡ record { vehicle = place; id = id } }
    {
        // With a field at hand the proof knows that a place has 32 bits.
        let _ = &self.vehicles;
        OwnName {
            vehicle: place as u32,
            id,
        }
    }

    /// Whether the name is there that an event of the vehicle at this place has by its identifier.
    pub fn has_event(&self, place: usize, id: Uuid) -> bool
        requires { place < length self.now.entries }
        ensures { OfName self.now.entries place id
            (λ name. result ≡ list_any (same_event name) self.now.names) }
    {
        let name = self.own_name(place, id);
        self.names.contains(&name)
    }

    /// Makes room for one name more.
    ///
    /// # Errors
    ///
    /// `AllocError` where there is no memory for it; the vehicles and names are as they were then.
    pub fn reserve_event(&mut self) -> Result<(), AllocError>
        ensures same { AreSame self.old self.new }
        ensures room { OnOk result (1 ≤ self.new.room) }
    {
        self.names.reserve(1)
    }

    /// Adds the name that an event of the vehicle at this place has by its identifier behind the others, and says whether
    /// it's new: where it isn't, the names stay. It's one look-up.
    ///
    /// # Errors
    ///
    /// `AllocError` where the name is new, there was no room for it, and there is no memory; the vehicles and names are as
    /// they were then.
    pub fn add_event(&mut self, place: usize, id: Uuid) -> Result<bool, AllocError>
        requires { place < length self.old.entries }
        ensures new { IfOk result (λ is_new. OfName self.old.entries place id
            (λ name. is_new ≡ not (list_any (same_event name) self.old.names))) }
        ensures names { IfOk result (λ is_new. OfName self.old.entries place id
            (λ name. self.new.names
            ≡ (if is_new then self.old.names ++ name ∷ [] else self.old.names))) }
        ensures entries { self.new.entries ≡ self.old.entries }
        ensures unchanged { OnErr result (AreSame self.old self.new) }
        ensures absent { OnErr result (OfName self.old.entries place id
            (λ name. list_any (same_event name) self.old.names ≡ false)) }
        ensures succeeds { 1 ≤ self.old.room → IsOk result }
    {
        let name = self.own_name(place, id);
        let Ok(is_new) = self.names.insert(name) else {
            return Err(AllocError);
        };
        Ok(is_new)
    }
}

impl<V: Drop, S: BuildHasher> KnownVehicles<V, S> {
    /// The place, where the vehicle stands there.
    fn own_place(&self, place: Option<usize>, key: &Key) -> Option<usize>
        ensures { IfSome result (λ at. (kept : V)
            × (slice_get self.now.entries at ≡ Some (key.now, kept))) }
    {
        let place = place?;
        let (kept, _) = self.vehicles.get_index(place)?;
        if kept == key { Some(place) } else { None }
    }

    /// Keeps the value of the vehicle, in place of the one that was kept of it, and answers the vehicle's place. A new
    /// vehicle comes behind the others. Where the vehicle stands at the place that is given, its key isn't looked up.
    ///
    /// # Errors
    ///
    /// `AllocError` where the vehicle is new and there is no memory for it, or there are 2^32 vehicles already; the
    /// vehicles and names are as they were then.
    pub fn put(&mut self, place: Option<usize>, key: &Key, value: V) -> Result<usize, AllocError>
        ensures entries { OnOk result
            (self.new.entries ≡ insert_entry same_key self.old.entries key.now value) }
        ensures puts { OnOk result (PutsValue key.now value self.old.entries self.new.entries) }
        ensures place { IfOk result (λ at. slice_get self.new.entries at ≡ Some (key.now, value)) }
        ensures names { self.new.names ≡ self.old.names }
        ensures room { self.new.room ≡ self.old.room }
        ensures unchanged { OnErr result (AreSame self.old self.new) }
        ensures absent { OnErr result (value_of self.old.entries key.now ≡ None) }
    {
        if let Some(at) = self.own_place(place, key) {
            self.vehicles[at] = value;
            return Ok(at);
        }
        if self.vehicles.len() > MAX_PLACE && !self.vehicles.contains_key(key) {
            return Err(AllocError);
        }
        let Ok((at, _)) = self.vehicles.insert_full(*key, value) else {
            return Err(AllocError);
        };
        Ok(at)
    }
}
