//! A roster: where each vehicle stands, in the order of registration, by requests that are judged one after another.
//!
//! A [`Roster`] accepts what the machine of `mds_core` answers by [`mds_core::Outcome::Done`]. Of what it accepted it keeps
//! where each vehicle stands and the names of the events; so its memory goes by these, and not by the bytes of a file.
ghost use Rattle.std.specs.Prelude.{◌≡◌, ◌<◌, ◌^◌, ◌∷◌, [], List, length, slice_get, IfOk, OnOk, OnErr, MatchBool};
ghost use Rattle.indexmap.specs.IndexSet.{insert_all};
ghost use Rattle.mds_table.specs.Tables.{Tables as TableList};
ghost use Rattle.mds_core.specs.declared.request.Request.{Request as Requested};
ghost use Rattle.mds_core.specs.History.{key_of, same_event, requests_of, reports};
ghost use Rattle.mds_core.specs.Known.{AreKnown};
ghost use Rattle.mds_known.specs.Kept.{AreSame};
ghost use Rattle.mds_commands.specs.Roster.{IsRosterOf, Accepts, Refuses, LacksRoom, PutsStanding, names_in, registered_in, standings_in};

use mds_core::{Key, Known, Outcome, Request, Standing, decide, standing_after};
use mds_known::KnownVehicles;
use mds_table::Tables;
use std::alloc::{AllocError, Global};
use std::hash::RandomState;

/// Where vehicles stand after requests that were accepted over some tables, and the names of their events. The requests
/// themselves are not kept. Contracts say of which tables and which history this is the roster.
#[derive(Debug)]
pub struct Roster {
    tables: Tables,
    known: KnownVehicles<Standing, RandomState>,
}

// By hand: crates above cite it.
impl Drop for Roster {
    fn drop(self) {
        let Roster {
            tables: _,
            known: _,
        } = self;
    }
}

impl Roster {
    /// A roster over the tables, with nothing accepted yet. It takes no memory. Its look-ups hash by `hasher`: where that is
    /// random, nobody can pick keys and identifiers that make them slow.
    pub fn open(alloc: Global, tables: Tables, hasher: RandomState) -> Roster
        ensures { IsRosterOf tables [] result }
    {
        Roster {
            tables,
            known: KnownVehicles::with_hasher(alloc, hasher),
        }
    }

    /// Judges one request, and goes on with it where it is accepted. It says whether it was.
    ///
    /// # Errors
    ///
    /// `AllocError` where the request would be accepted and there is no memory to go on with it; nothing has changed then.
    pub fn take(&mut self, request: &Request) -> Result<bool, AllocError>
        ensures taken { IfOk result (λ accepted. MatchBool accepted
            (Accepts request.now self.old self.new) (Refuses request.now self.old self.new)) }
        ensures memory { OnErr result (LacksRoom request.now self.old self.new) }
    {
        let (place, known) = self.known_of(request);
        match decide(&self.tables, &known, request) {
            Outcome::Done => {
                // Each accepted event has a name, so no vehicle has more events than there is room for names.
                let events = self.known.events();
                prove!(events < usize::MAX);
                let standing = standing_after(known.standing, request);
                keep(&mut self.known, place, request, standing)?;
                Ok(true)
            }
            Outcome::Seen(_) | Outcome::Refused(_) => Ok(false),
        }
    }

    /// What is known of the request's vehicle, and the vehicle's place, where it can be written without another look-up.
    fn known_of(&self, request: &Request) -> (Option<usize>, Known)
        ensures { (tables : TableList) (history : List Requested)
            → IsRosterOf tables history self.now
            → AreKnown (requests_of history (key_of request.now)) request.now result.1 }
    {
        let Some((place, standing)) = self.known.find(request.key()) else {
            let nothing = Known {
                standing: None,
                has_event: false,
            };
            return (None, nothing);
        };
        let has_event = match request.event() {
            Some(event) => self.known.has_event(place, event.id()),
            None => false,
        };
        let known = Known {
            standing: Some(*standing),
            has_event,
        };
        (Some(place), known)
    }

    /// The vehicle that was registered at this place of all, from 0, and where it stands.
    pub fn vehicle(&self, place: usize) -> Option<(Key, Standing)>
        ensures { (tables : TableList) (history : List Requested)
            → IsRosterOf tables history self.now → result ≡ slice_get (standings_in history) place }
    {
        match self.known.get_index(place) {
            Some((key, standing)) => Some((*key, *standing)),
            None => None,
        }
    }

    /// How many vehicles are registered.
    pub fn registrations(&self) -> usize
        ensures count { (tables : TableList) (history : List Requested)
            → IsRosterOf tables history self.now → result ≡ length (registered_in history) }
        ensures small { result < 2 ^ 63 }
    {
        self.known.len()
    }

    /// How many events were accepted.
    pub fn events(&self) -> usize
        ensures count { (tables : TableList) (history : List Requested)
            → IsRosterOf tables history self.now → result ≡ length (reports history) }
        ensures small { result < 2 ^ 63 }
    {
        self.known.events()
    }
}

fn keep(
    known: &mut KnownVehicles<Standing, RandomState>,
    place: Option<usize>,
    request: &Request,
    standing: Standing,
) -> Result<(), AllocError>
    ensures vehicles { OnOk result
        (PutsStanding (key_of request.now) standing known.old.entries known.new.entries) }
    ensures names { OnOk result
        (known.new.names ≡ insert_all same_event known.old.names (names_in (request.now ∷ []))) }
    ensures unchanged { OnErr result (AreSame known.old known.new) }
{
    // With room for the name first, nothing is kept of a request for which there is no memory.
    known.reserve_event()?;
    let place = known.put(place, request.key(), standing)?;
    if let Some(event) = request.event() {
        known.add_event(place, event.id())?;
    }
    Ok(())
}
