//! Requests, packed.
ghost use Rattle.std.specs.Prelude.{◌≡◌, ◌+◌, ◌<◌, ◌≤◌, length};
ghost use Rattle.mds_core.specs.declared.request.Request.TheVariants.{Report};
ghost use Rattle.mds_core.specs.History.{key_at};
ghost use Rattle.mds_past.specs.Packed.{types_kept, event_told, IsEventKept};

use crate::form::KeptForm;
use crate::shared::{place_of_key, place_of_types};
use mds_core::{EventRef, Key, Position, Request};
use mds_table::{State, TypeName};
use uuid::Uuid;

/// What a request asks, and the state that an event leads to.
#[derive(Clone, Copy, Debug)]
enum Kind {
    Registration,
    Look,
    Event(State),
}

/// A request in 48 bytes. Its vehicle's key and the names of its types stand among those that all requests share.
// The fields stand in the order in which they take the least room.
#[derive(Clone, Copy, Debug)]
pub struct PackedRequest {
    time: u64,
    id: Uuid,
    position: Option<Position>,
    /// The place of the first of its types.
    first: u32,
    /// The place of its vehicle's key.
    key: u32,
    kind: Kind,
    /// The number of its types.
    count: u8,
}

impl PackedRequest {
    /// A request that is no event.
    fn bare(kind: Kind, key: u32) -> PackedRequest
        ensures kind { result.kind ≡ kind }
        ensures key { result.key ≡ key }
    {
        PackedRequest {
            time: 0,
            id: Uuid::nil(),
            position: None,
            first: 0,
            key,
            kind,
            count: 0,
        }
    }

    fn key_among<'a>(&self, keys: &'a [Key]) -> &'a Key
        requires { self.now.key < length keys.now }
        ensures { result.now ≡ key_at keys.now self.now.key }
    {
        &keys[self.key as usize]
    }

    fn types_among<'a>(&self, names: &'a [TypeName]) -> &'a [TypeName]
        requires { self.now.first + self.now.count ≤ length names.now }
        ensures { result.now ≡ types_kept names.now self.now }
    {
        let first = self.first as usize;
        &names[first..first + self.count as usize]
    }

    /// The event of a request that reports one.
    fn event_of<'a>(&self, state: State, keys: &'a [Key], names: &'a [TypeName]) -> EventRef<'a>
        requires { IsEventKept self.now keys.now names.now }
        ensures { result ≡ event_told self.now state keys.now names.now }
    {
        EventRef::new(
            self.key_among(keys),
            self.id,
            state,
            self.types_among(names),
            self.time,
            self.position,
        )
    }
}

impl KeptForm for PackedRequest {
    ghost use Rattle.mds_past.specs.Packed.{packed_tells, IsPacked};
    ghost use Rattle.mds_past.specs.PackedLaws.{still_packed, same_request};

    ghost tells = { packed_tells };

    ghost is_kept = { IsPacked };

    ghost PIECE = { 65536 };

    const PIECE: usize = 1 << 16;

    fn put(
        request: &Request,
        number: usize,
        keys: &mut Vec<Key>,
        names: &mut Vec<TypeName>,
        starts: &mut Vec<usize>,
    ) -> PackedRequest {
        let key = place_of_key(request.key(), number, keys);
        match request {
            Request::Register(_) => PackedRequest::bare(Kind::Registration, key),
            Request::Look(_) => PackedRequest::bare(Kind::Look, key),
            Request::Report(event) => PackedRequest {
                time: event.time(),
                id: event.id(),
                position: event.position(),
                first: place_of_types(event.types(), names, starts),
                key,
                kind: Kind::Event(event.state()),
                count: event.types().len() as u8,
            },
        }
    }

    fn key<'a>(&'a self, keys: &'a [Key], _names: &[TypeName]) -> &'a Key {
        self.key_among(keys)
    }

    fn event<'a>(&'a self, keys: &'a [Key], names: &'a [TypeName]) -> Option<EventRef<'a>> {
        match self.kind {
            Kind::Event(state) => Some(self.event_of(state, keys, names)),
            Kind::Registration | Kind::Look => None,
        }
    }

    fn copy_to(&self, keys: &[Key], names: &[TypeName], other: &mut Request) {
        match self.kind {
            Kind::Registration => *other = Request::Register(*self.key_among(keys)),
            Kind::Look => *other = Request::Look(*self.key_among(keys)),
            Kind::Event(state) => put_event(&self.event_of(state, keys, names), other),
        }
    }

    ghost use Rattle.std.proofs.Common.{arith};

    ghost some = { Prim.omega arith };

    ghost stays = { still_packed };

    ghost same = { same_request };
}

fn put_event(event: &EventRef<'_>, other: &mut Request)
    ensures { other.new ≡ Report event.now }
{
    match other {
        Request::Report(before) => event.copy_to(before),
        _ => *other = Request::Report(event.copy()),
    }
}
