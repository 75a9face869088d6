//! What the types of a request's members say of them. A line tells its request because of this.
//!
//! A clause of a type can't say it for what holds the type. So these functions read what they are given, and do nothing with it:
//! they are compiled away.
ghost use Rattle.std.specs.Prelude.{◌↔◌, ℕ, List, IsTrue, All};
ghost use Rattle.mds_table.specs.TypeName.{IsTypeName};
ghost use Rattle.mds_entries.specs.Whole.{AreUuidBytes, IsWholeKey, IsWholeEvent, IsPlace, IsWhole};
ghost use Rattle.mds_entries.specs.Entry.{Tells};

use mds_core::{Event, Key, Position, Request};
use mds_table::TypeName;

fn bytes_are_whole(bytes: &[u8; 16])
    ensures { AreUuidBytes bytes.now }
{
    'bytes: for i in 0..16 {
        let _ = bytes[i];
    }
}

fn key_is_whole(key: &Key)
    ensures { IsWholeKey key.now }
{
    bytes_are_whole(key.provider.as_bytes());
    bytes_are_whole(key.device.as_bytes());
}

fn names_are_whole(names: &[TypeName])
    ensures { All IsTypeName names.now }
{
    for name in names {
        let _ = name.as_bytes();
    }
}

fn is_on_earth(position: Option<Position>) -> bool
    ensures { IsTrue result ↔ IsPlace position }
{
    match position {
        Some(position) => Position::new(position.lat(), position.lng()).is_some(),
        None => true,
    }
}

fn is_whole_event(event: &Event) -> bool
    ensures whole { IsTrue result → IsWholeEvent event.now }
    ensures place { IsPlace event.now.position → IsTrue result }
{
    key_is_whole(event.key());
    bytes_are_whole(event.id().as_bytes());
    names_are_whole(event.types());
    let _ = event.time();
    is_on_earth(event.position())
}

/// Whether the line of a request tells it: always, save for an event whose position isn't on the Earth.
pub(crate) fn is_whole(request: &Request) -> bool
    ensures whole { IsTrue result → IsWhole request.now }
    ensures told { (line : List ℕ) → Tells line request.now → IsTrue result }
{
    match request {
        Request::Register(key) => {
            key_is_whole(key);
            true
        }
        Request::Report(event) => is_whole_event(event),
        Request::Look(_) => true,
    }
}
