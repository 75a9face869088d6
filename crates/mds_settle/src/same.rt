//! Whether two requests, or two replies, are the same.
ghost use Rattle.std.specs.Prelude.{◌≡◌, ◌↔◌, IsTrue};

use mds_core::{Event, Key, Outcome, Position, Reply, Request, Standing};
use mds_table::TypeName;

pub(crate) fn is_same_request(a: &Request, b: &Request) -> bool
    ensures { IsTrue result ↔ (a.now ≡ b.now) }
{
    match (a, b) {
        (Request::Register(a), Request::Register(b)) => a == b,
        (Request::Report(a), Request::Report(b)) => is_same_event(a, b),
        (Request::Look(a), Request::Look(b)) => a == b,
        _ => false,
    }
}

fn is_same_event(a: &Event, b: &Event) -> bool
    ensures { IsTrue result ↔ (a.now ≡ b.now) }
{
    let same_key = is_same_key(a.key(), b.key());
    let same_id = a.id() == b.id();
    let same_types = is_same_types(a.types(), b.types());
    let same_position = is_same_position(a.position(), b.position());
    if !same_key || !same_id || !same_types || !same_position {
        return false;
    }
    a.state() == b.state() && a.time() == b.time()
}

fn is_same_key(a: &Key, b: &Key) -> bool
    ensures { IsTrue result ↔ (a.now ≡ b.now) }
{
    a == b
}

fn is_same_types(a: &[TypeName], b: &[TypeName]) -> bool
    ensures { IsTrue result ↔ (a.now ≡ b.now) }
{
    a == b
}

fn is_same_position(a: Option<Position>, b: Option<Position>) -> bool
    ensures { IsTrue result ↔ (a ≡ b) }
{
    a == b
}

pub(crate) fn is_same_reply(a: &Reply, b: &Reply) -> bool
    ensures { IsTrue result ↔ (a.now ≡ b.now) }
{
    a.place == b.place && is_same_outcome(&a.outcome, &b.outcome)
}

fn is_same_outcome(a: &Outcome, b: &Outcome) -> bool
    ensures { IsTrue result ↔ (a.now ≡ b.now) }
{
    match (a, b) {
        (Outcome::Done, Outcome::Done) => true,
        (Outcome::Seen(a), Outcome::Seen(b)) => is_same_standing(a, b),
        (Outcome::Refused(a), Outcome::Refused(b)) => a == b,
        _ => false,
    }
}

fn is_same_standing(a: &Standing, b: &Standing) -> bool
    ensures { IsTrue result ↔ (a.now ≡ b.now) }
{
    a.state == b.state
        && a.events == b.events
        && a.last == b.last
        && is_same_position(a.position, b.position)
}
