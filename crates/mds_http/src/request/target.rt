//! The target of a request: its route, and the vehicle that it names (RFC 9110, section 7.1).
ghost use Rattle.std.specs.Prelude.{◌≡◌, ◌<◌, ◌==◌, Some};
ghost use Rattle.std.specs.List.{before_first, after_first};
ghost use Rattle.uuid.specs.Text.{parsed};
ghost use Rattle.mds_http.specs.Routes.{piece, key_in, aim_in};
ghost use Rattle.mds_http.specs.Plan.{method_for};

use crate::request::aim::Route;
use crate::{Aim, Face, Method};
use mds_core::Key;
use uuid::Uuid;

fn cut(text: &str, at: char) -> (&str, &str)
    requires { at < 128 }
    ensures before { result.0.now ≡ before_first (λ byte. byte == at) text.now }
    ensures after { result.1.now ≡ after_first (λ byte. byte == at) text.now }
{
    text.split_once(at).unwrap_or((text, ""))
}

fn uuid_of(text: &str) -> Option<Uuid>
    ensures { result ≡ parsed text.now }
{
    Uuid::try_parse(text).ok()
}

fn names_in(path: &str) -> (&str, &str)
    ensures third { result.0.now ≡ piece 2 path.now }
    ensures fourth { result.1.now ≡ piece 3 path.now }
{
    let (_, path) = cut(path, '/');
    let (_, path) = cut(path, '/');
    let (third, path) = cut(path, '/');
    let (fourth, _) = cut(path, '/');
    (third, fourth)
}

fn key_of(path: &str) -> Option<Key>
    ensures { result ≡ key_in path.now }
{
    let (provider, device) = names_in(path);
    let provider = uuid_of(provider)?;
    let device = uuid_of(device)?;
    Some(Key { provider, device })
}

pub(crate) fn aim_of(face: &Face, target: &str) -> Option<Aim<Key>>
    ensures { result ≡ aim_in target.now }
{
    let (path, _) = cut(target, '?');
    match face.route_of(path)? {
        Route::Vehicles => Some(Aim::Vehicles),
        Route::Events => Some(Aim::Events),
        Route::One(()) => Some(Aim::One(key_of(path)?)),
        Route::History(()) => Some(Aim::History(key_of(path)?)),
        Route::Rows => Some(Aim::Rows),
    }
}

pub(crate) fn method_of(aim: &Aim<Key>) -> Method
    ensures { result ≡ method_for (Some aim.now) }
{
    match aim {
        Aim::Vehicles | Aim::Events => Method::Post,
        Aim::One(_) | Aim::History(_) | Aim::Rows => Method::Get,
    }
}
