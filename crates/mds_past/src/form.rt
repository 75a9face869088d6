//! How a request is kept.
ghost use Rattle.std.specs.Prelude.{◌≡◌, ◌≤◌, ◌++◌, List, ℕ};
ghost use Rattle.mds_core.specs.Reported.{max_event_types};
ghost use Rattle.mds_core.specs.History.{key_of, report_of};
ghost use Rattle.mds_core.specs.declared.key.Key.{Key as Told};
ghost use Rattle.mds_core.specs.declared.request.Request.{Request as Requested};
ghost use Rattle.mds_past.specs.Shared.{AddsBehind, HasRoom};

use mds_core::{EventRef, Key, Request};
use mds_table::TypeName;

/// How one request is kept, beside keys and names of types that all requests share.
///
/// Contracts see the request that is told by what is kept, `tells`, and that it is kept beside these keys and names, `is_kept`.
pub trait KeptForm: Copy {
    ghost tells: { Self → List Told → List (List ℕ) → Requested };

    ghost is_kept: { Self → List Told → List (List ℕ) → Type 0 };

    ghost PIECE: { ℕ };

    /// How many requests a piece of the list of them holds, at least 1.
    const PIECE: usize;

    /// Keeps a request. Its vehicle's key and the names of its types come behind the others, unless they stand there: the key at
    /// `number`, the names at one of the `starts`. Whatever these two say, the request is kept.
    fn put(
        request: &Request,
        number: usize,
        keys: &mut Vec<Key>,
        names: &mut Vec<TypeName>,
        starts: &mut Vec<usize>,
    ) -> Self
        requires { HasRoom keys.old names.old }
        ensures kept { is_kept result keys.new.items names.new.items }
        ensures told { tells result keys.new.items names.new.items ≡ request.now }
        ensures keys { AddsBehind 1 keys.old.items keys.new.items }
        ensures names { AddsBehind max_event_types names.old.items names.new.items };

    /// The vehicle that the request is about.
    fn key<'a>(&'a self, keys: &'a [Key], names: &[TypeName]) -> &'a Key
        requires { is_kept self.now keys.now names.now }
        ensures { result.now ≡ key_of (tells self.now keys.now names.now) };

    /// The event that the request reports, or `None` where it reports none.
    fn event<'a>(&'a self, keys: &'a [Key], names: &'a [TypeName]) -> Option<EventRef<'a>>
        requires { is_kept self.now keys.now names.now }
        ensures { result ≡ report_of (tells self.now keys.now names.now) };

    /// Puts a copy of the request in the place of another one. Of an event only what it has of its own is written.
    fn copy_to(&self, keys: &[Key], names: &[TypeName], other: &mut Request)
        requires { is_kept self.now keys.now names.now }
        ensures { other.new ≡ tells self.now keys.now names.now };

    ghost some: { 1 ≤ PIECE };

    ghost stays: { (kept : Self) (keys more_keys : List Told) (names more_names : List (List ℕ))
        → is_kept kept keys names → is_kept kept (keys ++ more_keys) (names ++ more_names) };

    ghost same: { (kept : Self) (keys more_keys : List Told) (names more_names : List (List ℕ))
        → is_kept kept keys names
        → tells kept (keys ++ more_keys) (names ++ more_names) ≡ tells kept keys names };
}

/// A request as it is. Nothing of it stands elsewhere, and all requests stand in one piece.
impl KeptForm for Request {
    ghost use Rattle.std.specs.Prelude.{refl};

    ghost tells = { λ kept _ _. kept };

    ghost is_kept = { λ _ _ _. Unit {0} };

    ghost PIECE = { 18446744073709551615 };

    const PIECE: usize = usize::MAX;

    fn put(
        request: &Request,
        _number: usize,
        _keys: &mut Vec<Key>,
        _names: &mut Vec<TypeName>,
        _starts: &mut Vec<usize>,
    ) -> Request {
        *request
    }

    fn key<'a>(&'a self, _keys: &'a [Key], _names: &[TypeName]) -> &'a Key {
        self.key()
    }

    fn event<'a>(&'a self, _keys: &'a [Key], _names: &'a [TypeName]) -> Option<EventRef<'a>> {
        match self {
            Request::Report(event) => Some(event.by_ref()),
            Request::Register(_) | Request::Look(_) => None,
        }
    }

    fn copy_to(&self, _keys: &[Key], _names: &[TypeName], other: &mut Request) {
        let Request::Report(event) = self else {
            *other = *self;
            return;
        };
        match other {
            Request::Report(before) => before.assign_from(event),
            _ => *other = *self,
        }
    }

    ghost use Rattle.std.proofs.Common.{arith};

    ghost some = { Prim.omega arith };

    ghost stays = { λ _ _ _ _ _ _. tt };

    ghost same = { λ _ _ _ _ _ _. refl };
}
