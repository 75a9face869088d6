//! What names an event among all events.
ghost use Rattle.std.specs.Prelude.{[], ◌∷◌};
ghost use Rattle.std.specs.Cmp.Rules.{hashing};
ghost use Rattle.std.proofs.Common.{rules};

use crate::Key;
use std::hash::{Hash, Hasher};
use uuid::Uuid;

/// What names an event among all events: its identifier is its vehicle's own, and another vehicle may have the same one.
#[derive(Clone, Copy, Debug, PartialEq, Eq)]
pub struct EventName {
    /// The vehicle.
    pub key: Key,
    /// The identifier of the event.
    pub id: Uuid,
}

/// Feeds each identifier whole, as the hash of a [`Key`] does.
impl Hash for EventName {
    ghost hash_input = { λ name. name.key.provider ∷ name.key.device ∷ name.id ∷ [] };

    ghost respects_eq = { Prim.search (hashing, rules) };

    fn hash<H: Hasher>(&self, state: &mut H) {
        self.key.hash(state);
        state.write(self.id.as_bytes());
    }
}
