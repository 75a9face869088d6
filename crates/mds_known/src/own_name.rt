//! The name of an event, by the place of its vehicle.
ghost use Rattle.std.specs.Prelude.{[], ◌∷◌, ◌++◌};
ghost use Rattle.std.specs.Hash as fed;
ghost use Rattle.std.specs.Cmp.Rules.{hashing};
ghost use Rattle.std.proofs.Common.{rules};

use std::hash::{Hash, Hasher};
use uuid::Uuid;

/// What names an event among all events, with its vehicle by the place at which it's kept: 20 bytes in place of the 48 of
/// an [`mds_core::EventName`].
#[derive(Clone, Copy, Debug, PartialEq, Eq)]
pub struct OwnName {
    /// The place of the vehicle.
    pub vehicle: u32,
    /// The identifier of the event.
    pub id: Uuid,
}

/// Feeds the place by one write and the identifier whole: a derive would feed the identifier byte by byte, at the greater
/// part of the cost of a look-up.
impl Hash for OwnName {
    ghost hash_input = { λ name. fed.u32 name.vehicle ++ name.id ∷ [] };

    ghost respects_eq = { Prim.search (hashing, rules) };

    fn hash<H: Hasher>(&self, state: &mut H) {
        state.write_u32(self.vehicle);
        state.write(self.id.as_bytes());
    }
}
