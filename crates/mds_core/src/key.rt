//! The key of a vehicle.
ghost use Rattle.std.specs.Prelude.{[], ◌∷◌};
ghost use Rattle.std.specs.Cmp.Rules.{hashing};
ghost use Rattle.std.proofs.Common.{rules};

use std::hash::{Hash, Hasher};
use uuid::Uuid;

/// The key of a vehicle: a device of a provider (MDS 2.0, `provider_id` and `device_id`).
#[derive(Clone, Copy, Debug, PartialEq, Eq, PartialOrd, Ord)]
pub struct Key {
    /// The provider that deploys the vehicle.
    pub provider: Uuid,
    /// The device on the vehicle, an identifier of the provider's choice.
    pub device: Uuid,
}

/// Feeds each identifier whole: a derive would feed it byte by byte, at the greater part of the cost of a look-up.
impl Hash for Key {
    ghost hash_input = { λ key. key.provider ∷ key.device ∷ [] };

    ghost respects_eq = { Prim.search (hashing, rules) };

    fn hash<H: Hasher>(&self, state: &mut H) {
        state.write(self.provider.as_bytes());
        state.write(self.device.as_bytes());
    }
}
