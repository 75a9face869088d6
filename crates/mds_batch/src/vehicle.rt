//! Registrations, read from an object's members.
ghost use Rattle.std.specs.Prelude.{◌≡◌, Some, IfOk, IfErr};
ghost use Rattle.serde_json.specs.Data.{Members, object};
ghost use Rattle.mds_batch.specs.Items.{fault_of, vehicle_members, IsKeyOf};
ghost use Rattle.mds_batch.specs.Filled.{HoldsVehicle};

use crate::form::read_uuid;
use crate::list::ItemFields;
use crate::slot::Slot;
use crate::tokens::{Fields, ReadFault, Tokens, pass};
use crate::{ItemFault, Member, VehicleItem};
use mds_core::Key;
use uuid::Uuid;

/// The members of a registration.
#[derive(Drop)]
pub(crate) struct VehicleFields {
    provider: Slot<Uuid>,
    device: Slot<Uuid>,
}

impl VehicleFields {
    pub(crate) fn key(&self) -> Result<Key, ItemFault>
        ensures key { (found : Members) → HoldsVehicle found self.now
            → IfOk result (IsKeyOf (object found)) }
        ensures fault { (found : Members) → HoldsVehicle found self.now
            → IfErr result (λ fault. fault_of vehicle_members (object found) ≡ Some fault) }
    {
        let provider = self.provider.require(Member::ProviderId)?;
        let device = self.device.require(Member::DeviceId)?;
        Ok(Key { provider, device })
    }
}

impl Fields for VehicleFields {
    ghost use Rattle.mds_batch.specs.Filled.{HoldsVehicle};

    ghost holds = { HoldsVehicle };

    fn take(&mut self, name: &str, tokens: &mut Tokens<'_>, depth: usize) -> Result<(), ReadFault> {
        if Member::ProviderId.is_named(name) {
            self.provider = Slot::of(read_uuid(tokens, depth)?);
        } else if Member::DeviceId.is_named(name) {
            self.device = Slot::of(read_uuid(tokens, depth)?);
        } else {
            pass(tokens, depth)?;
        }
        Ok(())
    }
}

impl ItemFields for VehicleFields {
    ghost use Rattle.mds_batch.specs.Items.{IsVehicleItem};

    type Item = VehicleItem;

    ghost is_item = { IsVehicleItem };

    fn new() -> VehicleFields {
        VehicleFields {
            provider: Slot::Absent,
            device: Slot::Absent,
        }
    }

    fn clear(&mut self) {
        *self = VehicleFields::new();
    }

    #[tactic(auto, unfolding(crate::specs::Items::IsVehicleItem))]
    fn fill(&self, item: &mut VehicleItem) {
        *item = match self.key() {
            Ok(key) => VehicleItem::Vehicle(key),
            Err(fault) => VehicleItem::Fault(fault),
        };
    }

    #[tactic(auto, unfolding(crate::specs::Items::IsVehicleItem))]
    fn no_object() -> VehicleItem {
        VehicleItem::Fault(ItemFault::NotObject)
    }
}
