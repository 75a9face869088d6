//! What the items of a batch ask for.
use crate::VehicleItem;
use mds_core::Request;

/// The items of a batch, in their order: each asks for a request, or something is wrong with it.
pub trait BatchItems {
    ghost use Rattle.std.specs.Prelude.{◌≡◌, ◌<◌, List, length, slice_get, Option, Some, None, cond};
    ghost use Rattle.mds_core.specs.declared.request.Request.{Request as Asked};

    /// One of the items.
    type Item;

    /// The items.
    ghost items: { Self → List Self.Item };

    /// The request that an item asks for; none where something is wrong with it.
    ghost asked: { Self.Item → Option Asked };

    /// How many items there are.
    fn count(&self) -> usize
        ensures { result ≡ length (items self.now) };

    /// Makes the request that the item at this place asks for, in the place of another one, and answers whether it asks for
    /// one: it doesn't where something is wrong with it. Of an event only what it has of its own is written.
    fn ask(&self, at: usize, request: &mut Request) -> bool
        requires { at < length (items self.now) }
        ensures { (item : Self.Item) × (slice_get (items self.now) at ≡ Some item)
            × (asked item ≡ cond result (Some request.new) None) };
}

impl BatchItems for Vec<VehicleItem> {
    ghost use Rattle.mds_batch.specs.Asking.{registration_of};

    type Item = VehicleItem;

    ghost items = { λ vehicles. vehicles.items };

    ghost asked = { registration_of };

    fn count(&self) -> usize {
        self.len()
    }

    fn ask(&self, at: usize, request: &mut Request) -> bool {
        match self[at] {
            VehicleItem::Vehicle(key) => {
                *request = Request::Register(key);
                true
            }
            VehicleItem::Fault(_) => false,
        }
    }
}
