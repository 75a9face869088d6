//! The items of a batch.
ghost use Rattle.std.specs.Prelude.{◌≡◌, Some};
ghost use Rattle.mds_batch.specs.Items.{item_fault_text, item_fault_word};

use crate::Member;
use mds_core::{Event, Key};
use std::error::Error;
use std::fmt;

/// What is wrong with an item: the first that holds, in this order, and of its members the first that is at fault.
#[derive(Clone, Copy, Debug, PartialEq, Eq)]
pub enum ItemFault {
    /// The item isn't an object.
    NotObject,
    /// This member isn't there.
    Missing(Member),
    /// The value of this member hasn't the form that is asked for.
    Bad(Member),
}

impl ItemFault {
    /// The word for the fault.
    pub fn word(self) -> &'static str
        ensures { result.now ≡ item_fault_word self }
    {
        match self {
            ItemFault::NotObject => "not_object",
            ItemFault::Missing(_) => "missing_param",
            ItemFault::Bad(_) => "bad_param",
        }
    }
}

/// As the word, and the name of the member that is at fault, with a space between.
impl fmt::Display for ItemFault {
    ghost output = { λ fault. Some (item_fault_text fault) };

    fn fmt<W: fmt::Write>(&self, f: &mut fmt::Formatter<W>) -> fmt::Result {
        let word = self.word();
        match self {
            ItemFault::NotObject => f.write_str(word),
            ItemFault::Missing(member) | ItemFault::Bad(member) => write!(f, "{word} {member}"),
        }
    }
}

impl Error for ItemFault {}

/// An item of a batch of registrations.
#[derive(Clone, Copy, Debug, PartialEq, Eq)]
pub enum VehicleItem {
    /// The vehicle to register.
    Vehicle(Key),
    /// What is wrong with the item.
    Fault(ItemFault),
}

/// An item of a batch of events. It holds no memory of its own.
#[derive(Clone, Copy, Debug, PartialEq, Eq)]
pub enum EventItem {
    /// The event that is reported.
    Event(Event),
    /// What is wrong with the item.
    Fault(ItemFault),
}

/// An item of a batch: something may be wrong with it.
pub trait BatchItem {
    ghost use Rattle.std.specs.Prelude.{◌≡◌, Option};
    ghost use Rattle.mds_batch.specs.declared.item.ItemFault.{ItemFault as Wrong};

    /// What is wrong with an item, if anything is.
    ghost wrong: { Self → Option Wrong };

    /// What is wrong with the item, or `None` where it asks for a request.
    fn fault(&self) -> Option<ItemFault>
        ensures { result ≡ wrong self.now };
}

impl BatchItem for VehicleItem {
    ghost use Rattle.mds_batch.specs.Asking.{vehicle_fault};

    ghost wrong = { vehicle_fault };

    fn fault(&self) -> Option<ItemFault> {
        match self {
            VehicleItem::Vehicle(_) => None,
            VehicleItem::Fault(fault) => Some(*fault),
        }
    }
}

impl BatchItem for EventItem {
    ghost use Rattle.mds_batch.specs.Asking.{event_fault};

    ghost wrong = { event_fault };

    fn fault(&self) -> Option<ItemFault> {
        match self {
            EventItem::Event(_) => None,
            EventItem::Fault(fault) => Some(*fault),
        }
    }
}
