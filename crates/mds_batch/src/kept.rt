//! What is kept of the items of a batch of events, beside the names of their types.
ghost use Rattle.std.specs.Prelude.{◌≡◌, ◌+◌, ◌≤◌, ◌++◌, List, length, ℕ, IfOk};
ghost use Rattle.mds_batch.specs.Kept.{IsKept, item_in, types_at};

use crate::event::Told;
use crate::{BatchItem, EventItem, ItemFault};
use mds_core::Key;
use mds_table::TypeName;
use std::alloc::AllocError;

/// What is kept of an item of a batch of events, beside the names of its types.
#[derive(Clone, Copy, Debug)]
pub enum KeptItem {
    /// What is kept of an event.
    Event(KeptEvent),
    /// What is wrong with the item.
    Fault(ItemFault),
}

/// What is kept of an event, and which names are its types: those of a list from this one on, as many as it has.
#[derive(Clone, Copy, Debug)]
pub struct KeptEvent {
    told: Told,
    first: usize,
    count: usize,
}

impl KeptEvent {
    /// What the event says beside its types.
    pub(crate) fn told_fields(&self) -> Told
        ensures { result ≡ self.now.told }
    {
        self.told
    }

    /// Its vehicle.
    pub(crate) fn key(&self) -> &Key
        ensures { result.now ≡ self.now.told.key }
    {
        self.told.key()
    }

    /// Its types, of these names.
    pub(crate) fn types<'a>(&self, names: &'a [TypeName]) -> &'a [TypeName]
        requires { self.now.first + self.now.count ≤ length names.now }
        ensures { result.now ≡ types_at names.now self.now }
    {
        &names[self.first..self.first + self.count]
    }
}

impl KeptItem {
    /// What is kept of an item, whose types are put behind these names.
    ///
    /// # Errors
    ///
    /// `AllocError` where there is no memory for the names.
    pub(crate) fn of(names: &mut Vec<TypeName>, item: &EventItem) -> Result<KeptItem, AllocError>
        ensures kept { IfOk result (λ kept.
            IsKept names.new.items kept × (item_in names.new.items kept ≡ item.now)) }
        ensures grown { (more : List (List ℕ)) × (names.new.items ≡ names.old.items ++ more) }
    {
        match item {
            EventItem::Event(event) => {
                let (first, types) = (names.len(), event.types());
                names.extend_from_slice(types)?;
                Ok(KeptItem::Event(KeptEvent {
                    told: Told::of(event),
                    first,
                    count: types.len(),
                }))
            }
            EventItem::Fault(fault) => Ok(KeptItem::Fault(*fault)),
        }
    }
}

impl BatchItem for KeptItem {
    ghost use Rattle.mds_batch.specs.Asking.{kept_fault};

    ghost wrong = { kept_fault };

    fn fault(&self) -> Option<ItemFault> {
        match self {
            KeptItem::Event(_) => None,
            KeptItem::Fault(fault) => Some(*fault),
        }
    }
}
