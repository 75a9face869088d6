//! The types of an event, as it keeps them.
ghost use Rattle.std.specs.Prelude.{◌≡◌, ◌≤◌, length, nat_eq};
ghost use Rattle.std.specs.Cmp.{partial_equiv_from_equiv};
ghost use Rattle.std.specs.Cmp.Lexicographic.{pointwise, pointwise_decides, bytes_decides, lists_equiv, nat_list_eq_equiv};
ghost use Rattle.mds_core.specs.Reported.{max_event_types};

use crate::MAX_EVENT_TYPES;
use mds_table::TypeName;
use std::fmt;
use std::marker::Model;

/// The types of an event, in their order: at most [`MAX_EVENT_TYPES`]. They are copied as a whole, not one by one.
#[derive(Clone, Copy)]
pub(crate) struct EventTypes {
    /// The types, then blanks.
    names: [TypeName; MAX_EVENT_TYPES],
    count: usize,
}

impl Model for EventTypes {
    ghost use Rattle.std.specs.Prelude.{List, ℕ, length as number, take};
    ghost use Rattle.mds_core.specs.EventTypes.{padded_types, ArePadded};

    ghost Value = { List (List ℕ) };

    ghost view = { λ types. take types.count types.names };

    ghost invariant = { λ types. ArePadded types.names types.count };

    ghost inverse = { λ types. record { names = padded_types types; count = number types } };

    ghost inverse_ok = { λ _ padded.
        λ i. record { names = padded.whole i; count = padded.count i } };
}

impl EventTypes {
    pub(crate) fn of(types: &[TypeName]) -> EventTypes
        requires { length types.now ≤ max_event_types }
        ensures { result ≡ types.now }
    {
        let mut names = [TypeName::default(); MAX_EVENT_TYPES];
        names[..types.len()].copy_from_slice(types);
        EventTypes {
            names,
            count: types.len(),
        }
    }

    /// Only the slots that hold a type, before or after, are written.
    pub(crate) fn assign(&mut self, types: &[TypeName])
        requires { length types.now ≤ max_event_types }
        ensures { self.new ≡ types.now }
    {
        self.names[..self.count].fill(TypeName::default());
        self.names[..types.len()].copy_from_slice(types);
        self.count = types.len();
    }

    pub(crate) fn as_slice(&self) -> &[TypeName]
        ensures types { result.now ≡ self.now }
        ensures few { length result.now ≤ max_event_types }
    {
        &self.names[..self.count]
    }
}

impl PartialEq for EventTypes {
    ghost eq = { pointwise (pointwise nat_eq) };

    ghost laws = { partial_equiv_from_equiv (lists_equiv nat_list_eq_equiv) };

    fn eq(&self, other: &EventTypes) -> bool {
        self.as_slice() == other.as_slice()
    }
}

impl Eq for EventTypes {
    ghost laws = { lists_equiv nat_list_eq_equiv };
}

/// As the list of the types.
impl fmt::Debug for EventTypes {
    fn fmt<W: fmt::Write>(&self, f: &mut fmt::Formatter<W>) -> fmt::Result {
        fmt::Debug::fmt(self.as_slice(), f)
    }
}
