//! The value of a member, as it was read.
ghost use Rattle.std.specs.Prelude.{◌≡◌, ◌⊎◌, Some, None, IfOk, IfErr};
ghost use Rattle.mds_batch.specs.declared.item.ItemFault.TheVariants.{Missing, Bad as bad};
ghost use Rattle.mds_batch.specs.Slot.{found_in};

use crate::{ItemFault, Member};

/// The value of a member: that of the last one of its name.
#[derive(Clone, Copy, Debug, PartialEq, Eq, Drop)]
pub(crate) enum Slot<T> {
    /// There is no such member.
    Absent,
    /// It hasn't the form that is asked for.
    Bad,
    /// It is this.
    Good(T),
}

impl<T: Copy> Slot<T> {
    pub(crate) fn of(value: Option<T>) -> Slot<T>
        ensures { found_in result ≡ Some value }
    {
        match value {
            Some(value) => Slot::Good(value),
            None => Slot::Bad,
        }
    }

    pub(crate) fn require(self, member: Member) -> Result<T, ItemFault>
        ensures value { IfOk result (λ value. found_in self ≡ Some (Some value)) }
        ensures fault { IfErr result (λ fault. ((found_in self ≡ None) × (fault ≡ Missing member))
            ⊎ ((found_in self ≡ Some None) × (fault ≡ bad member))) }
    {
        match self {
            Slot::Good(value) => Ok(value),
            Slot::Bad => Err(ItemFault::Bad(member)),
            Slot::Absent => Err(ItemFault::Missing(member)),
        }
    }
}
