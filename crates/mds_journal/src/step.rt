//! A write that is put on the disk.
ghost use Rattle.std.specs.Prelude.{◌≡◌, ◌<◌, ◌≤◌, length};
ghost use Rattle.mds_journal.specs.Device.{Only, Follows, Torn, TornFrom, Holds};
ghost use Rattle.mds_journal.specs.Device.{LeavesOnly, Reaches};
ghost use Rattle.mds_journal.specs.Step.{IfDone, IfNotWritten, UnlessNotSynced, IfFailed};

use crate::{Device, DeviceError};

/// What a write that is to be synced came to.
#[derive(Clone, Copy, Debug, PartialEq, Eq)]
pub(crate) enum Step {
    /// It is on the disk.
    Done,
    /// The write failed, and no sync was asked for.
    NotWritten(DeviceError),
    /// The sync failed.
    NotSynced(DeviceError),
}

/// Writes, and syncs if that was done.
pub(crate) fn write_and_sync<D: Device>(device: &mut D, at: usize, bytes: &[u8]) -> Step
    requires usable { D.may_be_used device.old }
    requires within { D.is_true device.old → at ≤ length (D.seen device.old) }
    requires reaches { D.is_true device.old → Reaches at (D.may_leave device.old) }

    ensures written { IfDone result (D.is_true device.new
        → Holds (D.seen device.old) at bytes.now (D.seen device.new)) }
    ensures durable { IfDone result (D.is_true device.new
        → Only (D.seen device.new) (D.may_leave device.new)) }
    ensures torn { IfNotWritten result (D.is_true device.new
        → Torn at (length bytes.now) (D.seen device.old) (D.seen device.new)) }
    ensures crash { D.is_true device.new
        → Follows (Torn at (length bytes.now)) (D.may_leave device.old) (D.may_leave device.new) }

    // A crash at any moment of the call leaves an old outcome, with this one write torn.
    ensures any_moment { D.is_true device.new
        → LeavesOnly D.moment D.left_since device.old device.new
        (TornFrom at (length bytes.now) (D.may_leave device.old)) }

    ensures was_true { D.is_true device.new → D.is_true device.old }
    ensures usable { UnlessNotSynced result (D.may_be_used device.new) }
    ensures later { D.faults device.old ≤ D.faults device.new }
    ensures failed { IfFailed result (λ error. error ≡ DeviceError.Failed
        → D.faults device.old < D.faults device.new) }
{
    if let Err(error) = device.write_at(at, bytes) {
        return Step::NotWritten(error);
    }
    if let Err(error) = device.sync() {
        return Step::NotSynced(error);
    }
    Step::Done
}
