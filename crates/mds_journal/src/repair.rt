//! The end of a file, which is repaired once its lines are read.
ghost use Rattle.std.specs.Prelude.{◌≡◌, ◌<◌, ◌≤◌, ◌^◌, [], OnOk, IfOk, IfErr, IsErrOf};
ghost use Rattle.mds_journal.specs.Device.{Only, LeavesOnly, Untouched};
ghost use Rattle.mds_journal.specs.Lines.{recovered_texts, at_rest};
ghost use Rattle.mds_journal.specs.Journal.{IsSound, MayGoOn, HasShortEnd};
ghost use Rattle.mds_journal.specs.Opening.{IsReading, IsReadToEnd, KeepsLines, unread_bytes};

use crate::group::CLOSED_GATE;
use crate::step::{Step, write_and_sync};
use crate::{Device, DeviceError, Journal, MAX_GROUP_BYTES, OpenError, Opening};

impl<D: Device> Opening<D> {
    /// Cuts off what stands behind the lines, and closes the end. More lines can be added then.
    ///
    /// It may be cut off itself, at any moment: the file stands for the same lines.
    ///
    /// # Errors
    ///
    /// `Damaged` where more stands behind the lines than a group that was cut off: nothing was written. `Device` where
    /// a call failed. The device comes back.
    pub fn finish(self) -> Result<Journal<D>, (OpenError, D)>
        requires reading { IsReading D.seen D.may_leave D.may_be_used D.is_true self }
        requires done { D.is_true self.device → recovered_texts (unread_bytes D.seen self) ≡ [] }
        ensures sound { IfOk result (IsSound D.seen D.may_leave D.may_be_used D.is_true) }
        ensures ready { IfOk result MayGoOn }
        ensures at_rest { IfOk result (λ journal. D.is_true journal.device
            → D.seen journal.device ≡ at_rest (recovered_texts (D.seen self.device))) }
        ensures durable { IfOk result (λ journal. D.is_true journal.device
            → Only (D.seen journal.device) (D.may_leave journal.device)) }

        // A crash at any moment leaves the same lines.
        ensures any_moment { IfOk result (λ journal. D.is_true journal.device
            → LeavesOnly D.moment D.left_since self.device journal.device
            (KeepsLines (D.seen self.device))) }
        ensures any_moment_err { IfErr result (λ error. D.is_true error.1
            → LeavesOnly D.moment D.left_since self.device error.1
            (KeepsLines (D.seen self.device))) }

        // No more is cut off than a group, and a file that a crash left isn't refused.
        ensures short { IfOk result (λ journal. D.is_true journal.device
            → HasShortEnd (D.seen self.device)) }
        ensures damaged { IfErr result (λ error. error.0 ≡ OpenError.Damaged → D.is_true error.1
            → HasShortEnd (D.seen self.device) → ⊥) }
        ensures untouched { IfErr result (λ error. error.0 ≡ OpenError.Damaged → D.is_true error.1
            → Untouched D.seen D.may_leave D.moment D.left_since self.device error.1) }
        ensures failed { IfErr result (λ error. error.0 ≡ OpenError.Device DeviceError.Failed
            → D.faults self.device < D.faults error.1) }
        ensures was_true { IfOk result (λ journal. D.is_true journal.device
            → D.is_true self.device) }
        ensures was_true_err { IfErr result (λ error. D.is_true error.1 → D.is_true self.device) }
    {
        let Opening {
            mut device,
            alloc: _alloc,
            longest: _longest,
            end,
            count: _count,
            bytes: _bytes,
            next: _next,
        } = self;
        let size = match device.size() {
            Ok(size) => size,
            Err(error) => return Err((OpenError::Device(error), device)),
        };
        if size > end + MAX_GROUP_BYTES {
            return Err((OpenError::Damaged, device));
        }
        match close_end(&mut device, end) {
            Ok(()) => Ok(Journal {
                device,
                end,
                room: end + 1,
                is_lost: false,
            }),
            Err(error) => Err((OpenError::Device(error), device)),
        }
    }
}

/// Cuts off what stands behind the lines, and writes a closed gate there.
fn close_end<D: Device>(device: &mut D, end: usize) -> Result<(), DeviceError>
    requires usable { D.may_be_used device.old }
    requires read { D.is_true device.old → IsReadToEnd D.seen D.may_leave end device.old }
    ensures at_rest { OnOk result (D.is_true device.new
        → D.seen device.new ≡ at_rest (recovered_texts (D.seen device.old))) }
    ensures durable { OnOk result (D.is_true device.new
        → Only (D.seen device.new) (D.may_leave device.new)) }
    ensures any_moment { D.is_true device.new
        → LeavesOnly D.moment D.left_since device.old device.new (KeepsLines (D.seen device.old)) }
    ensures was_true { D.is_true device.new → D.is_true device.old }
    ensures usable { OnOk result (D.may_be_used device.new) }
    ensures later { D.faults device.old ≤ D.faults device.new }
    ensures failed { IsErrOf result DeviceError.Failed
        → D.faults device.old < D.faults device.new }
{
    if let Err(error) = device.cut(end) {
        return Err(error);
    }
    // The cut has to be on the disk first: behind a gate that is torn open, what was there would count.
    if let Err(error) = device.sync() {
        return Err(error);
    }
    match write_and_sync(device, end, &[CLOSED_GATE]) {
        Step::Done => Ok(()),
        Step::NotWritten(error) => Err(error),
        Step::NotSynced(error) => Err(error),
    }
}
