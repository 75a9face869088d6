//! Groups of lines that are added to a file.
ghost use Rattle.std.specs.Prelude.{◌≡◌, ◌≢◌, ◌++◌, ◌+◌, ◌<◌, ◌≤◌, ◌↔◌, [], length};
ghost use Rattle.std.specs.Prelude.{IsErrOf, OnOk, IfErr, Err};
ghost use Rattle.mds_journal.specs.Device.{LeavesOnly};
ghost use Rattle.mds_journal.specs.Lines.{recovered_texts, open_lines, at_rest};
ghost use Rattle.mds_journal.specs.Journal.{IsSound, IsLost, MayGoOn, StandsFor, IsBeforeOrAfter};
ghost use Rattle.mds_journal.specs.Journal.{HasFailed, IsNotWritten, IsUnknown, IsRefusal};

use crate::group::OPEN_GATE;
use crate::step::{Step, write_and_sync};
use crate::{Device, DeviceError, Group};

/// The most bytes of a file's lines, 2^62.
pub(crate) const MAX_BYTES: usize = 1 << 62;

/// Why a group isn't known to be in the file.
#[derive(Clone, Copy, Debug, PartialEq, Eq)]
pub enum AppendError {
    /// It is not: the write behind the closed gate failed. The journal may go on.
    NotWritten(DeviceError),
    /// It is not: the lines would be more than 2^62 bytes. Nothing was done.
    Full,
    /// It may be or not, since a sync failed or the write of the gate: the file must be opened again.
    Unknown(DeviceError),
    /// It is not, since an earlier call answered `Unknown`. Nothing was done.
    Lost,
}

/// A file of lines that more can be added to.
#[derive(Drop)]
pub struct Journal<D: Device> {
    /// The file.
    pub device: D,
    pub(crate) end: usize,
    /// Up to where bytes were written ahead. Nothing rests on it.
    pub(crate) room: usize,
    pub(crate) is_lost: bool,
}

impl<D: Device> Journal<D> {
    /// Adds a group. At `Ok` it is acknowledged: from then on each crash leaves a file that has it.
    ///
    /// After a sync that failed the journal asks nothing more of its device. It may still be called, and answers `Lost`.
    ///
    /// # Errors
    ///
    /// `NotWritten` where the write behind the closed gate failed, `Full` where the lines would be too long: then the
    /// same lines are there as before. `Unknown` where a sync failed or the write of the gate: then the file has the
    /// group or not, and each crash leaves one or the other. `Lost` where an earlier call answered `Unknown`.
    pub fn append(&mut self, group: &Group) -> Result<(), AppendError>
        requires { IsSound D.seen D.may_leave D.may_be_used D.is_true self.old }

        ensures sound { IsSound D.seen D.may_leave D.may_be_used D.is_true self.new }
        ensures acknowledged { OnOk result (MayGoOn self.new × (D.is_true self.new.device
            → StandsFor D.seen D.may_leave (recovered_texts (D.seen self.old.device) ++ group.now)
            self.new.device)) }

        // A crash at any moment of the call leaves the lines from before it, or those with the whole group.
        ensures any_moment { MayGoOn self.old → D.is_true self.new.device
            → LeavesOnly D.moment D.left_since self.old.device self.new.device
            (IsBeforeOrAfter (recovered_texts (D.seen self.old.device)) group.now) }

        // After a write that failed the same lines are there, and the journal may go on.
        ensures not_written { IfErr result (λ error. IsNotWritten error
            → MayGoOn self.new
            × (D.is_true self.new.device
            → StandsFor D.seen D.may_leave
            (recovered_texts (D.seen self.old.device)) self.new.device)) }
        ensures unknown { IfErr result (λ error. IsUnknown error → IsLost self.new) }
        ensures refused { IfErr result (λ error. IsRefusal error → self.new ≡ self.old) }

        // It doesn't give up by itself.
        ensures failed { IfErr result (λ error. HasFailed error
            → D.faults self.old.device < D.faults self.new.device) }
        ensures full { IsErrOf result AppendError.Full → D.is_true self.new.device
            → MAX_BYTES < length (open_lines (recovered_texts (D.seen self.old.device)))
            + length (at_rest group.now) }
        ensures lost { (result ≡ Err AppendError.Lost) ↔ IsLost self.old }

        ensures was_true { D.is_true self.new.device → D.is_true self.old.device }
    {
        if self.is_lost {
            return Err(AppendError::Lost);
        }
        if group.is_empty() {
            return Ok(());
        }
        let bytes = group.bytes();
        if self.end > MAX_BYTES - bytes.len() {
            return Err(AppendError::Full);
        }
        self.make_room(bytes.len());
        self.put(group)
    }

    /// Only `NotWritten` and `Unknown` come.
    fn put(&mut self, group: &Group) -> Result<(), AppendError>
        requires sound { IsSound D.seen D.may_leave D.may_be_used D.is_true self.old }
        requires ready { MayGoOn self.old }
        requires some { group.now ≢ [] }
        requires fits { self.old.end + length (at_rest group.now) ≤ MAX_BYTES }

        ensures sound { IsSound D.seen D.may_leave D.may_be_used D.is_true self.new }
        ensures acknowledged { OnOk result (MayGoOn self.new × (D.is_true self.new.device
            → StandsFor D.seen D.may_leave (recovered_texts (D.seen self.old.device) ++ group.now)
            self.new.device)) }
        ensures any_moment { D.is_true self.new.device
            → LeavesOnly D.moment D.left_since self.old.device self.new.device
            (IsBeforeOrAfter (recovered_texts (D.seen self.old.device)) group.now) }
        ensures not_written { IfErr result (λ error. IsNotWritten error
            → MayGoOn self.new
            × (D.is_true self.new.device
            → StandsFor D.seen D.may_leave
            (recovered_texts (D.seen self.old.device)) self.new.device)) }
        ensures unknown { IfErr result (λ error. IsUnknown error → IsLost self.new) }
        ensures refused { IfErr result (λ error. IsRefusal error → ⊥) }
        ensures later { D.faults self.old.device ≤ D.faults self.new.device }
        ensures failed { IfErr result (λ error. HasFailed error
            → D.faults self.old.device < D.faults self.new.device) }
        ensures was_true { D.is_true self.new.device → D.is_true self.old.device }
    {
        let bytes = group.bytes();
        match write_and_sync(&mut self.device, self.end + 1, &bytes[1..]) {
            Step::Done => {}
            Step::NotWritten(error) => return Err(AppendError::NotWritten(error)),
            Step::NotSynced(error) => {
                self.is_lost = true;
                return Err(AppendError::Unknown(error));
            }
        }
        match write_and_sync(&mut self.device, self.end, &[OPEN_GATE]) {
            Step::Done => {
                self.end += bytes.len() - 1;
                Ok(())
            }
            Step::NotWritten(error) => {
                self.is_lost = true;
                Err(AppendError::Unknown(error))
            }
            Step::NotSynced(error) => {
                self.is_lost = true;
                Err(AppendError::Unknown(error))
            }
        }
    }
}
