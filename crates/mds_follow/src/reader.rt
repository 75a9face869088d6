//! A journal that is read at a start.
ghost use Rattle.std.specs.Prelude.{◌≡◌, ◌≢◌, ◌⊎◌, ◌<◌, [], ◌∷◌, List, ℕ, IfOk, IfErr, IfSome, OnOk};
ghost use Rattle.mds_journal.specs.Device.{LeavesOnly};
ghost use Rattle.mds_journal.specs.Journal.{IsSound, MayGoOn};
ghost use Rattle.mds_journal.specs.Opening.{IsReading, KeepsLines, number_of, place_of, unread_bytes};
ghost use Rattle.mds_groups.specs.Stream.{HasTaken};
ghost use Rattle.mds_follow.specs.Disk.{StandsFrom};
ghost use Rattle.mds_follow.specs.End.{IsEndOf};
ghost use Rattle.mds_follow.specs.Reading.{HasForm, HasNoMore, HasTexts, IsAtFirstRequest, IsAtRequest, IsFormFault, IsJournalFault, IsNextGroup, IsNumbered, IsOpenFault, IsReadOn, KeepsOrBegins, StaysOrBegins, StopsBehind, left_of};

use crate::blank::with_form;
use crate::end::JournalEnd;
use crate::start_fault::{call_fault, group_fault, line_fault, of_journal};
use crate::{Disk, StartFault};
use mds_entries::EntryReader;
use mds_groups::{GroupStream, WholeGroup};
use mds_journal::{Device, Group, JournalFault, OpenError, Opening};
use mds_log::Tagged;
use mds_table::MAX_BYTES;
use std::alloc::{AllocError, Global};

/// A journal that is read at a start, one group after the other.
#[derive(Drop)]
pub struct RequestReader<D: Device> {
    pub(crate) opening: Opening<D>,
    pub(crate) alloc: Global,
    pub(crate) groups: GroupStream,
    line: Vec<u8>,
    group: Group,
}

impl<D: Device> Tagged for RequestReader<D> {
    ghost tag = { λ reader. D.moment reader.opening.device };
}

impl<D: Device> RequestReader<D> {
    /// Opens a journal: its first line names its form. A file that is empty becomes one first, and so does one that a crash left
    /// before the lines before its first group were whole.
    ///
    /// # Errors
    ///
    /// `Form` where the first line names no form, `TooLong` where it has too many bytes: the file is as it was.
    /// `Device` where a call of the device failed, `Memory`. The device comes back.
    pub fn open(alloc: Global, device: D) -> Result<RequestReader<D>, (StartFault, D)>
        requires { D.may_be_used device }
        ensures at_first { IfOk result (λ reader.
            IsAtFirstRequest D.seen D.may_leave D.may_be_used D.is_true reader) }
        ensures kept { IfOk result (λ reader. D.is_true reader.opening.device
            → StaysOrBegins (D.seen device) (D.seen reader.opening.device)) }
        // A crash at any moment leaves what one before might have left, or the same lines, or the form in a file that had none.
        ensures any_moment { D.is_true
            (left_of result (λ reader. reader.opening.device) (λ error. error.1))
            → LeavesOnly D.moment D.left_since device
            (left_of result (λ reader. reader.opening.device) (λ error. error.1))
            (λ c. D.may_leave device c ⊎ KeepsOrBegins (D.seen device) c) }
        ensures was_true { D.is_true
            (left_of result (λ reader. reader.opening.device) (λ error. error.1))
            → D.is_true device }
        ensures fault { IfErr result (λ error. D.is_true error.1
            → IsOpenFault (D.seen device) error.0) }
        ensures same { IfErr result (λ error. D.is_true error.1 → IsJournalFault error.0
            → D.seen error.1 ≡ D.seen device) }
    {
        let group = match Group::new(alloc) {
            Ok(group) => group,
            Err(AllocError) => return Err((StartFault::Memory, device)),
        };
        let device = match with_form(alloc, device) {
            Ok(device) => device,
            Err(error) => return Err(error),
        };
        let opening = match Opening::start(alloc, device, MAX_BYTES) {
            Ok(opening) => opening,
            Err((error, device)) => return Err((call_fault(error), device)),
        };
        let mut reader = RequestReader {
            opening,
            alloc,
            groups: GroupStream::new(alloc),
            line: Vec::new(alloc),
            group,
        };
        match reader.take_form() {
            Ok(()) => Ok(reader),
            Err(fault) => Err((fault, reader.into_device())),
        }
    }

    /// Takes the first line, which has to name a form.
    ///
    /// # Errors
    ///
    /// `Form` where it names none or there is none, `TooLong`; `Device` and `Memory`.
    fn take_form(&mut self) -> Result<(), StartFault>
        requires reading { IsAtRequest D.seen D.may_leave D.may_be_used D.is_true self.old.opening }
        requires none { (number_of self.old.opening ≡ 0) × HasTaken self.old.groups [] [] }
        ensures reading { IsAtRequest D.seen D.may_leave D.may_be_used D.is_true self.new.opening }
        ensures form { OnOk result (HasForm D.seen D.is_true
            (unread_bytes D.seen self.old.opening) self.new) }
        ensures fault { IfErr result (λ fault. D.is_true self.new.opening.device
            → IsFormFault (unread_bytes D.seen self.old.opening) fault) }
        ensures read_on { IsReadOn D.seen D.may_leave D.is_true D.moment D.left_since
            self.old.opening self.new.opening }
    {
        match self.opening.next_line(&mut self.line) {
            Ok(true) => {}
            Ok(false) => return Err(of_journal(JournalFault::Form)),
            Err(error) => return Err(line_fault(error, 0)),
        }
        match self.groups.take(0, &self.line) {
            Ok(_group) => {}
            Err(error) => return Err(group_fault(error)),
        }
        Ok(())
    }

    /// Reads the lines to the end of the next group, and hands it on. It says `None` where no more lines count.
    ///
    /// # Errors
    ///
    /// `Damaged` where a group isn't as it was written, `TooLong` where a line has too many bytes, `Device` and `Memory`.
    pub(crate) fn next_group(&mut self) -> Result<Option<WholeGroup>, StartFault>
        requires { IsAtRequest D.seen D.may_leave D.may_be_used D.is_true self.old.opening }
        ensures reading { IsAtRequest D.seen D.may_leave D.may_be_used D.is_true self.new.opening }
        ensures read_on { IsReadOn D.seen D.may_leave D.is_true D.moment D.left_since
            self.old.opening self.new.opening }
        ensures next { (before : List (List ℕ)) → HasTexts D.seen D.is_true self.old before
            → IsNextGroup D.seen D.is_true self.new before result }
        ensures few { IfOk result (λ next. IfSome next IsNumbered) }
        ensures further { IfOk result (λ next. IfSome next
            (λ _. place_of self.old.opening < place_of self.new.opening)) }
    {
        'lines: loop {
            let number = self.opening.number();
            match self.opening.next_line(&mut self.line) {
                Ok(true) => {}
                Ok(false) => return Ok(None),
                Err(error) => return Err(line_fault(error, number)),
            }
            match self.groups.take(number, &self.line) {
                Ok(Some(group)) => return Ok(Some(group)),
                Ok(None) => {}
                Err(error) => return Err(group_fault(error)),
            }
        }
    }

    /// What stands behind its lines, once they were all read.
    ///
    /// # Errors
    ///
    /// `Damaged` where the last group has no check, where more stands there than a crash leaves, or where a group counted once.
    /// `Device` where a call of the device failed, `Memory`.
    pub(crate) fn read_end(&mut self) -> Result<JournalEnd, StartFault>
        requires reading { IsAtRequest D.seen D.may_leave D.may_be_used D.is_true self.old.opening }
        requires done { D.is_true self.old.opening.device
            → HasNoMore (unread_bytes D.seen self.old.opening) }
        ensures reading { IsAtRequest D.seen D.may_leave D.may_be_used D.is_true self.new.opening }
        ensures done { D.is_true self.new.opening.device
            → HasNoMore (unread_bytes D.seen self.new.opening) }
        ensures read_on { IsReadOn D.seen D.may_leave D.is_true D.moment D.left_since
            self.old.opening self.new.opening }
        ensures texts { (texts : List (List ℕ)) → HasTexts D.seen D.is_true self.old texts
            → HasTexts D.seen D.is_true self.new texts }
        ensures end { IfOk result (λ end. D.is_true self.new.opening.device
            → (texts : List (List ℕ)) → HasTexts D.seen D.is_true self.old texts
            → IsEndOf (D.seen self.new.opening.device) texts end) }
        ensures fault { IfErr result (λ fault. D.is_true self.new.opening.device
            → (texts : List (List ℕ)) → HasTexts D.seen D.is_true self.old texts
            → StopsBehind (D.seen self.new.opening.device) texts fault) }
    {
        let number = self.opening.number();
        let form = match self.groups.finish(number) {
            Ok(form) => form,
            Err(fault) => return Err(StartFault::Journal(fault)),
        };
        match self.opening.rest() {
            Ok(bytes) => JournalEnd::of(self.alloc, form, number, bytes),
            Err(OpenError::Damaged) => Err(of_journal(JournalFault::Damaged)),
            Err(error) => Err(call_fault(error)),
        }
    }

    /// The journal, once all its lines were read, for more to be recorded in it. What stands behind its lines is cut off.
    ///
    /// # Errors
    ///
    /// `Damaged` where more stands there than a crash leaves, or where the last group has no check: the file is as it was. `Device`
    /// where a call of the device failed, `Memory`. The device comes back.
    pub(crate) fn into_disk(self) -> Result<Disk<D>, (StartFault, D)>
        requires reading { IsReading D.seen D.may_leave D.may_be_used D.is_true self.opening }
        requires done { D.is_true self.opening.device
            → HasNoMore (unread_bytes D.seen self.opening) }
        ensures sound { IfOk result (λ disk. MayGoOn disk.journal
            × IsSound D.seen D.may_leave D.may_be_used D.is_true disk.journal) }
        ensures stands { IfOk result (λ disk. D.is_true disk.journal.device
            → (texts : List (List ℕ)) → HasTexts D.seen D.is_true self texts
            → StandsFrom D.seen D.may_leave (D.seen self.opening.device) texts disk) }
        ensures any_moment { D.is_true
            (left_of result (λ disk. disk.journal.device) (λ error. error.1))
            → LeavesOnly D.moment D.left_since self.opening.device
            (left_of result (λ disk. disk.journal.device) (λ error. error.1))
            (KeepsLines (D.seen self.opening.device)) }
        ensures was_true { D.is_true
            (left_of result (λ disk. disk.journal.device) (λ error. error.1))
            → D.is_true self.opening.device }
        ensures fault { IfErr result (λ error. D.is_true error.1
            → (texts : List (List ℕ)) → HasTexts D.seen D.is_true self texts
            → StopsBehind (D.seen self.opening.device) texts error.0) }
        ensures same { IfErr result (λ error. D.is_true error.1 → IsJournalFault error.0
            → D.seen error.1 ≡ D.seen self.opening.device) }
        ensures other { IfErr result (λ error. error.0 ≢ StartFault.CutOff) }
    {
        let form = match self.groups.finish(self.opening.number()) {
            Ok(form) => form,
            Err(fault) => return Err((StartFault::Journal(fault), self.into_device())),
        };
        let RequestReader {
            opening,
            alloc,
            groups: _groups,
            line: _line,
            group,
        } = self;
        match opening.finish() {
            Ok(journal) => Ok(Disk {
                journal,
                form,
                reader: EntryReader::new(alloc),
                group,
            }),
            Err((OpenError::Damaged, device)) => Err((of_journal(JournalFault::Damaged), device)),
            Err((error, device)) => Err((call_fault(error), device)),
        }
    }

    /// The file, as it is.
    pub fn into_device(self) -> D
        ensures { result ≡ self.opening.device }
    {
        let RequestReader {
            opening,
            alloc: _alloc,
            groups: _groups,
            line: _line,
            group: _group,
        } = self;
        opening.into_device()
    }
}
