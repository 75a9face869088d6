//! A journal of lines in which requests are recorded.
ghost use Rattle.std.specs.Prelude.{◌≡◌, ◌++◌, ◌∷◌, [], ℕ, List, All, OnOk, IfOk, IfErr};
ghost use Rattle.std.specs.List.{AllZip};
ghost use Rattle.mds_entries.specs.Entry.{Tells};
ghost use Rattle.mds_journal.specs.Device.{LeavesOnly};
ghost use Rattle.mds_journal.specs.Lines.{recovered_texts};
ghost use Rattle.mds_journal.specs.Journal.{IsSound, MayGoOn, StandsFor};
ghost use Rattle.mds_check.specs.Form.{IsText};
ghost use Rattle.mds_groups.specs.Form.{header};
ghost use Rattle.mds_follow.specs.Disk.{MayBeBegun, Records, fault_of, new_form};
ghost use Rattle.mds_follow.specs.Reading.{left_of};
ghost use Rattle.mds_follow.specs.Record.{HasSame};

use crate::Record;
use mds_book::RecordFault;
use mds_core::Request;
use mds_entries::{EntryFault, EntryReader};
use mds_groups::{JournalForm, end_group};
use mds_journal::{AppendError, Device, Group, Journal, PushError};
use mds_log::Tagged;
use std::alloc::{AllocError, Global};

/// The form of new files.
pub(crate) const NEW_FORM: JournalForm = JournalForm::Checked;

/// A journal of lines, of which the first names the form, and those behind it tell requests, in groups. It has room to lay a group
/// out.
#[derive(Drop)]
pub struct Disk<D: Device> {
    /// The journal.
    pub journal: Journal<D>,
    /// What its lines are.
    pub form: JournalForm,
    pub(crate) reader: EntryReader,
    pub(crate) group: Group,
}

impl<D: Device> Disk<D> {
    /// A disk over a journal with no line yet, to which it adds the lines before the first group.
    ///
    /// # Errors
    ///
    /// As [`Record::append`]. The journal comes back.
    pub(crate) fn create(
        alloc: Global,
        mut journal: Journal<D>,
    ) -> Result<Disk<D>, (RecordFault, Journal<D>)>
        requires sound { IsSound D.seen D.may_leave D.may_be_used D.is_true journal }
        requires ready { MayGoOn journal }
        requires none { D.is_true journal.device → recovered_texts (D.seen journal.device) ≡ [] }
        ensures sound { IfOk result (λ disk.
            IsSound D.seen D.may_leave D.may_be_used D.is_true disk.journal) }
        ensures stands { IfOk result (λ disk. MayGoOn disk.journal × (D.is_true disk.journal.device
            → StandsFor D.seen D.may_leave (header new_form) disk.journal.device)) }
        ensures any_moment { D.is_true
            (left_of result (λ disk. disk.journal.device) (λ error. error.1.device))
            → LeavesOnly D.moment D.left_since journal.device
            (left_of result (λ disk. disk.journal.device) (λ error. error.1.device)) MayBeBegun }
        ensures was_true { D.is_true
            (left_of result (λ disk. disk.journal.device) (λ error. error.1.device))
            → D.is_true journal.device }
    {
        let mut group = match Group::new(alloc) {
            Ok(group) => group,
            Err(AllocError) => return Err((RecordFault::Memory, journal)),
        };
        match lay_out_header(&mut group, NEW_FORM) {
            Ok(()) => {}
            Err(fault) => return Err((fault, journal)),
        }
        match journal.append(&group) {
            Ok(()) => Ok(Disk {
                journal,
                form: NEW_FORM,
                reader: EntryReader::new(alloc),
                group,
            }),
            Err(error) => Err((fault_of(error), journal)),
        }
    }
}

impl<D: Device> Disk<D> {
    /// The file, as it is.
    pub(crate) fn into_device(self) -> D
        ensures { result ≡ self.journal.device }
    {
        let Disk { journal, .. } = self;
        let Journal { device, .. } = journal;
        device
    }
}

fn fault_of(error: AppendError) -> RecordFault
    ensures { result ≡ fault_of error }
{
    match error {
        AppendError::NotWritten(_) | AppendError::Full => RecordFault::NotKept,
        AppendError::Unknown(_) | AppendError::Lost => RecordFault::Lost,
    }
}

impl<D: Device> Tagged for Disk<D> {
    ghost tag = { λ disk. D.moment disk.journal.device };
}

/// What is said of a line that has no place in a group.
fn push_fault(error: PushError) -> RecordFault
    ensures { HasSame result }
{
    match error {
        PushError::Memory => RecordFault::Memory,
        PushError::Empty | PushError::LineFeed | PushError::TooLarge => RecordFault::NotKept,
    }
}

/// Lays out the lines before the first group.
fn lay_out_header(group: &mut Group, form: JournalForm) -> Result<(), RecordFault>
    requires { group.old ≡ [] }
    ensures laid_out { OnOk result (group.new ≡ header form) }
{
    match group.push(form.first_line().as_bytes()) {
        Ok(()) => {}
        Err(error) => return Err(push_fault(error)),
    }
    match end_group(group, form) {
        Ok(()) => Ok(()),
        Err(error) => Err(push_fault(error)),
    }
}

/// `NotKept` comes for a request that has no line, or whose line has no room.
fn lay_out_one(
    reader: &mut EntryReader,
    group: &mut Group,
    request: &Request,
) -> Result<(), RecordFault>
    ensures told { OnOk result ((text : List ℕ) × (group.new ≡ group.old ++ text ∷ [])
        × Tells text request.now × IsText text) }
    ensures same { IfErr result HasSame }
{
    let text = match reader.text_of(request) {
        Ok(text) => text,
        Err(EntryFault::Memory) => return Err(RecordFault::Memory),
        Err(_) => return Err(RecordFault::NotKept),
    };
    match group.push(text.as_bytes()) {
        Ok(()) => Ok(()),
        Err(error) => Err(push_fault(error)),
    }
}

/// Where it fails the group may have some of the requests.
fn lay_out(
    reader: &mut EntryReader,
    group: &mut Group,
    requests: &[Request],
) -> Result<(), RecordFault>
    ensures told { OnOk result (AllZip Tells group.new requests.now) }
    ensures texts { OnOk result (All IsText group.new) }
    ensures same { IfErr result HasSame }
{
    group.clear();
    for request in requests {
        lay_out_one(reader, group, request)?;
    }
    Ok(())
}

/// Lays out the lines by which these requests are recorded in a journal of this form.
fn lay_out_group(
    reader: &mut EntryReader,
    group: &mut Group,
    form: JournalForm,
    requests: &[Request],
) -> Result<(), RecordFault>
    ensures told { OnOk result (Records form requests.now group.new) }
    ensures same { IfErr result HasSame }
{
    lay_out(reader, group, requests)?;
    match end_group(group, form) {
        Ok(()) => Ok(()),
        Err(error) => Err(push_fault(error)),
    }
}

impl<D: Device> Record for Disk<D> {
    ghost use Rattle.mds_journal.specs.Journal.{IsSound, MayGoOn};
    ghost use Rattle.mds_follow.specs.Disk.{MayRead, Stands, reads_now};

    ghost stands = { λ disk told. Stands D.seen D.may_leave disk told };

    ghost left_since = { λ disk t c. MayRead (D.left_since disk.journal.device) t c };

    ghost may_go_on = { λ disk. MayGoOn disk.journal };

    ghost is_true = { λ disk. D.is_true disk.journal.device };

    ghost is_sound = { λ disk. IsSound D.seen D.may_leave D.may_be_used D.is_true disk.journal };

    ghost only_now = { λ disk told c stands read.
        reads_now D.seen D.may_leave D.left_since D.moment disk told c
        (D.only_now disk.journal.device) stands read };

    fn append(&mut self, group: &[Request]) -> Result<(), RecordFault> {
        lay_out_group(&mut self.reader, &mut self.group, self.form, group)?;
        match self.journal.append(&self.group) {
            Ok(()) => Ok(()),
            Err(error) => Err(fault_of(error)),
        }
    }
}
