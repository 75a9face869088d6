//! The requests of a journal, taken by a roster group by group.
ghost use Rattle.std.specs.Prelude.{◌≡◌, ◌+◌, ◌<◌, ◌≤◌, ◌^◌, List, ℕ, length, true, false, IfOk, IfErr, OnOk};
ghost use Rattle.mds_core.specs.declared.request.Request.{Request};
ghost use Rattle.mds_entries.specs.Entry.{Tells};
ghost use Rattle.mds_groups.specs.Form.{IsJournal};
ghost use Rattle.mds_groups.specs.Stream.{HasTaken, texts_of};
ghost use Rattle.mds_journal.specs.Stream.{lines_given};
ghost use Rattle.mds_commands.specs.Roster.{Accepts};
ghost use Rattle.mds_commands.specs.Taking.{IsEntryFault, IsJournalBy, IsJournalFault, IsTaking, StopsAmong, StopsBy, TakesAll, TakesOn, TakesTexts};

use crate::roster::Roster;
use mds_entries::{EntryFault, EntryReader};
use mds_groups::{GroupError, GroupFault, GroupStream, JournalForm, WholeGroup};
use mds_journal::{JournalFault, LineStream, StreamError};
use mds_table::{MAX_BYTES, Tables};
use std::alloc::{AllocError, Global};
use std::hash::RandomState;
use std::io::Read;

/// Why the requests of a journal can't be taken.
#[derive(Clone, Copy, Debug, PartialEq, Eq)]
pub enum TakeError {
    /// There was no memory.
    Memory,
    /// A read failed.
    Read,
    /// The file is no journal.
    Fault(GroupFault),
}

impl From<AllocError> for TakeError {
    ghost use Rattle.mds_commands.specs.declared.vehicles.taking.TakeError.TheVariants.{Memory};

    ghost from_gives = { λ _ error. error ≡ Memory };

    fn from(_refused: AllocError) -> TakeError {
        TakeError::Memory
    }
}

impl From<StreamError> for TakeError {
    ghost use Rattle.mds_commands.specs.Taking.{stream_error};

    ghost from_gives = { λ cause error. error ≡ stream_error cause };

    fn from(error: StreamError) -> TakeError {
        match error {
            StreamError::Memory => TakeError::Memory,
            StreamError::TooLong(line) => fault_of(JournalFault::TooLong(line)),
            StreamError::Read | StreamError::Full => TakeError::Read,
        }
    }
}

impl From<GroupError> for TakeError {
    ghost use Rattle.mds_commands.specs.Taking.{group_error};

    ghost from_gives = { λ cause error. error ≡ group_error cause };

    fn from(error: GroupError) -> TakeError {
        match error {
            GroupError::Memory => TakeError::Memory,
            GroupError::Fault(fault) => TakeError::Fault(fault),
        }
    }
}

fn fault_of(fault: JournalFault) -> TakeError
    ensures { result ≡ TakeError.Fault (GroupFault.Journal fault) }
{
    TakeError::Fault(GroupFault::Journal(fault))
}

/// What the lines of a journal come to.
#[derive(Drop)]
pub struct Taken {
    /// The roster of their requests.
    pub roster: Roster,
    /// How many lines there are.
    pub lines: usize,
    /// How many groups of requests they have.
    pub groups: usize,
}

/// The same, and what stands behind the lines.
#[derive(Drop)]
pub struct TakenJournal<R: Read> {
    /// What they come to.
    pub taken: Taken,
    /// The form that the first line names.
    pub form: JournalForm,
    /// What comes behind the last line that counts.
    pub behind: LineStream<R>,
}

/// The roster over the tables of the requests that the lines of a reader tell, to the last that counts.
///
/// # Errors
///
/// `Fault` with the first fault of the lines, `Read` where a read failed, or there are more than 2^62 lines; `Memory`.
pub fn roster_of<R: Read + Drop>(
    alloc: Global,
    reader: R,
    tables: Tables,
    hasher: RandomState,
) -> Result<TakenJournal<R>, TakeError>
    ensures ok { IfOk result (IsJournalBy R.remaining tables (R.remaining reader)) }
    ensures fault { IfErr result (IsJournalFault tables (R.remaining reader)) }
{
    let mut taking = Taking {
        lines: LineStream::new(alloc, reader, MAX_BYTES),
        line: Vec::new(alloc),
        groups: GroupStream::new(alloc),
        count: 0,
        entries: EntryReader::new(alloc),
        roster: Roster::open(alloc, tables, hasher),
    };
    let form = taking.take_all()?;
    Ok(taking.into_journal(form))
}

/// The lines of a reader, and what they came to so far.
#[derive(Drop)]
struct Taking<R: Read> {
    lines: LineStream<R>,
    line: Vec<u8>,
    groups: GroupStream,
    count: usize,
    entries: EntryReader,
    roster: Roster,
}

impl<R: Read + Drop> Taking<R> {
    fn into_journal(self, form: JournalForm) -> TakenJournal<R>
        ensures roster { result.taken.roster ≡ self.roster }
        ensures lines { result.taken.lines ≡ lines_given self.lines }
        ensures groups { result.taken.groups ≡ self.count }
        ensures form { result.form ≡ form }
        ensures behind { result.behind ≡ self.lines }
    {
        let Taking {
            lines: behind,
            line: _line,
            groups: _groups,
            count,
            entries: _entries,
            roster,
        } = self;
        let taken = Taken {
            roster,
            lines: behind.number(),
            groups: count,
        };
        TakenJournal {
            taken,
            form,
            behind,
        }
    }
}

impl<R: Read> Taking<R> {
    /// Takes all lines that count, and answers the form that the first one names.
    fn take_all(&mut self) -> Result<JournalForm, TakeError>
        requires { IsTaking self.old }
        ensures taking { IsTaking self.new }
        ensures all { OnOk result (TakesAll R.remaining self.old self.new) }
        ensures whole { IfOk result (λ form.
            (lines : List (List ℕ)) (groups : List (List (List ℕ)))
            → HasTaken self.new.groups lines groups → IsJournal form lines groups) }
        ensures fault { IfErr result (StopsBy R.remaining self.old) }
    {
        'lines: while self.take_line()? {}
        match self.groups.finish(self.lines.number()) {
            Ok(form) => Ok(form),
            Err(fault) => Err(TakeError::Fault(fault)),
        }
    }

    /// Takes the next line, and the requests of the group that it ends. It says `false` where no more lines count.
    fn take_line(&mut self) -> Result<bool, TakeError>
        requires { IsTaking self.old }
        ensures taking { IsTaking self.new }
        ensures taken { IfOk result (λ more. more ≡ true
            → TakesOn R.remaining self.old self.new) }
        ensures number { IfOk result (λ more. more ≡ true
            → lines_given self.new.lines ≡ lines_given self.old.lines + 1) }
        ensures few { IfOk result (λ more. more ≡ true
            → lines_given self.new.lines < 2 ^ 64) }
        ensures all { IfOk result (λ more. more ≡ false
            → TakesAll R.remaining self.old self.new) }
        ensures fault { IfErr result (StopsBy R.remaining self.old) }
    {
        if !self.lines.next_line(&mut self.line)? {
            return Ok(false);
        }
        let number = self.lines.number() - 1;
        if let Some(group) = self.groups.take(number, &self.line)? {
            take_group(&group, &mut self.entries, &mut self.roster)?;
            self.count += 1;
        }
        Ok(true)
    }
}

fn take_group(
    group: &WholeGroup,
    entries: &mut EntryReader,
    roster: &mut Roster,
) -> Result<(), TakeError>
    requires { group.now.first + length group.now.texts.items ≤ 2 ^ 64 }
    ensures taken { OnOk result (TakesTexts (texts_of group.now) roster.old roster.new) }
    ensures fault { IfErr result
        (StopsAmong group.now.first (texts_of group.now) roster.old) }
{
    for (at, text) in group.texts.iter().enumerate() {
        take_entry(group.first + at, text, entries, roster)?;
    }
    Ok(())
}

fn take_entry(
    number: usize,
    text: &[u8],
    entries: &mut EntryReader,
    roster: &mut Roster,
) -> Result<(), TakeError>
    ensures taken { OnOk result ((request : Request)
        × Tells text.now request × Accepts request roster.old roster.new) }
    ensures fault { IfErr result (IsEntryFault number text.now roster.old) }
{
    let request = match entries.read(text) {
        Ok(request) => request,
        Err(EntryFault::Memory) => return Err(TakeError::Memory),
        Err(_) => return Err(fault_of(JournalFault::BadLine(number))),
    };
    if roster.take(&request)? {
        Ok(())
    } else {
        Err(fault_of(JournalFault::Refused(number)))
    }
}
