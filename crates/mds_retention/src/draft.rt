//! The lines of a new journal, on their way to its file.
ghost use Rattle.std.specs.Prelude.{◌≡◌, ◌∷◌, ◌++◌, [], ℕ, List, cond, OnOk};
ghost use Rattle.mds_journal.specs.Lines.{HasNoFeed, open_lines};
ghost use Rattle.mds_groups.specs.Form.{ended};
ghost use Rattle.mds_groups.specs.declared.form.JournalForm.TheVariants.{Checked};
ghost use Rattle.mds_retention.specs.Draft.{HasBytes, IsDraft, IsDraftOf};

use mds_check::form::CHECK_BYTES;
use mds_file::NewFileFault;
use mds_groups::{JournalForm, end_group};
use mds_journal::{Device, Group, PushError};
use std::alloc::Global;

/// From how many bytes on lines that wait are written.
const PAGE_BYTES: usize = 1 << 22;

/// From how many bytes on a group is ended: those of some thousand requests.
const GROUP_BYTES: usize = 1 << 18;

/// A new journal while it is written, in version 2: the lines that it has are on the disk, others wait, and behind them a group is
/// begun. Contracts say which texts it has with all of these.
#[derive(Drop)]
pub struct Draft<D: Device + Drop> {
    file: D,
    size: usize,
    page: Vec<u8>,
    group: Group,
}

impl<D: Device + Drop> Draft<D> {
    /// A draft in this file, with room for a group that has no lines. Nothing is done yet.
    pub fn new(alloc: Global, room: Group, file: D) -> Draft<D>
        requires { room ≡ [] }
        ensures file { result.file ≡ file }
        ensures start { result.size ≡ 0 }
        ensures page { result.page.items ≡ [] }
        ensures group { result.group ≡ [] }
    {
        Draft {
            file,
            size: 0,
            page: Vec::new(alloc),
            group: room,
        }
    }

    /// Leaves nothing of what the file had, and lays out the lines before the first group.
    ///
    /// # Errors
    ///
    /// `CannotWrite`, `Memory`. Nothing more may be written then.
    pub fn begin(&mut self) -> Result<(), NewFileFault>
        requires usable { D.may_be_used self.old.file }
        requires start { self.old.size ≡ 0 }
        requires page { self.old.page.items ≡ [] }
        requires group { self.old.group ≡ [] }
        ensures usable { OnOk result (D.may_be_used self.new.file) }
        ensures draft { OnOk result (IsDraftOf D.seen D.may_leave D.is_true [] self.new) }
    {
        self.clear()?;
        push_line(
            &mut self.group,
            JournalForm::Checked.first_line().as_bytes(),
        )?;
        self.end_group()?;
        Ok(())
    }

    /// Adds a text.
    ///
    /// # Errors
    ///
    /// `CannotWrite`, also where no line of a group has this text: it is empty, has a line feed, or is as long as a check. `Memory`.
    /// Nothing more may be written then.
    pub fn add_text(&mut self, text: &[u8]) -> Result<(), NewFileFault>
        requires usable { D.may_be_used self.old.file }
        requires draft { IsDraft D.seen D.may_leave D.is_true self.old }
        ensures usable { OnOk result (D.may_be_used self.new.file) }
        ensures draft { OnOk result ((texts : List (List ℕ))
            → IsDraftOf D.seen D.may_leave D.is_true texts self.old
            → IsDraftOf D.seen D.may_leave D.is_true (texts ++ text.now ∷ []) self.new) }
    {
        if text.len() == CHECK_BYTES {
            return Err(NewFileFault::CannotWrite);
        }
        push_line(&mut self.group, text)?;
        if self.group.open_lines().len() < GROUP_BYTES {
            return Ok(());
        }
        self.end_group()?;
        if self.page.len() < PAGE_BYTES {
            return Ok(());
        }
        self.write()?;
        Ok(())
    }

    /// Adds a text where it stays.
    ///
    /// # Errors
    ///
    /// Those of [`Draft::add_text`].
    pub fn add_text_if(&mut self, stays: bool, text: &[u8]) -> Result<(), NewFileFault>
        requires usable { D.may_be_used self.old.file }
        requires draft { IsDraft D.seen D.may_leave D.is_true self.old }
        ensures usable { OnOk result (D.may_be_used self.new.file) }
        ensures draft { OnOk result ((texts : List (List ℕ))
            → IsDraftOf D.seen D.may_leave D.is_true texts self.old
            → IsDraftOf D.seen D.may_leave D.is_true
            (texts ++ cond stays (text.now ∷ []) []) self.new) }
    {
        if stays {
            return self.add_text(text);
        }
        Ok(())
    }

    /// Ends the group that is begun, writes all lines that wait, and puts them on the disk. So a crash before the next write leaves
    /// the file as it is.
    ///
    /// # Errors
    ///
    /// `CannotWrite`, `Memory`. Nothing more may be written then.
    pub fn flush(&mut self) -> Result<(), NewFileFault>
        requires usable { D.may_be_used self.old.file }
        requires draft { IsDraft D.seen D.may_leave D.is_true self.old }
        ensures usable { OnOk result (D.may_be_used self.new.file) }
        ensures draft { OnOk result ((texts : List (List ℕ))
            → IsDraftOf D.seen D.may_leave D.is_true texts self.old
            → IsDraftOf D.seen D.may_leave D.is_true texts self.new) }
        ensures page { OnOk result (self.new.page.items ≡ []) }
        ensures group { OnOk result (self.new.group ≡ []) }
    {
        self.end_group()?;
        self.write()?;
        Ok(())
    }

    /// The file.
    pub fn into_file(self) -> D
        ensures { result ≡ self.file }
    {
        self.file
    }

    /// Leaves nothing of what the file had.
    fn clear(&mut self) -> Result<(), NewFileFault>
        requires usable { D.may_be_used self.old.file }
        requires start { self.old.size ≡ 0 }
        requires page { self.old.page.items ≡ [] }
        ensures usable { OnOk result (D.may_be_used self.new.file) }
        ensures bytes { OnOk result (HasBytes D.seen D.may_leave D.is_true [] self.new) }
        ensures group { self.new.group ≡ self.old.group }
    {
        self.file.cut(0)?;
        Ok(self.file.sync()?)
    }

    /// Ends the group that is begun, if one is. Its lines wait.
    fn end_group(&mut self) -> Result<(), NewFileFault>
        ensures page { OnOk result (self.new.page.items
            ≡ self.old.page.items ++ open_lines (ended Checked self.old.group)) }
        ensures group { OnOk result (self.new.group ≡ []) }
        ensures file { self.new.file ≡ self.old.file }
        ensures size { self.new.size ≡ self.old.size }
    {
        match end_group(&mut self.group, JournalForm::Checked) {
            Ok(()) => {}
            Err(error) => return Err(push_fault(error)),
        }
        self.page.extend_from_slice(self.group.open_lines())?;
        self.group.clear();
        Ok(())
    }

    /// Writes the lines that wait, and puts them on the disk.
    fn write(&mut self) -> Result<(), NewFileFault>
        requires usable { D.may_be_used self.old.file }
        requires bytes { (bytes : List ℕ) × HasBytes D.seen D.may_leave D.is_true bytes self.old }
        ensures usable { OnOk result (D.may_be_used self.new.file) }
        ensures bytes { OnOk result ((bytes : List ℕ)
            → HasBytes D.seen D.may_leave D.is_true bytes self.old
            → HasBytes D.seen D.may_leave D.is_true bytes self.new) }
        ensures page { OnOk result (self.new.page.items ≡ []) }
        ensures group { self.new.group ≡ self.old.group }
    {
        let Some(size) = self.size.checked_add(self.page.len()) else {
            return Err(NewFileFault::CannotWrite);
        };
        self.file.write_at(self.size, &self.page)?;
        self.file.sync()?;
        self.size = size;
        self.page.clear();
        Ok(())
    }
}

/// Adds a line of this text.
fn push_line(group: &mut Group, text: &[u8]) -> Result<(), NewFileFault>
    ensures pushed { OnOk result (group.new ≡ group.old ++ text.now ∷ []) }
    ensures plain { OnOk result (HasNoFeed text.now) }
{
    match group.push(text) {
        Ok(()) => Ok(()),
        Err(error) => Err(push_fault(error)),
    }
}

fn push_fault(error: PushError) -> NewFileFault {
    match error {
        PushError::Memory => NewFileFault::Memory,
        PushError::Empty | PushError::LineFeed | PushError::TooLarge => NewFileFault::CannotWrite,
    }
}
