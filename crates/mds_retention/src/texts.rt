//! The texts of a journal's groups, one after another.
ghost use Rattle.std.specs.Prelude.{◌≡◌, ◌+◌, ◌<◌, ◌≤◌, ◌^◌, ℕ, List, [], true, false, length, Option, IfOk, IfErr, OnOk};
ghost use Rattle.std.specs.Io.KnownBytes.{Keeps};
ghost use Rattle.mds_groups.specs.Form.{texts_in};
ghost use Rattle.mds_journal.specs.Stream.{unread_of};
ghost use Rattle.mds_retention.specs.Telling.{Gives, stream_error};
ghost use Rattle.mds_retention.specs.Place.{IsAt, IsPlaceOf};
ghost use Rattle.mds_retention.specs.Texts.{HandsOn, HasEnded, HasRead, IsOut, IsReading, ReadsOn, ReadsAll, StopsTexts, number_of, text_of};

use crate::error::LinesError;
use crate::place::Place;
use mds_groups::{GroupFault, GroupStream, WholeGroup};
use mds_journal::{JournalFault, LineStream, StreamError};
use mds_table::MAX_BYTES;
use std::alloc::Global;
use std::io::Read;

/// The texts of what a reader gives, in the groups that are whole. It holds a group, and a piece of the next lines.
#[derive(Drop)]
pub(crate) struct TextLines<R: Read> {
    lines: LineStream<R>,
    line: Vec<u8>,
    groups: GroupStream,
    place: Place,
    group: WholeGroup,
    next: usize,
    count: usize,
}

impl<R: Read + Drop> TextLines<R> {
    /// The texts of all lines that a reader gives.
    pub(crate) fn open(alloc: Global, reader: R) -> TextLines<R>
        ensures reading { IsReading result }
        ensures none { HasRead R.remaining (R.remaining reader) result [] }
        ensures count { result.count ≡ 0 }
    {
        TextLines::with(alloc, reader, GroupStream::new(alloc), Place::start())
    }

    /// The texts of the lines that a reader gives, where those up to a place stand before them.
    pub(crate) fn behind(alloc: Global, reader: R, place: Place) -> TextLines<R>
        ensures reading { IsReading result }
        ensures behind { (known : Option (List ℕ)) (lines : List (List ℕ)) (groups : List (List (List ℕ)))
            → IsPlaceOf lines groups place → Gives known lines (R.remaining reader)
            → HasRead R.remaining known result (texts_in groups) }
    {
        TextLines::with(alloc, reader, GroupStream::behind(alloc, place.form), place)
    }

    fn with(alloc: Global, reader: R, groups: GroupStream, place: Place) -> TextLines<R>
        ensures reading { IsReading result }
        ensures all { Keeps (R.remaining reader) (unread_of R.remaining result.lines) }
        ensures groups { result.groups ≡ groups }
        ensures place { result.place ≡ place }
        ensures none { result.group.texts.items ≡ [] }
        ensures count { result.count ≡ 0 }
    {
        TextLines {
            lines: LineStream::new(alloc, reader, MAX_BYTES),
            line: Vec::new(alloc),
            groups,
            place,
            group: WholeGroup {
                first: 0,
                texts: Vec::new(alloc),
            },
            next: 0,
            count: 0,
        }
    }
}

impl<R: Read> TextLines<R> {
    /// How many texts were handed out.
    pub(crate) fn count(&self) -> usize
        ensures { result ≡ self.now.count }
    {
        self.count
    }

    /// How far the lines were read.
    pub(crate) fn place(&self) -> Place
        ensures { result ≡ self.now.place }
    {
        self.place
    }

    /// The number of the line whose text was handed out last.
    pub(crate) fn number(&self) -> usize
        requires reading { IsReading self.now }
        requires out { IsOut self.now }
        ensures { result ≡ number_of self.now }
    {
        self.group.first + (self.next - 1)
    }

    /// The text that was handed out last.
    pub(crate) fn text(&self) -> &[u8]
        requires reading { IsReading self.now }
        requires out { IsOut self.now }
        ensures { result.now ≡ text_of self.now }
    {
        &self.group.texts[self.next - 1]
    }

    /// Hands out the next text, or says `false` where no more lines count.
    ///
    /// # Errors
    ///
    /// `Fault` where the first line names no form, a group isn't as it was written, or a line is too long; `Read`, `Memory`.
    pub(crate) fn next(&mut self) -> Result<bool, LinesError>
        requires { IsReading self.old }
        ensures reading { IsReading self.new }
        ensures next { IfOk result (λ more. more ≡ true → HandsOn R.remaining self.old self.new) }
        ensures out { IfOk result (λ more. more ≡ true → IsOut self.new) }
        ensures count { IfOk result (λ more. more ≡ true → self.new.count ≡ self.old.count + 1) }
        ensures few { IfOk result (λ more. more ≡ true → self.new.count < 2 ^ 64) }
        ensures all { IfOk result (λ more. more ≡ false → ReadsAll R.remaining self.old self.new) }
        ensures fault { IfErr result (StopsTexts R.remaining self.old) }
    {
        if self.next < self.group.texts.len() {
            return self.hand_out();
        }
        if self.next_group()? {
            self.hand_out()
        } else {
            Ok(false)
        }
    }

    /// Hands out the next text of the last group.
    fn hand_out(&mut self) -> Result<bool, LinesError>
        requires reading { IsReading self.old }
        requires within { self.old.next < length self.old.group.texts.items }
        ensures reading { IsReading self.new }
        ensures yes { IfOk result (λ more. more ≡ true) }
        ensures next { OnOk result (HandsOn R.remaining self.old self.new) }
        ensures out { OnOk result (IsOut self.new) }
        ensures count { OnOk result (self.new.count ≡ self.old.count + 1) }
        ensures few { OnOk result (self.new.count < 2 ^ 64) }
        ensures cause { IfErr result (λ error. error ≡ LinesError.Read) }
    {
        let Some(count) = self.count.checked_add(1) else {
            return Err(LinesError::Read);
        };
        self.count = count;
        self.next += 1;
        Ok(true)
    }

    /// Reads on to the end of the next group that has texts, or says `false` where no more lines count. All texts of the last one
    /// were handed out.
    fn next_group(&mut self) -> Result<bool, LinesError>
        requires reading { IsReading self.old }
        requires done { self.old.next ≡ length self.old.group.texts.items }
        ensures reading { IsReading self.new }
        ensures group { IfOk result (λ more. more ≡ true
            → self.new.next < length self.new.group.texts.items) }
        ensures read { IfOk result (λ more. more ≡ true → ReadsOn R.remaining self.old self.new) }
        ensures all { IfOk result (λ more. more ≡ false → ReadsAll R.remaining self.old self.new) }
        ensures count { self.new.count ≡ self.old.count }
        ensures fault { IfErr result (StopsTexts R.remaining self.old) }
    {
        'lines: while self.take_line()? {
            if self.next < self.group.texts.len() {
                return Ok(true);
            }
        }
        match self.groups.finish(self.place.lines) {
            Ok(form) => {
                self.place.form = form;
                Ok(false)
            }
            Err(fault) => Err(LinesError::Fault(fault)),
        }
    }

    /// Takes the next line. The texts of the group that it ends come next. It says `false` where no more lines count.
    fn take_line(&mut self) -> Result<bool, LinesError>
        requires reading { IsReading self.old }
        requires done { self.old.next ≡ length self.old.group.texts.items }
        ensures reading { IsReading self.new }
        ensures read { IfOk result (λ more. more ≡ true → ReadsOn R.remaining self.old self.new) }
        ensures further { IfOk result (λ more. more ≡ true
            → self.new.place.lines ≡ self.old.place.lines + 1) }
        ensures few { IfOk result (λ more. more ≡ true → self.new.place.lines < 2 ^ 64) }
        ensures end { IfOk result (λ more. more ≡ false → HasEnded R.remaining self.old self.new) }
        ensures done { IfOk result (λ more. more ≡ false
            → self.new.next ≡ length self.new.group.texts.items) }
        ensures count { self.new.count ≡ self.old.count }
        ensures fault { IfErr result (StopsTexts R.remaining self.old) }
    {
        let number = self.place.lines;
        match self.lines.next_line(&mut self.line) {
            Ok(true) => {}
            Ok(false) => return Ok(false),
            Err(error) => return Err(stream_fault(error, number)),
        }
        self.place = self.place.behind(&self.line)?;
        let group = self.groups.take(number, &self.line)?;
        match group {
            Some(group) => {
                self.group = group;
                self.next = 0;
                Ok(true)
            }
            None => Ok(true),
        }
    }
}

/// Why the line of this number can't be read.
fn stream_fault(error: StreamError, number: usize) -> LinesError
    ensures { result ≡ stream_error number error }
{
    match error {
        StreamError::Memory => LinesError::Memory,
        StreamError::TooLong(_) => {
            LinesError::Fault(GroupFault::Journal(JournalFault::TooLong(number)))
        }
        StreamError::Read | StreamError::Full => LinesError::Read,
    }
}
