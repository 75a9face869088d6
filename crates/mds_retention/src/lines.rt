//! The requests that the lines of a journal tell, one after another.
ghost use Rattle.std.specs.Prelude.{◌≡◌, ◌+◌, ◌<◌, ◌^◌, ℕ, List, [], Option, IfOk, IfErr, IfSome, IfNone};
ghost use Rattle.mds_entries.specs.Entry.{Tells};
ghost use Rattle.mds_groups.specs.Form.{texts_in};
ghost use Rattle.mds_retention.specs.Telling.{Gives, entry_error};
ghost use Rattle.mds_retention.specs.Place.{IsPlaceOf};
ghost use Rattle.mds_retention.specs.Texts.{HandsOn, HasRead, IsOut, IsReading, ReadsAll, number_of, text_of};
ghost use Rattle.mds_retention.specs.Lines.{HasTold, StopsLines};

use crate::error::LinesError;
use crate::place::Place;
use crate::texts::TextLines;
use mds_core::Request;
use mds_entries::{EntryFault, EntryReader};
use mds_groups::GroupFault;
use mds_journal::JournalFault;
use std::alloc::Global;
use std::io::Read;

/// The requests that the lines of a reader tell, to the last that counts. The first line names the form.
#[derive(Drop)]
pub struct RequestLines<R: Read> {
    texts: TextLines<R>,
    entries: EntryReader,
}

impl<R: Read + Drop> RequestLines<R> {
    /// The requests of what a reader gives.
    pub fn open(alloc: Global, reader: R) -> RequestLines<R>
        ensures lines { IsReading result.texts }
        ensures told { HasTold R.remaining (R.remaining reader) result [] }
        ensures count { result.texts.count ≡ 0 }
    {
        RequestLines {
            texts: TextLines::open(alloc, reader),
            entries: EntryReader::new(alloc),
        }
    }

    /// The requests of what a reader gives, where the lines up to a place stand before that.
    pub(crate) fn behind(alloc: Global, reader: R, place: Place) -> RequestLines<R>
        ensures lines { IsReading result.texts }
        ensures read { (known : Option (List ℕ)) (lines : List (List ℕ)) (groups : List (List (List ℕ)))
            → IsPlaceOf lines groups place → Gives known lines (R.remaining reader)
            → HasRead R.remaining known result.texts (texts_in groups) }
    {
        RequestLines {
            texts: TextLines::behind(alloc, reader, place),
            entries: EntryReader::new(alloc),
        }
    }

    /// How many requests were read.
    pub fn count(&self) -> usize
        ensures { result ≡ self.now.texts.count }
    {
        self.texts.count()
    }

    /// How far the lines were read.
    pub(crate) fn place(&self) -> Place
        ensures { result ≡ self.now.texts.place }
    {
        self.texts.place()
    }

    /// The text of the line whose request was read last, without its gate.
    pub fn text(&self) -> &[u8]
        requires lines { IsReading self.now.texts }
        requires out { IsOut self.now.texts }
        ensures { result.now ≡ text_of self.now.texts }
    {
        self.texts.text()
    }

    /// The request of the next line, or `None` where no more lines count.
    ///
    /// # Errors
    ///
    /// `Fault` where the first line names no form, a group isn't as it was written, a line is too long, or tells no request; `Read`,
    /// `Memory`.
    pub fn next(&mut self) -> Result<Option<Request>, LinesError>
        requires { IsReading self.old.texts }
        ensures lines { IsReading self.new.texts }
        ensures next { IfOk result (λ next. IfSome next
            (λ _. HandsOn R.remaining self.old.texts self.new.texts)) }
        ensures out { IfOk result (λ next. IfSome next (λ _. IsOut self.new.texts)) }
        ensures request { IfOk result (λ next. IfSome next (Tells (text_of self.new.texts))) }
        ensures number { IfOk result (λ next. IfSome next
            (λ _. self.new.texts.count ≡ self.old.texts.count + 1)) }
        ensures done { IfOk result (λ next. IfNone next
            (ReadsAll R.remaining self.old.texts self.new.texts)) }
        ensures few { IfOk result (λ next. IfSome next (λ _. self.new.texts.count < 2 ^ 64)) }
        ensures fault { IfErr result (StopsLines R.remaining self.old) }
    {
        if !self.texts.next()? {
            return Ok(None);
        }
        match self.entries.read(self.texts.text()) {
            Ok(request) => Ok(Some(request)),
            Err(fault) => Err(entry_fault(fault, self.texts.number())),
        }
    }
}

/// Why the text of the line of this number tells no request.
fn entry_fault(fault: EntryFault, number: usize) -> LinesError
    ensures { result ≡ entry_error number fault }
{
    match fault {
        EntryFault::Memory => LinesError::Memory,
        EntryFault::BadLine | EntryFault::NoLine => {
            LinesError::Fault(GroupFault::Journal(JournalFault::BadLine(number)))
        }
    }
}
