//! The lines of a journal that tell an event of one vehicle.
ghost use Rattle.std.specs.Prelude.{◌≡◌, ◌∷◌, ◌++◌, ℕ, List, [], Some, None, cond, length, IfOk, IfErr, OnOk, MatchOption};
ghost use Rattle.mds_core.specs.declared.request.Request.{Request as Requested};
ghost use Rattle.mds_retention.specs.Telling.{IsJournalFault};
ghost use Rattle.mds_retention.specs.Events.{AreEventsOf, HasEvents, HasNothingOf};

use crate::error::LinesError;
use crate::lines::RequestLines;
use mds_core::{Key, Request};
use std::alloc::{AllocError, Global};
use std::io::Read;

/// What is kept of the lines so far.
#[derive(Drop)]
struct VehicleEvents {
    key: Key,
    /// Whether one of them is about the vehicle.
    is_there: bool,
    /// Those that tell its events, without their gates.
    lines: Vec<u8>,
}

impl VehicleEvents {
    /// Takes the next line, which has this text and tells this request.
    fn take(&mut self, request: &Request, text: &[u8]) -> Result<(), AllocError>
        ensures { OnOk result ((history : List Requested) (texts : List (List ℕ))
            → length texts ≡ length history → AreEventsOf self.old.key history texts self.old
            → AreEventsOf self.old.key (history ++ request.now ∷ []) (texts ++ text.now ∷ []) self.new) }
    {
        if *request.key() != self.key {
            return Ok(());
        }
        self.is_there = true;
        if request.event().is_some() {
            self.lines.extend_from_slice(text)?;
            self.lines.push(b'\n')?;
        }
        Ok(())
    }

    /// The lines, if the vehicle is there.
    fn into_lines(self) -> Option<Vec<u8>>
        ensures { result ≡ cond self.is_there (Some self.lines) None }
    {
        if self.is_there {
            Some(self.lines)
        } else {
            None
        }
    }
}

/// The texts of a reader's lines that tell an event of the vehicle, in their order and each with a line feed, or `None` where no
/// line is about the vehicle. So many bytes are held at once, and those of one line more.
///
/// # Errors
///
/// `Fault` with the first fault of the lines, `Read`, `Memory`.
pub fn events_of<R: Read + Drop>(
    alloc: Global,
    reader: R,
    key: Key,
) -> Result<Option<Vec<u8>>, LinesError>
    ensures told { IfOk result (λ found. MatchOption found
        (HasNothingOf key (R.remaining reader))
        (λ lines. HasEvents key (R.remaining reader) lines.items)) }
    ensures fault { IfErr result (IsJournalFault (R.remaining reader)) }
{
    let mut lines = RequestLines::open(alloc, reader);
    let mut events = VehicleEvents {
        key,
        is_there: false,
        lines: Vec::new(alloc),
    };
    'requests: loop {
        let Some(request) = lines.next()? else {
            return Ok(events.into_lines());
        };
        events.take(&request, lines.text())?;
    }
}
