//! A whole opening at once, for small files and tests.
ghost use Rattle.std.specs.Prelude.{◌≡◌, ◌⊎◌, ◌<◌, ◌^◌, [], map, IfOk, IfErr};
ghost use Rattle.mds_journal.specs.Device.{LeavesOnly, Untouched};
ghost use Rattle.mds_journal.specs.Lines.{recovered_texts};
ghost use Rattle.mds_journal.specs.Journal.{IsSound, MayGoOn};
ghost use Rattle.mds_journal.specs.Opening.{IsReading, KeepsLines, unread_bytes};

use crate::{Device, Journal, OpenError, Opening};
use std::alloc::Global;

/// Opens a file, and reads the texts of all its lines, of at most `longest` bytes each.
///
/// # Errors
///
/// Those of [`Opening`]. The device comes back.
pub fn read_all<D: Device>(
    alloc: Global,
    device: D,
    longest: usize,
) -> Result<(Journal<D>, Vec<Vec<u8>>), (OpenError, D)>
    requires usable { D.may_be_used device }
    requires limit { longest < 2 ^ 62 }
    ensures lines { IfOk result (λ opened. D.is_true opened.0.device
        → map (λ line. line.items) opened.1.items ≡ recovered_texts (D.seen device)) }
    ensures sound { IfOk result (λ opened.
        IsSound D.seen D.may_leave D.may_be_used D.is_true opened.0 × MayGoOn opened.0) }
    ensures same { IfOk result (λ opened. D.is_true opened.0.device
        → recovered_texts (D.seen opened.0.device) ≡ recovered_texts (D.seen device)) }

    // A crash at any moment leaves what one before might have left, or the same lines.
    ensures any_moment { IfOk result (λ opened. D.is_true opened.0.device
        → LeavesOnly D.moment D.left_since device opened.0.device
        (λ c. D.may_leave device c ⊎ KeepsLines (D.seen device) c)) }
    ensures any_moment_err { IfErr result (λ error. D.is_true error.1
        → LeavesOnly D.moment D.left_since device error.1
        (λ c. D.may_leave device c ⊎ KeepsLines (D.seen device) c)) }
{
    let mut opening = match Opening::start(alloc, device, longest) {
        Ok(opening) => opening,
        Err(error) => return Err(error),
    };
    let lines = match read_lines(alloc, &mut opening) {
        Ok(lines) => lines,
        Err(error) => return Err((error, opening.into_device())),
    };
    match opening.finish() {
        Ok(journal) => Ok((journal, lines)),
        Err(error) => Err(error),
    }
}

fn read_lines<D: Device>(alloc: Global, opening: &mut Opening<D>) -> Result<Vec<Vec<u8>>, OpenError>
    requires { IsReading D.seen D.may_leave D.may_be_used D.is_true opening.old }
    ensures reading { IsReading D.seen D.may_leave D.may_be_used D.is_true opening.new }
    ensures lines { IfOk result (λ lines. D.is_true opening.new.device
        → map (λ line. line.items) lines.items
        ≡ recovered_texts (unread_bytes D.seen opening.old)) }
    ensures done { IfOk result (λ lines. D.is_true opening.new.device
        → recovered_texts (unread_bytes D.seen opening.new) ≡ []) }
    ensures untouched { D.is_true opening.new.device → Untouched D.seen D.may_leave D.moment
        D.left_since opening.old.device opening.new.device }
    ensures was_true { D.is_true opening.new.device → D.is_true opening.old.device }
{
    let mut lines = Vec::new(alloc);
    'lines: loop {
        let mut line = Vec::new(alloc);
        match opening.next_line(&mut line) {
            Ok(true) => {}
            Ok(false) => return Ok(lines),
            Err(error) => return Err(error),
        }
        if lines.push(line).is_err() {
            return Err(OpenError::Memory);
        }
    }
}
