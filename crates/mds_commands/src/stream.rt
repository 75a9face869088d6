//! Files whose lines are replayed: they are read in pieces, and each piece is fed as it comes.
ghost use Rattle.std.specs.Prelude.{◌≡◌, ◌≢◌, ◌<◌, ◌≤◌, ℕ, List, [], None, IfOk, IfErr, OnOk, IsErrOf};
ghost use Rattle.mds_io.specs.Read.{ConsumesUpTo};
ghost use Rattle.mds_trace.specs.LineReport.{IsLineReport};
ghost use Rattle.mds_commands.specs.Source.{ExplainsFile, IsLineProblem, max_read};
ghost use Rattle.mds_commands.specs.Stream.{HasLineReport, IsFed, IsFedFile};

use crate::problem::{Problem, read_problem};
use crate::source::{Form, MAX_READ, Source};
use mds_io::{MAX_CALLS, ReadError, read_more};
use mds_table::Tables;
use mds_trace::{LineReplay, Opening, Report};
use std::alloc::Global;
use std::io::Read;

/// How many bytes a piece has at most.
const PIECE_BYTES: usize = 16_384;

/// The report of a replay of the items of a file's lines. A file that can't be read to its end, or to the limit, is told as
/// that, even where the lines before have a fault.
pub fn report_of_lines<'a, R: Read + Drop>(
    alloc: Global,
    tables: Tables,
    file: Source<'a, R>,
    opening: Opening,
) -> Result<Report, Problem<'a>>
    ensures ok { IfOk result (HasLineReport opening tables R.remaining file.entry) }
    ensures err { IfErr result (ExplainsFile Form.Lines R.remaining file.entry) }
{
    let path = file.path;
    let Some(mut reader) = file.reader else {
        return Err(Problem::CannotRead(path));
    };
    let mut replay = LineReplay::open(alloc, tables, opening);
    let mut calls = MAX_CALLS;
    match feed_all(alloc, &mut reader, &mut replay, &mut calls) {
        Ok(()) => report_of(replay),
        Err(error) => Err(read_problem(path, error)),
    }
}

/// What is wrong with the stream is never told as a fault of what gave it.
fn report_of<'a>(replay: LineReplay) -> Result<Report, Problem<'a>>
    ensures report { IfOk result (λ report. (bytes : List ℕ) → IsFed bytes replay.stream
        → IsLineReport replay.opening replay.tables bytes report) }
    ensures fault { IfErr result (λ problem. (bytes : List ℕ) → IsFed bytes replay.stream
        → IsLineProblem bytes problem) }
{
    Ok(replay.finish()?)
}

/// Feeds what the reader has. A fault of the lines is kept, and told at the end. `calls` is how many calls of `read`
/// may be made for all of it.
fn feed_all<R: Read>(
    alloc: Global,
    reader: &mut R,
    replay: &mut LineReplay,
    calls: &mut u32,
) -> Result<(), ReadError>
    requires { IsFed [] replay.old.stream }
    ensures fed { OnOk result (IsFedFile (R.remaining reader.old) replay.new.stream) }
    ensures tables { replay.new.tables ≡ replay.old.tables }
    ensures opening { replay.new.opening ≡ replay.old.opening }
    ensures no_further { ConsumesUpTo max_read (R.remaining reader.old) (R.remaining reader.new) }
    ensures counted { calls.new ≤ calls.old }
    ensures made { IfErr result (λ fault. fault ≢ ReadError.TooManyTurns → calls.new < calls.old) }
    ensures turns { IsErrOf result ReadError.TooManyTurns → calls.new ≡ 0 }
{
    let mut piece = Vec::new(alloc);
    let mut room = [0u8; PIECE_BYTES];
    let mut left = MAX_READ;
    while left > 0 {
        piece.clear();
        if read_more(reader, &mut piece, &mut room, left, calls)? {
            return Ok(());
        }
        left -= piece.len();
        // A fault is kept: the report's end tells it, if the rest can be read.
        let _ = replay.feed(&piece);
    }
    Ok(())
}
