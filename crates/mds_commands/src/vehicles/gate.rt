//! Whether the closed gate behind the lines of a journal was open once.
ghost use Rattle.std.specs.Prelude.{◌≡◌, ◌+◌, true, false, length, IfOk, IfErr, IfSome, IfNone};
ghost use Rattle.mds_journal.specs.Lines.{recovered_texts};
ghost use Rattle.mds_journal.specs.Stream.{IsStream, lines_given, most_of, unread_of};
ghost use Rattle.mds_table.specs.Json.{max_bytes};
ghost use Rattle.mds_commands.specs.Gate.{HandsOutGroup, HasNoGroup, HasNoneMore, IfOneHasMore, IsHurtBehind, IsLong, IsSoundUnless, TellsOpenBehind};

use crate::vehicles::taking::TakeError;
use mds_check::GroupCheck;
use mds_check::form::CHECK_BYTES;
use mds_groups::JournalForm;
use mds_journal::{LineStream, StreamError};
use mds_table::MAX_BYTES;
use std::alloc::Global;
use std::io::Read;

/// Whether the gate behind so many lines of a journal of this form was hurt: an open line stands behind a group there, and the journal,
/// read `again` where that can be, doesn't have more lines.
///
/// # Errors
///
/// `Memory`, and `Read` where a read failed, a line that counts is too long, or there are more than 2^62 lines.
pub(crate) fn is_hurt<R: Read + Drop>(
    alloc: Global,
    form: JournalForm,
    lines: usize,
    behind: LineStream<R>,
    again: Option<R>,
) -> Result<bool, TakeError>
    requires stream { IsStream behind }
    requires limit { most_of behind ≡ max_bytes }
    ensures hurt { IfOk result (λ hurt. hurt ≡ true
        → IsHurtBehind form (unread_of R.remaining behind)
        × HasNoneMore R.remaining again lines) }
    ensures sound { IfOk result (λ hurt. hurt ≡ false
        → IsSoundUnless (IfOneHasMore R.remaining again lines) form
        (unread_of R.remaining behind)) }
{
    let mut behind = behind;
    match form {
        JournalForm::Plain => return Ok(false),
        JournalForm::Checked => {}
    }
    if !has_open_behind(alloc, &mut behind)? {
        return Ok(false);
    }
    let Some(again) = again else {
        return Ok(true);
    };
    let count = count_lines(alloc, again)?;
    Ok(count <= lines)
}

/// Whether a whole group stands behind the gate at which these lines end, and then an open line: so that gate was open, too, and
/// a disk, or who copied the file, closed it.
///
/// # Errors
///
/// `Memory`, and `Read` where a read failed, or there are more than 2^62 lines.
pub(crate) fn has_open_behind<R: Read>(
    alloc: Global,
    lines: &mut LineStream<R>,
) -> Result<bool, TakeError>
    requires stream { IsStream lines.old }
    requires limit { most_of lines.old ≡ max_bytes }
    ensures told { IfOk result (TellsOpenBehind (unread_of R.remaining lines.old)) }
{
    match open_line_behind(alloc, lines) {
        Ok(told) => Ok(told),
        // A line that is too long is none of a journal.
        Err(StreamError::TooLong(_)) => Ok(false),
        Err(StreamError::Memory) => Err(TakeError::Memory),
        Err(StreamError::Read | StreamError::Full) => Err(TakeError::Read),
    }
}

fn open_line_behind<R: Read>(alloc: Global, lines: &mut LineStream<R>) -> Result<bool, StreamError>
    requires stream { IsStream lines.old }
    requires limit { most_of lines.old ≡ max_bytes }
    ensures told { IfOk result (TellsOpenBehind (unread_of R.remaining lines.old)) }
    ensures long { IfErr result (λ error. IsLong error
        → TellsOpenBehind (unread_of R.remaining lines.old) false) }
{
    lines.open_gate()?;
    let mut line = Vec::new(alloc);
    match take_group(lines, &mut line)? {
        Some(_number) => lines.next_line(&mut line),
        None => Ok(false),
    }
}

/// Reads a whole group whose check fits, and answers the number of the line behind it. It says `None` where the lines don't begin with one.
fn take_group<R: Read>(
    lines: &mut LineStream<R>,
    line: &mut Vec<u8>,
) -> Result<Option<usize>, StreamError>
    requires stream { IsStream lines.old }
    requires limit { most_of lines.old ≡ max_bytes }
    ensures stream { IsStream lines.new }
    ensures limit { most_of lines.new ≡ most_of lines.old }
    ensures group { IfOk result (λ whole. IfSome whole (λ number. (number ≡ lines_given lines.new)
        × HandsOutGroup (unread_of R.remaining lines.old) (unread_of R.remaining lines.new))) }
    ensures none { IfOk result (λ whole. IfNone whole
        (HasNoGroup (unread_of R.remaining lines.old))) }
    ensures long { IfErr result (λ error. IsLong error
        → HasNoGroup (unread_of R.remaining lines.old)) }
{
    let mut check = GroupCheck::new();
    'texts: while lines.next_line(line)? {
        let number = lines.number();
        let fits = check.take(line);
        if line.len() == CHECK_BYTES {
            return Ok(if fits { Some(number) } else { None });
        }
    }
    Ok(None)
}

/// How many lines count of what a reader gives, if that can be read.
///
/// # Errors
///
/// `Memory`, and `Read` where a read failed, a line is too long, or there are more than 2^62 lines.
pub(crate) fn count_lines<R: Read + Drop>(alloc: Global, reader: R) -> Result<usize, TakeError>
    ensures count { IfOk result (λ count. IfSome (R.remaining reader)
        (λ bytes. count ≡ length (recovered_texts bytes))) }
{
    let mut lines = LineStream::new(alloc, reader, MAX_BYTES);
    let mut line = Vec::new(alloc);
    match pass_lines(&mut lines, &mut line) {
        Ok(count) => Ok(count),
        Err(StreamError::Memory) => Err(TakeError::Memory),
        Err(StreamError::TooLong(_) | StreamError::Read | StreamError::Full) => Err(
            TakeError::Read,
        ),
    }
}

/// The number of the line behind the last one that counts.
fn pass_lines<R: Read>(lines: &mut LineStream<R>, line: &mut Vec<u8>) -> Result<usize, StreamError>
    requires { IsStream lines.old }
    ensures { IfOk result (λ count. IfSome (unread_of R.remaining lines.old) (λ bytes.
        count ≡ lines_given lines.old + length (recovered_texts bytes))) }
{
    let mut count = lines.number();
    'lines: while lines.next_line(line)? {
        count = lines.number();
    }
    Ok(count)
}
