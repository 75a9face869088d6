//! A journal that is read a piece ahead of what is asked.
ghost use Rattle.std.specs.Prelude.{◌≡◌, ◌+◌, ◌^◌, ◌≤◌, ◌++◌, length, vec_capacity, vec_len, OnErr, OnOk};
ghost use Rattle.mds_groups.specs.Entries.{numbers_from};
ghost use Rattle.mds_follow.specs.Reading.{IsAtRequest, IsNumbered, IsReadOn};
ghost use Rattle.mds_follow.specs.Pieces.{AreLinesRead, IsNext};

use crate::piece::Piece;
use crate::{RequestReader, StartFault};
use mds_groups::WholeGroup;
use mds_journal::Device;
use mds_log::Tagged;
use std::alloc::{AllocError, Global};
use std::thread::Threads;

/// How many requests are read at a time, and on to the end of their group: enough that threads for each piece cost little, and so
/// few that two pieces of requests take less than 5 MB.
const PIECE: usize = 1024;

/// Behind how many bytes no more groups are read at a time, so that long lines take no more memory than many short ones.
const MOST_BYTES: usize = 1 << 20;

/// A journal that is read at a start, and the piece of it that was read last.
#[derive(Drop)]
pub(crate) struct Ahead<D: Device> {
    pub(crate) reader: RequestReader<D>,
    /// The texts of that piece's requests.
    pub(crate) lines: Vec<Vec<u8>>,
    pub(crate) next: Piece,
}

impl<D: Device> Tagged for Ahead<D> {
    ghost tag = { λ ahead. D.moment ahead.reader.opening.device };
}

/// How many bytes these texts have.
fn bytes_in(texts: &[Vec<u8>]) -> usize {
    let mut bytes = 0usize;
    for text in texts {
        bytes = bytes.saturating_add(text.len());
    }
    bytes
}

/// Puts so many numbers behind the others, from the first one on.
fn push_numbers(numbers: &mut Vec<usize>, first: usize, count: usize)
    requires room { vec_len numbers.old + count ≤ vec_capacity numbers.old }
    requires few { first + count ≤ 2 ^ 64 }
    ensures { numbers.new.items ≡ numbers.old.items ++ numbers_from first count }
{
    for at in 0..count {
        numbers.push_reserved(first + at);
    }
}

/// Puts the texts of a group behind others, and the numbers of their lines. Where there's no memory all stays as it was.
fn add_group(
    group: WholeGroup,
    lines: &mut Vec<Vec<u8>>,
    numbers: &mut Vec<usize>,
) -> Result<(), AllocError>
    requires { IsNumbered group }
    ensures lines { OnOk result (lines.new.items ≡ lines.old.items ++ group.texts.items) }
    ensures numbers { OnOk result (numbers.new.items
        ≡ numbers.old.items ++ numbers_from group.first (length group.texts.items)) }
    ensures unchanged { OnErr result ((lines.new.items ≡ lines.old.items)
        × (numbers.new.items ≡ numbers.old.items)) }
{
    let WholeGroup { first, mut texts } = group;
    let count = texts.len();
    numbers.reserve(count)?;
    lines.append(&mut texts)?;
    push_numbers(numbers, first, count);
    Ok(())
}

impl<D: Device> Ahead<D> {
    /// Reads a piece, in the place of the one before it: the requests of as many groups as are read at a time, or those before the
    /// line that gives none. Two threads share them.
    pub(crate) fn read<R: Threads + Sync>(&mut self, rt: &R)
        requires { IsAtRequest D.seen D.may_leave D.may_be_used D.is_true self.old.reader.opening }
        ensures reading { IsAtRequest D.seen D.may_leave D.may_be_used D.is_true
            self.new.reader.opening }
        ensures read_on { IsReadOn D.seen D.may_leave D.is_true D.moment D.left_since
            self.old.reader.opening self.new.reader.opening }
        ensures next { IsNext D.seen D.is_true self.old.reader self.new.reader self.new.next }
    {
        let end = self.read_groups();
        self.next.read(rt, &self.lines, end);
    }

    /// Reads as many groups as are read at a time, in the place of those before them, and says whether more may come.
    ///
    /// # Errors
    ///
    /// As [`RequestReader::next_group`], of the group behind them.
    fn read_groups(&mut self) -> Result<bool, StartFault>
        requires { IsAtRequest D.seen D.may_leave D.may_be_used D.is_true self.old.reader.opening }
        ensures reading { IsAtRequest D.seen D.may_leave D.may_be_used D.is_true
            self.new.reader.opening }
        ensures read_on { IsReadOn D.seen D.may_leave D.is_true D.moment D.left_since
            self.old.reader.opening self.new.reader.opening }
        ensures lines { AreLinesRead D.seen D.is_true self.old.reader self.new result }
    {
        self.lines.clear();
        self.next.numbers.clear();
        let mut bytes = 0usize;
        'groups: while self.lines.len() < PIECE && bytes < MOST_BYTES {
            let group = match self.reader.next_group() {
                Ok(Some(group)) => group,
                Ok(None) => return Ok(false),
                Err(fault) => return Err(fault),
            };
            bytes = bytes.saturating_add(bytes_in(&group.texts));
            match add_group(group, &mut self.lines, &mut self.next.numbers) {
                Ok(()) => {}
                Err(AllocError) => return Err(StartFault::Memory),
            }
        }
        Ok(true)
    }

    /// The file, as it is.
    pub(crate) fn into_device(self) -> D
        ensures { result ≡ self.reader.opening.device }
    {
        let Ahead {
            reader,
            lines: _lines,
            next: _next,
        } = self;
        reader.into_device()
    }
}
