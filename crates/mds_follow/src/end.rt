//! What stands behind the lines of a journal at a start: room, a group that wasn't opened, or what a crash tore.

ghost use Rattle.std.specs.Prelude.{◌≡◌, ◌≢◌, ◌+◌, ◌<◌, ◌≤◌, ◌^◌, ℕ, List, [], length, take, drop, All, IfOk, IfErr, IfSome, IfNone};
ghost use Rattle.std.specs.List.{AllZip};
ghost use Rattle.mds_core.specs.declared.request.Request.{Request as Told};
ghost use Rattle.mds_journal.specs.Lines.{lines_behind as texts_behind, open_lines};
ghost use Rattle.mds_entries.specs.Entry.{Tells};
ghost use Rattle.mds_groups.specs.Behind.{BeginWithGroup};
ghost use Rattle.mds_follow.specs.End.{IsEnd, IsFoundIn, IsHurtEnd, IsWithoutRoom};
ghost use Rattle.mds_groups.specs.declared.form.JournalForm.TheVariants.{Checked};
ghost use Rattle.mds_follow.specs.Pieces.{texts_in};
ghost use Rattle.mds_follow.specs.Reading.{IsNoJournalFault};

use crate::StartFault;
use crate::piece::Portion;
use crate::start_fault::call_fault;
use mds_check::GroupCheck;
use mds_check::form::CHECK_BYTES;
use mds_core::Request;
use mds_entries::EntryFault;
use mds_groups::{GroupFault, JournalForm};
use mds_journal::{MAX_GROUP_BYTES, Memory, read_all};
use std::alloc::Global;

/// The byte before a line that counts.
const OPEN_GATE: u8 = b' ';

/// The byte that a server leaves behind the lines.
const CLOSED_GATE: u8 = b'#';

/// Of what room is made.
const LINE_FEED: u8 = b'\n';

/// What stands behind the lines of a journal: maybe a group that was written and not opened, and what is to be cut off.
#[derive(Drop)]
pub(crate) struct JournalEnd {
    /// The bytes, from the gate on.
    bytes: Vec<u8>,
    /// How many of them the group's lines have.
    place: usize,
    /// The requests that the group tells.
    pub(crate) requests: Vec<Request>,
}

impl JournalEnd {
    /// What is to be put aside where the group is taken: what stands behind it, without room.
    pub(crate) fn behind_group(&self) -> &[u8]
        ensures { IsWithoutRoom (drop self.now.place self.now.bytes.items) result.now }
    {
        match self.bytes.get(self.place..) {
            Some(behind) => without_room(behind),
            None => &[],
        }
    }

    /// What is to be put aside where it isn't: all, without room.
    pub(crate) fn whole(&self) -> &[u8]
        ensures { IsWithoutRoom self.now.bytes.items result.now }
    {
        without_room(&self.bytes)
    }

    /// What these bytes are, which stand behind the lines of a journal, of which there are so many.
    ///
    /// # Errors
    ///
    /// `Damaged` where a group stands there that its check fits, and behind that an open line: so it counted once. `Memory`.
    pub(crate) fn of(
        alloc: Global,
        form: JournalForm,
        count: usize,
        bytes: Vec<u8>,
    ) -> Result<JournalEnd, StartFault>
        requires { length bytes.items < 2 ^ 63 }
        ensures end { IfOk result (IsEnd form bytes.items) }
        ensures fault { IfErr result (IsHurtEnd form bytes.items count) }
    {
        let found = match form {
            JournalForm::Plain => None,
            JournalForm::Checked => group_in(alloc, count, &bytes)?,
        };
        match found {
            Some((requests, place)) => Ok(JournalEnd {
                bytes,
                place,
                requests,
            }),
            None => Ok(JournalEnd {
                bytes,
                place: 0,
                requests: Vec::new(alloc),
            }),
        }
    }
}

/// The requests of the group that stands whole behind a gate, where each of its texts tells one, and how many bytes its lines have.
///
/// # Errors
///
/// `Damaged` where an open line stands behind it; `Memory`.
fn group_in(
    alloc: Global,
    count: usize,
    bytes: &[u8],
) -> Result<Option<(Vec<Request>, usize)>, StartFault>
    requires { length bytes.now < 2 ^ 63 }
    ensures found { IfOk result (IsFoundIn bytes.now) }
    ensures fault { IfErr result (IsHurtEnd Checked bytes.now count) }
{
    if without_room(bytes).is_empty() {
        return Ok(None);
    }
    let lines = lines_behind(alloc, bytes)?;
    let Some(texts) = texts_of_group(&lines) else {
        return Ok(None);
    };
    if lines.len() > texts + 1 {
        return Err(StartFault::Journal(GroupFault::Damaged(count)));
    }
    let place = bytes_of(&lines);
    match requests_of(alloc, &lines[..texts]) {
        Ok(Some(requests)) => Ok(Some((requests, place))),
        Ok(None) => Ok(None),
        Err(fault) => Err(fault),
    }
}

/// How many bytes open lines of these texts have.
fn bytes_of(texts: &[Vec<u8>]) -> usize
    requires { length (open_lines (texts_in texts.now)) < 2 ^ 63 }
    ensures { result ≡ length (open_lines (texts_in texts.now)) }
{
    let mut bytes = 0usize;
    for text in texts {
        bytes += text.len() + 2;
    }
    bytes
}

/// What bytes have besides the room at their end. A closed gate, and only room behind it, is nothing.
fn without_room(bytes: &[u8]) -> &[u8]
    ensures { IsWithoutRoom bytes.now result.now }
{
    let mut end = bytes.len();
    'room: while end > 0 && bytes[end - 1] == LINE_FEED {
        end -= 1;
    }
    if end > 1 {
        return &bytes[..end];
    }
    if bytes.len() <= 1 || bytes[0] == CLOSED_GATE {
        return &[];
    }
    bytes
}

/// The lines that would count if the gate were open that these bytes begin with.
fn lines_behind(alloc: Global, bytes: &[u8]) -> Result<Vec<Vec<u8>>, StartFault>
    ensures lines { IfOk result (λ lines. texts_in lines.items ≡ texts_behind bytes.now) }
    ensures fault { IfErr result IsNoJournalFault }
{
    let Some((_gate, rest)) = bytes.split_first() else {
        return Ok(Vec::new(alloc));
    };
    let mut opened = Vec::from_slice(alloc, &[OPEN_GATE])?;
    opened.extend_from_slice(rest)?;
    let memory = Memory::new(alloc, &opened)?;
    match read_all(alloc, memory, MAX_GROUP_BYTES) {
        Ok((_journal, lines)) => Ok(lines),
        Err((error, _memory)) => Err(call_fault(error)),
    }
}

/// How many texts the group has that these lines begin with, behind which its check stands. It says `None` where they begin with no
/// whole group that its check fits.
fn texts_of_group(lines: &[Vec<u8>]) -> Option<usize>
    ensures some { IfSome result (λ count. (count < length lines.now)
        × BeginWithGroup (texts_in lines.now) (texts_in (take count lines.now))
        (texts_in (drop (count + 1) lines.now))) }
    ensures none { IfNone result ((texts more : List (List ℕ))
        → BeginWithGroup (texts_in lines.now) texts more → ⊥) }
{
    let mut check = GroupCheck::new();
    for place in 0..lines.len() {
        let line = &lines[place];
        let fits = check.take(line);
        if line.len() == CHECK_BYTES {
            return if fits { Some(place) } else { None };
        }
    }
    None
}

/// The requests that these texts tell, if each tells one.
fn requests_of(alloc: Global, texts: &[Vec<u8>]) -> Result<Option<Vec<Request>>, StartFault>
    ensures some { IfOk result (λ found. IfSome found
        (λ requests. AllZip Tells (texts_in texts.now) requests.items)) }
    ensures none { IfOk result (λ found. IfNone found
        ((told : List Told) → AllZip Tells (texts_in texts.now) told → ⊥)) }
    ensures fault { IfErr result (λ fault. fault ≡ StartFault.Memory) }
{
    let mut portion = Portion::new(alloc);
    match portion.read(texts) {
        Ok(()) => {
            let Portion { requests, .. } = portion;
            Ok(Some(requests))
        }
        Err(EntryFault::Memory) => Err(StartFault::Memory),
        Err(EntryFault::BadLine) => Ok(None),
        Err(EntryFault::NoLine) => Ok(None),
    }
}
