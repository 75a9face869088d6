//! Lines that are to be added to a journal together.
ghost use Rattle.std.specs.Prelude.{◌≡◌, ◌+◌, ◌<◌, ◌≤◌, ◌↔◌, [], ◌∷◌, ◌++◌, length, take};
ghost use Rattle.std.specs.Prelude.{IsErrOf, IsTrue, IfOk, OnOk, OnErr, IfNone, IfSome, slice_index};
ghost use Rattle.mds_journal.specs.Lines.{HasNoFeed, at_rest, open_lines, recovered_texts};

use memchr::memchr;
use std::alloc::{AllocError, Global};
use std::marker::Model;

/// An open gate: the line behind it counts.
pub(crate) const OPEN_GATE: u8 = b' ';

/// A closed gate: nothing behind it counts.
pub(crate) const CLOSED_GATE: u8 = b'#';

/// What ends a line.
pub(crate) const LINE_FEED: u8 = b'\n';

/// The most bytes of a group, its gates and line feeds among them: 16 MiB.
pub const MAX_GROUP_BYTES: usize = 16_777_216;

/// Why a line isn't taken into a group.
#[derive(Clone, Copy, Debug, PartialEq, Eq)]
pub enum PushError {
    /// The text is empty.
    Empty,
    /// The text has a line feed.
    LineFeed,
    /// The group would have more than [`MAX_GROUP_BYTES`].
    TooLarge,
    /// There was no memory for it.
    Memory,
}

/// Lines that are to be added together. Contracts see the list of their texts.
///
/// It is one buffer: the bytes of a file at rest with these lines.
#[derive(Drop)]
pub struct Group {
    bytes: Vec<u8>,
}

impl Model for Group {
    ghost use Rattle.std.specs.Prelude.{◌≡◌, ◌≤◌, ℕ, List, length};
    ghost use Rattle.mds_journal.specs.Lines.{at_rest, recovered_texts};
    ghost use Rattle.mds_journal.specs.declared.group.TheConstants.{MAX_GROUP_BYTES};

    ghost Value = { List (List ℕ) };

    ghost view = { λ group. recovered_texts group.bytes.items };

    ghost invariant = { λ group. (group.bytes.items ≡ at_rest (recovered_texts group.bytes.items))
        × (length group.bytes.items ≤ MAX_GROUP_BYTES) };
}

impl Group {
    /// A group with no lines.
    ///
    /// # Errors
    ///
    /// `AllocError` where there is no memory for the first gate.
    pub fn new(alloc: Global) -> Result<Group, AllocError>
        ensures { IfOk result (λ group. group ≡ []) }
    {
        let bytes = Vec::from_slice(alloc, &[CLOSED_GATE])?;
        Ok(Group { bytes })
    }

    /// Whether it has no lines.
    pub fn is_empty(&self) -> bool
        ensures { IsTrue result ↔ (self.now ≡ []) }
    {
        self.bytes.len() == 1
    }

    /// Takes all lines out. The memory stays.
    pub fn clear(&mut self)
        ensures { self.new ≡ [] }
    {
        self.bytes.truncate(1);
        self.bytes[0] = CLOSED_GATE;
    }

    /// Adds a line with this text.
    ///
    /// # Errors
    ///
    /// `Empty` or `LineFeed` where the text is none of a line, `TooLarge` where the group would have more than
    /// [`MAX_GROUP_BYTES`], `Memory` where there is no memory. The group stays as it was.
    pub fn push(&mut self, text: &[u8]) -> Result<(), PushError>
        ensures ok { OnOk result (self.new ≡ self.old ++ text.now ∷ []) }
        ensures plain { OnOk result (HasNoFeed text.now × (0 < length text.now)) }
        ensures err { OnErr result (self.new ≡ self.old) }
        ensures empty { IsErrOf result PushError.Empty → text.now ≡ [] }
        ensures line_feed { IsErrOf result PushError.LineFeed → HasNoFeed text.now → ⊥ }
        ensures too_large { IsErrOf result PushError.TooLarge
            → MAX_GROUP_BYTES < length (at_rest self.old) + length text.now + 2 }
    {
        if text.is_empty() {
            return Err(PushError::Empty);
        }
        if find_feed(text).is_some() {
            return Err(PushError::LineFeed);
        }
        let used = self.bytes.len();
        if !has_room(used, text.len()) {
            return Err(PushError::TooLarge);
        }
        if add_line(&mut self.bytes, text).is_err() {
            self.bytes.truncate(used);
            return Err(PushError::Memory);
        }
        self.bytes[used - 1] = OPEN_GATE;
        Ok(())
    }

    /// Its lines as they stand in a file once they count: with open gates.
    pub fn open_lines(&self) -> &[u8]
        ensures { result.now ≡ open_lines self.now }
    {
        &self.bytes[..self.bytes.len() - 1]
    }

    pub(crate) fn bytes(&self) -> &[u8]
        ensures texts { recovered_texts result.now ≡ self.now }
        ensures at_rest { result.now ≡ at_rest self.now }
        ensures short { length result.now ≤ MAX_GROUP_BYTES }
    {
        &self.bytes
    }
}

fn has_room(used: usize, more: usize) -> bool
    requires { used ≤ MAX_GROUP_BYTES }
    ensures { IsTrue result ↔ (used + more + 2 ≤ MAX_GROUP_BYTES) }
{
    more <= MAX_GROUP_BYTES && used + more + 2 <= MAX_GROUP_BYTES
}

fn add_line(bytes: &mut Vec<u8>, text: &[u8]) -> Result<(), AllocError>
    ensures ok { OnOk result (bytes.new.items ≡ bytes.old.items ++ (text.now ++ 10 ∷ 35 ∷ [])) }
    ensures err { OnErr result (take (length bytes.old.items) bytes.new.items ≡ bytes.old.items) }
{
    bytes.extend_from_slice(text)?;
    bytes.extend_from_slice(&[LINE_FEED, CLOSED_GATE])?;
    Ok(())
}

pub(crate) fn find_feed(bytes: &[u8]) -> Option<usize>
    ensures none { IfNone result (HasNoFeed bytes.now) }
    ensures some { IfSome result (λ at. (at < length bytes.now)
        × (slice_index bytes.now at ≡ 10) × HasNoFeed (take at bytes.now)) }
{
    memchr(LINE_FEED, bytes)
}
