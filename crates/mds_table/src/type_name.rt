//! The names of event types.
ghost use Rattle.std.specs.Prelude.{◌≡◌, ◌↔◌, Some, IsOk, IfOk, IfErr, not, position, codes, nat_eq, refl};
ghost use Rattle.std.specs.Ordering.{nat_cmp};
ghost use Rattle.std.specs.Cmp.{partial_equiv_from_equiv};
ghost use Rattle.std.specs.Cmp.Lexicographic.{pointwise, slice_cmp, nat_list_eq_equiv, nat_list_cmp_total, texts_po, texts_ties};
ghost use Rattle.mds_table.specs.TypeName.{may_stand, IsTypeName};
ghost use Rattle.mds_table.specs.NameFault.{FaultOf, name_fault_text};

use std::cmp::Ordering;
use std::error::Error;
use std::marker::Model;
use std::{fmt, str};

/// The most bytes that a type name has.
pub const MAX_NAME_BYTES: usize = 32;

/// The name of an event type: 1 to 32 bytes of `a` to `z`, `0` to `9` and `_`. It holds no memory of its own, and takes
/// 33 bytes.
#[derive(Clone, Copy)]
pub struct TypeName {
    /// The bytes of the name, then zeros.
    bytes: [u8; MAX_NAME_BYTES],
    length: u8,
}

impl Model for TypeName {
    ghost use Rattle.std.specs.Prelude.{List, ℕ, length as count, take};
    ghost use Rattle.mds_table.specs.TypeName.{padded_name, IsPadded};

    ghost Value = { List ℕ };

    ghost view = { λ name. take name.length name.bytes };

    ghost invariant = { λ name. IsPadded name.bytes name.length };

    ghost inverse = { λ name. record { bytes = padded_name name; length = count name } };

    ghost inverse_ok = { λ _ padded.
        λ i. record { bytes = padded.whole i; length = padded.count i } };
}

/// Why a text is no type name.
#[derive(Clone, Copy, Debug, PartialEq, Eq)]
pub enum NameFault {
    /// The text has no byte.
    Empty,
    /// The text has more than 32 bytes.
    TooLong,
    /// The byte at this place may not stand in a name; it is the first of those.
    BadByte(usize),
}

impl Error for NameFault {}

impl fmt::Display for NameFault {
    ghost output = { λ fault. Some (name_fault_text fault) };

    fn fmt<W: fmt::Write>(&self, f: &mut fmt::Formatter<W>) -> fmt::Result {
        match self {
            NameFault::Empty => f.write_str("empty"),
            NameFault::TooLong => f.write_str("too_long"),
            NameFault::BadByte(at) => write!(f, "bad_byte {at}"),
        }
    }
}

impl TypeName {
    /// The type name that the text is.
    ///
    /// # Errors
    ///
    /// The first fault of the text, in the order of [`NameFault`].
    pub fn new(text: &str) -> Result<TypeName, NameFault>
        ensures exact { IsOk result ↔ IsTypeName text.now }
        ensures name { IfOk result (λ name. name ≡ text.now) }
        ensures fault { IfErr result (FaultOf text.now) }
    {
        if text.is_empty() {
            return Err(NameFault::Empty);
        }
        if text.len() > MAX_NAME_BYTES {
            return Err(NameFault::TooLong);
        }
        if let Some(at) = first_bad_byte(text.as_bytes()) {
            return Err(NameFault::BadByte(at));
        }
        Ok(TypeName::of_bytes(text.as_bytes()))
    }

    /// The text of the name.
    pub fn as_str(&self) -> &str
        ensures { result.now ≡ self.now }
    {
        // That the bytes are UTF-8, which this requires, is proved: each of them is ASCII.
        unsafe { str::from_utf8_unchecked(self.as_bytes()) }
    }

    /// The bytes of the name, of which each is ASCII.
    pub fn as_bytes(&self) -> &[u8]
        ensures bytes { result.now ≡ self.now }
        ensures name { IsTypeName result.now }
    {
        &self.bytes[..usize::from(self.length)]
    }

    fn of_bytes(text: &[u8]) -> TypeName
        requires { IsTypeName text.now }
        ensures { result ≡ text.now }
    {
        let mut bytes = [0; MAX_NAME_BYTES];
        bytes[..text.len()].copy_from_slice(text);
        TypeName {
            bytes,
            length: text.len() as u8,
        }
    }

    /// A copy. It takes no memory.
    pub fn copy(&self) -> TypeName
        ensures { result ≡ self.now }
    {
        TypeName {
            bytes: self.bytes,
            length: self.length,
        }
    }
}

impl PartialEq for TypeName {
    ghost eq = { pointwise nat_eq };

    ghost laws = { partial_equiv_from_equiv nat_list_eq_equiv };

    fn eq(&self, other: &TypeName) -> bool {
        self.as_str() == other.as_str()
    }
}

impl Eq for TypeName {
    ghost laws = { nat_list_eq_equiv };
}

impl PartialOrd for TypeName {
    ghost partial_cmp = { λ a b. Some (slice_cmp nat_cmp a b) };

    ghost laws = { texts_po };

    fn partial_cmp(&self, other: &TypeName) -> Option<Ordering> {
        Some(self.cmp(other))
    }
}

/// Names stand in the order of their bytes.
impl Ord for TypeName {
    ghost cmp = { slice_cmp nat_cmp };

    ghost total = { nat_list_cmp_total };

    ghost matches_partial_cmp = { λ _ _. refl };

    ghost matches_eq = { texts_ties };

    fn cmp(&self, other: &TypeName) -> Ordering {
        // Names differ early, so that byte by byte costs less than the words that a text is compared by.
        let order = self.as_bytes().partial_cmp(&other.as_bytes());
        order.unwrap_or(Ordering::Equal)
    }
}

impl Default for TypeName {
    ghost is_default = { λ name. name ≡ codes "unspecified" };

    /// The name `unspecified`, as in MDS; slots of a list that hold no name yet are filled with it.
    fn default() -> TypeName {
        TypeName {
            bytes: *b"unspecified\0\0\0\0\0\0\0\0\0\0\0\0\0\0\0\0\0\0\0\0\0",
            length: 11,
        }
    }
}

/// As the text of the name.
impl fmt::Debug for TypeName {
    fn fmt<W: fmt::Write>(&self, f: &mut fmt::Formatter<W>) -> fmt::Result {
        fmt::Debug::fmt(self.as_str(), f)
    }
}

impl fmt::Display for TypeName {
    ghost output = { λ name. Some name };

    fn fmt<W: fmt::Write>(&self, f: &mut fmt::Formatter<W>) -> fmt::Result {
        f.write_str(self.as_str())
    }
}

fn may_stand_in_name(byte: u8) -> bool
    ensures { result ≡ may_stand byte }
{
    matches!(byte, b'a'..=b'z' | b'0'..=b'9' | b'_')
}

fn first_bad_byte(bytes: &[u8]) -> Option<usize>
    ensures { result ≡ position (λ byte. not (may_stand byte)) bytes.now }
{
    bytes.iter().position(|&byte| !may_stand_in_name(byte))
}
