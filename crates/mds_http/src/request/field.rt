//! The fields of a head (RFC 9112, section 5): what is given under a name, and lengths of bodies.
ghost use Rattle.std.specs.Prelude.{◌≡◌, ◌≤◌, ◌<◌, [], ◌∷◌, ◌++◌, List, ℕ, length, map, All, MatchOption, IsTrue, nat_lt, ◌&&◌, true, false, Some, Ok, IfOk, codes};
ghost use Rattle.std.specs.List.{list_all};
ghost use Rattle.std.specs.Char.{is_ascii_digit};
ghost use Rattle.std.specs.Str.{str_eq_ignore_ascii_case};
ghost use Rattle.std.specs.Str.Parse.{digits_value};
ghost use Rattle.httparse.specs.Spans.{header_bytes, IsHeaderWithin};
ghost use Rattle.mds_table.specs.Json.{max_bytes};
ghost use Rattle.mds_http.specs.Head.{values_of};
ghost use Rattle.mds_http.specs.Plan.{is_post};
ghost use Rattle.mds_http.specs.Fields.{AreFieldValues, IsLengthOf};

use crate::request::target::method_of;
use crate::{Aim, HttpFault, Method};
use httparse::spans::HeaderSpan;
use mds_core::Key;
use mds_table::MAX_BYTES;

/// What the fields of a name give.
#[derive(Clone, Copy)]
pub(crate) enum FieldValues<'a> {
    /// Nothing: there is no such field.
    Nothing,
    /// One value, without the spaces and tabs round it.
    Once(&'a [u8]),
    /// More than one value.
    Often,
}

/// Names of fields are compared without regard to the case of letters (RFC 9110, section 5.1).
#[tactic(auto, using(crate::proofs::FieldLemmas::same_name))]
fn has_name(field: &[u8], name: &str) -> bool
    ensures { result ≡ str_eq_ignore_ascii_case field.now name.now }
{
    field.eq_ignore_ascii_case(name.as_bytes())
}

fn with_field<'a>(
    found: FieldValues<'a>,
    bytes: &'a [u8],
    header: &HeaderSpan,
    name: &str,
) -> FieldValues<'a>
    requires { IsHeaderWithin (length bytes.now) header.now }
    ensures { (fields : List (List ℕ × List ℕ))
        → AreFieldValues (values_of name.now fields) found.entry
        → AreFieldValues
        (values_of name.now (fields ++ header_bytes bytes.now header.now ∷ [])) result }
{
    if !has_name(header.name.of(bytes), name) {
        return found;
    }
    match found {
        FieldValues::Nothing => FieldValues::Once(header.value.of(bytes)),
        FieldValues::Once(_) | FieldValues::Often => FieldValues::Often,
    }
}

pub(crate) fn look_up<'a>(bytes: &'a [u8], headers: &[HeaderSpan], name: &str) -> FieldValues<'a>
    requires { All (IsHeaderWithin (length bytes.now)) headers.now }
    ensures { AreFieldValues
        (values_of name.now (map (header_bytes bytes.now) headers.now)) result }
{
    let mut found = FieldValues::Nothing;
    for header in headers {
        found = with_field(found, bytes, header, name);
    }
    found
}

fn are_digits(bytes: &[u8]) -> bool
    ensures { result ≡ list_all is_ascii_digit bytes.now }
{
    bytes.iter().all(|byte| byte.is_ascii_digit())
}

pub(crate) fn is_number(value: &[u8]) -> bool
    ensures { result ≡ (nat_lt 0 (length value.now) && list_all is_ascii_digit value.now) }
{
    !value.is_empty() && are_digits(value)
}

pub(crate) fn length_of(digits: &[u8]) -> Option<usize>
    requires { IsTrue (list_all is_ascii_digit digits.now) }
    ensures { MatchOption result (max_bytes < digits_value 10 digits.now)
        (λ len. (len ≡ digits_value 10 digits.now) × (len ≤ max_bytes)) }
{
    let mut len = 0;
    for digit in digits {
        len = len * 10 + usize::from(digit - b'0');
        if len > MAX_BYTES {
            return None;
        }
    }
    Some(len)
}

/// The fields lie in these bytes. A GET has no body, whatever it announces.
pub(crate) fn body_length(
    aim: &Aim<Key>,
    bytes: &[u8],
    headers: &[HeaderSpan],
) -> Result<usize, HttpFault>
    requires { All (IsHeaderWithin (length bytes.now)) headers.now }
    ensures get { is_post (Some aim.now) ≡ false → result ≡ Ok 0 }
    ensures post { is_post (Some aim.now) ≡ true → IsLengthOf (values_of (codes "content-length")
        (map (header_bytes bytes.now) headers.now)) result }
    ensures few { IfOk result (λ len. len ≤ max_bytes) }
{
    if method_of(aim) == Method::Get {
        return Ok(0);
    }
    match look_up(bytes, headers, "content-length") {
        FieldValues::Nothing => Err(HttpFault::LengthRequired),
        FieldValues::Once(value) if is_number(value) => length_of(value).ok_or(HttpFault::TooLong),
        FieldValues::Once(_) | FieldValues::Often => Err(HttpFault::BadLength),
    }
}
