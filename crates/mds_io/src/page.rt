//! Lines that go out page by page.
ghost use Rattle.std.specs.Prelude.{◌≡◌, ◌++◌, ◌<◌, ◌≤◌, [], length, string_bytes, string_len};
ghost use Rattle.std.specs.Prelude.{IsErrOf, OnOk, OnErr, IfErr, IfSome};
ghost use Rattle.std.specs.Io.KnownBytes.{Appends, Keeps};
ghost use Rattle.mds_io.specs.Page.{AppendsFront, Passes, with_newline};

use crate::call::MAX_CALLS;
use crate::write::write_all_of;
use std::fmt::{Display, Write as _};
use std::io::Write;

/// The length in bytes from which on a page is written out.
pub const PAGE_BYTES: usize = 65_536;

/// Why a text could not be written.
#[derive(Debug, Clone, Copy, PartialEq, Eq)]
pub enum PrintError {
    /// There was no memory to lay the text out.
    Memory,
    /// A write failed otherwise than by an interruption or took no byte, or the calls ran out.
    Device,
}

/// Lays `line` and a line feed out behind what `page` holds, and writes the page out and empties it
/// where it then has at least `PAGE_BYTES` bytes.
///
/// So several lines share a call of `write`, and each is written within `MAX_CALLS` calls.
///
/// # Errors
///
/// `Memory` where the page could not grow, and then nothing was written; `Device` where a page of
/// `PAGE_BYTES` bytes or more could not be written whole, and then a front of it went out, not all. The page
/// may then hold any part of the text: nothing more should be written by it.
pub fn add_line<W: Write, D: Display>(
    writer: &mut W,
    page: &mut String,
    line: &D,
) -> Result<(), PrintError>
    ensures ok { OnOk result (IfSome (D.output line.now) (λ text.
        Passes (W.contents writer.old) (W.contents writer.new)
        (string_bytes page.old ++ with_newline text) (string_bytes page.new))) }
    ensures err { OnErr result (IfSome (D.output line.now) (λ text.
        AppendsFront (W.contents writer.old) (W.contents writer.new)
        (string_bytes page.old ++ with_newline text))) }
    ensures memory { IsErrOf result PrintError.Memory
        → Keeps (W.contents writer.old) (W.contents writer.new) }
    ensures device { IsErrOf result PrintError.Device → PAGE_BYTES ≤ string_len page.new }
    ensures short { OnOk result (string_len page.new < PAGE_BYTES) }
    ensures waits { OnOk result (IfSome (D.output line.now) (λ text.
        length (string_bytes page.old ++ with_newline text) < PAGE_BYTES
        → string_bytes page.new ≡ string_bytes page.old ++ with_newline text)) }
    ensures goes { OnOk result (IfSome (D.output line.now) (λ text.
        PAGE_BYTES ≤ length (string_bytes page.old ++ with_newline text)
        → string_bytes page.new ≡ [])) }
{
    if writeln!(page, "{line}").is_err() {
        return Err(PrintError::Memory);
    }
    if page.len() < PAGE_BYTES {
        return Ok(());
    }
    flush_page(writer, page)
}

/// Lays `line` and a line feed out behind what `page` holds, writes it all out and empties the page:
/// how a text ends.
///
/// # Errors
///
/// As for [`add_line`].
pub fn end_page<W: Write, D: Display>(
    writer: &mut W,
    page: &mut String,
    line: &D,
) -> Result<(), PrintError>
    ensures ok { OnOk result (IfSome (D.output line.now) (λ text.
        Appends (W.contents writer.old) (W.contents writer.new)
        (string_bytes page.old ++ with_newline text))) }
    ensures emptied { OnOk result (string_bytes page.new ≡ []) }
    ensures err { OnErr result (IfSome (D.output line.now) (λ text.
        AppendsFront (W.contents writer.old) (W.contents writer.new)
        (string_bytes page.old ++ with_newline text))) }
    ensures memory { IsErrOf result PrintError.Memory
        → Keeps (W.contents writer.old) (W.contents writer.new) }
{
    if writeln!(page, "{line}").is_err() {
        return Err(PrintError::Memory);
    }
    flush_page(writer, page)
}

/// Writes out what `page` holds, by at most `MAX_CALLS` calls of `write`, and empties it.
///
/// # Errors
///
/// `Device`, the only fault, where it could not be written whole: a front of it went out, not all,
/// and the page is as it was.
#[tactic(auto, using(crate::proofs::WriteLemmas::front_of_sent))]
pub fn flush_page<W: Write>(writer: &mut W, page: &mut String) -> Result<(), PrintError>
    ensures ok { OnOk result
        (Appends (W.contents writer.old) (W.contents writer.new) (string_bytes page.old)) }
    ensures emptied { OnOk result (string_bytes page.new ≡ []) }
    ensures err { OnErr result
        (AppendsFront (W.contents writer.old) (W.contents writer.new) (string_bytes page.old)) }
    ensures kept { OnErr result (string_bytes page.new ≡ string_bytes page.old) }
    ensures fault { IfErr result (λ fault. fault ≡ PrintError.Device) }
{
    let mut calls = MAX_CALLS;
    match write_all_of(writer, page.as_bytes(), &mut calls) {
        Ok(()) => {
            page.clear();
            Ok(())
        }
        Err(_) => Err(PrintError::Device),
    }
}
