//! A file that has no form yet, and the lines before its first group.
ghost use Rattle.std.specs.Prelude.{◌≡◌, ◌⊎◌, [], true, IfOk, IfErr};
ghost use Rattle.mds_journal.specs.Device.{LeavesOnly, Untouched};
ghost use Rattle.mds_journal.specs.Lines.{recovered_texts};
ghost use Rattle.mds_groups.specs.Form.{header};
ghost use Rattle.mds_follow.specs.Disk.{MayBeBegun, new_form};
ghost use Rattle.mds_follow.specs.Reading.{IsBlank, IsNoJournalFault, KeepsOrBegins, StaysOrBegins, left_of};

use crate::start_fault::call_fault;
use crate::{Disk, StartFault};
use mds_groups::{JournalForm, form_check};
use mds_journal::{Device, DeviceError, Journal, Opening};
use mds_table::MAX_BYTES;
use std::alloc::Global;

/// The byte before a line that doesn't count yet.
const CLOSED_GATE: u8 = b'#';

/// More bytes than a file has whose form was begun.
const ROOM: usize = 64;

/// Whether the file is empty, or has no more than a crash leaves of the lines before the first group, where they were begun.
/// Whatever else stands in a file without a form is somebody's, and isn't to be written over.
fn is_blank<D: Device>(device: &mut D) -> Result<bool, DeviceError>
    requires { D.may_be_used device.old }
    ensures usable { D.may_be_used device.new }
    ensures untouched { D.is_true device.new → Untouched D.seen D.may_leave D.moment D.left_since
        device.old device.new }
    ensures was_true { D.is_true device.new → D.is_true device.old }
    ensures blank { IfOk result (λ blank. blank ≡ true → D.is_true device.new
        → IsBlank (D.seen device.old)) }
    ensures empty { IfOk result (λ blank. D.is_true device.new → D.seen device.old ≡ []
        → blank ≡ true) }
{
    let mut bytes = [0u8; ROOM];
    let size = match device.size() {
        Ok(size) => size,
        Err(error) => return Err(error),
    };
    if size == 0 {
        return Ok(true);
    }
    match device.read_at(0, &mut bytes) {
        Ok(count) => Ok(count == size && is_begun(&bytes[..count])),
        Err(error) => Err(error),
    }
}

/// Whether bytes are a closed gate and the lines before the first group, of either form, or less of them: a byte that isn't on the
/// disk yet is 0.
fn is_begun(bytes: &[u8]) -> bool
    ensures { result ≡ true → recovered_texts bytes.now ≡ [] }
{
    let Some((gate, rest)) = bytes.split_first() else {
        return true;
    };
    if *gate != CLOSED_GATE && *gate != 0 {
        return false;
    }
    let plain = JournalForm::Plain.first_line().as_bytes();
    let checked = JournalForm::Checked.first_line().as_bytes();
    are_parts(rest, &[plain, b"\n#"]) || are_parts(rest, &[checked, b"\n ", &form_check(), b"\n#"])
}

/// Whether bytes are these texts, one behind the other, or less of them: each of their bytes, or 0.
fn are_parts(bytes: &[u8], texts: &[&[u8]]) -> bool {
    let mut rest = bytes;
    for text in texts {
        let (part, behind) = rest.split_at(rest.len().min(text.len()));
        if !is_part(part, text) {
            return false;
        }
        rest = behind;
    }
    rest.is_empty()
}

/// Whether each of these bytes is that of a text at its place, or 0.
fn is_part(bytes: &[u8], text: &[u8]) -> bool {
    if bytes.len() > text.len() {
        return false;
    }
    for at in 0..bytes.len() {
        if bytes[at] != 0 && bytes[at] != text[at] {
            return false;
        }
    }
    true
}

/// A file with the lines before the first group, if it was blank; else the file as it was.
///
/// # Errors
///
/// `Memory`, and `Device` where a call of the device failed. The device comes back.
pub(crate) fn with_form<D: Device>(alloc: Global, mut device: D) -> Result<D, (StartFault, D)>
    requires { D.may_be_used device }
    ensures usable { IfOk result D.may_be_used }
    ensures kept { IfOk result (λ made. D.is_true made
        → StaysOrBegins (D.seen device) (D.seen made)) }
    ensures empty { IfOk result (λ made. D.is_true made → D.seen device ≡ []
        → recovered_texts (D.seen made) ≡ header new_form) }
    ensures any_moment { D.is_true (left_of result (λ made. made) (λ error. error.1))
        → LeavesOnly D.moment D.left_since device
        (left_of result (λ made. made) (λ error. error.1))
        (λ c. D.may_leave device c ⊎ KeepsOrBegins (D.seen device) c) }
    ensures was_true { D.is_true (left_of result (λ made. made) (λ error. error.1))
        → D.is_true device }
    ensures fault { IfErr result (λ error. IsNoJournalFault error.0) }
{
    match is_blank(&mut device) {
        Ok(true) => make_form(alloc, device),
        Ok(false) => Ok(device),
        Err(error) => Err((StartFault::from(error), device)),
    }
}

/// Writes the lines before the first group into a blank file.
///
/// # Errors
///
/// As [`with_form`].
fn make_form<D: Device>(alloc: Global, device: D) -> Result<D, (StartFault, D)>
    requires usable { D.may_be_used device }
    requires blank { D.is_true device → IsBlank (D.seen device) }
    ensures usable { IfOk result D.may_be_used }
    ensures made { IfOk result (λ made. D.is_true made
        → recovered_texts (D.seen made) ≡ header new_form) }
    ensures any_moment { D.is_true (left_of result (λ made. made) (λ error. error.1))
        → LeavesOnly D.moment D.left_since device
        (left_of result (λ made. made) (λ error. error.1))
        (λ c. D.may_leave device c ⊎ MayBeBegun c) }
    ensures was_true { D.is_true (left_of result (λ made. made) (λ error. error.1))
        → D.is_true device }
    ensures fault { IfErr result (λ error. IsNoJournalFault error.0) }
{
    let opening = match Opening::start(alloc, device, MAX_BYTES) {
        Ok(opening) => opening,
        Err((error, device)) => return Err((call_fault(error), device)),
    };
    let journal = match opening.finish() {
        Ok(journal) => journal,
        Err((error, device)) => return Err((call_fault(error), device)),
    };
    match Disk::create(alloc, journal) {
        Ok(disk) => {
            let Disk { journal, .. } = disk;
            let Journal { device, .. } = journal;
            Ok(device)
        }
        Err((fault, journal)) => {
            let Journal { device, .. } = journal;
            Err((StartFault::from(fault), device))
        }
    }
}
