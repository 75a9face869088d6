//! The lines of requests: laid out, and read.
ghost use Rattle.std.specs.Prelude.{◌≡◌, ◌≢◌, ◌↔◌, [], ◌∷◌, Some, None, true, false, string_bytes, IsTrue, IfOk, IfErr, IfSome, IfNone, OnOk, OnErr};
ghost use Rattle.mds_core.specs.declared.key.Key.{Key as Vehicle};
ghost use Rattle.mds_core.specs.declared.request.Request.TheVariants.{Register, Report};
ghost use Rattle.mds_batch.specs.Items.{IsEventItem};
ghost use Rattle.mds_batch.specs.Batch.{IsItemText};
ghost use Rattle.mds_batch.specs.declared.item.EventItem.TheVariants.{Fault as Wrong};
ghost use Rattle.mds_batch.specs.declared.item.VehicleItem.TheVariants.{Vehicle as Names};
ghost use Rattle.mds_batch.specs.declared.item.ItemFault.TheVariants.{Missing};
ghost use Rattle.mds_batch.specs.declared.member.Member.TheVariants.{EventId};
ghost use Rattle.mds_entries.specs.Entry.{Tells, IsFaultOfLine, IsFaultOfRequest, line_of};

use crate::laying::{add_event, add_registration};
use crate::whole::is_whole;
use mds_batch::{BatchFault, EventItem, ItemFault, ItemReader, Member, VehicleItem, read_vehicles};
use mds_core::{Event, Key, Request};
use std::alloc::{AllocError, Global};

/// Why there is no request of a line, or no line of a request.
#[derive(Clone, Copy, Debug, PartialEq, Eq)]
pub enum EntryFault {
    /// There was no memory. This says nothing of the line.
    Memory,
    /// The line isn't one of a request.
    BadLine,
    /// The request changes nothing, so it has no line.
    NoLine,
}

impl From<BatchFault> for EntryFault {
    ghost use Rattle.mds_entries.specs.Entry.{fault_of_text};

    ghost from_gives = { λ text fault. fault ≡ fault_of_text text };

    fn from(fault: BatchFault) -> EntryFault {
        match fault {
            BatchFault::Memory => EntryFault::Memory,
            BatchFault::TooLong | BatchFault::NotJson | BatchFault::NotList | BatchFault::TooMany =>
                EntryFault::BadLine,
        }
    }
}

/// A reader of lines. What it needs to read one, or to lay one out, it keeps for the next.
pub struct EntryReader {
    alloc: Global,
    items: ItemReader,
    text: String,
}

// By hand: crates above cite it.
impl Drop for EntryReader {
    fn drop(self) {
        let EntryReader {
            alloc: _,
            items: _,
            text: _,
        } = self;
    }
}

impl EntryReader {
    /// A reader that has read nothing.
    pub fn new(alloc: Global) -> EntryReader {
        EntryReader {
            alloc,
            items: ItemReader::new(alloc),
            text: String::new(alloc),
        }
    }

    /// The request that a line tells, by the readers of what clients send.
    ///
    /// # Errors
    ///
    /// `BadLine` where it tells none, `Memory`. The reader can be used again.
    pub fn read(&mut self, line: &[u8]) -> Result<Request, EntryFault>
        ensures request { IfOk result (Tells line.now) }
        ensures fault { IfErr result (IsFaultOfLine line.now) }
    {
        match self.items.read(line)? {
            EventItem::Event(event) => Ok(Request::Report(*event)),
            EventItem::Fault(fault) => {
                let key = read_registration(self.alloc, line, *fault)?;
                Ok(Request::Register(key))
            }
        }
    }

    /// As [`EntryReader::read`], into the place of another request. Of an event only what it has of its own is copied.
    ///
    /// # Errors
    ///
    /// Those of [`EntryReader::read`]. The request stays as it was.
    pub fn read_into(&mut self, line: &[u8], request: &mut Request) -> Result<(), EntryFault>
        ensures request { OnOk result (Tells line.now request.new) }
        ensures fault { IfErr result (IsFaultOfLine line.now) }
        ensures unchanged { OnErr result (request.new ≡ request.old) }
    {
        match self.items.read(line)? {
            EventItem::Event(event) => put_report(request, event),
            EventItem::Fault(fault) => {
                let key = read_registration(self.alloc, line, *fault)?;
                *request = Request::Register(key);
            }
        }
        Ok(())
    }

    /// The text of the line of a request, which stays until the next one is laid out.
    ///
    /// # Errors
    ///
    /// `NoLine` for a look, `BadLine` where the text doesn't tell the request: so of an event whose position isn't on the Earth.
    /// `Memory`.
    pub fn text_of(&mut self, request: &Request) -> Result<&str, EntryFault>
        ensures text { IfOk result (λ text. line_of request.now ≡ Some text.now) }
        ensures tells { IfOk result (λ text. Tells text.now request.now) }
        ensures fault { IfErr result (IsFaultOfRequest request.now) }
    {
        match lay_out(&mut self.text, request) {
            Ok(true) => {}
            Ok(false) => return Err(EntryFault::NoLine),
            Err(_) => return Err(EntryFault::Memory),
        }
        if !is_whole(request) {
            return Err(EntryFault::BadLine);
        }
        Ok(self.text.as_str())
    }
}

fn put_report(request: &mut Request, event: &Event)
    ensures { request.new ≡ Report event.now }
{
    match request {
        Request::Report(before) => before.assign_from(event),
        _ => *request = Request::Report(*event),
    }
}

/// Whether what is wrong with an item is that the identifier of the event isn't there, but each member of a registration is.
fn has_no_id(fault: ItemFault) -> bool
    ensures { IsTrue result ↔ (fault ≡ Missing EventId) }
{
    matches!(fault, ItemFault::Missing(Member::EventId))
}

fn read_registration(alloc: Global, line: &[u8], fault: ItemFault) -> Result<Key, EntryFault>
    requires { IsItemText IsEventItem line.now (Wrong fault) }
    ensures key { IfOk result (λ key. Tells line.now (Register key)) }
    ensures fault { IfErr result (IsFaultOfLine line.now) }
{
    if !has_no_id(fault) {
        return Err(EntryFault::BadLine);
    }
    let items = read_vehicles(alloc, line)?;
    match only_vehicle(items.as_slice()) {
        Some(key) => Ok(key),
        None => Err(EntryFault::BadLine),
    }
}

fn only_vehicle(items: &[VehicleItem]) -> Option<Key>
    ensures some { IfSome result (λ key. items.now ≡ Names key ∷ []) }
    ensures none { IfNone result ((key : Vehicle) → items.now ≢ Names key ∷ []) }
{
    let [item] = items else {
        return None;
    };
    match item {
        VehicleItem::Vehicle(key) => Some(*key),
        VehicleItem::Fault(_) => None,
    }
}

fn lay_out(text: &mut String, request: &Request) -> Result<bool, AllocError>
    ensures some { IfOk result
        (λ has. has ≡ true → line_of request.now ≡ Some (string_bytes text.new)) }
    ensures none { IfOk result (λ has. has ≡ false → line_of request.now ≡ None) }
{
    text.clear();
    match request {
        Request::Register(key) => {
            add_registration(text, key)?;
            Ok(true)
        }
        Request::Report(event) => {
            add_event(text, event)?;
            Ok(true)
        }
        Request::Look(_) => Ok(false),
    }
}
