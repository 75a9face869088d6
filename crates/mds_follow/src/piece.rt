//! Requests that are read a piece at a time, by several threads, in room that is kept for the next ones.
ghost use Rattle.std.specs.Prelude.{◌≡◌, ◌≢◌, ◌^◌, ◌<◌, ◌≤◌, [], length, OnOk};
ghost use Rattle.mds_follow.specs.Pieces.{AreRead, IsFirstPiece, IsReadFrom, IsSaid, first_fault, requests_in, texts_in};

use crate::StartFault;
use crate::start_fault::of_journal;
use mds_core::{Key, Request};
use mds_entries::{EntryFault, EntryReader};
use mds_journal::JournalFault;
use std::alloc::{AllocError, Global};
use std::thread::{Threads, join_mut};
use uuid::Uuid;

/// Half of a piece: its requests, and what reads them.
#[derive(Drop)]
pub(crate) struct Portion {
    entries: EntryReader,
    /// They, in their order.
    pub(crate) requests: Vec<Request>,
}

/// Requests that were read one after the other.
#[derive(Drop)]
pub(crate) struct Piece {
    /// The numbers of their lines, and of those behind them that give none.
    pub(crate) numbers: Vec<usize>,
    /// The first half of them.
    pub(crate) first: Portion,
    /// The half behind it.
    pub(crate) second: Portion,
    /// Whether more may come, or why the line behind them gives none.
    pub(crate) end: Result<bool, StartFault>,
}

/// A request whose place others take: it is none of a line, and is never handed on.
fn blank_request() -> Request {
    Request::Look(Key {
        provider: Uuid::nil(),
        device: Uuid::nil(),
    })
}

/// Leaves so many places of requests, whatever stands there. A list that had no room gets room for just as many.
fn make_places(requests: &mut Vec<Request>, count: usize) -> Result<(), AllocError>
    ensures { OnOk result (length requests.new.items ≡ count) }
{
    requests.truncate(count);
    requests.reserve(count - requests.len())?;
    'places: while requests.len() < count {
        requests.push(blank_request())?;
    }
    Ok(())
}

/// Why the line gives no request whose number stands at this place.
fn fault_at(numbers: &[usize], place: usize, fault: EntryFault) -> StartFault
    requires { fault ≢ EntryFault.Memory → place < length numbers.now }
    ensures { IsSaid numbers.now place fault result }
{
    match fault {
        EntryFault::Memory => StartFault::Memory,
        EntryFault::BadLine | EntryFault::NoLine => {
            of_journal(JournalFault::BadLine(numbers[place]))
        }
    }
}

fn first_of(one: Result<(), EntryFault>, other: Result<(), EntryFault>) -> Result<(), EntryFault>
    ensures { result ≡ first_fault one other }
{
    match one {
        Ok(()) => other,
        Err(fault) => Err(fault),
    }
}

impl Portion {
    pub(crate) fn new(alloc: Global) -> Portion
        ensures { result.requests.items ≡ [] }
    {
        Portion {
            entries: EntryReader::new(alloc),
            requests: Vec::new(alloc),
        }
    }

    fn clear(&mut self)
        ensures { self.new.requests.items ≡ [] }
    {
        self.requests.clear();
    }

    /// Reads the requests that these lines tell, in the places of those before them, up to the first line that tells none. Of an
    /// event only what it has of its own is written.
    ///
    /// # Errors
    ///
    /// Those of [`EntryReader::read_into`], of the line behind the requests; `Memory` where there is none for their places.
    pub(crate) fn read(&mut self, lines: &[Vec<u8>]) -> Result<(), EntryFault>
        ensures { AreRead (texts_in lines.now) self.new.requests.items result }
    {
        if make_places(&mut self.requests, lines.len()).is_err() {
            self.clear();
            return Err(EntryFault::Memory);
        }
        for at in 0..lines.len() {
            match self.entries.read_into(&lines[at], &mut self.requests[at]) {
                Ok(()) => {}
                Err(fault) => {
                    self.requests.truncate(at);
                    return Err(fault);
                }
            }
        }
        Ok(())
    }
}

impl Piece {
    /// A piece with nothing in it, as before the first request of a journal.
    pub(crate) fn new(alloc: Global) -> Piece
        ensures { IsFirstPiece result }
    {
        Piece {
            numbers: Vec::new(alloc),
            first: Portion::new(alloc),
            second: Portion::new(alloc),
            end: Ok(true),
        }
    }

    fn len(&self) -> usize
        requires { length (requests_in self.now) < 2 ^ 64 }
        ensures { result ≡ length (requests_in self.now) }
    {
        self.first.requests.len() + self.second.requests.len()
    }

    /// Reads the requests of both halves, each by a thread.
    fn read_both<R: Threads + Sync>(
        &mut self,
        rt: &R,
        front: &[Vec<u8>],
        behind: &[Vec<u8>],
    ) -> (Result<(), EntryFault>, Result<(), EntryFault>)
        ensures numbers { self.new.numbers ≡ self.old.numbers }
        ensures first { AreRead (texts_in front.now) self.new.first.requests.items result.0 }
        ensures second { AreRead (texts_in behind.now) self.new.second.requests.items result.1 }
    {
        let (first, second) = (&mut self.first, &mut self.second);
        let mut read_behind = || second.read(behind);
        let mut read_front = || first.read(front);
        let (others, ones) = join_mut(rt, &mut read_behind, &mut read_front);
        (ones, others)
    }

    /// As [`Portion::read`], by two threads.
    fn read_texts<R: Threads + Sync>(&mut self, rt: &R, lines: &[Vec<u8>]) -> Result<(), EntryFault>
        ensures numbers { self.new.numbers ≡ self.old.numbers }
        ensures read { AreRead (texts_in lines.now) (requests_in self.new) result }
    {
        let middle = lines.len() / 2;
        let (ones, others) = self.read_both(rt, &lines[..middle], &lines[middle..]);
        if ones.is_err() {
            self.second.clear();
        }
        first_of(ones, others)
    }

    /// Reads the requests that these lines tell, in the place of those before them, up to the first line that tells none, by two
    /// threads. The piece has the lines' numbers, and behind the last one comes this end.
    pub(crate) fn read<R: Threads + Sync>(
        &mut self,
        rt: &R,
        lines: &[Vec<u8>],
        end: Result<bool, StartFault>,
    )
        requires numbered { length lines.now ≤ length self.old.numbers.items }
        requires few { length lines.now < 2 ^ 64 }
        ensures numbers { self.new.numbers ≡ self.old.numbers }
        ensures read { IsReadFrom (texts_in lines.now) end self.new }
        ensures fewer { length (requests_in self.new) ≤ length lines.now }
    {
        let told = self.read_texts(rt, lines);
        self.end = match told {
            Ok(()) => end,
            Err(fault) => Err(fault_at(&self.numbers, self.len(), fault)),
        };
    }
}
