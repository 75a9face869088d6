//! Books that are served over a journal in memory.
ghost use Rattle.std.specs.Prelude.{◌≡◌, List};
ghost use Rattle.mds_follow.specs.Reading.{IsAtFirstRequest};
ghost use Rattle.mds_follow.specs.Restart.{BeginsOver};
ghost use Rattle.mds_pool.specs.Serving.{Fits, names_of};

use super::{Counts, Listed, TWICE, opening};
use mds_book::{NamedLedger, Packed};
use mds_follow::{Aside, Disk, RecordLog, RequestReader};
use mds_journal::{Device, DeviceError, Memory};
use mds_log::BlankLog;
use mds_pool::{Alarm, Held, NewBook, Port, RecordedBook};
use std::alloc::{AllocError, Global};
use std::marker::Brand;
use std::random::RandomSource;
use std::sync::Wait;
use std::sync::atomic::Ordering;
use std::thread::Threads;
use test_fixtures::{Lack, again, room_behind};

/// A journal in which A is registered, and behind it the torn line of another.
const BEFORE: &[u8] =
    b" {\"form\":\"mds_city\",\"version\":1}\n {\"device_id\":\"00000000-0000-4000-8000-00000000000a\",\"provider_id\":\"00000000-0000-4000-8000-000000000001\"}\n#{\"device_id\":\"00000000";

/// That torn line.
const TORN: &[u8] = b"#{\"device_id\":\"00000000";

/// The same once B is registered, but for room behind it.
const AFTER: &[u8] =
    b" {\"form\":\"mds_city\",\"version\":1}\n {\"device_id\":\"00000000-0000-4000-8000-00000000000a\",\"provider_id\":\"00000000-0000-4000-8000-000000000001\"}\n {\"device_id\":\"00000000-0000-4000-8000-00000000000b\",\"provider_id\":\"00000000-0000-4000-8000-000000000001\"}\n#";

/// A place in memory for what is cut off a journal.
#[derive(Drop)]
struct Shelf {
    bytes: Vec<u8>,
}

impl Aside for Shelf {
    ghost stand = { λ shelf bytes. shelf.bytes.items ≡ bytes };

    fn put(&mut self, bytes: &[u8]) -> Result<(), DeviceError> {
        if !self.bytes.is_empty() {
            return Err(DeviceError::Failed);
        }
        match self.bytes.extend_from_slice(bytes) {
            Ok(()) => Ok(()),
            Err(AllocError) => Err(DeviceError::Memory),
        }
    }
}

/// An alarm that nobody hears.
#[derive(Drop)]
struct Silence;

impl Alarm for Silence {
    fn tell_not_kept(&self) {}
}

/// What a book held that was opened over a journal; how many requests it accepted once it served the port, with those of the
/// journal; and the journal in the end.
fn ended<
    D: Device + Drop + Send,
    R: Threads + Wait + Sync,
    P: Port + Sync,
    L: NamedLedger + Send + Sync,
    M: NamedLedger + Send + Sync,
    J: RecordLog + Send + Sync,
>(
    rt: &R,
    alloc: Global,
    port: &P,
    opening: NewBook,
    reader: RequestReader<D>,
    log: BlankLog,
    shelf: &mut Shelf,
) -> Result<(Held, u128, Disk<D>), Lack>
where
    P::In: Send,
    P::Out: Send,
    requires fits { Fits (names_of L.name L.parts L.log L.marks L.tables)
        (names_of M.name M.parts M.log M.marks M.tables) opening }
    requires at_first { IsAtFirstRequest D.seen D.may_leave
        D.may_be_used D.is_true reader }
    requires log { log ≡ J.log }
    requires begins { BeginsOver J.start J.held (D.moment reader.opening.device)
        (D.seen reader.opening.device) }
{
    let opened = RecordedBook::<Disk<D>, Packed<L>, Packed<M>, J>::open(
        rt, alloc, opening, reader, log, shelf,
    );
    let Ok(mut book) = opened else {
        return Err(Lack::Memory);
    };
    if book.record_all(rt).is_err() {
        return Err(Lack::Memory);
    }
    let held = book.held(rt, alloc)?;
    match book.serve(rt, alloc, port, 2, &Silence) {
        Ok(end) => Ok((held, end.book.settled.accepted(), end.file)),
        Err(_) => Err(Lack::Memory),
    }
}

/// What came of a book.
#[derive(Drop)]
struct End {
    /// What it held when it was opened.
    held: Held,
    /// How many requests it accepted, with those of the journal.
    accepted: u128,
    /// The bytes of the journal.
    bytes: Vec<u8>,
    /// What was put aside of it.
    cut: Vec<u8>,
    /// How many answers of status 200 were begun.
    good: usize,
}

/// What came of a new book of two seats over the journal, where A and B are each to be registered twice.
fn ended_over<R: Threads + Wait + RandomSource + Sync>(rt: &R, alloc: Global) -> Result<End, Lack> {
    let counts = Counts::new();
    let port = Listed::new(TWICE, &counts);
    let opening = opening(rt, alloc, 2)?;
    let Ok(reader) = RequestReader::open(alloc, Memory::new(alloc, BEFORE)?) else {
        return Err(Lack::Memory);
    };
    let mut shelf = Shelf {
        bytes: Vec::new(alloc),
    };
    let (held, accepted, disk) = ended::<Memory, R, Listed<'_>, Brand, Brand, Brand>(
        rt,
        alloc,
        &port,
        opening,
        reader,
        BlankLog::new(),
        &mut shelf,
    )?;
    let bytes = Vec::from_slice(alloc, disk.journal.device.bytes())?;
    Ok(End {
        held,
        accepted,
        bytes,
        cut: shelf.bytes,
        good: counts.good.load(Ordering::SeqCst),
    })
}

/// A registration, and no event.
const ONE_VEHICLE: Held = Held {
    vehicles: 1,
    requests: 1,
    newest: 0,
};

/// Whether the book comes to its end, begun again where there was no memory: with A of the journal and B, both in the journal.
fn comes_to_its_end<R: Threads + Wait + RandomSource + Sync>(
    rt: &R,
    alloc: Global,
) -> Result<bool, Lack> {
    let end = again!(ended_over(rt, alloc))?;
    let is_kept = room_behind(&end.bytes, AFTER).is_some();
    Ok(
        end.held == ONE_VEHICLE
            && end.accepted == 2
            && is_kept
            && end.cut.as_slice() == TORN
            && end.good >= 3,
    )
}

#[test]
fn a_book_is_served_over_its_journal_after_a_refused_growth(rt: HostRuntime) {
    assert_eq!(rt; comes_to_its_end(&rt, rt.alloc()), Ok(true));
}
