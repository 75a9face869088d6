//! What becomes of a journal in memory over which a book is opened and asked.
ghost use Rattle.std.specs.Prelude.{◌≡◌, false, replicate};
ghost use Rattle.mds_book.specs.Seats.{new_seat};
ghost use Rattle.mds_follow.specs.Reading.{IsAtFirstRequest};
ghost use Rattle.mds_follow.specs.Restart.{BeginsOver};

use mds_book::{
    Blank, Book, Keep, NamedLedger, Packed, RecordFault, Seat, ShardLedger, SharedLedger, reconcile,
};
use mds_core::Request;
use mds_follow::{
    Aside, Disk, Follower, Receipt, Record, RecordLog, RequestReader, SharedFollower, StartFault,
    resume,
};
use mds_groups::GroupFault;
use mds_journal::{Device, DeviceError, JournalFault, Memory};
use mds_log::BlankLog;
use mds_table::{State, Tables};
use std::alloc::{AllocError, Global};
use std::hash::RandomState;
use std::marker::Brand;
use std::random::RandomSource;
use std::sync::Wait;
use std::thread::Threads;
use test_fixtures::Ask::{Look, Register, Report};
use test_fixtures::{A, Ask, B, C, DROP_OFF, E0, Lack, profile_again, requests_of, room_behind};
use test_steps::hasher;

/// The line that names the form.
const FORM: &str = " {\"form\":\"mds_city\",\"version\":1}\n";

/// The lines before the first group, where groups are checked.
const CHECKED: &str = " {\"form\":\"mds_city\",\"version\":2}\n {\"crc32\":\"033c3350\"}\n";

/// The line of the registration of A.
const A_LINE: &str =
    " {\"device_id\":\"00000000-0000-4000-8000-00000000000a\",\"provider_id\":\"00000000-0000-4000-8000-000000000001\"}\n";

/// The line of an event of A.
const EVENT_LINE: &str =
    " {\"device_id\":\"00000000-0000-4000-8000-00000000000a\",\"event_id\":\"00000000-0000-4000-8000-0000000000e0\",\"event_types\":[\"provider_drop_off\"],\"location_e7\":null,\"provider_id\":\"00000000-0000-4000-8000-000000000001\",\"timestamp\":1000,\"vehicle_state\":\"available\"}\n";

/// The line of the registration of B.
const B_LINE: &str =
    " {\"device_id\":\"00000000-0000-4000-8000-00000000000b\",\"provider_id\":\"00000000-0000-4000-8000-000000000001\"}\n";

/// The line of the registration of C.
const C_LINE: &str =
    " {\"device_id\":\"00000000-0000-4000-8000-00000000000c\",\"provider_id\":\"00000000-0000-4000-8000-000000000001\"}\n";

/// The line of A behind a closed gate.
const A_CLOSED: &str =
    "#{\"device_id\":\"00000000-0000-4000-8000-00000000000a\",\"provider_id\":\"00000000-0000-4000-8000-000000000001\"}\n";

/// The same, of B.
const B_CLOSED: &str =
    "#{\"device_id\":\"00000000-0000-4000-8000-00000000000b\",\"provider_id\":\"00000000-0000-4000-8000-000000000001\"}\n";

/// What a crash left of a line.
const TORN: &str = "#{\"device_id\":\"00000000-0000";

/// The check of a group that has the registration of A alone.
const A_CHECK: &str = " {\"crc32\":\"3b29ed11\"}\n";

/// The same, of the event.
const EVENT_CHECK: &str = " {\"crc32\":\"48efb932\"}\n";

/// The same, of B.
const B_CHECK: &str = " {\"crc32\":\"12d69bbd\"}\n";

/// The same, of C.
const C_CHECK: &str = " {\"crc32\":\"0a7c49d9\"}\n";

/// A place in memory for what is cut off a journal.
#[derive(Drop)]
struct Shelf {
    bytes: Vec<u8>,
}

impl Aside for Shelf {
    ghost stand = { λ shelf bytes. shelf.bytes.items ≡ bytes };

    fn put(&mut self, bytes: &[u8]) -> Result<(), DeviceError> {
        if !self.bytes.is_empty() {
            return Err(DeviceError::Failed);
        }
        match self.bytes.extend_from_slice(bytes) {
            Ok(()) => Ok(()),
            Err(AllocError) => Err(DeviceError::Memory),
        }
    }
}

/// A book that is opened over a journal, and asked.
struct Case {
    /// What the file has at first, one after the other.
    parts: &'static [&'static str],
    /// What of it is put aside, one after the other.
    cut: &'static [&'static str],
    /// What another seat asks before the journal is read, if it asks for anything.
    other: &'static [Ask],
    /// What is asked then, one after the other, each recorded before the next.
    asked: &'static [Ask],
    /// What the file has in the end, but for room behind it, or why the book isn't opened: the file is then as it was.
    end: Result<&'static [&'static str], StartFault>,
}

/// What is asked of a book without a past.
const FIRST_ASKED: &[Ask] = &[
    Register(A),
    Report(A, E0, DROP_OFF, State::Available, 1000),
    Look(A),
    Register(B),
];

/// Journals, and what they come to.
const CASES: &[Case] = &[
    // An empty file becomes a journal, and so does one that a crash left before its form was whole.
    Case {
        parts: &[],
        cut: &[],
        other: &[],
        asked: FIRST_ASKED,
        end: Ok(&[
            CHECKED,
            A_LINE,
            A_CHECK,
            EVENT_LINE,
            EVENT_CHECK,
            B_LINE,
            B_CHECK,
            "#",
        ]),
    },
    Case {
        parts: &["#{\"form\":\0\0\0\0_city"],
        cut: &[],
        other: &[],
        asked: &[Register(A)],
        end: Ok(&[CHECKED, A_LINE, A_CHECK, "#"]),
    },
    // What is recorded is asked again, what was torn is cut off, and the next request stands behind.
    Case {
        parts: &[FORM, A_LINE, EVENT_LINE, TORN],
        cut: &[TORN],
        other: &[],
        asked: &[Register(A), Register(B)],
        end: Ok(&[FORM, A_LINE, EVENT_LINE, B_LINE, "#"]),
    },
    // Another's file, another's form, a line that tells nothing, and one that the tables refuse.
    Case {
        parts: &["#!/bin/sh\n"],
        cut: &[],
        other: &[],
        asked: &[],
        end: Err(StartFault::Journal(GroupFault::Journal(JournalFault::Form))),
    },
    Case {
        parts: &[" {\"form\":\"mds_city\",\"version\":3}\n#"],
        cut: &[],
        other: &[],
        asked: &[],
        end: Err(StartFault::Journal(GroupFault::Journal(JournalFault::Form))),
    },
    Case {
        parts: &[FORM, A_LINE, " {}\n", "#"],
        cut: &[],
        other: &[],
        asked: &[],
        end: Err(StartFault::Journal(GroupFault::Journal(JournalFault::BadLine(2)))),
    },
    Case {
        parts: &[FORM, A_LINE, A_LINE, "#"],
        cut: &[],
        other: &[],
        asked: &[],
        end: Err(StartFault::Journal(GroupFault::Journal(JournalFault::Refused(2)))),
    },
    // A journal whose groups are checked is gone on with so. Of a group that was torn, or begun, nothing is left.
    Case {
        parts: &[CHECKED, A_LINE, A_CHECK, TORN],
        cut: &[TORN],
        other: &[],
        asked: &[Register(A), Register(B)],
        end: Ok(&[CHECKED, A_LINE, A_CHECK, B_LINE, B_CHECK, "#"]),
    },
    Case {
        parts: &["#{\"form\":\"mds_city\",\"version\":2}\n {\"crc\0\0"],
        cut: &[],
        other: &[],
        asked: &[],
        end: Ok(&[CHECKED, "#"]),
    },
    // A check that is another's, one that isn't there, and one where there are none.
    Case {
        parts: &[CHECKED, B_LINE, B_CHECK, A_LINE, B_CHECK, "#"],
        cut: &[],
        other: &[],
        asked: &[],
        end: Err(StartFault::Journal(GroupFault::Damaged(4))),
    },
    Case {
        parts: &[CHECKED, A_LINE, "#"],
        cut: &[],
        other: &[],
        asked: &[],
        end: Err(StartFault::Journal(GroupFault::Damaged(2))),
    },
    Case {
        parts: &[" {\"form\":\"mds_city\",\"version\":2}\n#"],
        cut: &[],
        other: &[],
        asked: &[],
        end: Err(StartFault::Journal(GroupFault::Damaged(0))),
    },
    Case {
        parts: &[FORM, A_LINE, A_CHECK, "#"],
        cut: &[],
        other: &[],
        asked: &[],
        end: Err(StartFault::Journal(GroupFault::Damaged(0))),
    },
    // The number of a line counts the checks.
    Case {
        parts: &[CHECKED, A_LINE, A_CHECK, A_LINE, A_CHECK, "#"],
        cut: &[],
        other: &[],
        asked: &[],
        end: Err(StartFault::Journal(GroupFault::Journal(JournalFault::Refused(4)))),
    },
    // A whole group behind the gate is kept, and recorded anew. What is torn behind it is cut off.
    Case {
        parts: &[CHECKED, A_LINE, A_CHECK, B_CLOSED, B_CHECK, "#"],
        cut: &[],
        other: &[],
        asked: &[Register(C)],
        end: Ok(&[
            CHECKED, A_LINE, A_CHECK, B_LINE, B_CHECK, C_LINE, C_CHECK, "#",
        ]),
    },
    Case {
        parts: &[CHECKED, A_LINE, A_CHECK, B_CLOSED, B_CHECK, TORN],
        cut: &[TORN],
        other: &[],
        asked: &[],
        end: Ok(&[CHECKED, A_LINE, A_CHECK, B_LINE, B_CHECK, "#"]),
    },
    Case {
        parts: &[CHECKED, A_CLOSED, A_CHECK],
        cut: &[],
        other: &[],
        asked: &[],
        end: Ok(&[CHECKED, A_LINE, A_CHECK, "#"]),
    },
    // One whose check is another's is cut off, and so is one in a file without checks.
    Case {
        parts: &[CHECKED, A_LINE, A_CHECK, B_CLOSED, A_CHECK, "#"],
        cut: &[B_CLOSED, A_CHECK, "#"],
        other: &[],
        asked: &[],
        end: Ok(&[CHECKED, A_LINE, A_CHECK, "#"]),
    },
    Case {
        parts: &[FORM, A_LINE, B_CLOSED, B_CHECK, "#"],
        cut: &[B_CLOSED, B_CHECK, "#"],
        other: &[],
        asked: &[],
        end: Ok(&[FORM, A_LINE, "#"]),
    },
    // One behind which a gate is open counted once.
    Case {
        parts: &[CHECKED, A_LINE, A_CHECK, B_CLOSED, B_CHECK, C_LINE, "#"],
        cut: &[],
        other: &[],
        asked: &[],
        end: Err(StartFault::Journal(GroupFault::Damaged(4))),
    },
    // One that the tables refuse, or in which one line is no request, is cut off, and a start goes on without it.
    Case {
        parts: &[CHECKED, A_LINE, A_CHECK, A_CLOSED, A_CHECK, "#"],
        cut: &[A_CLOSED, A_CHECK, "#"],
        other: &[],
        asked: &[Register(B)],
        end: Ok(&[CHECKED, A_LINE, A_CHECK, B_LINE, B_CHECK, "#"]),
    },
    // Another seat asks meanwhile.
    Case {
        parts: &[FORM, A_LINE, "#"],
        cut: &[],
        other: &[Register(C)],
        asked: &[],
        end: Err(StartFault::Shared),
    },
];

/// The parts of a text, as one.
fn text_of(alloc: Global, parts: &[&str]) -> Result<Vec<u8>, Lack> {
    let mut text = Vec::new(alloc);
    for part in parts {
        text.extend_from_slice(part.as_bytes())?;
    }
    Ok(text)
}

/// Sees to it that all is recorded that the seat has seen, and does it again where there was no memory.
fn commit_again<F: Record, L: ShardLedger, M: ShardLedger, J: RecordLog, R: Wait>(
    rt: &R,
    book: &Book<L, M>,
    journal: &SharedFollower<F, L, M, J>,
    seat: &Seat<L, M>,
    receipt: &mut Receipt<L, M, J>,
) -> Result<(), Lack> {
    match journal.commit(rt, book, seat, None, receipt) {
        Ok(()) => return Ok(()),
        // A sync found no memory.
        Err(RecordFault::Lost) => return Err(Lack::Memory),
        Err(_) => {}
    }
    match journal.commit(rt, book, seat, None, receipt) {
        Ok(()) => Ok(()),
        Err(_) => Err(Lack::Case),
    }
}

/// Asks the requests of the book by a seat, and has each recorded before the next.
fn ask_each<F: Record, L: ShardLedger, M: ShardLedger, J: RecordLog, R: Wait>(
    rt: &R,
    book: &Book<L, M>,
    journal: &SharedFollower<F, L, M, J>,
    seat: &mut Seat<L, M>,
    receipt: &mut Receipt<L, M, J>,
    requests: &[Request],
) -> Result<(), Lack> {
    for request in requests {
        book.call(rt, seat, request)?;
        commit_again(rt, book, journal, seat, receipt)?;
    }
    Ok(())
}

/// The file once the requests were asked and the book is settled.
fn ended_by<D: Device + Drop, L: ShardLedger, M: ShardLedger, J: RecordLog, R: Wait>(
    rt: &R,
    alloc: Global,
    book: Book<L, M>,
    mut seats: Vec<Seat<L, M>>,
    follower: Follower<Disk<D>, L, M, J>,
    asked: &[Ask],
) -> Result<Disk<D>, Lack> {
    let requests = requests_of(alloc, asked)?;
    let journal = SharedFollower::of(follower);
    let mut receipt = journal.receipt(rt);
    let seat = seats.last_mut().ok_or(Lack::Case)?;
    ask_each(rt, &book, &journal, seat, &mut receipt, &requests)?;
    let Ok(mut settled) = reconcile(book, seats) else {
        return Err(Lack::Case);
    };
    Ok(journal.into_follower().finish(&mut settled))
}

/// The same, of a book of two seats that were told nothing: the first asks what the journal tells.
fn end_at<
    D: Device + Drop + Send,
    L: SharedLedger,
    M: SharedLedger,
    J: RecordLog,
    R: Threads + Wait + Sync,
>(
    rt: &R,
    alloc: Global,
    book: Book<L, M>,
    mut seats: Vec<Seat<L, M>>,
    reader: RequestReader<D>,
    log: BlankLog,
    shelf: &mut Shelf,
    case: &Case,
) -> Result<Result<Disk<D>, (StartFault, D)>, Lack>
    requires seats { seats.items ≡ replicate 2 (new_seat false) }
    requires at_first { IsAtFirstRequest D.seen D.may_leave D.may_be_used D.is_true reader }
    requires log { log ≡ J.log }
    requires begins { BeginsOver J.start J.held (D.moment reader.opening.device)
        (D.seen reader.opening.device) }
{
    if let Some(request) = requests_of(alloc, case.other)?.first() {
        book.call(rt, &mut seats[1], request)?;
    }
    match resume::<D, L, M, J, R, Shelf>(rt, &book, &mut seats[0], reader, log, shelf) {
        Ok(resumed) => {
            let mut follower = resumed.follow(alloc);
            match follower.follow_all(rt, &book, &seats) {
                Ok(()) => {}
                Err(_) => return Err(Lack::Memory),
            }
            Ok(Ok(ended_by(rt, alloc, book, seats, follower, case.asked)?))
        }
        Err(error) => Ok(Err(error)),
    }
}

/// The same, of a new book.
fn end_in<
    D: Device + Drop + Send,
    L: NamedLedger + Send + Sync,
    M: NamedLedger + Send + Sync,
    J: RecordLog,
    R: Threads + Wait + Sync,
>(
    rt: &R,
    alloc: Global,
    tables: Tables,
    hashers: [RandomState; 2],
    first: Blank,
    second: Blank,
    log: BlankLog,
    reader: RequestReader<D>,
    shelf: &mut Shelf,
    case: &Case,
) -> Result<Result<Disk<D>, (StartFault, D)>, Lack>
    requires first { (first.name ≡ L.name) × (first.parts ≡ L.parts) × (first.parts ≡ 2) }
    requires second { (second.name ≡ M.name) × (second.parts ≡ M.parts) × (second.parts ≡ 2) }
    requires first_log { (first.log ≡ L.log) × (first.marks ≡ L.marks) }
    requires second_log { (second.log ≡ M.log) × (second.marks ≡ M.marks) }
    requires tables { (tables ≡ L.tables) × (tables ≡ M.tables) }
    requires at_first { IsAtFirstRequest D.seen D.may_leave D.may_be_used D.is_true reader }
    requires log { log ≡ J.log }
    requires begins { BeginsOver J.start J.held (D.moment reader.opening.device)
        (D.seen reader.opening.device) }
{
    let keep = Keep::Accepted;
    match Book::<Packed<L>, Packed<M>>::open(alloc, tables, 2, keep, first, second, hashers) {
        Ok((book, seats)) => {
            end_at::<D, Packed<L>, Packed<M>, J, R>(
                rt, alloc, book, seats, reader, log, shelf, case,
            )
        }
        Err(_) => Err(Lack::Memory),
    }
}

/// What became of a journal.
#[derive(Drop)]
struct End {
    /// The bytes of the file.
    bytes: Vec<u8>,
    /// What was put aside.
    cut: Vec<u8>,
    /// Why the book wasn't opened, if it wasn't.
    fault: Option<StartFault>,
}

impl End {
    /// Whether there was no memory to open the book.
    fn lacks(&self) -> bool {
        matches!(self.fault, Some(StartFault::Memory | StartFault::Device))
    }
}

/// The same, over a file in memory, with logs of its own.
fn ended_over<R: RandomSource + Threads + Wait + Sync>(
    rt: &R,
    alloc: Global,
    memory: Memory,
    shelf: &mut Shelf,
    case: &Case,
) -> Result<(Memory, Option<StartFault>), Lack> {
    let (tables, hashers) = (profile_again(alloc)?, [hasher(rt)?, hasher(rt)?]);
    let (first, second, log) = (Blank::new(2), Blank::new(2), BlankLog::new());
    let reader = match RequestReader::open(alloc, memory) {
        Ok(reader) => reader,
        Err((fault, device)) => return Ok((device, Some(fault))),
    };
    let came = end_in::<Memory, Brand, Brand, Brand, R>(
        rt, alloc, tables, hashers, first, second, log, reader, shelf, case,
    )?;
    match came {
        Ok(disk) => Ok((disk.journal.device, None)),
        Err((fault, device)) => Ok((device, Some(fault))),
    }
}

/// The same. Where a group was cut off that the tables refuse, a new book is opened over the file.
fn ended<R: RandomSource + Threads + Wait + Sync>(
    rt: &R,
    alloc: Global,
    case: &Case,
) -> Result<End, Lack> {
    let bytes = text_of(alloc, case.parts)?;
    let mut shelf = Shelf {
        bytes: Vec::new(alloc),
    };
    let memory = Memory::new(alloc, &bytes)?;
    let (mut memory, mut fault) = ended_over(rt, alloc, memory, &mut shelf, case)?;
    if fault == Some(StartFault::CutOff) {
        (memory, fault) = ended_over(rt, alloc, memory, &mut shelf, case)?;
    }
    Ok(End {
        bytes: Vec::from_slice(alloc, memory.bytes())?,
        cut: shelf.bytes,
        fault,
    })
}

/// The same, begun again where there was no memory for another call.
fn ended_again<R: RandomSource + Threads + Wait + Sync>(
    rt: &R,
    alloc: Global,
    case: &Case,
) -> Result<End, Lack> {
    match ended(rt, alloc, case) {
        Err(Lack::Memory) => ended(rt, alloc, case),
        Ok(end) if end.lacks() => ended(rt, alloc, case),
        found => found,
    }
}

/// Whether a case comes to its end. Where the book isn't opened the file is as it was. There may be no memory for its text.
fn comes_to_its_end<R: RandomSource + Threads + Wait + Sync>(
    rt: &R,
    alloc: Global,
    case: &Case,
) -> Result<bool, Lack> {
    let end = ended_again(rt, alloc, case)?;
    if end.cut != text_of(alloc, case.cut)? {
        return Ok(false);
    }
    match case.end {
        Ok(parts) => {
            let is_so = room_behind(&end.bytes, &text_of(alloc, parts)?).is_some();
            Ok(end.fault.is_none() && is_so)
        }
        Err(expected) => {
            Ok(end.fault == Some(expected) && end.bytes == text_of(alloc, case.parts)?)
        }
    }
}

/// The number of the first case that comes to another end.
fn first_difference<R: RandomSource + Threads + Wait + Sync>(
    rt: &R,
    alloc: Global,
) -> Result<Option<usize>, Lack> {
    for (at, case) in CASES.iter().enumerate() {
        let comes = match comes_to_its_end(rt, alloc, case) {
            Err(Lack::Memory) => comes_to_its_end(rt, alloc, case)?,
            found => found?,
        };
        if !comes {
            return Ok(Some(at));
        }
    }
    Ok(None)
}

#[test]
fn journals_come_to_their_ends_after_a_refused_growth(rt: HostRuntime) {
    assert_eq!(rt; first_difference(&rt, rt.alloc()), Ok(None));
}
