//! Readers and writers that give little, pause, stop and fail.
use mds_io::WriteErrorKind::{Device, TooManyTurns};
use mds_io::{
    MAX_CALLS, PrintError, ReadError, WriteErrorKind, add_line, end_page, flush_page, read_front,
    read_more, read_up_to, write_all_of,
};
use std::alloc::{AllocError, Global};
use std::io::ErrorKind;
use test_fixtures::{ENDS, FAILS, Last, PAUSES, Plan, Stream, again, fence, rows};

const BLOCKS: Last = Some(ErrorKind::WouldBlock);

const TIMES_OUT: Last = Some(ErrorKind::TimedOut);

/// A stream and the most bytes that are read of it; and how many are, or why none, and the number of calls.
type Reading = ((Plan, usize), (Result<usize, ReadError>, u32));

const READINGS: &[Reading] = rows! {
    (((7, 1, true, ENDS), 9), (Ok(7), 16)),
    (((0, 1, false, ENDS), 9), (Ok(0), 1)),
    (((7, 9, false, ENDS), 6), (Ok(6), 1)),
    (((3, 1, false, FAILS), 9), (DEVICE, 4)),
    (((3, 1, false, BLOCKS), 9), (DEVICE, 4)),
    (((3, 1, false, TIMES_OUT), 9), (DEVICE, 4)),
    (((2, 1, false, PAUSES), 9), (TURNS, 5_000_000)),
    (((2_499_999, 1, true, ENDS), 3_000_000), (Ok(2_499_999), 5_000_000)),
    (((2_500_000, 1, true, ENDS), 3_000_000), (TURNS, 5_000_000)),
    // the same far behind the beginning
    (((250, 250, false, FAILS), 300), (DEVICE, 2)),
    (((250, 250, false, PAUSES), 300), (TURNS, 5_000_000)),
    (((70_000, 1_000, true, FAILS), 80_000), (DEVICE, 142)),
    // two chunks of 65,536 bytes, one byte, and the end
    (((131_073, 200_000, false, ENDS), 200_000), (Ok(131_073), 4)),
};

const DEVICE: Result<usize, ReadError> = Err(ReadError::Device);

const TURNS: Result<usize, ReadError> = Err(ReadError::TooManyTurns);

/// Whether a reading ends so, and counts its calls as the stream does.
fn reads_so(alloc: Global, ((plan, most), ended): &Reading) -> bool {
    let mut stream = Stream::new(*plan);
    let mut calls = MAX_CALLS;
    let read = read_front(alloc, &mut stream, *most, &mut calls).map(|bytes| bytes.len());
    (read, stream.calls) == *ended && calls.checked_add(stream.calls) == Some(MAX_CALLS)
}

#[test]
fn reads_end_as_the_stream_does(rt: HostRuntime) {
    let other = READINGS
        .iter()
        .position(|reading| !reads_so(rt.alloc(), reading));
    assert_eq!(rt; other, None);
}

/// How many bytes are written, and the stream; and where writing stops and why if not all go out, and the number of calls.
type Writing = ((usize, Plan), (Option<(usize, WriteErrorKind)>, u32));

const WRITINGS: &[Writing] = rows! {
    ((0, (9, 1, true, ENDS)), (None, 0)),
    ((3, (9, 1, true, ENDS)), (None, 6)),
    ((3, (2, 1, false, ENDS)), (Some((2, Device)), 3)),
    ((3, (1, 1, false, FAILS)), (Some((1, Device)), 2)),
    ((3, (1, 1, false, BLOCKS)), (Some((1, Device)), 2)),
    ((3, (1, 1, false, TIMES_OUT)), (Some((1, Device)), 2)),
    ((3, (2, 1, false, PAUSES)), (Some((2, TooManyTurns)), MAX_CALLS)),
    // the same far behind the beginning
    ((300, (250, 250, false, ENDS)), (Some((250, Device)), 2)),
    ((300, (250, 250, false, FAILS)), (Some((250, Device)), 2)),
    ((300, (250, 250, false, PAUSES)), (Some((250, TooManyTurns)), MAX_CALLS)),
    ((70_000, (65_536, 1_000, true, FAILS)), (Some((65_536, Device)), 134)),
    // a text is offered whole
    ((131_073, (200_000, 200_000, false, ENDS)), (None, 1)),
    // the last call that is allowed may be the one that takes the last byte
    ((2_500_000, (3_000_000, 1, true, ENDS)), (None, 5_000_000)),
    ((2_500_001, (3_000_000, 1, true, ENDS)), (Some((2_500_000, TooManyTurns)), 5_000_000)),
};

/// Whether a writing ends so, and counts its calls as the stream does.
fn writes_so(alloc: Global, ((length, plan), ended): &Writing) -> Result<bool, AllocError> {
    let bytes = vec![in alloc; 7u8; *length]?;
    let mut stream = Stream::new(*plan);
    let mut calls = MAX_CALLS;
    let stop = write_all_of(&mut stream, &bytes, &mut calls).err();
    let found = (stop.map(|stop| (stop.sent, stop.kind)), stream.calls);
    Ok(found == *ended && calls.checked_add(stream.calls) == Some(MAX_CALLS))
}

#[test]
fn writes_end_as_the_stream_does(rt: HostRuntime) {
    let other = WRITINGS
        .iter()
        .position(|writing| writes_so(rt.alloc(), writing) != Ok(true));
    assert_eq!(rt; other, None);
}

/// What a read answers, how many bytes there are then, and how many calls are left.
type Step = (Result<bool, ReadError>, usize, u32);

/// What reads of a stream answer: of a piece, up to so many bytes, and up to nine, by so many calls in all.
fn read_in_turn(alloc: Global, plan: Plan, limit: usize, calls: u32) -> [Step; 3] {
    let mut stream = Stream::new(plan);
    let mut bytes = Vec::new(alloc);
    let mut room = [0u8; 4];
    let mut calls = calls;
    let more = read_more(&mut stream, &mut bytes, &mut room, 9, &mut calls);
    let piece = (more, bytes.len(), calls);
    let some = read_up_to(&mut stream, &mut bytes, &mut room, limit, &mut calls);
    let wanted = (some.map(|()| true), bytes.len(), calls);
    let all = read_up_to(&mut stream, &mut bytes, &mut room, 9, &mut calls);
    [piece, wanted, (all.map(|()| true), bytes.len(), calls)]
}

/// Reads of several kinds share the calls, and ask for no more than is wanted.
#[test]
fn reads_share_the_calls(rt: HostRuntime) {
    let pausing = read_in_turn(rt.alloc(), (7, 1, true, PAUSES), 3, 10);
    let whole = read_in_turn(rt.alloc(), (7, 9, false, ENDS), 5, 9);
    let turns = (Err(ReadError::TooManyTurns), 5, 0);
    assert_eq!(rt;
        [pausing, whole],
        [
            [(Ok(false), 1, 8), (Ok(true), 3, 4), turns],
            [(Ok(false), 4, 8), (Ok(true), 5, 7), (Ok(true), 7, 5)]
        ]
    );
}

/// How many bytes went out and wait on the page: behind 10,922 lines of six bytes, and behind another one.
fn shared_page(alloc: Global) -> Result<[(usize, usize); 2], PrintError> {
    let mut out = Vec::new(alloc);
    let mut page = String::new(alloc);
    for _ in 0..10_922 {
        add_line(&mut out, &mut page, &10_001)?;
    }
    let before = (out.len(), page.len());
    add_line(&mut out, &mut page, &10_001)?;
    Ok([before, (out.len(), page.len())])
}

#[test]
fn lines_share_a_write(rt: HostRuntime) {
    assert_eq!(rt; shared_page(rt.alloc()), Ok([(0, 65_532), (65_538, 0)]));
}

/// What comes of as many lines that go to a stream, how many calls that takes, and how many bytes the page has then.
fn paged(alloc: Global, plan: Plan) -> (Result<(), PrintError>, u32, usize) {
    let mut out = Stream::new(plan);
    let (mut page, mut end) = (String::new(alloc), Ok(()));
    for _ in 0..10_923 {
        end = end.and_then(|()| add_line(&mut out, &mut page, &10_001));
    }
    (end, out.calls, page.len())
}

#[test]
fn pages_go_out_in_pieces(rt: HostRuntime) {
    let whole = paged(rt.alloc(), (70_000, 1_000, true, ENDS));
    let front = paged(rt.alloc(), (65_000, 1_000, true, FAILS));
    let stop = (Err(PrintError::Device), 132, 65_538);
    assert_eq!(rt; [whole, front], [(Ok(()), 132, 0), stop]);
}

/// What two kinds of reads give behind three bytes, each made again where its growth is refused, which leaves all as it was.
fn read_again(alloc: Global) -> Result<Vec<u8>, ReadError> {
    let mut bytes = Vec::new(alloc);
    let mut room = [0u8; 4];
    let mut calls = MAX_CALLS;
    let more = read_more(&mut b"abc".as_slice(), &mut bytes, &mut room, 9, &mut calls);
    if more == Err(ReadError::Memory) && bytes.is_empty() {
        read_more(&mut b"abc".as_slice(), &mut bytes, &mut room, 9, &mut calls)?;
    }
    let mut rest = b"defghijklmnop".as_slice();
    if read_up_to(&mut rest, &mut bytes, &mut room, 16, &mut calls).is_err() {
        bytes.truncate(3);
        rest = b"defghijklmnop".as_slice();
        read_up_to(&mut rest, &mut bytes, &mut room, 16, &mut calls)?;
    }
    Ok(bytes)
}

/// Two lines, laid out and put out on a page of their own, and how many bytes the page has then.
fn two_lines(alloc: Global) -> Result<(Vec<u8>, usize), PrintError> {
    let mut out = Vec::new(alloc);
    let mut page = String::new(alloc);
    add_line(&mut out, &mut page, &"accepted 3")?;
    end_page(&mut out, &mut page, &7)?;
    Ok((out, page.len()))
}

/// Each call that takes memory, made again where its growth is refused (by `tests/refused-growths`).
#[test]
fn calls_succeed_after_a_refused_growth(rt: HostRuntime) {
    let front = again!(read_front(rt.alloc(), &mut b"abc".as_slice(), 9, &mut 3)).map(
        |bytes| bytes.len(),
    );
    let bytes = read_again(rt.alloc()).map(|bytes| bytes.as_slice()
        == b"abcdefghijklmnop".as_slice());
    let lines = again!(two_lines(rt.alloc())).map(|told| (
        told.0.as_slice() == b"accepted 3\n7\n".as_slice(),
        told.1,
    ));
    assert_eq!(rt; (front, bytes, lines), (Ok(3), Ok(true), Ok((true, 0))));
}

/// Whether three bytes go out by three calls, what comes of a page, how many bytes more it takes and the page has, and all calls.
type Sent = (bool, Result<(), PrintError>, usize, usize, u32);

fn sent(page: &mut String, plan: Plan) -> Sent {
    let mut out = Stream::new(plan);
    let wrote = write_all_of(&mut out, b"abc", &mut 3).is_ok();
    let end = flush_page(&mut out, page);
    (wrote, end, out.left, page.len(), out.calls)
}

/// A page that can't be put out whole is kept, and one that can is emptied.
#[test]
fn writes_go_out_with_every_growth_refused(rt: HostRuntime) {
    let mut page = String::new(rt.alloc());
    let pushed = page.push_str("accepted 3\n");
    let _begun = fence(rt.alloc());
    let end = sent(&mut page, (6, 1, false, ENDS));
    let fault = sent(&mut page, (6, 1, false, FAILS));
    let whole = sent(&mut page, (20, 20, false, ENDS));
    let _ended = fence(rt.alloc());
    let stop = (true, Err(PrintError::Device), 0, 11, 7);
    let expected = [stop, stop, (true, Ok(()), 6, 0, 2)];
    assert_eq!(rt; (pushed, [end, fault, whole]), (Ok(()), expected));
}
