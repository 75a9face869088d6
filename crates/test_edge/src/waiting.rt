//! Connections that wait, put and taken, and growths that are refused.
use mds_waiting::{Given, MAX_WAITING, Waiter, Waiting};
use std::alloc::{AllocError, Global};
use std::io::Read;
use test_fixtures::again;

/// A connection of this number that began then and holds these bytes, and whose time is over 100 milliseconds later.
fn waiter(alloc: Global, number: u32, begun: u64, bytes: &[u8]) -> Result<Waiter<u32>, AllocError> {
    let mut held = Vec::new(alloc);
    held.extend_from_slice(bytes)?;
    Ok(Waiter {
        state: number,
        bytes: held,
        begun,
        until: begun.saturating_add(100),
    })
}

/// Lets a connection wait, where there is a key and room for it.
fn add(waiting: &mut Waiting<u32>, waiter: Waiter<u32>) -> Result<Option<usize>, AllocError> {
    let Some(key) = waiting.vacancy()? else {
        return Ok(None);
    };
    if waiting.is_vacant(key) && waiting.has_room(waiter.bytes.len()) {
        waiting.put(key, waiter);
    }
    Ok(Some(key))
}

/// Three connections, of which the second came first.
fn three(alloc: Global) -> Result<Waiting<u32>, AllocError> {
    let mut waiting = Waiting::new(alloc);
    add(&mut waiting, waiter(alloc, 1, 20, b"")?)?;
    add(&mut waiting, waiter(alloc, 2, 10, b"")?)?;
    add(&mut waiting, waiter(alloc, 3, 30, b"abc")?)?;
    Ok(waiting)
}

/// Who is told of: the eldest, the eldest with bytes, who is late first, and who is without a clock; how many wait, what they
/// hold, and how long may be waited.
type Told = ([Option<usize>; 4], [usize; 2], u64);

fn told(waiting: &mut Waiting<u32>) -> Told {
    let early = waiting.find_late(Some(109));
    let late = waiting.find_late(Some(110)).filter(|_| early.is_none());
    let who = [
        waiting.eldest_holding(0),
        waiting.eldest_holding(1),
        late,
        waiting.find_late(None),
    ];
    let counts = [waiting.len(), waiting.held_bytes()];
    (who, counts, waiting.patience(Some(60)))
}

/// What is told of three connections; the numbers of those that come out under a key, and under it again; the key that is free
/// then; and how many wait once there is no key left, and who leaves for others that are too many.
fn told_in_turn(
    alloc: Global,
) -> Result<(Told, [Option<u32>; 3], Option<usize>, usize), AllocError> {
    let mut waiting = three(alloc)?;
    let told = told(&mut waiting);
    let first = waiting.take(0).map(|waiter| waiter.state);
    let again = waiting.take(0).map(|waiter| waiter.state);
    let free = waiting.vacancy()?;
    for _ in 0..MAX_WAITING {
        add(&mut waiting, waiter(alloc, 4, 40, b"")?)?;
    }
    let left = waiting.make_room(usize::MAX).map(|waiter| waiter.state);
    Ok((told, [first, again, left], free, waiting.len()))
}

#[test]
fn connections_wait_and_leave(rt: HostRuntime) {
    let told = ([Some(1), Some(2), Some(1), Some(1)], [3, 3], 50);
    let numbers = [Some(1), None, Some(3)];
    assert_eq!(rt;
        told_in_turn(rt.alloc()),
        Ok((told, numbers, Some(0), MAX_WAITING - 1))
    );
}

/// Bytes that are read three at a time.
fn given(alloc: Global) -> Result<([u8; 6], bool), AllocError> {
    let mut bytes = Vec::new(alloc);
    bytes.extend_from_slice(b"abcde")?;
    let (mut given, mut room) = (Given::new(bytes, None), [0u8; 6]);
    let first = given.read(&mut room[..3]).unwrap_or(0);
    let second = given.give(&mut room[3..]);
    Ok((room, first == 3 && second == 2 && given.is_over()))
}

#[test]
fn bytes_come_in_their_order(rt: HostRuntime) {
    assert_eq!(rt; given(rt.alloc()), Ok((*b"abcde\0", true)));
}

/// Whether a key is found behind a growth that was refused.
fn goes_on(alloc: Global) -> bool {
    let mut waiting: Waiting<u32> = Waiting::new(alloc);
    let mut others: Waiting<u32> = Waiting::new(alloc);
    let first = others.key_for(1);
    let other = if first.is_some() {
        first
    } else {
        others.key_for(1)
    };
    again!(waiting.vacancy()) == Ok(Some(0)) && other == Some(0)
}

#[test]
fn a_key_is_found_after_a_refused_growth(rt: HostRuntime) {
    assert!(rt; goes_on(rt.alloc()));
}

/// Whether room and keys are had where the eldest leave: one that holds more than there is room for, beside one with bytes, and
/// the eldest of all; how long may be waited then, for the time of the first; and whether that is for less than ever once all left.
fn leaves_for_others(alloc: Global) -> Result<(Option<usize>, [usize; 2], bool, bool), AllocError> {
    let mut waiting = three(alloc)?;
    let key = waiting.key_for(usize::MAX);
    let count = waiting.len();
    let first = !waiting.let_eldest_go(10) && waiting.let_eldest_go(11);
    let is_late = waiting.find_late(Some(115)).is_some();
    let patience = waiting.patience(Some(115));
    let is_second = first && !is_late && waiting.take(0).is_some();
    let is_left = waiting.let_eldest_go(u64::MAX)
        || waiting.find_late(Some(1_000)).is_some()
        || waiting.patience(Some(1_000)) < 1_000;
    Ok((key, [count, patience as usize], is_second, is_left))
}

#[test]
fn the_eldest_leave_for_others(rt: HostRuntime) {
    let expected = Ok((Some(2), [2, 5], true, false));
    assert_eq!(rt; leaves_for_others(rt.alloc()), expected);
}
