//! Two locks at once: while one shard is locked, a request about a vehicle of the other is answered.
ghost use Rattle.std.specs.Prelude.{◌≡◌, ◌<◌};

use mds_book::{Blank, Book, Keep, NamedLedger, Note, Plain, Seat, ShardLedger, SharedLedger};
use mds_core::Request;
use mds_shard::Shard;
use mds_table::Tables;
use std::alloc::{AllocError, Global};
use std::hash::RandomState;
use std::marker::Brand;
use std::random::RandomSource;
use std::sync::Wait;
use std::sync::atomic::{AtomicBool, Ordering};
use std::thread;
use std::thread::Threads;
use std::time::{Clock, Duration};
use test_fixtures::{A, B, Lack, key, profile};
use test_steps::hasher;

/// What two threads tell each other.
#[derive(Drop)]
struct Flags {
    locked: AtomicBool,
    answered: AtomicBool,
}

/// How many turns of one millisecond it took until the flag was set, at most 10000.
fn turns_until<C: Clock>(clock: &C, flag: &AtomicBool) -> usize {
    for turn in 0..10_000 {
        if flag.load(Ordering::SeqCst) {
            return turn;
        }
        thread::sleep(clock, Duration::from_millis(1));
    }
    10_000
}

/// Tells that the shard is locked: its length, and whether the other request was answered meanwhile.
fn hold<C: Clock>(clock: &C, shard: &Shard, flags: &Flags) -> (usize, bool) {
    flags.locked.store(true, Ordering::SeqCst);
    (shard.len(), turns_until(clock, &flags.answered) < 10_000)
}

/// Asks one request once the other shard is locked, and tells that it was answered.
fn answer_and_tell<
    L: ShardLedger<Form = Request, Note = Note>,
    M: ShardLedger<Form = Request>,
    R: Wait + Clock,
>(
    rt: &R,
    book: &Book<L, M>,
    mut seat: Seat<L, M>,
    request: &Request,
    flags: &Flags,
) -> Result<(), AllocError> {
    turns_until(rt, &flags.locked);
    book.call(rt, &mut seat, request)?;
    flags.answered.store(true, Ordering::SeqCst);
    Ok(())
}

/// Locks a shard until the request about a vehicle of the other was answered.
fn while_locked<
    L: SharedLedger<SharedForm = Request, SharedNote = Note>,
    M: SharedLedger<SharedForm = Request>,
    R: Threads + Wait + Clock + Sync,
>(
    rt: &R,
    book: &Book<L, M>,
    seat: Seat<L, M>,
    shard: usize,
    request: &Request,
) -> Result<(usize, bool), AllocError>
    requires { shard < 2 }
{
    let flags = Flags {
        locked: AtomicBool::new(false),
        answered: AtomicBool::new(false),
    };
    let told = &flags;
    let (found, called) = thread::join(
        rt,
        move || book.with_shard(rt, shard, |shard| hold(rt, shard, told)),
        move || answer_and_tell(rt, book, seat, request, told),
    );
    called?;
    Ok(found)
}

/// Makes the first request, and the second one while the shard of this number is locked.
fn in_two_locks<
    L: NamedLedger + Send + Sync,
    M: NamedLedger + Send + Sync,
    R: Threads + Wait + Clock + Sync,
>(
    rt: &R,
    alloc: Global,
    tables: Tables,
    shard: usize,
    one: Request,
    other: Request,
    hashers: [RandomState; 2],
    first: Blank,
    second: Blank,
) -> Result<(usize, bool), Lack>
    requires shard { shard < 2 }
    requires first { (first.name ≡ L.name) × (first.parts ≡ L.parts) × (first.parts ≡ 1) }
    requires second { (second.name ≡ M.name) × (second.parts ≡ M.parts) × (second.parts ≡ 1) }
    requires first_log { (first.log ≡ L.log) × (first.marks ≡ L.marks) }
    requires second_log { (second.log ≡ M.log) × (second.marks ≡ M.marks) }
    requires tables { (tables ≡ L.tables) × (tables ≡ M.tables) }
{
    let opened = Book::<Plain<L>, Plain<M>>::open(
        alloc,
        tables,
        1,
        Keep::All,
        first,
        second,
        hashers,
    );
    let Ok((book, mut seats)) = opened else {
        return Err(Lack::Memory);
    };
    let mut seat = seats.pop().ok_or(Lack::Case)?;
    book.call(rt, &mut seat, &one)?;
    Ok(while_locked(rt, &book, seat, shard, &other)?)
}

/// The length of the history of the locked shard, and whether the other request was answered, in a book over the profile.
/// The vehicle of the first device is registered before, and that of the second meanwhile.
fn two_locks<R: Threads + Wait + Clock + RandomSource + Sync>(
    rt: &R,
    alloc: Global,
    shard: usize,
    before: u64,
    meanwhile: u64,
) -> Result<(usize, bool), Lack>
    requires { shard < 2 }
{
    let tables = profile(alloc)?;
    let hashers = [hasher(rt)?, hasher(rt)?];
    let one = Request::Register(key(before));
    let other = Request::Register(key(meanwhile));
    let (first, second) = (Blank::new(1), Blank::new(1));
    in_two_locks::<Brand, Brand, R>(rt, alloc, tables, shard, one, other, hashers, first, second)
}

#[test]
fn two_locks_at_once(rt: HostRuntime) {
    assert_eq!(rt;
        [
            two_locks(&rt, rt.alloc(), 0, A, B),
            two_locks(&rt, rt.alloc(), 1, B, A)
        ],
        [Ok((1, true)), Ok((1, true))]
    );
}
