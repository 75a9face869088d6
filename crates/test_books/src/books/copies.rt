//! What is copied of a book's shards while it is in use.

use mds_book::{Book, Copies, Progress, ShardLedger};
use std::alloc::Global;
use std::sync::Wait;
use test_fixtures::{Lack, again};

/// Copies a piece of each shard, which is asked for again where there was no memory.
pub(super) fn copy_once<L: ShardLedger, M: ShardLedger, R: Wait>(
    rt: &R,
    alloc: Global,
    book: &Book<L, M>,
    first: &mut Progress<L>,
    second: &mut Progress<M>,
) -> Result<(), Lack> {
    let mut copies = Copies::new(alloc);
    again!(book.copy_first(rt, first, &mut copies))?;
    again!(book.copy_second(rt, second, &mut copies))?;
    Ok(())
}

/// How many requests were copied of each shard.
pub(super) fn copied_of<L: ShardLedger, M: ShardLedger>(
    first: &Progress<L>,
    second: &Progress<M>,
) -> [usize; 2] {
    [first.again().count(), second.again().count()]
}
