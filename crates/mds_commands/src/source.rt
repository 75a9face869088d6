//! Files that a command reads.
ghost use Rattle.std.specs.Prelude.{◌≡◌, ◌⊎◌, [], List, IfOk, IfErr, IsErrOf, OnOk};
ghost use Rattle.mds_table.specs.TimedFile.{HasTables};
ghost use Rattle.mds_batch.specs.declared.item.EventItem.{EventItem as Item};
ghost use Rattle.mds_batch.specs.Items.{IsEventItem};
ghost use Rattle.mds_batch.specs.Batch.{HasItems};
ghost use Rattle.mds_io.specs.Read.{ConsumesUpTo, HasFront, LosesAt};
ghost use Rattle.mds_commands.specs.Source.{HasBytes, IsReadProblem, IsTableProblem, HasTablesOf, HasTablesIn, ExplainsTableFile, ExplainsTable, IsBatchProblem, HasItemsIn, ExplainsFile, max_read};

use crate::problem::{Problem, read_problem};
use mds_batch::{EventItem, EventItems, TakesItems, each_event};
use mds_io::{MAX_CALLS, ReadError, read_front};
use mds_pieces::read_event_items_by;
use mds_table::{MAX_BYTES, Table, Tables};
use std::alloc::Global;
use std::io::Read;
use std::thread::Threads;

/// How many bytes of a file are read at most: one more than are taken, so that a longer file is seen to be too long.
pub(crate) const MAX_READ: usize = MAX_BYTES + 1;

/// How a file has its items.
#[derive(Clone, Copy, Debug, PartialEq, Eq)]
pub enum Form {
    /// It is a batch: one text of JSON, which lists them.
    Batch,
    /// Each of its lines that isn't blank is one.
    Lines,
}

/// A file that a command reads.
#[derive(Drop)]
pub struct Source<'a, R> {
    /// Its path, as the word was written.
    pub path: &'a str,
    /// What reads it, or `None` where it could not be opened.
    pub reader: Option<R>,
}

fn bytes_in<'a, R: Read + Drop>(
    alloc: Global,
    source: Source<'a, R>,
) -> Result<Vec<u8>, Problem<'a>>
    ensures ok { IfOk result (λ bytes. HasBytes R.remaining source.entry bytes.items) }
    ensures err { IfErr result (IsReadProblem source.entry) }
{
    let path = source.path;
    let Some(mut reader) = source.reader else {
        return Err(Problem::CannotRead(path));
    };
    front_of(alloc, path, &mut reader)
}

/// It reads no further than the first `MAX_READ` bytes.
fn front_of<'a, R: Read>(
    alloc: Global,
    path: &'a str,
    reader: &mut R,
) -> Result<Vec<u8>, Problem<'a>>
    ensures ok { IfOk result (λ bytes. HasFront max_read (R.remaining reader.old) bytes.items) }
    ensures err { IfErr result (λ problem. (problem ≡ Problem.Memory)
        ⊎ (problem ≡ Problem.CannotRead path.entry)) }
    ensures memory { IsErrOf result Problem.Memory → LosesAt ReadError.Memory max_read
        (R.remaining reader.old) (R.remaining reader.new) }
    ensures no_further { ConsumesUpTo max_read (R.remaining reader.old) (R.remaining reader.new) }
{
    let mut calls = MAX_CALLS;
    match read_front(alloc, reader, MAX_READ, &mut calls) {
        Ok(bytes) => Ok(bytes),
        Err(error) => Err(read_problem(path, error)),
    }
}

/// The tables of a table file, or where no file is given the profile's alone, from 0 on.
///
/// # Errors
///
/// `CannotRead` with the file's path, where it couldn't be opened or read; `NotATable` with the first fault of its bytes;
/// `Memory` where there was none for a file that was opened, or for the profile's table.
pub fn tables_in<'a, T: Read + Drop>(
    alloc: Global,
    source: Option<Source<'a, T>>,
) -> Result<Tables, Problem<'a>>
    ensures ok { IfOk result (HasTablesIn T.remaining source.entry) }
    ensures err { IfErr result (ExplainsTable T.remaining source.entry) }
{
    match source {
        Some(source) => tables_of_file(alloc, source),
        None => {
            let profile = Table::profile(alloc)?;
            Ok(Tables::one(alloc, profile)?)
        }
    }
}

fn tables_of_file<'a, T: Read + Drop>(
    alloc: Global,
    source: Source<'a, T>,
) -> Result<Tables, Problem<'a>>
    ensures ok { IfOk result (HasTablesOf T.remaining source.entry) }
    ensures err { IfErr result (ExplainsTableFile T.remaining source.entry) }
{
    let bytes = bytes_in(alloc, source)?;
    tables_of_bytes(alloc, &bytes)
}

/// What is wrong with the bytes is never told as a fault of what gave them.
fn tables_of_bytes<'a>(alloc: Global, bytes: &[u8]) -> Result<Tables, Problem<'a>>
    ensures tables { IfOk result (HasTables bytes.now) }
    ensures fault { IfErr result (IsTableProblem bytes.now) }
{
    Ok(Tables::from_json(alloc, bytes)?)
}

/// The items of a batch in a file, close together, read by so many threads.
pub fn items_by<'a, P: Threads + Sync, R: Read + Drop>(
    rt: &P,
    alloc: Global,
    source: Source<'a, R>,
    readers: usize,
) -> Result<EventItems, Problem<'a>>
    ensures ok { IfOk result (HasItemsIn Form.Batch R.remaining source.entry) }
    ensures err { IfErr result (ExplainsFile Form.Batch R.remaining source.entry) }
{
    let bytes = bytes_in(alloc, source)?;
    items_of_bytes(rt, alloc, &bytes, readers)
}

/// What is wrong with the bytes is never told as a fault of what gave them.
fn items_of_bytes<'a, P: Threads + Sync>(
    rt: &P,
    alloc: Global,
    bytes: &[u8],
    readers: usize,
) -> Result<EventItems, Problem<'a>>
    ensures items { IfOk result (HasItems IsEventItem bytes.now) }
    ensures fault { IfErr result (IsBatchProblem bytes.now) }
{
    Ok(read_event_items_by(rt, alloc, bytes, readers)?)
}

/// Where the file has a fault, the taker has taken some of the items before it.
pub(crate) fn each_item_in<'a, R: Read + Drop, T: TakesItems<Item = EventItem>>(
    alloc: Global,
    source: Source<'a, R>,
    taker: &mut T,
) -> Result<(), Problem<'a>>
    requires { T.took taker.old [] taker.old }
    ensures ok { OnOk result ((items : List Item)
        × HasItemsIn Form.Batch R.remaining source.entry items
        × T.took taker.old items taker.new) }
    ensures err { IfErr result (ExplainsFile Form.Batch R.remaining source.entry) }
{
    let bytes = bytes_in(alloc, source)?;
    each_item_of_bytes(alloc, &bytes, taker)
}

/// What is wrong with the bytes is never told as a fault of what gave them.
fn each_item_of_bytes<'a, T: TakesItems<Item = EventItem>>(
    alloc: Global,
    bytes: &[u8],
    taker: &mut T,
) -> Result<(), Problem<'a>>
    requires { T.took taker.old [] taker.old }
    ensures items { OnOk result ((items : List Item) × HasItems IsEventItem bytes.now items
        × T.took taker.old items taker.new) }
    ensures fault { IfErr result (IsBatchProblem bytes.now) }
{
    Ok(each_event(alloc, bytes, taker)?)
}
