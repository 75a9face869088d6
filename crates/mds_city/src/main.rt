//! Keeps the states of a city's shared vehicles: serves them over HTTP, replays files of events, steps through a vehicle's
//! events, and prints tables of transitions.
#![tactic(auto)]

mod compact;
mod compacted;
mod cut_file;
mod cuts;
mod figures;
mod follow;
mod journal;
mod page;
mod program;
mod progress;
mod serve;
mod start_room;
mod watched_file;

use crate::compact::MakesFiles;
use crate::cut_file::{CUT, CutFile};
use crate::figures::FiguresPort;
use crate::follow::FollowsJournals;
use crate::journal::{OpensJournals, PutsAside};
use crate::program::{Opens, run, run_at_terminal, tell_words, words_of};
use crate::progress::{Teller, ToldReader};
use crate::serve::{ListenFault, Listens, ServeOptions};
use crate::watched_file::WatchedFile;
use mds_args::VERSION;
use mds_file::{DiskFile, FileFault, FollowedFile, NewFile, open_file};
use mds_io::{MAX_CALLS, write_all_of};
use mds_metrics::{Board, Gauge};
use mds_pool::Held;
use mds_socket::{Listening, SocketIn, SocketOut, SocketPort};
use std::alloc::{AllocError, Global};
use std::fmt::Write as _;
use std::io::{self, ErrorKind, IsTerminal, Read, Stderr};
use std::marker::Brand;
use std::net::Net;
use std::process::ExitCode;
use std::sync::{Arc, OnceLock, Wait};
use std::thread::Threads;
use std::time::Clock;
use std::{env, fs};

/// How many bytes of stack a server finds in the first thread: more than it needs, which was 0.8 MB.
const STACK_BYTES: usize = 1_048_576;

/// How many files are kept of what was cut off a journal.
const MOST_CUT: u32 = 100;

/// What the program runs on: its files, its sockets and its standard streams. `main` alone has a runtime that may wait, so
/// what listens is written for any that may.
#[derive(Drop)]
struct Host<R> {
    rt: R,
    /// The same, for what the thread that tells figures does besides waiting: what it may do rests on no bound.
    own: HostRuntime,
    /// Where figures are kept, once they are.
    board: OnceLock<Arc<Board>>,
}

impl<R> Host<R> {
    /// The board, where there is one.
    fn board(&self) -> Option<Arc<Board>> {
        self.board.get()?.clone().ok()
    }

    /// A new board with a tally for each of so many workers, which is the host's from now on, unless it has one.
    fn open_board(&self, alloc: Global, workers: usize) -> Result<Arc<Board>, AllocError> {
        if let Some(board) = self.board() {
            return Ok(board);
        }
        let board = Arc::new(alloc, Board::new(alloc, VERSION, workers)?)?;
        let _ = self.board.try_set(board.clone()?);
        Ok(board)
    }
}

impl Opens for Host<HostRuntime> {
    type File = ToldReader<fs::File, HostRuntime, Stderr>;

    fn open(&self, path: &str) -> Option<Self::File> {
        let file = fs::open(&self.rt, path).ok()?;
        let size = size_of(file.metadata());
        let alloc = self.rt.alloc();
        Some(ToldReader::new(alloc, file, size, teller_of(self.rt)))
    }
}

/// What tells how far a file is read, on standard error.
fn teller_of(rt: HostRuntime) -> Teller<HostRuntime, Stderr> {
    let faults = rt.stderr();
    let is_terminal = faults.is_terminal();
    Teller {
        clock: rt,
        faults,
        is_terminal,
    }
}

/// How many bytes a file has; of what is no file, as a pipe, that isn't known.
fn size_of(metadata: io::Result<fs::Metadata>) -> Option<u64> {
    let metadata = metadata.ok()?;
    if metadata.is_file() {
        Some(metadata.len())
    } else {
        None
    }
}

impl<R: Net + Wait + Clock + Threads + Copy + Send + Sync + Drop + 'static> Listens for Host<R> {
    type In = SocketIn;

    type Out = SocketOut;

    type Listening = SocketPort<R>;

    fn listen(&self, alloc: Global, number: u16) -> Result<(SocketPort<R>, u16), ListenFault> {
        let mut port = SocketPort::bind(&self.rt, alloc, self.rt, number)?;
        let number = port.number()?;
        if let Some(board) = self.board() {
            board.set(Gauge::Listens, 1);
            if board.tally(0).is_some() {
                port.set_board(board);
            }
        }
        Ok((port, number))
    }

    fn grow_stack(&self, alloc: Global) -> Result<(), ListenFault> {
        let mut room: Vec<u8> = Vec::new(alloc);
        room.reserve(STACK_BYTES)?;
        // The stack gets what this had.
        drop(room);
        touch_stack(&self.own);
        Ok(())
    }

    fn figures_port(
        &self,
        alloc: Global,
        asked: ServeOptions,
    ) -> Result<Option<FiguresPort>, ListenFault> {
        let Some(number) = asked.metrics else {
            return Ok(None);
        };
        let listening = Listening::bind(&self.rt, alloc, self.own, number)?;
        let board = self.open_board(alloc, asked.workers)?;
        if let Ok(now) = self.rt.since_1970() {
            let micros = u64::try_from(now.as_micros()).unwrap_or(u64::MAX);
            board.set(Gauge::StartMicros, micros);
        }
        Ok(Some(FiguresPort {
            own: self.own,
            listening,
            board,
        }))
    }
}

/// The first of some paths that nothing has, for what is cut off the journal of a path: that with `.cut` behind it, and then also with
/// a number. So what an earlier start put aside stays, and keeps no server from starting. Where all are taken it is the last of them.
fn free_path(rt: &HostRuntime, alloc: Global, path: &str) -> Result<String, AllocError> {
    let mut name = cut_path(alloc, path)?;
    for number in 1..MOST_CUT {
        if fs::symlink_metadata(rt, name.as_str()).is_err() {
            break;
        }
        name = cut_path(alloc, path)?;
        if write!(name, ".{number}").is_err() {
            return Err(AllocError);
        }
    }
    Ok(name)
}

/// The path of a journal with `.cut` behind it.
fn cut_path(alloc: Global, path: &str) -> Result<String, AllocError> {
    let mut name = String::new(alloc);
    name.push_str(path)?;
    name.push_str(CUT)?;
    Ok(name)
}

/// Uses so much of this thread's stack.
fn touch_stack(rt: &HostRuntime) {
    let mut room = [0u8; STACK_BYTES];
    // This file has no bytes to give. To be handed the room, the system has to find it there.
    let _ = fs::open(rt, "/dev/null").and_then(|mut file| file.read(&mut room));
}

impl From<AllocError> for ListenFault {
    fn from(_lacks: AllocError) -> ListenFault {
        ListenFault::Memory
    }
}

impl From<io::Error> for ListenFault {
    fn from(error: io::Error) -> ListenFault {
        match error.kind() {
            ErrorKind::OutOfMemory => ListenFault::Memory,
            _ => ListenFault::Refused,
        }
    }
}

impl PutsAside for Host<HostRuntime> {
    type Cuttings = CutFile<NewFile<Brand>, Stderr>;

    fn aside(&self, alloc: Global, path: &str) -> Result<Self::Cuttings, AllocError> {
        let name = free_path(&self.rt, alloc, path)?;
        Ok(CutFile {
            alloc,
            name: NewFile::at(self.rt, alloc, &name)?,
            faults: self.rt.stderr(),
        })
    }
}

impl OpensJournals for Host<HostRuntime> {
    type Journal = WatchedFile<DiskFile<Brand>, HostRuntime, Stderr>;

    fn open_journal(&self, path: &str) -> Result<Self::Journal, FileFault> {
        let alloc = self.rt.alloc();
        let Ok(board) = self.open_board(alloc, 0) else {
            return Err(FileFault::Memory);
        };
        let file = open_file(&self.rt, path)?;
        board.set(Gauge::HasJournal, 1);
        let teller = teller_of(self.rt);
        Ok(WatchedFile::new(alloc, file, board, teller))
    }

    fn tell_held(&self, held: Held) {
        if let Some(board) = self.board() {
            board.set(Gauge::FirstVehicles, held.vehicles);
            board.set(Gauge::FirstRequests, held.requests);
            board.set(Gauge::FirstNewest, held.newest.saturating_mul(1_000));
        }
    }

    /// Where a group of lines couldn't be written, the file of the journal said so already.
    fn tell_not_kept(&self) {
        if self
            .board()
            .is_some_and(|board| board.get(Gauge::FailedGroups) > 0)
        {
            return;
        }
        let mut calls = MAX_CALLS;
        let line = b"mds_city: journal not kept\n";
        let _ = write_all_of(&mut self.rt.stderr(), line, &mut calls);
    }
}

impl MakesFiles for Host<HostRuntime> {
    type New = NewFile<Brand>;

    fn new_file(&self, alloc: Global, path: &str) -> Result<NewFile<Brand>, AllocError> {
        NewFile::at(self.rt, alloc, path)
    }
}

impl FollowsJournals for Host<HostRuntime> {
    type Followed = FollowedFile;

    fn follow(&self, path: &str) -> Option<FollowedFile> {
        FollowedFile::open(self.rt, path).ok()
    }
}

fn main(rt: HostRuntime) -> ExitCode {
    let alloc = rt.alloc();
    let host = Host {
        rt,
        own: rt,
        board: OnceLock::new(),
    };
    let mut faults = rt.stderr();
    let size = size_of(fs::metadata(&rt, "/dev/stdin"));
    let input = ToldReader::new(alloc, rt.stdin(), size, teller_of(rt));
    let status = match words_of(alloc, env::args(&rt)) {
        Ok(words) => {
            let (words, mut out) = (words.as_slice(), rt.stdout());
            if rt.stdin().is_terminal() {
                run_at_terminal(&rt, alloc, words, &host, input, &mut out, &mut faults)
            } else {
                run(&rt, alloc, words, &host, input, &mut out, &mut faults)
            }
        }
        Err(fault) => tell_words(alloc, &mut faults, fault),
    };
    ExitCode::from(status.code())
}
