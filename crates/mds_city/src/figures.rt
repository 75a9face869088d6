//! The port at which figures are told, and what is told of the process.
use crate::serve::{ListenFault, Listens, ServeOptions};
use mds_io::{MAX_CALLS, write_all_of};
use mds_metrics::{
    Asked, Board, Gauge, asked_of, metrics_answer, not_found_bytes, out_of_memory_bytes,
    ready_answer,
};
use mds_pool::{Ending, Port};
use mds_socket::{Listening, Sockets, WaitingPort};
use std::alloc::{Alloc, AllocError, Global};
use std::fs::{self, Files};
use std::io::{Read, Write};
use std::sync::{Arc, Wait};
use std::thread::{self, Threads};

/// Room for the first bytes of a request, which say what it asks for.
const ROOM_BYTES: usize = 4_096;

/// How many times bytes are taken of a request: more than it takes for all of a head.
const MAX_READS: u32 = 64;

/// A port at which figures are to be told.
#[derive(Drop)]
pub struct FiguresPort {
    /// By which is read what the system tells of the process.
    pub own: HostRuntime,
    /// The socket.
    pub listening: Listening<HostRuntime>,
    /// Where the figures stand.
    pub board: Arc<Board>,
}

/// Has the host ready to serve: with the stack that it takes, and with a thread that tells figures at a port of its own from now on, if
/// that is asked for. What is answered doesn't depend on either.
///
/// # Errors
///
/// As [`Listens::grow_stack`] and [`Listens::figures_port`]; and `Memory` where no thread can be made.
pub fn prepare<R: Threads + Wait + Copy + Send + 'static, H: Listens>(
    rt: &R,
    alloc: Global,
    host: &H,
    asked: ServeOptions,
) -> Result<(), ListenFault> {
    host.grow_stack(alloc)?;
    match host.figures_port(alloc, asked) {
        Ok(Some(port)) => begin_telling(*rt, alloc, port),
        Ok(None) => Ok(()),
        Err(fault) => Err(fault),
    }
}

fn begin_telling<R: Threads + Wait + Copy + Send + 'static>(
    rt: R,
    alloc: Global,
    port: FiguresPort,
) -> Result<(), ListenFault> {
    let FiguresPort {
        own,
        listening,
        board,
    } = port;
    let told = thread::spawn(&rt, move || tell_at(rt, own, alloc, listening, &board));
    match told {
        Ok(_) => Ok(()),
        Err(_) => Err(ListenFault::Memory),
    }
}

fn tell_at<R: Wait + Copy>(
    rt: R,
    own: HostRuntime,
    alloc: Global,
    listening: Listening<HostRuntime>,
    board: &Board,
) {
    let port = listening.into_port(alloc, rt);
    answer_each(&rt, &own, alloc, &port, board);
}

/// Answers one client after the other, until no further one can be taken.
fn answer_each<R: Wait + Copy>(
    rt: &R,
    own: &HostRuntime,
    alloc: Global,
    port: &WaitingPort<Sockets<HostRuntime>, R>,
    board: &Board,
) {
    for _ in rt.forever() {
        let Ok((mut input, mut output)) = port.accept() else {
            return;
        };
        let asked = take_request(&mut input);
        answer(own, alloc, board, asked, &mut output);
        port.end(input, output, Ending::AtOnce);
    }
}

/// What a request asks for. All that came of it is taken.
fn take_request<I: Read>(input: &mut I) -> Asked {
    let mut room = [0u8; ROOM_BYTES];
    let Ok(count) = input.read(&mut room) else {
        return Asked::Other;
    };
    let asked = match room.get(..count) {
        Some(bytes) => asked_of(bytes),
        None => Asked::Other,
    };
    for _ in 0..MAX_READS {
        match input.read(&mut room) {
            Ok(0) | Err(_) => break,
            Ok(_) => {}
        }
    }
    asked
}

fn answer<F: Files + Alloc, O: Write>(
    files: &F,
    alloc: Global,
    board: &Board,
    asked: Asked,
    output: &mut O,
) {
    let mut calls = MAX_CALLS;
    let laid_out = match asked {
        Asked::Metrics => metrics_of(files, alloc, board),
        Asked::Ready => ready_answer(alloc, board.readiness()),
        Asked::Other => {
            let _ = write_all_of(output, not_found_bytes(), &mut calls);
            return;
        }
    };
    let _ = match laid_out {
        Ok(text) => write_all_of(output, text.as_bytes(), &mut calls),
        Err(AllocError) => write_all_of(output, out_of_memory_bytes(), &mut calls),
    };
}

fn metrics_of<F: Files + Alloc>(
    files: &F,
    alloc: Global,
    board: &Board,
) -> Result<String, AllocError> {
    read_process(files, board);
    let reading = board.reading(alloc)?;
    metrics_answer(alloc, &reading)
}

/// Reads what the system tells of the process (proc(5)). What it doesn't tell stays as it was.
fn read_process<F: Files + Alloc>(files: &F, board: &Board) {
    if let Ok(status) = fs::read_to_string(files, "/proc/self/status") {
        let kibibytes = |name| number_behind(status.as_str(), name);
        if let Some(held) = kibibytes("VmRSS:") {
            board.set(Gauge::ResidentBytes, held.saturating_mul(1_024));
        }
        if let Some(addresses) = kibibytes("VmSize:") {
            board.set(Gauge::AddressBytes, addresses.saturating_mul(1_024));
        }
        if let Some(threads) = kibibytes("Threads:") {
            board.set(Gauge::Threads, threads);
        }
    }
    if let Ok(limits) = fs::read_to_string(files, "/proc/self/limits") {
        let most = number_behind(limits.as_str(), "Max address space");
        board.set(Gauge::MaxAddressBytes, most.unwrap_or(u64::MAX));
    }
}

/// The number behind the first of these words.
fn number_behind(text: &str, word: &str) -> Option<u64> {
    let (_, behind) = text.split_once(word)?;
    behind.split_whitespace().next()?.parse::<u64>().ok()
}
