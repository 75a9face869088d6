//! Three connections over loopback, of a server and its client in one process.
use super::{A, Came, served};
use mds_book::OpenGate;
use mds_io::{MAX_CALLS, read_front, write_all_of};
use mds_pool::Port;
use mds_socket::SocketPort;
use std::alloc::Global;
use std::net::{Ipv4Addr, Net, TcpListener, TcpStream};
use std::random::RandomSource;
use std::sync::Wait;
use std::thread;
use std::thread::Threads;
use std::time::Clock;
use test_fixtures::Lack;

/// The first event of the vehicle that is registered, and a look at it.
const EVENT: &[u8] =
    b"POST /events HTTP/1.1\r\nContent-Length: 236\r\n\r\n{\"provider_id\":\"00000000-0000-4000-8000-000000000001\",\"device_id\":\"00000000-0000-4000-8000-00000000000a\",\"event_id\":\"00000000-0000-4000-8000-0000000000e1\",\"vehicle_state\":\"available\",\"event_types\":[\"provider_drop_off\"],\"timestamp\":1000}";

const LOOK: &[u8] =
    b"GET /vehicles/00000000-0000-4000-8000-000000000001/00000000-0000-4000-8000-00000000000a HTTP/1.1\r\n\r\n";

/// What is answered to one item that was accepted, and to the look.
const DONE: &[u8] =
    b"HTTP/1.1 200 OK\r\ncontent-type: application/json\r\ncontent-length: 37\r\nconnection: close\r\n\r\n{\"failures\":[],\"success\":1,\"total\":1}";

const SEEN: &[u8] =
    b"HTTP/1.1 200 OK\r\ncontent-type: application/json\r\ncontent-length: 175\r\nconnection: close\r\n\r\n{\"device_id\":\"00000000-0000-4000-8000-00000000000a\",\"events\":1,\"last\":1000,\"location_e7\":null,\"provider_id\":\"00000000-0000-4000-8000-000000000001\",\"vehicle_state\":\"available\"}";

/// Requests, each on a connection of its own, and their answers.
const TALK: &[(&[u8], &[u8])] = &[(A, DONE), (EVENT, DONE), (LOOK, SEEN)];

/// Whether a request has this answer, and nothing behind it, at the port of this number.
fn is_answered<R: Net>(rt: &R, alloc: Global, number: u16, request: &[u8], answer: &[u8]) -> bool {
    let Ok(mut stream) = TcpStream::connect(rt, (Ipv4Addr::LOCALHOST, number)) else {
        return false;
    };
    let mut calls = MAX_CALLS;
    if write_all_of(&mut stream, request, &mut calls).is_err() {
        return false;
    }
    match read_front(alloc, &mut stream, 1000, &mut calls) {
        Ok(bytes) => bytes.as_slice() == answer,
        Err(_) => false,
    }
}

/// How many of the requests are answered otherwise. Each is made, so that the server comes to its end.
fn other_answers<R: Net>(rt: &R, alloc: Global, number: u16, talk: &[(&[u8], &[u8])]) -> usize {
    let mut others = 0usize;
    for (request, answer) in talk {
        if !is_answered(rt, alloc, number, request, answer) {
            others = others.saturating_add(1);
        }
    }
    others
}

/// What serving three connections of a port by one worker comes to, and how many of them were answered otherwise.
fn served_beside_clients<
    R: Threads
        + Wait
        + RandomSource
        + Clock
        + Net<Listener = TcpListener, Stream = TcpStream>
        + Copy
        + Send
        + Sync,
    P: Port + Sync,
>(rt: &R, alloc: Global, port: &P, number: u16) -> Result<(Came, usize), Lack>
where
    P::In: Send,
    P::Out: Send,
{
    let (came, others) = thread::join(
        rt,
        || served(rt, alloc, port, &OpenGate, (1, 3, 1)),
        || other_answers(rt, alloc, number, TALK),
    );
    Ok((came?, others))
}

/// What listens on this machine.
trait Listens {
    /// What connections come from.
    type Listening: Port<In: Send, Out: Send> + Sync + Drop;

    /// A port, with its number.
    fn listen(&self, alloc: Global) -> Option<(Self::Listening, u16)>;
}

#[derive(Drop)]
struct Loopback<R> {
    rt: R,
}

impl<R: Net + Wait + Clock + Threads + Copy + Send + Sync + Drop + 'static> Listens
    for Loopback<R> {
    type Listening = SocketPort<R>;

    fn listen(&self, alloc: Global) -> Option<(SocketPort<R>, u16)> {
        let port = SocketPort::bind(&self.rt, alloc, self.rt, 0).ok()?;
        let number = port.number().ok()?;
        Some((port, number))
    }
}

/// As [`served_beside_clients`], of what listens.
fn served_by<
    R: Threads
        + Wait
        + RandomSource
        + Clock
        + Net<Listener = TcpListener, Stream = TcpStream>
        + Copy
        + Send
        + Sync,
    L: Listens,
>(rt: &R, alloc: Global, listens: &L) -> Result<(Came, usize), Lack> {
    match listens.listen(alloc) {
        Some((port, number)) => served_beside_clients(rt, alloc, &port, number),
        None => Err(Lack::Case),
    }
}

#[test]
fn three_connections_over_loopback(rt: HostRuntime) {
    assert_eq!(rt;
        served_by(&rt, rt.alloc(), &Loopback { rt }),
        Ok(((None, 1, Some(2)), 0))
    );
}
