//! A port over the sockets of the system: where there is no memory, and that takes what comes.
use mds_pool::{Ending, Port};
use mds_socket::SocketPort;
use std::alloc::Global;
use std::io::{self, Read, Write};
use std::net::{Ipv4Addr, Net, Shutdown, TcpListener, TcpStream};
use std::sync::Wait;
use std::time::Clock;
use test_fixtures::fence;

/// A request, and the answer that it is given.
const REQUEST: &[u8] = b"GET /table HTTP/1.1\r\n\r\n";

const ANSWER: &[u8] = b"HTTP/1.1 200 OK\r\n\r\n";

/// A client that has sent this, and its end.
fn client<R: Net<Stream = TcpStream>>(rt: &R, number: u16, sent: &[u8]) -> io::Result<TcpStream> {
    let mut stream = TcpStream::connect(rt, (Ipv4Addr::LOCALHOST, number))?;
    stream.write_all(sent)?;
    stream.shutdown(Shutdown::Write)?;
    Ok(stream)
}

/// Takes a connection, answers it and ends it: how many bytes its request has. `None` where none was taken, or the answer failed.
fn takes<R: Wait + Clock + Copy>(port: &SocketPort<R>) -> Option<usize> {
    let (mut input, mut output) = port.accept().ok()?;
    let count = input.read(&mut [0u8; 64]).ok()?;
    output.write_all(ANSWER).ok()?;
    port.end(input, output, Ending::AtOnce);
    Some(count)
}

/// A port that is bound where there may be no memory, or else again.
fn bound<R: Net<Listener = TcpListener, Stream = TcpStream> + Wait + Clock + Copy>(
    rt: R,
    alloc: Global,
) -> io::Result<SocketPort<R>> {
    let _begun = fence(alloc);
    let first = SocketPort::bind(&rt, alloc, rt, 0);
    let _ended = fence(alloc);
    match first {
        Ok(port) => Ok(port),
        Err(error) if error.kind() == io::ErrorKind::OutOfMemory => SocketPort::bind(
            &rt, alloc, rt, 0,
        ),
        Err(error) => Err(error),
    }
}

/// How many bytes the requests of two clients have that come to such a port, and what the second one is answered.
fn taken<R: Net<Listener = TcpListener, Stream = TcpStream> + Wait + Clock + Copy>(
    rt: R,
    alloc: Global,
) -> io::Result<(Option<usize>, Option<usize>, bool)> {
    let port = bound(rt, alloc)?;
    let number = port.number()?;
    let _first = client(&rt, number, b"")?;
    let first = takes(&port);
    let mut second = client(&rt, number, REQUEST)?;
    let count = takes(&port);
    let mut room = [0u8; 64];
    let answered = second.read(&mut room)?;
    Ok((first, count, room.get(..answered) == Some(ANSWER)))
}

/// A port is bound without memory, or says that there is none, and connections come to it.
#[test]
fn a_port_is_bound_with_every_growth_refused(rt: HostRuntime) {
    let taken = taken(rt, rt.alloc());
    assert!(rt; matches!(taken, Ok((Some(0), Some(23), true))));
}
