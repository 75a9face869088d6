//! A listening socket of the system as a port.
use crate::port::WaitingPort;
use crate::system::{Ready, System};
use crate::watch::{Socket, Watch};
use mds_http::Face;
use mds_waiting::Outgoing;
use std::alloc::Global;
use std::io::{self, ErrorKind};
use std::net::{Ipv4Addr, Net, Shutdown, SocketAddr, SocketAddrV4, TcpListener, TcpStream};
use std::os::fd::OwnedFd;
use std::sync::Wait;
use std::sync::atomic::{AtomicU32, Ordering};
use std::thread;
use std::time::{Clock, Duration};

/// How long a pause is, in milliseconds.
const PAUSE_MILLIS: u64 = 100;

/// How long a worker waits at most for a new connection, while it may, and then for the first bytes of its request, in milliseconds.
const MOMENT_MILLIS: u64 = 10;

/// Of how many connections the first bytes aren't waited for, behind one whose didn't come: clients that send nothing keep a worker
/// for a moment in so many, and no longer.
const MAX_HASTE: u32 = 1_024;

/// A listening socket, from which any number of workers take connections.
pub type SocketPort<R> = WaitingPort<Sockets<R>, R>;

/// The end of a connection that takes its answer.
pub type SocketOut = Outgoing<Socket>;

/// A listening socket, what its system tells of it and of its connections, and the clock.
#[derive(Drop)]
pub struct Sockets<R: Clock + Copy> {
    rt: R,
    listener: TcpListener,
    /// The same socket, as one that can be set, and shut down.
    socket: TcpStream,
    watch: Watch,
    /// Of how many connections the first bytes aren't waited for.
    haste: AtomicU32,
}

impl<R: Clock + Copy> Sockets<R> {
    /// A socket that listens at 127.0.0.1 and the port of this number, or a free one for 0.
    ///
    /// # Errors
    ///
    /// What the system answers where the port can't be had.
    fn bind<N: Net>(net: &N, rt: R, number: u16) -> io::Result<Sockets<R>> {
        let address = SocketAddr::V4(SocketAddrV4::new(Ipv4Addr::LOCALHOST, number));
        let listener = TcpListener::from(mio::net::TcpListener::bind(net, address)?);
        // On Linux each connection is set as the socket that it is taken from: what is written is sent at once.
        let socket = TcpStream::from(OwnedFd::from(listener.try_clone()?));
        socket.set_nodelay(true)?;
        // So long a call waits that takes a connection, while it may, and so long one that reads from it first.
        socket.set_read_timeout(Some(Duration::from_millis(MOMENT_MILLIS)))?;
        let watch = Watch::new(net)?;
        watch.begin(&listener)?;
        Ok(Sockets {
            rt,
            listener,
            socket,
            watch,
            haste: AtomicU32::new(0),
        })
    }
}

impl<R: Clock + Copy> System for Sockets<R> {
    type Peer = Socket;

    fn take(&self) -> io::Result<Socket> {
        let (stream, _) = self.listener.accept()?;
        let haste = self.haste.load(Ordering::SeqCst);
        if haste > 0 {
            // That two workers count one connection does no harm.
            self.haste.store(haste - 1, Ordering::SeqCst);
        }
        Ok(Socket::new(stream, haste == 0))
    }

    /// Where the system doesn't set it, a worker may wait a moment beside others, or asks in vain, and no more.
    fn let_take_wait(&self, may_wait: bool) {
        let _ = self.listener.set_nonblocking(!may_wait);
    }

    fn ask(&self, peer: &mut Socket, ready: Ready, for_sending: bool) -> bool {
        if peer.is_slow() {
            self.haste.store(MAX_HASTE, Ordering::SeqCst);
        }
        self.watch.ask(peer, ready, for_sending)
    }

    fn ask_for_new(&self) {
        self.watch.ask_for_new(&self.listener);
    }

    fn wait(&self, millis: u64) -> Option<Ready> {
        self.watch.wait(millis)
    }

    fn now(&self) -> Option<u64> {
        let now = self.rt.monotonic().ok()?;
        u64::try_from(now.as_millis()).ok()
    }

    fn pause(&self) {
        thread::sleep(&self.rt, Duration::from_millis(PAUSE_MILLIS));
    }

    /// On Linux a listening socket that is shut down is ready, and who takes a connection from it is told EINVAL.
    fn stop(&self) {
        let _ = self.socket.shutdown(Shutdown::Both);
    }

    /// So the system refuses who comes then, in place of letting them wait for nobody.
    fn end(&self) {
        self.watch.end(&self.listener);
        self.stop();
    }
}

/// A socket that listens, and of which no connection is taken yet. It rests on no runtime that may wait, so a thread can have it
/// before it has a port.
#[derive(Drop)]
pub struct Listening<C: Clock + Copy> {
    sockets: Sockets<C>,
    face: Face,
}

impl<C: Clock + Copy> Listening<C> {
    /// A socket that listens at 127.0.0.1 and the port of this number, or a free one for 0.
    ///
    /// # Errors
    ///
    /// What the system answers where the port can't be had; `OutOfMemory` where there is no memory for it.
    pub fn bind<N: Net>(net: &N, alloc: Global, clock: C, number: u16) -> io::Result<Listening<C>> {
        let Ok(face) = Face::open(alloc) else {
            return Err(io::Error::from(ErrorKind::OutOfMemory));
        };
        let sockets = Sockets::bind(net, clock, number)?;
        Ok(Listening { sockets, face })
    }

    /// The port from which workers take its connections.
    pub fn into_port<R: Wait + Copy>(self, alloc: Global, rt: R) -> WaitingPort<Sockets<C>, R> {
        let Listening { sockets, face } = self;
        WaitingPort::new(alloc, rt, sockets, face)
    }
}

impl<R: Wait + Clock + Copy> SocketPort<R> {
    /// A socket that listens at 127.0.0.1 and the port of this number, or a free one for 0.
    ///
    /// # Errors
    ///
    /// What the system answers where the port can't be had; `OutOfMemory` where there is no memory for it.
    pub fn bind<N: Net>(net: &N, alloc: Global, rt: R, number: u16) -> io::Result<SocketPort<R>> {
        let listening = Listening::bind(net, alloc, rt, number)?;
        Ok(listening.into_port(alloc, rt))
    }

    /// The number of the port at which it listens.
    ///
    /// # Errors
    ///
    /// What the system answers where it doesn't tell it.
    pub fn number(&self) -> io::Result<u16> {
        Ok(self.system().listener.local_addr()?.port())
    }
}
