//! Which sockets are ready, as the system tells it (epoll(7)).
ghost use Rattle.std.specs.Prelude.{◌≤◌, IfOk};
ghost use Rattle.std.specs.Io.{ReadsAtMost, WritesAtMost};

use crate::system::Ready;
use libc::net::{
    EPOLL_CTL_ADD, EPOLL_CTL_DEL, EPOLL_CTL_MOD, EPOLLET, EPOLLIN, EPOLLONESHOT, EPOLLOUT,
    MSG_DONTWAIT, MSG_NOSIGNAL, recv, send,
};
use mds_waiting::{MAX_WAITING, Peer};
use mio::Poll;
use os::{EpollEvent, epoll_ctl, epoll_wait, errno};
use std::io::{self, ErrorKind, Read};
use std::net::{Net, Shutdown, TcpListener, TcpStream};
use std::os::fd::{AsRawFd, RawFd};

/// The socket of a connection. No call at it waits, but maybe the first one, which waits a moment for the first bytes of a
/// request. They come with the connection, or right behind it, and to wait for them costs less than to be told of them.
#[derive(Drop)]
pub struct Socket {
    stream: TcpStream,
    /// Whether the system was asked about it before.
    is_watched: bool,
    /// Whether its next call may wait.
    may_wait: bool,
    /// Whether it waited, and nothing came.
    is_slow: bool,
}

impl Socket {
    /// The socket of a connection that was just taken. Its first call waits, for so long as is set for the socket that listens, or
    /// doesn't (socket(7), SO_RCVTIMEO, which Linux hands on to a connection).
    pub(crate) fn new(stream: TcpStream, may_wait: bool) -> Socket {
        Socket {
            stream,
            is_watched: false,
            may_wait,
            is_slow: false,
        }
    }

    /// Whether its first bytes were waited for and didn't come, until it is asked about.
    pub(crate) fn is_slow(&self) -> bool {
        self.is_slow && !self.is_watched
    }
}

impl Peer for Socket {
    fn receive(&mut self, room: &mut [u8]) -> io::Result<usize> {
        if !self.may_wait {
            return receive_at_once(&self.stream, room);
        }
        self.may_wait = false;
        let received = self.stream.read(room);
        self.is_slow = received.is_err();
        received
    }

    fn send(&mut self, bytes: &[u8]) -> io::Result<usize> {
        send_at_once(&self.stream, bytes)
    }

    fn end_sending(&mut self) -> io::Result<()> {
        self.stream.shutdown(Shutdown::Write)
    }
}

/// Puts bytes that came into the room, and waits for none: how many (recv(2), MSG_DONTWAIT). So no call of its own is needed that
/// makes those of a connection not wait.
fn receive_at_once(stream: &TcpStream, room: &mut [u8]) -> io::Result<usize>
    ensures { ReadsAtMost result room.new }
{
    let received = unsafe { recv(stream.as_raw_fd(), room, MSG_DONTWAIT) };
    count_of(received, room.len())
}

/// Sends as many of the first bytes as there is room for, and waits for none: how many (send(2)).
fn send_at_once(stream: &TcpStream, bytes: &[u8]) -> io::Result<usize>
    ensures { WritesAtMost result bytes.now }
{
    let sent = unsafe { send(stream.as_raw_fd(), bytes, MSG_DONTWAIT | MSG_NOSIGNAL) };
    count_of(sent, bytes.len())
}

/// What a call came to that moves so many bytes at most, and answers their count, or else a negative number.
fn count_of(answered: isize, most: usize) -> io::Result<usize>
    ensures { IfOk result (λ count. count ≤ most) }
{
    match usize::try_from(answered) {
        Ok(count) => Ok(count.min(most)),
        Err(_) => Err(io::Error::from_raw_os_error(errno())),
    }
}

/// What the system is asked about.
#[derive(Drop)]
pub(crate) struct Watch {
    poll: Poll,
}

impl Watch {
    /// Nothing yet.
    ///
    /// # Errors
    ///
    /// What the system answers where it can't be asked.
    pub(crate) fn new<R: Net>(rt: &R) -> io::Result<Watch> {
        Ok(Watch {
            poll: Poll::new(rt)?,
        })
    }

    /// Asks about the connections that come to the socket that listens.
    ///
    /// # Errors
    ///
    /// What the system answers where it can't be asked about it.
    pub(crate) fn begin(&self, listener: &TcpListener) -> io::Result<()> {
        if self.listen(EPOLL_CTL_ADD, listener) {
            Ok(())
        } else {
            Err(io::Error::from(ErrorKind::Other))
        }
    }

    /// Asks that again, behind one that was told and taken.
    pub(crate) fn ask_for_new(&self, listener: &TcpListener) {
        let _ = self.listen(EPOLL_CTL_MOD, listener);
    }

    /// Asks about the socket that listens. Each connection that comes wakes a worker at once: none waits until an earlier one is
    /// taken. But the system tells of the socket, not of a connection, and only of a change (EPOLLET). Of connections that come
    /// before the first worker looks, only that worker is told, and the others that were woken sleep on. So it asks again once it
    /// has taken one, and the system tells at once where more are there. While a connection is there, then, either the socket is
    /// next to be told, or somebody who was told will ask again: none is left untold.
    fn listen(&self, how: i32, listener: &TcpListener) -> bool {
        let what = EPOLLIN | EPOLLET;
        self.control(how, listener.as_raw_fd(), what, Ready::Listener)
    }

    /// Asks no longer about the socket that listens.
    pub(crate) fn end(&self, listener: &TcpListener) {
        let _ = self.control(EPOLL_CTL_DEL, listener.as_raw_fd(), 0, Ready::Listener);
    }

    /// Asks when this socket is next ready, which is told once, and for what: whether the system can be asked.
    pub(crate) fn ask(&self, socket: &mut Socket, ready: Ready, for_sending: bool) -> bool {
        let how = if socket.is_watched {
            EPOLL_CTL_MOD
        } else {
            EPOLL_CTL_ADD
        };
        let what = if for_sending { EPOLLOUT } else { EPOLLIN };
        socket.is_watched = true;
        self.control(how, socket.stream.as_raw_fd(), what | EPOLLONESHOT, ready)
    }

    /// Waits until something is ready, for so many milliseconds at most: one thing that is, if any.
    pub(crate) fn wait(&self, millis: u64) -> Option<Ready> {
        let mut events = [EpollEvent { events: 0, data: 0 }; 1];
        let longest = i32::try_from(millis).unwrap_or(i32::MAX);
        if epoll_wait(self.poll.as_raw_fd(), &mut events, longest) == 0 {
            return None;
        }
        Some(Ready::of(events[0].data))
    }

    /// One call about a socket: whether it was done.
    fn control(&self, how: i32, socket: RawFd, what: u32, ready: Ready) -> bool {
        epoll_ctl(self.poll.as_raw_fd(), how, socket, what, ready.number()) == 0
    }
}

impl Ready {
    ghost use Rattle.std.specs.Prelude.{◌≡◌};
    ghost use Rattle.mds_socket.specs.Numbers.{HasKey, number_of};

    /// The number under which the system tells it.
    fn number(self) -> u64
        ensures { HasKey MAX_WAITING self → result ≡ number_of MAX_WAITING self }
    {
        let number = match self {
            Ready::Coming(key) => key,
            Ready::Leaving(key) => key.saturating_add(MAX_WAITING),
            Ready::Listener => MAX_WAITING * 2,
        };
        number as u64
    }

    /// What the system tells under this number.
    fn of(number: u64) -> Ready
        ensures { (ready : Ready) → HasKey MAX_WAITING ready
            → number ≡ number_of MAX_WAITING ready → result ≡ ready }
    {
        let number = number as usize;
        if number < MAX_WAITING {
            Ready::Coming(number)
        } else if number < MAX_WAITING * 2 {
            Ready::Leaving(number - MAX_WAITING)
        } else {
            Ready::Listener
        }
    }
}
