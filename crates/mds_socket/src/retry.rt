//! What is done where taking a connection failed.
ghost use Rattle.std.specs.Prelude.{◌≡◌};
ghost use Rattle.std.specs.IoError.{error_kind, raw_os_error};
ghost use Rattle.mds_socket.specs.Retries.{retry_by_code, retry_by_kind};

use std::io::{self, ErrorKind};

/// Errors of a connection's own network that Linux reports where the connection is taken, and that have no kind (accept(2)).
const NO_NETWORK: i32 = 64;

const PROTOCOL_ERROR: i32 = 71;

const NO_PROTOCOL: i32 = 92;

const HOST_DOWN: i32 = 112;

/// Errors of a lack of open files, of the system and of the process.
const TOO_MANY_IN_SYSTEM: i32 = 23;

const TOO_MANY_IN_PROCESS: i32 = 24;

/// The error of a lack of memory for sockets.
const NO_BUFFERS: i32 = 105;

/// What is done where taking a connection failed.
#[derive(Clone, Copy, Debug, PartialEq, Eq)]
pub(crate) enum Retry {
    /// None is there: it is waited for.
    OnceReady,
    /// It is tried again at once: it was interrupted, or the one connection was lost before it was taken.
    AtOnce,
    /// It is tried again after a pause, however often: there is no memory for one more connection, or the peer or the system
    /// stands in its way, at this moment. The listening socket is never at fault.
    Later,
    /// It is tried again after a pause, and so often at most: there are too many open files. The process may hold them itself,
    /// for good.
    ForAWhile,
    /// It isn't: the listening socket is at fault.
    Never,
}

pub(crate) fn retry_of(error: &io::Error) -> Retry
    ensures { result ≡ retry_by_kind (error_kind error.now) (raw_os_error error.now) }
{
    retry_of_kind(error.kind(), error.raw_os_error())
}

/// By the kind of the error, and by its number where the kind says nothing.
fn retry_of_kind(kind: ErrorKind, number: Option<i32>) -> Retry
    ensures { result ≡ retry_by_kind kind number }
{
    match kind {
        ErrorKind::WouldBlock => Retry::OnceReady,
        ErrorKind::Interrupted
        | ErrorKind::ConnectionAborted
        | ErrorKind::ConnectionReset
        | ErrorKind::TimedOut
        | ErrorKind::NetworkDown
        | ErrorKind::NetworkUnreachable
        | ErrorKind::HostUnreachable => Retry::AtOnce,
        ErrorKind::OutOfMemory | ErrorKind::PermissionDenied | ErrorKind::Unsupported =>
            Retry::Later,
        _ => retry_of_number(number),
    }
}

/// By the number of an error whose kind says nothing.
fn retry_of_number(number: Option<i32>) -> Retry
    ensures { result ≡ retry_by_code number }
{
    match number {
        Some(NO_NETWORK | PROTOCOL_ERROR | NO_PROTOCOL | HOST_DOWN) => Retry::AtOnce,
        Some(NO_BUFFERS) => Retry::Later,
        Some(TOO_MANY_IN_SYSTEM | TOO_MANY_IN_PROCESS) => Retry::ForAWhile,
        _ => Retry::Never,
    }
}
