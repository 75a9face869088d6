//! Calls of `read` and `write`, which are counted.
ghost use Rattle.std.specs.Prelude.{◌≡◌, ◌≢◌, ◌↔◌, IsTrue, IfOk, IfErr};
ghost use Rattle.std.specs.IoError.{error_kind};
ghost use Rattle.mds_io.specs.Call.{call_that_moved};

use std::io::{self, ErrorKind};

/// The number of calls of `read` for a file or a request, and of `write` for a page or an answer, at
/// most. Interrupted calls count too.
pub const MAX_CALLS: u32 = 5_000_000;

/// What one call of `read` or `write` came to.
#[derive(Debug, Clone, Copy, PartialEq, Eq)]
pub(crate) enum Call {
    /// So many bytes went over, at least one.
    Moved(usize),
    /// None did: a reader is at its end, a writer takes no more.
    Nothing,
    /// The call was interrupted, and is made again.
    Again,
    /// The call failed.
    Failed,
}

pub(crate) fn call_of(came: io::Result<usize>) -> Call
    ensures ok { IfOk came (λ count. result ≡ call_that_moved count) }
    ensures again { IfErr came (λ error. error_kind error ≡ ErrorKind.Interrupted
        → result ≡ Call.Again) }
    ensures failed { IfErr came (λ error. error_kind error ≢ ErrorKind.Interrupted
        → result ≡ Call.Failed) }
{
    match came {
        Ok(0) => Call::Nothing,
        Ok(count) => Call::Moved(count),
        Err(error) => {
            if is_made_again(error.kind()) {
                Call::Again
            } else {
                Call::Failed
            }
        }
    }
}

fn is_made_again(kind: ErrorKind) -> bool
    ensures { IsTrue result ↔ (kind ≡ ErrorKind.Interrupted) }
{
    matches!(kind, ErrorKind::Interrupted)
}
