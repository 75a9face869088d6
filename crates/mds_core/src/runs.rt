//! The machine over whole lists of requests.
ghost use Rattle.std.specs.Prelude.{◌≡◌, [], IfOk};
ghost use Rattle.mds_core.specs.Run.{IsRun};
ghost use Rattle.mds_core.specs.Headline.{AcceptsExactly};

use crate::{Fleet, Reply, Request};
use mds_table::Tables;
use std::alloc::{AllocError, Global};

/// The machine over a whole list of requests: the fleet after it, and a reply to each.
///
/// The clause `accepted` is the main statement: by places, which requests are `Done`, and that the history is just
/// those. The clause `run` says why it refuses the others.
///
/// # Errors
///
/// `AllocError` where there is no memory for the history or the replies.
pub fn run(
    alloc: Global,
    tables: Tables,
    requests: &[Request],
) -> Result<(Fleet, Vec<Reply>), AllocError>
    ensures tables { IfOk result (λ ran. ran.0.tables ≡ tables) }
    ensures run { IfOk result (λ ran. IsRun tables [] requests.now ran.1.items ran.0.history) }
    ensures accepted { IfOk result (λ ran.
        AcceptsExactly tables requests.now ran.1.items ran.0.history) }
{
    let mut fleet = Fleet::open(alloc, tables);
    let mut replies = Vec::with_capacity(alloc, requests.len())?;
    for request in requests {
        let reply = fleet.step(request)?;
        replies.push(reply)?;
    }
    Ok((fleet, replies))
}
