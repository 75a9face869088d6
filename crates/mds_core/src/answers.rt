//! The answer to a request after a history of accepted requests.
ghost use Rattle.mds_core.specs.Answer.{Answers};

use crate::decision::decide;
use crate::lookup::known_in;
use crate::{Reply, Request};
use mds_table::Tables;

/// The reply to a request after a list of accepted requests. It goes through the list, and takes no memory.
pub fn answer(tables: &Tables, history: &[Request], request: &Request) -> Reply
    ensures { Answers tables.now history.now request.now result }
{
    let known = known_in(history, request);
    Reply {
        place: history.len(),
        outcome: decide(tables, &known, request),
    }
}
