//! A call of `mds_book`.
ghost use Rattle.std.specs.Prelude.{◌≡◌, IfOk};
ghost use Rattle.mds_core.specs.declared.reply.Standing.{Standing};

use mds_book::{Book, Seat, ShardLedger};
use mds_core::{Key, Outcome, Reply, Request};
use std::alloc::AllocError;
use std::sync::Wait;

/// Registers a vehicle and looks at it: it stands somewhere, whatever others ask meanwhile.
pub fn register_and_look<R: Wait, L: ShardLedger, M: ShardLedger>(
    rt: &R,
    book: &Book<L, M>,
    seat: &mut Seat<L, M>,
    key: &Key,
) -> Result<Reply, AllocError>
    ensures { IfOk result (λ reply. (standing : Standing) × (reply.outcome ≡ Outcome.Seen standing)) }
{
    book.call(rt, seat, &Request::Register(*key))?;
    book.call(rt, seat, &Request::Look(*key))
}
