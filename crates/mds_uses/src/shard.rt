//! A call of `mds_shard`.
ghost use Rattle.std.specs.Prelude.{◌≡◌, IfOk, OnOk};

use mds_core::{Fleet, Reply, Request};
use mds_shard::Shard;
use std::alloc::AllocError;

/// Asks a shard and the plain machine, which are in one state: they answer the same, and are in one state again.
pub fn ask_both(
    shard: &mut Shard,
    plain: &mut Fleet,
    request: &Request,
) -> Result<(Reply, Reply), AllocError>
    requires { shard.old ≡ plain.old }
    ensures replies { IfOk result (λ replies. replies.0 ≡ replies.1) }
    ensures state { OnOk result (shard.new ≡ plain.new) }
{
    let reply = shard.step(request)?;
    Ok((reply, plain.step(request)?))
}
