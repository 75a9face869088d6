//! Putting the items of a batch to a desk, one by one.
ghost use Rattle.std.specs.Prelude.{◌≡◌, ◌+◌, ◌<◌, ◌≤◌, length, slice_get, Some, IfOk, OnOk, OnErr, vec_len, vec_capacity};
ghost use Rattle.std.specs.List.{filter_map};
ghost use Rattle.mds_face.specs.Desk.{AreCalls};
ghost use Rattle.mds_face.specs.Asking.{IsTurn, IsLastTurn};

use crate::Desk;
use mds_batch::BatchItems;
use mds_core::{Key, Reply, Request};
use std::alloc::{AllocError, Global};
use uuid::Uuid;

/// Puts the request of the item at this place, if it isn't at fault, to the desk, and its reply behind the others, for which
/// there is room. The request is made in the place of the one before.
///
/// # Errors
///
/// `AllocError` where the call found no memory: there is no reply then.
fn ask_one<D: Desk, I: BatchItems>(
    desk: &mut D,
    items: &I,
    at: usize,
    request: &mut Request,
    replies: &mut Vec<Reply>,
) -> Result<(), AllocError>
    requires place { at < length (I.items items.now) }
    requires room { vec_len replies.old < vec_capacity replies.old }
    ensures ok { OnOk result ((item : I.Item) × (slice_get (I.items items.now) at ≡ Some item)
        × IsTurn D.calls desk.old (I.asked item) replies.old.items desk.new replies.new.items) }
    ensures err { OnErr result ((item : I.Item) × (slice_get (I.items items.now) at ≡ Some item)
        × IsLastTurn D.calls desk.old (I.asked item) replies.old.items desk.new replies.new.items) }
    ensures capacity { vec_capacity replies.old ≤ vec_capacity replies.new }
    ensures len { vec_len replies.new ≤ vec_len replies.old + 1 }
{
    if !items.ask(at, request) {
        return Ok(());
    }
    let Ok(reply) = desk.call(request) else {
        return Err(AllocError);
    };
    let pushed = replies.push(reply);
    prove!(pushed.is_ok());
    Ok(())
}

/// A request whose place others take.
pub(crate) fn blank_request() -> Request {
    Request::Look(Key {
        provider: Uuid::nil(),
        device: Uuid::nil(),
    })
}

/// Puts the request of each item that isn't at fault to the desk, in their order, up to the first for which there is no
/// memory: the replies. Room for all of them is made before the first call. Each request takes the place of `request`.
///
/// # Errors
///
/// `AllocError` where there is no memory for the replies; no call was made then.
pub(crate) fn ask_all<D: Desk, I: BatchItems>(
    alloc: Global,
    desk: &mut D,
    items: &I,
    request: &mut Request,
) -> Result<Vec<Reply>, AllocError>
    ensures calls { IfOk result (λ replies.
        AreCalls D.calls desk.old (filter_map I.asked (I.items items.now)) replies.items desk.new) }
    ensures unchanged { OnErr result (desk.new ≡ desk.old) }
{
    let count = items.count();
    let mut replies = Vec::with_capacity(alloc, count)?;
    for at in 0..count {
        let Ok(()) = ask_one(desk, items, at, request, &mut replies) else {
            return Ok(replies);
        };
    }
    Ok(replies)
}
