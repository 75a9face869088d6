//! What is said of the items of a POST.
ghost use Rattle.std.specs.Prelude.{◌≡◌, ◌+◌, ◌++◌, ◌∷◌, [], List, Option, IfSome, IfNone, IfOk, OnOk, map, length};
ghost use Rattle.mds_batch.specs.declared.item.ItemFault.{ItemFault as Wrong};
ghost use Rattle.mds_http.specs.declared.response.failure.Cause.{Cause as Because};
ghost use Rattle.mds_http.specs.Verdicts.{verdicts, failures_from};

use crate::{Cause, Failure};
use mds_batch::{BatchItem, ItemFault};
use mds_core::Reply;
use std::alloc::{AllocError, Global};

/// Beside the cause come the replies for the items behind; `None` where there is no reply for this one.
fn verdict_on(fault: Option<ItemFault>, replies: &[Reply]) -> Option<(Option<Cause>, &[Reply])>
    ensures some { IfSome result (λ said. (later : List (Option Wrong))
        → verdicts (fault ∷ later) replies.now ≡ said.0 ∷ verdicts later said.1.now) }
    ensures none { IfNone result ((later : List (Option Wrong))
        → verdicts (fault ∷ later) replies.now ≡ []) }
{
    if let Some(fault) = fault {
        return Some((Some(Cause::Fault(fault)), replies));
    }
    let (reply, left) = replies.split_first()?;
    Some((Cause::of_outcome(reply.outcome), left))
}

pub(crate) fn answered_items<I: BatchItem>(items: &[I], replies: &[Reply]) -> usize
    ensures { result ≡ length (verdicts (map I.wrong items.now) replies.now) }
{
    if replies.len() >= items.len() {
        return items.len();
    }
    let mut left = replies;
    for (index, item) in items.iter().enumerate() {
        let Some((_, later)) = verdict_on(item.fault(), left) else {
            return index;
        };
        left = later;
    }
    items.len()
}

pub(crate) fn failures_of<I: BatchItem>(
    alloc: Global,
    items: &[I],
    replies: &[Reply],
) -> Result<Vec<Failure>, AllocError>
    ensures { IfOk result (λ failures. failures.items
        ≡ failures_from 0 (verdicts (map I.wrong items.now) replies.now)) }
{
    let mut failures = Vec::new(alloc);
    let mut left = replies;
    for (index, item) in items.iter().enumerate() {
        let Some((cause, later)) = verdict_on(item.fault(), left) else {
            return Ok(failures);
        };
        left = later;
        add_failure(&mut failures, index, cause)?;
    }
    Ok(failures)
}

fn add_failure(
    failures: &mut Vec<Failure>,
    index: usize,
    cause: Option<Cause>,
) -> Result<(), AllocError>
    ensures { OnOk result ((later : List (Option Because))
        → failures.new.items ++ failures_from (index + 1) later
        ≡ failures.old.items ++ failures_from index (cause ∷ later)) }
{
    if let Some(cause) = cause {
        failures.push(Failure { index, cause })?;
    }
    Ok(())
}
