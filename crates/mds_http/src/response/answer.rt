//! Answers.
ghost use Rattle.std.specs.Prelude.{◌≡◌, IfOk};
ghost use Rattle.mds_http.specs.Asked.{asked_in};
ghost use Rattle.mds_http.specs.Found.{finding_in};
ghost use Rattle.mds_http.specs.AnswerHead.{answer_text};
ghost use Rattle.mds_http.specs.Answer.{answer_to, allow_for};

use crate::response::body::body_of;
use crate::response::head::whole_answer;
use crate::response::status::status_of;
use crate::{Found, HttpFault, Method, Plan};
use http::StatusCode;
use std::alloc::{AllocError, Global};

/// An answer that is laid out.
#[derive(Drop)]
pub struct AnswerBytes {
    /// Its status (RFC 9110, section 15).
    pub status: StatusCode,
    /// A head, an empty line and a body.
    pub bytes: Vec<u8>,
}

/// The answer to what was asked for, by what was found.
///
/// What was found is of the plan's kind, with at most one reply for each item that isn't a fault; something else counts
/// as nothing found. Where there are fewer replies, the answer says that the next such item found no memory.
///
/// # Errors
///
/// `AllocError` where there is no memory for the bytes.
pub fn answer_bytes(alloc: Global, plan: &Plan, found: &Found) -> Result<AnswerBytes, AllocError>
    ensures status { IfOk result (λ answer. answer.status
        ≡ (answer_to (asked_in plan.now) (finding_in found.now)).status) }
    ensures bytes { IfOk result (λ answer. answer.bytes.items
        ≡ answer_text (answer_to (asked_in plan.now) (finding_in found.now))) }
{
    let status = status_of(plan, found);
    let body = body_of(alloc, plan, found)?;
    let bytes = whole_answer(alloc, status, allow_of(plan), body)?;
    Ok(AnswerBytes { status, bytes })
}

/// The bytes of [`answer_bytes`] alone.
///
/// # Errors
///
/// Those of [`answer_bytes`].
pub fn bytes_of(alloc: Global, plan: &Plan, found: &Found) -> Result<Vec<u8>, AllocError>
    ensures { IfOk result (λ bytes. bytes.items
        ≡ answer_text (answer_to (asked_in plan.now) (finding_in found.now))) }
{
    let AnswerBytes { status: _, bytes } = answer_bytes(alloc, plan, found)?;
    Ok(bytes)
}

fn allow_of(plan: &Plan) -> Option<Method>
    ensures { result ≡ allow_for (asked_in plan.now) }
{
    match plan {
        Plan::Fixed(HttpFault::MethodNotAllowed { allow }) => Some(*allow),
        _ => None,
    }
}
