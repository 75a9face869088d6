//! A call of `mds_http`.
ghost use Rattle.std.specs.Prelude.{◌≡◌, IfOk, MatchOption};
ghost use Rattle.mds_http.specs.declared.request.fault.HttpFault.{HttpFault};
ghost use Rattle.mds_http.specs.Answer.{answer_to};
ghost use Rattle.mds_http.specs.AnswerHead.{answer_text};
ghost use Rattle.mds_http.specs.Asked.{Asked, Fixed};
ghost use Rattle.mds_http.specs.Found.{Nothing};
ghost use Rattle.mds_http.specs.Plan.{IsPlan};

use mds_http::{Face, Found, Plan, bytes_of, plan_of};
use std::alloc::{AllocError, Global};

/// The answer to a request, where a fault of the request says it all; none where a desk is to be asked.
pub fn fault_answer(alloc: Global, face: &Face, bytes: &[u8]) -> Result<Option<Vec<u8>>, AllocError>
    ensures { IfOk result (λ answer. (asked : Asked) × IsPlan bytes.now asked
        × MatchOption answer ((fault : HttpFault) → asked ≡ Fixed fault → ⊥)
        (λ text. text.items ≡ answer_text (answer_to asked Nothing))) }
{
    let plan = plan_of(alloc, face, bytes)?;
    match plan {
        Plan::Fixed(_) => Ok(Some(bytes_of(alloc, &plan, &Found::Nothing)?)),
        _ => Ok(None),
    }
}
