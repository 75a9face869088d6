//! A call of `mds_face`.
ghost use Rattle.std.specs.Prelude.{◌≡◌, IfOk};
ghost use Rattle.mds_face.specs.Exchange.{rules_of};
ghost use Rattle.mds_face.specs.Serving.{Finds};
ghost use Rattle.mds_http.specs.Answer.{answer_to};
ghost use Rattle.mds_http.specs.AnswerHead.{answer_text};
ghost use Rattle.mds_http.specs.Asked.{Asked};
ghost use Rattle.mds_http.specs.Found.{Finding};
ghost use Rattle.mds_http.specs.Plan.{IsPlan};

use mds_face::{Desk, ServeFault, serve_one};
use mds_http::Face;
use std::alloc::Global;

/// Answers one request by a desk: what is asked for is put to it, and the answer goes by what it finds.
pub fn answer<D: Desk>(
    alloc: Global,
    face: &Face,
    mut request: &[u8],
    desk: &mut D,
) -> Result<Vec<u8>, ServeFault>
    ensures { IfOk result (λ bytes. (asked : Asked) × IsPlan request.entry.now asked
        × ((found : Finding) × Finds (rules_of D.calls D.gives_events D.gives_rows) desk.old asked found desk.new
        × (bytes.items ≡ answer_text (answer_to asked found)))) }
{
    let mut bytes = Vec::new(alloc);
    serve_one(alloc, face, &mut request, &mut bytes, desk)?;
    Ok(bytes)
}
