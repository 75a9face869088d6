//! What holds of the definitions alone: of lines, whoever reads them. A law is a function that does nothing; its contract is the
//! law.
ghost use Rattle.mds_entries.specs.Laws.{LinesTellOneRequest};

/// A line tells no more than one request: what reads a line that tells a request gives this request.
#[tactic(auto, using(crate::proofs::EntryLemmas::lines_tell_one_request))]
pub fn lines_tell_one_request()
    ensures { LinesTellOneRequest }
{}
