//! A call of `mds_past`.
ghost use Rattle.std.specs.Prelude.{◌≡◌, ◌++◌, ◌∷◌, [], IfOk, OnErr, OnOk, Some, slice_get};

use mds_core::Request;
use mds_past::{PackedRequest, Past};
use std::alloc::AllocError;

/// Adds a request to a packed past, as the first one of its vehicle, and answers its place.
pub fn add_first(past: &mut Past<PackedRequest>, request: &Request) -> Result<usize, AllocError>
    ensures requests { OnOk result
        (past.new.requests ≡ past.old.requests ++ request.now ∷ []) }
    ensures place { IfOk result (λ at. slice_get past.new.requests at ≡ Some request.now) }
    ensures unchanged { OnErr result (past.new.requests ≡ past.old.requests) }
{
    past.reserve()?;
    let at = past.len();
    past.push(request, at, None);
    Ok(at)
}
