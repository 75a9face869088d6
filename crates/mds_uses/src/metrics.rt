//! A call of `mds_metrics`.
ghost use Rattle.std.specs.Prelude.{◌≡◌, codes, string_bytes, IfOk};

use mds_metrics::{Readiness, ready_answer};
use std::alloc::{AllocError, Global};

/// What a server that is ready answers to `GET /ready`, byte for byte.
pub fn ready(alloc: Global) -> Result<String, AllocError>
    ensures { IfOk result (λ answer. string_bytes answer ≡ codes
        "HTTP/1.1 200 OK\r\ncontent-type: application/json\r\ncontent-length: 2\r\nconnection: close\r\n\r\n{}") }
{
    ready_answer(alloc, Readiness::Ready)
}
