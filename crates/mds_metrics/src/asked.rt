//! What a request asks for.
ghost use Rattle.std.specs.Prelude.{◌≡◌};
ghost use Rattle.mds_metrics.specs.Answers.{asked_by};

/// What a request asks for.
#[derive(Clone, Copy, Debug, PartialEq, Eq)]
pub enum Asked {
    /// The figures.
    Metrics,
    /// Whether the server is ready.
    Ready,
    /// Something that isn't there.
    Other,
}

/// What a request asks for that begins with these bytes (RFC 9112, section 3).
pub fn asked_of(bytes: &[u8]) -> Asked
    ensures { result ≡ asked_by bytes.now }
{
    if bytes.starts_with(b"GET /metrics ") {
        Asked::Metrics
    } else if bytes.starts_with(b"GET /ready ") {
        Asked::Ready
    } else {
        Asked::Other
    }
}
