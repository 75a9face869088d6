//! One look at a connection that waits.
use mds_http::Head;

/// How many calls are made at one connection in one look, so that others are looked at too.
pub(crate) const MAX_CALLS: u32 = 16;

/// What one look at a connection came to.
#[derive(Clone, Copy, Debug, PartialEq, Eq)]
pub enum Look {
    /// The request is whole, and has this head, if one without a fault; or its client has ended.
    Done(Option<Head>),
    /// It goes on waiting.
    Waits,
    /// The connection is lost, or over.
    Gone,
}
