//! Why a request is answered by a fault alone.
ghost use Rattle.std.specs.Prelude.{Some};
ghost use Rattle.mds_http.specs.Asked.{fault_word};

use crate::Method;
use std::error::Error;
use std::fmt;

/// Why a request asks for nothing: the first that holds, in this order.
#[derive(Clone, Copy, Debug, PartialEq, Eq)]
pub enum HttpFault {
    /// The first 16384 bytes hold no whole head (RFC 9112, section 2.1) of at most 64 fields.
    BadHead,
    /// A field `transfer-encoding` is there (RFC 9112, section 6.1): bodies are read by their length alone.
    TransferEncoding,
    /// The target has no route, or names something that is no identifier.
    NotFound,
    /// The method isn't the route's.
    MethodNotAllowed {
        /// The route's method, as a field `allow` names it (RFC 9110, section 10.2.1).
        allow: Method,
    },
    /// A POST says no length (RFC 9110, section 15.5.12).
    LengthRequired,
    /// A POST says its length twice or more often, or not as one or more digits (RFC 9110, section 8.6).
    BadLength,
    /// A POST says a length of more than 4194304 bytes.
    TooLong,
    /// The stream ends within the body.
    CutShort,
    /// The body isn't JSON.
    NotJson,
    /// The body is neither a list nor an object.
    NotList,
    /// The body has more than 10000 items.
    TooMany,
}

impl fmt::Display for HttpFault {
    ghost output = { λ fault. Some (fault_word fault) };

    fn fmt<W: fmt::Write>(&self, f: &mut fmt::Formatter<W>) -> fmt::Result {
        f.write_str(match self {
            HttpFault::BadHead => "bad_head",
            HttpFault::TransferEncoding => "transfer_encoding",
            HttpFault::NotFound => "not_found",
            HttpFault::MethodNotAllowed { .. } => "method_not_allowed",
            HttpFault::LengthRequired => "length_required",
            HttpFault::BadLength => "bad_length",
            HttpFault::TooLong => "too_long",
            HttpFault::CutShort => "cut_short",
            HttpFault::NotJson => "not_json",
            HttpFault::NotList => "not_list",
            HttpFault::TooMany => "too_many",
        })
    }
}

impl Error for HttpFault {}
