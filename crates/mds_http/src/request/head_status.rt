//! What the first bytes of a stream say of the head of the request.
ghost use Rattle.std.specs.Prelude.{◌≡◌, ◌≤◌, length, All};
ghost use Rattle.httparse.specs.Grammar.{RequestHead};
ghost use Rattle.httparse.specs.Spans.{IsWithin, IsHeaderWithin};
ghost use Rattle.mds_table.specs.Json.{max_bytes};
ghost use Rattle.mds_http.specs.Fields.{ArePartsOf};
ghost use Rattle.mds_http.specs.HeadStatus.{IsJudged, IfComplete};

use crate::request::field::{FieldValues, body_length, look_up};
use crate::request::plan::plan_about;
use crate::request::target::{aim_of, method_of};
use crate::{Aim, Face, HttpFault, Plan};
use httparse::Status;
use httparse::spans::{EMPTY_HEADER_SPAN, HeaderSpan, RequestSpans, parse_request};
use mds_batch::BatchReader;
use mds_core::Key;
use std::alloc::{AllocError, Global};
use std::str;

/// The most bytes of a request's head, with the empty lines before it.
pub const MAX_HEAD: usize = 16_384;

/// The most fields of a request's head.
pub const MAX_FIELDS: usize = 64;

/// What the bytes of a stream that are there so far say of the head of the request.
#[derive(Clone, Copy, Debug, PartialEq, Eq)]
pub enum HeadStatus {
    /// There is no whole head yet. None comes where these bytes are all of the stream, or [`MAX_HEAD`] of them are there.
    Partial,
    /// There is no head, whatever bytes follow.
    Invalid,
    /// The head has a fault, whatever bytes follow.
    Rejected(HttpFault),
    /// The head has no fault.
    Complete {
        /// What the request is about.
        aim: Aim<Key>,
        /// How many bytes the head has: where the body starts.
        start: usize,
        /// How many bytes the body has: as many as a POST says, at most 4194304, and none of a GET.
        len: usize,
    },
}

/// A head that is there and has no fault.
#[derive(Clone, Copy, Debug, PartialEq, Eq)]
pub struct Head {
    /// What the request is about.
    pub aim: Aim<Key>,
    /// How many bytes the head has: where the body starts.
    pub start: usize,
    /// How many bytes the body has.
    pub len: usize,
}

impl Head {
    ghost use Rattle.std.specs.Prelude.{IfOk, OnErr};
    ghost use Rattle.mds_http.specs.Asked.{asked_in};
    ghost use Rattle.mds_http.specs.Plan.{IsPlan};
    ghost use Rattle.mds_http.specs.HeadStatus.{HasBody, IsHead};

    /// What a stream asks for that begins with this head: these bytes are all that count. Events are read by the reader.
    ///
    /// # Errors
    ///
    /// `AllocError` where there is no memory for the items of a body that is all there.
    pub fn plan(
        &self,
        alloc: Global,
        reader: &mut BatchReader,
        stream: &[u8],
    ) -> Result<Plan, AllocError>
        requires { IsHead stream.now self.now }
        ensures plan { IfOk result (λ plan. IsPlan stream.now (asked_in plan)) }
        ensures memory { OnErr result (HasBody stream.now
            (HeadStatus.Complete self.now.aim self.now.start self.now.len)) }
    {
        let Head { aim, start, len } = *self;
        let status = HeadStatus::Complete { aim, start, len };
        status.plan_by(alloc, reader, stream)
    }
}

impl Face {
    ghost use Rattle.mds_http.specs.HeadStatus.{IsHeadStatus, IsInReach};

    /// What these bytes of a stream, its first ones, say of the head. They are parsed once, and no body is looked at.
    pub fn head_status(&self, front: &[u8]) -> HeadStatus
        ensures status { IsHeadStatus front.now result }
        ensures in_reach { IsInReach front.now result }
    {
        let bytes = &front[..front.len().min(MAX_HEAD)];
        let mut headers = [EMPTY_HEADER_SPAN; MAX_FIELDS];
        match parse_request(bytes, &mut headers) {
            Ok(Status::Complete(spans)) => {
                judge_head(self, bytes, &spans, &headers[..spans.headers])
            }
            Ok(Status::Partial) => HeadStatus::Partial,
            Err(_) => HeadStatus::Invalid,
        }
    }
}

fn judge_head(face: &Face, bytes: &[u8], spans: &RequestSpans, headers: &[HeaderSpan]) -> HeadStatus
    requires method { IsWithin (length bytes.now) spans.now.method }
    requires target { IsWithin (length bytes.now) spans.now.path }
    requires headers { All (IsHeaderWithin (length bytes.now)) headers.now }
    ensures judged { (head : RequestHead) → ArePartsOf bytes.now spans.now headers.now head
        → IsJudged head result }
    ensures few { IfComplete result (λ start len. (start ≡ spans.now.len) × (len ≤ max_bytes)) }
{
    let codings = look_up(bytes, headers, "transfer-encoding");
    if !matches!(codings, FieldValues::Nothing) {
        return HeadStatus::Rejected(HttpFault::TransferEncoding);
    }
    let Ok(target) = str::from_utf8(spans.path.of(bytes)) else {
        return HeadStatus::Rejected(HttpFault::NotFound);
    };
    let Some(aim) = aim_of(face, target) else {
        return HeadStatus::Rejected(HttpFault::NotFound);
    };
    let allow = method_of(&aim);
    if spans.method.of(bytes) != allow.name().as_bytes() {
        return HeadStatus::Rejected(HttpFault::MethodNotAllowed { allow });
    }
    match body_length(&aim, bytes, headers) {
        Ok(len) => HeadStatus::Complete {
            aim,
            start: spans.len,
            len,
        },
        Err(fault) => HeadStatus::Rejected(fault),
    }
}

impl HeadStatus {
    ghost use Rattle.std.specs.Prelude.{IfOk, OnErr};
    ghost use Rattle.mds_http.specs.Asked.{asked_in};
    ghost use Rattle.mds_http.specs.Plan.{IsPlan};
    ghost use Rattle.mds_http.specs.HeadStatus.{IsHeadStatus, IsInReach, HasBody};

    /// What a stream asks for: these bytes are all that count, and this is what they say of the head. Items are read from where
    /// they stand in the stream.
    ///
    /// # Errors
    ///
    /// `AllocError` where there is no memory for the items of a body that is all there.
    pub fn plan(&self, alloc: Global, stream: &[u8]) -> Result<Plan, AllocError>
        requires status { IsHeadStatus stream.now self.now }
        requires in_reach { IsInReach stream.now self.now }
        ensures plan { IfOk result (λ plan. IsPlan stream.now (asked_in plan)) }
        ensures memory { OnErr result (HasBody stream.now self.now) }
    {
        self.plan_by(alloc, &mut BatchReader::new(alloc), stream)
    }

    /// As [`HeadStatus::plan`]. Events are read by the reader.
    fn plan_by(
        &self,
        alloc: Global,
        reader: &mut BatchReader,
        stream: &[u8],
    ) -> Result<Plan, AllocError>
        requires status { IsHeadStatus stream.now self.now }
        requires in_reach { IsInReach stream.now self.now }
        ensures plan { IfOk result (λ plan. IsPlan stream.now (asked_in plan)) }
        ensures memory { OnErr result (HasBody stream.now self.now) }
    {
        match self {
            HeadStatus::Partial | HeadStatus::Invalid => Ok(Plan::Fixed(HttpFault::BadHead)),
            HeadStatus::Rejected(fault) => Ok(Plan::Fixed(*fault)),
            HeadStatus::Complete { aim, start, len } => plan_about(
                alloc,
                reader,
                aim,
                *len,
                &stream[*start..],
            ),
        }
    }
}
