//! The statuses of answers (RFC 9110, section 15).
ghost use Rattle.std.specs.Prelude.{◌≡◌, map, Bool, if◌then◌else◌};
ghost use Rattle.mds_http.specs.Asked.{asked_in};
ghost use Rattle.mds_http.specs.Found.{finding_in};
ghost use Rattle.mds_http.specs.Answer.{answer_to, batch_content, fault_status};

use crate::response::batch::answered_items;
use crate::{Found, HttpFault, Plan};
use http::StatusCode;
use mds_batch::BatchItem;
use mds_core::Reply;

/// The status of the answer to what was asked for, by what was found. It takes no memory.
pub fn status_of(plan: &Plan, found: &Found) -> StatusCode
    ensures { result ≡ (answer_to (asked_in plan.now) (finding_in found.now)).status }
{
    match plan {
        Plan::Fixed(fault) => fault_status(fault),
        Plan::Vehicles(items) => batch_status(items, found.replies()),
        Plan::Events(items) => batch_status(items.kept_items(), found.replies()),
        Plan::One(_) => vehicle_status(found.standing().is_some()),
        Plan::History(_) => vehicle_status(found.events().is_some()),
        Plan::Rows => StatusCode::OK,
    }
}

fn fault_status(fault: &HttpFault) -> StatusCode
    ensures { result ≡ fault_status fault.now }
{
    match fault {
        HttpFault::NotFound => StatusCode::NOT_FOUND,
        HttpFault::MethodNotAllowed { .. } => StatusCode::METHOD_NOT_ALLOWED,
        HttpFault::LengthRequired => StatusCode::LENGTH_REQUIRED,
        HttpFault::TooLong => StatusCode::PAYLOAD_TOO_LARGE,
        HttpFault::TransferEncoding => StatusCode::NOT_IMPLEMENTED,
        HttpFault::BadHead
        | HttpFault::BadLength
        | HttpFault::CutShort
        | HttpFault::NotJson
        | HttpFault::NotList
        | HttpFault::TooMany => StatusCode::BAD_REQUEST,
    }
}

fn batch_status<I: BatchItem>(items: &[I], replies: &[Reply]) -> StatusCode
    ensures { result ≡ (batch_content (map I.wrong items.now) replies.now).status }
{
    if answered_items(items, replies) < items.len() {
        StatusCode::SERVICE_UNAVAILABLE
    } else {
        StatusCode::OK
    }
}

fn vehicle_status(is_registered: bool) -> StatusCode
    ensures { result ≡ (if is_registered then 200 else 404) }
{
    if is_registered {
        StatusCode::OK
    } else {
        StatusCode::NOT_FOUND
    }
}
