//! HTTP: what a request asks for, and the bytes of its answer.
#![tactic(auto)]

pub mod laws;
mod request;
mod response;

pub use request::{
    Aim, Face, Head, HeadStatus, HttpFault, MAX_FIELDS, MAX_HEAD, Method, Plan, plan_of,
};
pub use response::{
    AnswerBytes, Cause, Failure, Found, answer_bytes, bytes_of, memory_bytes, not_kept_bytes,
    status_of,
};
