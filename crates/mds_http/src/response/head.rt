//! The whole text of an answer.
ghost use Rattle.std.specs.Prelude.{◌≡◌, ◌++◌, IfOk, OnOk, string_bytes};
ghost use Rattle.mds_http.specs.AnswerHead.{allow_line, head_text, answer_text, memory_text, not_kept_text};

use crate::Method;
use http::StatusCode;
use std::alloc::{AllocError, Global};
use std::fmt::Write as _;

/// The answer where there is no memory for one.
const MEMORY_ANSWER: &str =
    "HTTP/1.1 503 Service Unavailable\r\ncontent-length: 0\r\nconnection: close\r\n\r\n";

/// The answer where what it would rest on isn't recorded.
const NOT_KEPT_ANSWER: &str =
    "HTTP/1.1 503 Service Unavailable\r\ncontent-type: application/json\r\ncontent-length: 20\r\nconnection: close\r\n\r\n{\"error\":\"not_kept\"}";

/// Room for the head of any answer.
const HEAD_ROOM: usize = 192;

/// The answer where there is no memory for one. Taking it takes none.
pub fn memory_bytes() -> &'static [u8]
    ensures { result.now ≡ memory_text }
{
    MEMORY_ANSWER.as_bytes()
}

/// The answer where what it would rest on isn't recorded. It rests on nothing itself.
pub fn not_kept_bytes() -> &'static [u8]
    ensures { result.now ≡ not_kept_text }
{
    NOT_KEPT_ANSWER.as_bytes()
}

/// Where another method was asked for than the route's, `allow` is the route's. The head is put before the body where the body
/// lies, so that a long body isn't copied to a second place.
pub(crate) fn whole_answer(
    alloc: Global,
    status: StatusCode,
    allow: Option<Method>,
    mut body: String,
) -> Result<Vec<u8>, AllocError>
    ensures { IfOk result (λ bytes. bytes.items ≡ answer_text record {
      status = status;
      allow = allow;
      body = string_bytes body;
    }) }
{
    let head = head_of(alloc, status, allow, body.len())?;
    body.insert_str(0, &head)?;
    Ok(body.into_bytes())
}

fn head_of(
    alloc: Global,
    status: StatusCode,
    allow: Option<Method>,
    length: usize,
) -> Result<String, AllocError>
    ensures { IfOk result (λ head. string_bytes head
        ≡ head_text status allow length) }
{
    let mut text = String::with_capacity(alloc, HEAD_ROOM)?;
    write!(text, "HTTP/1.1 {status}\r\n")?;
    text.push_str("content-type: application/json\r\n")?;
    write!(text, "content-length: {length}\r\n")?;
    text.push_str("connection: close\r\n")?;
    add_allow(&mut text, allow)?;
    text.push_str("\r\n")?;
    Ok(text)
}

/// RFC 9110, section 10.2.1.
fn add_allow(text: &mut String, allow: Option<Method>) -> Result<(), AllocError>
    ensures { OnOk result (string_bytes text.new
        ≡ string_bytes text.old ++ allow_line allow) }
{
    match allow {
        Some(method) => write!(text, "allow: {method}\r\n"),
        None => Ok(()),
    }
}
