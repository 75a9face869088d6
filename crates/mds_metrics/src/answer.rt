//! The answers.
ghost use Rattle.std.specs.Prelude.{◌≡◌, IfOk, OnOk, ◌++◌, codes, string_bytes};
ghost use Rattle.mds_metrics.specs.Answers.{answer_text, build_text, metrics_text, not_found_text, out_of_memory_text, ready_text};

use crate::line::{Line, add_lines};
use crate::reading::{Readiness, Reading};
use std::alloc::{AllocError, Global};
use std::fmt::Write as _;

/// Room for the figures, which have some 12,000 bytes.
const TEXT_ROOM: usize = 16_384;

/// Room for the head of an answer, and for a short body.
const ANSWER_ROOM: usize = 256;

/// The answer where something is asked that isn't there.
const NOT_FOUND_ANSWER: &str =
    "HTTP/1.1 404 Not Found\r\ncontent-type: application/json\r\ncontent-length: 21\r\nconnection: close\r\n\r\n{\"error\":\"not_found\"}";

/// The answer where there is no memory for one.
const OUT_OF_MEMORY_ANSWER: &str =
    "HTTP/1.1 503 Service Unavailable\r\ncontent-length: 0\r\nconnection: close\r\n\r\n";

/// The answer that tells the figures that were read.
///
/// # Errors
///
/// `AllocError` where there is no memory for it.
pub fn metrics_answer(alloc: Global, reading: &Reading) -> Result<String, AllocError>
    ensures { IfOk result (λ answer. string_bytes answer ≡ answer_text (codes "200 OK")
        (codes "text/plain; version=0.0.4; charset=utf-8")
        (metrics_text reading.now.version.now reading.now.lines.now reading.now.values.items)) }
{
    let text = figures_of(alloc, reading.version, reading.lines, &reading.values)?;
    answer_of(
        alloc,
        "200 OK",
        "text/plain; version=0.0.4; charset=utf-8",
        &text,
    )
}

fn figures_of(
    alloc: Global,
    version: &str,
    lines: &[Line],
    values: &[u64],
) -> Result<String, AllocError>
    ensures { IfOk result (λ text. string_bytes text
        ≡ metrics_text version.now lines.now values.now) }
{
    let mut text = String::with_capacity(alloc, TEXT_ROOM)?;
    add_build(&mut text, version)?;
    add_lines(&mut text, lines, values)?;
    Ok(text)
}

fn add_build(text: &mut String, version: &str) -> Result<(), AllocError>
    ensures { OnOk result (string_bytes text.new ≡ string_bytes text.old ++ build_text version.now) }
{
    write!(
        text,
        "# HELP mds_city_build_info The program, by its version.\n# TYPE mds_city_build_info gauge\nmds_city_build_info{{version=\"{version}\"}} 1\n"
    )
}

/// The answer that tells whether the server is ready.
///
/// # Errors
///
/// `AllocError` where there is no memory for it.
pub fn ready_answer(alloc: Global, readiness: Readiness) -> Result<String, AllocError>
    ensures { IfOk result (λ answer. string_bytes answer ≡ ready_text readiness) }
{
    match readiness {
        Readiness::Ready => json_answer(alloc, "200 OK", "{}"),
        Readiness::NotKept => {
            json_answer(alloc, "503 Service Unavailable", "{\"error\":\"not_kept\"}")
        }
        Readiness::Reading { read, of } => {
            let body = format!(in alloc; "{{\"read\":{read},\"of\":{of}}}")?;
            json_answer(alloc, "503 Service Unavailable", &body)
        }
    }
}

fn json_answer(alloc: Global, status: &str, body: &str) -> Result<String, AllocError>
    ensures { IfOk result (λ answer. string_bytes answer
        ≡ answer_text status.now (codes "application/json") body.now) }
{
    answer_of(alloc, status, "application/json", body)
}

/// The answer of this status with a body of this type.
fn answer_of(alloc: Global, status: &str, kind: &str, body: &str) -> Result<String, AllocError>
    ensures { IfOk result (λ answer. string_bytes answer
        ≡ answer_text status.now kind.now body.now) }
{
    let length = body.len();
    let mut text = String::with_capacity(alloc, ANSWER_ROOM)?;
    write!(text, "HTTP/1.1 {status}\r\ncontent-type: {kind}\r\n")?;
    write!(
        text,
        "content-length: {length}\r\nconnection: close\r\n\r\n"
    )?;
    text.push_str(body)?;
    Ok(text)
}

/// The answer where something is asked that isn't there.
pub fn not_found_bytes() -> &'static [u8]
    ensures { result.now ≡ not_found_text }
{
    NOT_FOUND_ANSWER.as_bytes()
}

/// The answer where there is no memory for one.
pub fn out_of_memory_bytes() -> &'static [u8]
    ensures { result.now ≡ out_of_memory_text }
{
    OUT_OF_MEMORY_ANSWER.as_bytes()
}
