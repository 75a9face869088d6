//! The bodies of answers.
ghost use Rattle.std.specs.Prelude.{◌≡◌, ◌++◌, IfOk, OnOk, IfSome, map, option_map, string_bytes};
ghost use Rattle.mds_http.specs.Asked.{asked_in};
ghost use Rattle.mds_batch.specs.Texts.{with_commas, event_text};
ghost use Rattle.mds_http.specs.Found.{finding_in, tables_of};
ghost use Rattle.mds_http.specs.Bodies.{fault_body, events_body, tables_body};
ghost use Rattle.mds_http.specs.Answer.{answer_to, batch_content, look_content, events_content};

use crate::response::batch::{answered_items, failures_of};
use crate::response::found::count_accepted;
use crate::response::json::StandingText;
use crate::{Found, Plan};
use mds_batch::{BatchItem, Commas, Text};
use mds_core::{Event, EventList, Key, Refusal, Reply, Standing};
use mds_table::Row;
use std::alloc::{AllocError, Global};
use std::fmt::{Display, Write as _};

/// Room for a short body, and for the head that is put before it. A text that begins without room moves several times as it
/// grows.
const ANSWER_ROOM: usize = 512;

pub(crate) fn body_of(alloc: Global, plan: &Plan, found: &Found) -> Result<String, AllocError>
    ensures { IfOk result (λ body. string_bytes body
        ≡ (answer_to (asked_in plan.now) (finding_in found.now)).body) }
{
    match plan {
        Plan::Fixed(fault) => fault_body(alloc, fault),
        Plan::Vehicles(items) => batch_body(alloc, items, found.replies()),
        Plan::Events(items) => batch_body(alloc, items.kept_items(), found.replies()),
        Plan::One(key) => look_body(alloc, key, found.standing()),
        Plan::History(_) => events_body(alloc, found.events()),
        Plan::Rows => tables_body(alloc, found.tables()),
    }
}

fn fault_body<D: Display>(alloc: Global, word: &D) -> Result<String, AllocError>
    ensures { IfOk result (λ body.
        IfSome (D.output word.now) (λ word. string_bytes body ≡ fault_body word)) }
{
    format!(in alloc; "{{\"error\":\"{word}\"}}")
}

fn batch_body<I: BatchItem>(
    alloc: Global,
    items: &[I],
    replies: &[Reply],
) -> Result<String, AllocError>
    ensures { IfOk result (λ body. string_bytes body
        ≡ (batch_content (map I.wrong items.now) replies.now).body) }
{
    let total = items.len();
    let index = answered_items(items, replies);
    if index < total {
        return format!(in alloc; "{{\"error\":\"out_of_memory\",\"index\":{index}}}");
    }
    let found = failures_of(alloc, items, replies)?;
    let failures = Commas { items: &found };
    let success = count_accepted(replies);
    let mut text = String::with_capacity(alloc, ANSWER_ROOM)?;
    write!(
        text,
        "{{\"failures\":[{failures}],\"success\":{success},\"total\":{total}}}"
    )?;
    Ok(text)
}

fn look_body(alloc: Global, key: &Key, seen: Option<Standing>) -> Result<String, AllocError>
    ensures { IfOk result (λ body. string_bytes body ≡ (look_content key.now seen).body) }
{
    match seen {
        Some(standing) => {
            let standing = StandingText { key, standing };
            let mut text = String::with_capacity(alloc, ANSWER_ROOM)?;
            write!(text, "{standing}")?;
            Ok(text)
        }
        None => fault_body(alloc, &Refusal::Unregistered),
    }
}

fn events_body(alloc: Global, events: Option<&EventList>) -> Result<String, AllocError>
    ensures { IfOk result (λ body. string_bytes body
        ≡ (events_content (option_map (λ list. list.now.events) events.entry)).body) }
{
    match events {
        Some(list) => list_body(alloc, list),
        None => fault_body(alloc, &Refusal::Unregistered),
    }
}

fn list_body(alloc: Global, list: &EventList) -> Result<String, AllocError>
    ensures { IfOk result (λ body. string_bytes body ≡ events_body list.now.events) }
{
    let mut text = String::new(alloc);
    text.push_str("{\"events\":[")?;
    add_events(&mut text, list)?;
    text.push_str("]}")?;
    Ok(text)
}

/// One event after the other takes the place of the one before: most of its 2,200 bytes are room for further types.
fn add_events(text: &mut String, list: &EventList) -> Result<(), AllocError>
    ensures { OnOk result (string_bytes text.new
        ≡ string_bytes text.old ++ with_commas event_text list.now.events) }
{
    let Some(first) = list.get(0) else {
        return Ok(());
    };
    let mut event = first.copy();
    add_event(text, &event)?;
    for at in 1..list.len() {
        let Some(next) = list.get(at) else {
            unreachable!();
        };
        next.copy_to(&mut event);
        text.push_str(",")?;
        add_event(text, &event)?;
    }
    Ok(())
}

fn add_event(text: &mut String, event: &Event) -> Result<(), AllocError>
    ensures { OnOk result (string_bytes text.new
        ≡ string_bytes text.old ++ event_text event.now) }
{
    let event = Text { value: event };
    write!(text, "{event}")
}

/// Of one table its rows alone.
#[tactic(auto, using(crate::proofs::BodyLaws::several_listed))]
fn tables_body(alloc: Global, tables: &[(u64, Vec<Row>)]) -> Result<String, AllocError>
    ensures { IfOk result (λ body. string_bytes body ≡ tables_body (tables_of tables.now)) }
{
    match tables {
        [(_, rows)] => {
            let rows = Commas { items: rows };
            format!(in alloc; "{{\"rows\":[{rows}]}}")
        }
        _ => {
            let tables = Commas { items: tables };
            format!(in alloc; "{{\"tables\":[{tables}]}}")
        }
    }
}
