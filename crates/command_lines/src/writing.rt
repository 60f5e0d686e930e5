//! Replies as lines.
ghost use Rattle.std.specs.Prelude.{◌≡◌, [], ◌∷◌, ◌++◌, false, option_map, IfOk, OnOk, OnErr};
ghost use Rattle.serde_json.specs.View.{view};
ghost use Rattle.serde_json.specs.Written.{has_float, compact_text};
ghost use Rattle.command_lines.specs.Replies.{answer_value, wait_value, bad_value, order_value, reply_text};
ghost use Rattle.command_lines.specs.ReplyValues.{reply_value};
ghost use Rattle.command_lines.specs.inside.SaidText.{start, end, key_first, session_first, said_text};

use crate::json_value::{ToJson, array_of};
use crate::reply_values::{named, refusal_value, reply_value};
use crate::resource_text::resource_text;
use crate::{LineAnswer, LineReply};
use dewey_labels::{List, NoMemory, Text};
use itoa::Buffer;
use lock_modes::Ask;
use lock_resources::Resource;
use serde_json::{Value, json};
use std::alloc::Global;
use tree_model::Reply;

/// Puts the reply's line at the end of `out`, LF included.
#[tactic(auto, unfolding(crate::specs::Replies::reply_text))]
pub fn write_reply(alloc: Global, reply: &LineReply, out: &mut List<u8>) -> Result<(), NoMemory>
    ensures ok { OnOk result (out.new ≡ out.old ++ reply_text reply.now) }
    ensures err { OnErr result (out.new ≡ out.old) }
{
    match reply {
        LineReply::Said {
            session,
            woke,
            answer,
        } => write_said(alloc, *session, *woke, answer, out),
        LineReply::Bad { why, line } => write_value(alloc, bad_value(alloc, why, *line)?, out),
        LineReply::Order(commits) => write_value(alloc, order_value(alloc, commits)?, out),
    }
}

/// Puts the value of a reply alone, as compact text and LF, at the end of `out`.
pub fn write_answer(alloc: Global, reply: &Reply, out: &mut List<u8>) -> Result<(), NoMemory>
    ensures ok { OnOk result (out.new ≡ out.old ++ (compact_text (reply_value reply.now) ++ 10 ∷ [])) }
    ensures err { OnErr result (out.new ≡ out.old) }
{
    write_value(alloc, reply_value(alloc, reply)?, out)
}

/// Puts a value's text and LF at the end of `out`.
fn write_value(alloc: Global, value: Value, out: &mut List<u8>) -> Result<(), NoMemory>
    requires { has_float (view value) ≡ false }
    ensures ok { OnOk result (out.new ≡ out.old ++ (compact_text (view value) ++ 10 ∷ [])) }
    ensures err { OnErr result (out.new ≡ out.old) }
{
    let mut text = value.to_vec(alloc)?;
    text.push(b'\n')?;
    out.extend_from_slice(alloc, &text)
}

/// Puts the line of an answer at the end of `out`. Its value alone is built as one: the object around it is text.
fn write_said(
    alloc: Global,
    session: u32,
    woke: bool,
    answer: &LineAnswer,
    out: &mut List<u8>,
) -> Result<(), NoMemory>
    ensures ok { OnOk result (out.new ≡ out.old ++ said_text session woke answer.now) }
    ensures err { OnErr result (out.new ≡ out.old) }
{
    let value = answer_value(alloc, answer)?.to_vec(alloc)?;
    match start(answer) {
        Some(start) => write_key_first(alloc, start, value, session, woke, out),
        None => write_wait(alloc, value, session, woke, out),
    }
}

/// `{KEY:V,"s":S}`, given how it begins and the text of the value.
fn write_key_first(
    alloc: Global,
    start: &str,
    value: Vec<u8>,
    session: u32,
    woke: bool,
    out: &mut List<u8>,
) -> Result<(), NoMemory>
    ensures ok { OnOk result (out.new ≡ out.old ++ key_first start.now value.items session woke) }
    ensures err { OnErr result (out.new ≡ out.old) }
{
    let mut text = value;
    text.extend_from_slice(b",\"s\":")?;
    text.extend_from_slice(Buffer::new().format(session).as_bytes())?;
    text.extend_from_slice(end(woke).as_bytes())?;
    extend_by_both(alloc, start.as_bytes(), &text, out)
}

/// `{"s":S,"wait":V}`, given the text of the value.
fn write_wait(
    alloc: Global,
    value: Vec<u8>,
    session: u32,
    woke: bool,
    out: &mut List<u8>,
) -> Result<(), NoMemory>
    ensures ok { OnOk result (out.new ≡ out.old ++ session_first value.items session woke) }
    ensures err { OnErr result (out.new ≡ out.old) }
{
    let mut text = value;
    text.extend_from_slice(end(woke).as_bytes())?;
    let start = format!(in alloc; "{{\"s\":{session},\"wait\":")?;
    extend_by_both(alloc, start.as_bytes(), &text, out)
}

/// How the line of an answer begins whose key stands ahead of `s`: all but `wait`.
fn start(answer: &LineAnswer) -> Option<&'static str>
    ensures { option_map (λ s. s.now) result ≡ start answer.now }
{
    match answer {
        LineAnswer::Reply(Reply::Refused(_)) | LineAnswer::Session(_) => Some("{\"err\":"),
        LineAnswer::Reply(_) => Some("{\"ok\":"),
        LineAnswer::Wait { .. } => None,
        LineAnswer::Deadlock(_) => Some("{\"deadlock\":"),
    }
}

/// How the line of an answer ends, LF included.
fn end(woke: bool) -> &'static str
    ensures { result.now ≡ end woke }
{
    if woke { ",\"woke\":true}\n" } else { "}\n" }
}

/// Puts both at the end of `out`, or none of them.
fn extend_by_both(
    alloc: Global,
    first: &[u8],
    second: &[u8],
    out: &mut List<u8>,
) -> Result<(), NoMemory>
    ensures ok { OnOk result (out.new ≡ out.old ++ (first.now ++ second.now)) }
    ensures err { OnErr result (out.new ≡ out.old) }
{
    let before = out.len();
    out.extend_from_slice(alloc, first)?;
    let result = out.extend_from_slice(alloc, second);
    if result.is_err() {
        out.truncate(before);
    }
    result
}

/// `{"bad":WHY,"line":N}`
fn bad_value(alloc: Global, why: &Text, line: u64) -> Result<Value, NoMemory>
    ensures { IfOk result (λ value. view value ≡ bad_value why.now line) }
{
    Ok(json!(in alloc; {"bad": why.as_str(), "line": line})?)
}

/// `{"order":[[2,1],[1,1]]}`
fn order_value(alloc: Global, commits: &List<(u32, u32)>) -> Result<Value, NoMemory>
    ensures { IfOk result (λ value. view value ≡ order_value commits.now) }
{
    let commits = array_of(alloc, commits.as_slice())?;
    Ok(json!(in alloc; {"order": commits})?)
}

fn answer_value(alloc: Global, answer: &LineAnswer) -> Result<Value, NoMemory>
    ensures { IfOk result (λ value. view value ≡ answer_value answer.now) }
{
    match answer {
        LineAnswer::Reply(reply) => reply_value(alloc, reply),
        LineAnswer::Session(why) => named(alloc, why.name()),
        LineAnswer::Wait { on, asks, by } => wait_value(alloc, on, *asks, by),
        LineAnswer::Deadlock(cycle) => array_of(alloc, cycle.as_slice()),
    }
}

/// `{"asks":M,"by":[S],"on":R}`
fn wait_value(alloc: Global, on: &Resource, asks: Ask, by: &List<u32>) -> Result<Value, NoMemory>
    ensures { IfOk result (λ value. view value ≡ wait_value on.now asks by.now) }
{
    let on = resource_text(alloc, on)?;
    let by = array_of(alloc, by.as_slice())?;
    Ok(json!(in alloc; {"asks": asks.name(), "by": by, "on": on.as_str()})?)
}
