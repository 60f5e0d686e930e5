//! A line as a command.
ghost use Rattle.std.specs.Prelude.{◌≡◌, ◌≢◌, ◌↔◌, Ok, Err, option_map, IfOk, IfErr, IfSome, IsNone, IsTrue};
ghost use Rattle.serde_json.specs.View.{view, members_view};
ghost use Rattle.command_lines.specs.Reasons.{Reads};
ghost use Rattle.command_lines.specs.Lines.{is_blank, session_at, word_of, call_at, finished, command_in, command_of, line_of};
ghost use Rattle.command_lines.specs.ValidCommands.{IsValidCommand, IsValidWhat};

use crate::calls::call_named;
use crate::key_values::string_at;
use crate::taking::take;
use crate::words::what_in;
use crate::{BadLine, Command, What, Word};
use jsonml_io::read_value;
use serde_json::{Map, Value};
use std::alloc::Global;

/// The most sessions, numbered from 1.
const MOST_SESSIONS: u64 = 64;

/// The command that a line asks for; none where it is blank. The line is given without its end.
#[tactic(auto, unfolding(crate::specs::Lines::line_of))]
pub fn read_line(alloc: Global, line: &[u8]) -> Result<Option<Command>, BadLine>
    ensures line { IfOk result (λ command. line_of line.now ≡ Ok command) }
    ensures why { IfErr result (λ e. e ≢ BadLine.NoMemory → line_of line.now ≡ Err e) }
    ensures blank { IfOk result (λ command. IsNone command ↔ IsTrue (is_blank line.now)) }
    ensures valid { IfOk result (λ command. IfSome command IsValidCommand) }
{
    if is_blank(line) {
        return Ok(None);
    }
    match read_value(alloc, line)? {
        Some(value) => Ok(Some(command_in(alloc, value)?)),
        None => Err(BadLine::of(alloc, "json")),
    }
}

fn is_blank(line: &[u8]) -> bool
    ensures { result ≡ is_blank line.now }
{
    line.iter()
        .all(|b| *b == b' ' || *b == b'\t' || *b == b'\r')
}

/// The command that a value is.
fn command_in(alloc: Global, value: Value) -> Result<Command, BadLine>
    ensures reads { Reads (command_in (view value)) result }
    ensures valid { IfOk result IsValidCommand }
{
    match value {
        Value::Object(members) => command_of(alloc, members),
        _ => Err(BadLine::of(alloc, "object")),
    }
}

fn command_of(alloc: Global, members: Map<String, Value>) -> Result<Command, BadLine>
    ensures reads { Reads (command_of (members_view members.entries)) result }
    ensures valid { IfOk result IsValidCommand }
{
    let mut members = members;
    let session = session_at(alloc, take(&mut members, "s"))?;
    let word = call_at(alloc, take(&mut members, "call"))?;
    let what = what_in(alloc, word, &mut members)?;
    finished(alloc, session, what, &members)
}

/// The command, unless a member is left.
fn finished(
    alloc: Global,
    session: u32,
    what: What,
    members: &Map<String, Value>,
) -> Result<Command, BadLine>
    requires { IsValidWhat what }
    ensures reads { Reads (finished session (what, members_view members.now.entries)) result }
    ensures valid { IfOk result IsValidCommand }
{
    if members.is_empty() {
        return Ok(Command { session, what });
    }
    drop(what);
    Err(BadLine::of(alloc, "extra"))
}

fn session_at(alloc: Global, value: Option<Value>) -> Result<u32, BadLine>
    ensures { Reads (session_at (option_map view value)) result }
{
    match value.as_ref().and_then(Value::as_u64) {
        Some(number) if 1 <= number && number <= MOST_SESSIONS => Ok(number as u32),
        _ => Err(BadLine::of(alloc, "s")),
    }
}

fn call_at(alloc: Global, value: Option<Value>) -> Result<Word, BadLine>
    ensures { Reads (call_at (option_map view value)) result }
{
    let name = string_at(alloc, "call", value)?;
    word_of(alloc, name.as_str())
}

fn word_of(alloc: Global, name: &str) -> Result<Word, BadLine>
    ensures { Reads (word_of name.now) result }
{
    match call_named(name) {
        Some(word) => Ok(word),
        None => Err(BadLine::of(alloc, "call")),
    }
}
