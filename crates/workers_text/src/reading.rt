//! A whole script, read before its first line is done.
ghost use Rattle.std.specs.Prelude.{◌≡◌, ◌==◌, ◌≤◌, ◌<◌, ◌+◌, ◌^◌, [], ◌++◌, length, position, Err, OnOk, IfOk, IfSome};
ghost use Rattle.script_runs.specs.Counts.{CountedWhere};
ghost use Rattle.script_runs.specs.Whole.{piece};
ghost use Rattle.script_runs.specs.inside.Feeding.{IsFirstEnd};
ghost use Rattle.command_lines.specs.Lines.{line_of};
ghost use Rattle.workers_text.specs.Entries.{entries_of, entry_by};
ghost use Rattle.workers_text.specs.Limits.{script_limit, IsReadScript, GaveAtMost};

use crate::entry::Entry;
use crate::input::{Limits, read_input};
use crate::script::Script;
use crate::script_error::ScriptError;
use command_lines::{BadLine, LineReply, read_line};
use dewey_labels::NoMemory;
use outside_traits::Source;
use std::alloc::Global;

/// The most bytes of a whole script, and of a line of it before its end.
const SCRIPT_LIMITS: Limits = Limits {
    most: 16_777_216,
    short: 1_048_576,
};

/// Adds a line, by its number from 1, unless it is blank.
fn add_line(alloc: Global, script: &mut Script, number: u64, line: &[u8]) -> Result<(), NoMemory>
    ensures { OnOk result (script.new.entries ≡ script.old.entries ++ entry_by number (line_of line.now)) }
{
    match read_line(alloc, line) {
        Ok(None) => Ok(()),
        Ok(Some(command)) => script.add(Entry::Asked(command)),
        Err(BadLine::Why(why)) => script.add(Entry::Bad(LineReply::Bad { why, line: number })),
        Err(BadLine::NoMemory) => Err(NoMemory),
    }
}

/// The place of the first end of a line.
fn line_end(bytes: &[u8]) -> Option<usize>
    ensures { IsFirstEnd bytes.now result }
{
    first_end(bytes)
}

fn first_end(bytes: &[u8]) -> Option<usize>
    ensures { result ≡ position (λ b. b == 10) bytes.now }
{
    bytes.iter().position(|b| *b == b'\n')
}

/// The script that bytes are.
fn script_of(alloc: Global, bytes: &[u8]) -> Result<Script, NoMemory>
    requires { length bytes.now < 2 ^ 63 }
    ensures { IfOk result (λ script. script.entries ≡ entries_of bytes.now) }
{
    let mut script = Script::new(alloc);
    let mut lines = 0u64;
    let mut rest = bytes;
    while let Some(place) = line_end(rest) {
        let (line, after) = rest.split_at(place);
        lines += 1;
        add_line(alloc, &mut script, lines, line)?;
        let (_, next) = after.split_at(1);
        rest = next;
    }
    if rest.is_empty() {
        return Ok(script);
    }
    add_line(alloc, &mut script, lines + 1, rest)?;
    Ok(script)
}

/// Reads a whole script. Each line is read once all are there, so none is done where one is too long or a read fails.
pub fn read_script<S: Source>(alloc: Global, source: &mut S) -> Result<Script, ScriptError>
    ensures read { GaveAtMost S.left S.given (script_limit + piece) source.old source.new
        (λ read. IsReadScript read result) }
    ensures whole { OnOk result (IfSome (S.left source.new) (λ rest. rest ≡ [])) }
    ensures cause { CountedWhere (result ≡ Err ScriptError.ReadFault) (S.faults source.old) (S.faults source.new) }
{
    let bytes = read_input(alloc, SCRIPT_LIMITS, source)?;
    Ok(script_of(alloc, &bytes)?)
}
