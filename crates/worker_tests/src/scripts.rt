//! Whole scripts, read before their workers start.
ghost use Rattle.std.specs.Prelude.{◌≡◌, length, IfOk};

use command_lines::{Command, LineAnswer, LineReply};
use dewey_labels::{List, NoMemory};
use outside_kinds::MemSource;
use std::alloc::Global;
use tree_model::Reply;
use workers_text::{Script, ScriptError, read_script};

/// So many times this byte.
type Run = (u8, usize);

/// Inputs by their runs, the call of their source that fails (0: none), and how reading ends.
type Row = (&'static [Run], u64, Result<(), ScriptError>);

const ROWS: [Row; 5] = [
    // A line at its limit, and past it; lines count from 1, blank ones too.
    (&[(b' ', 1_048_576), (b'\n', 1)], 0, Ok(())),
    (
        &[(b' ', 1_048_577)],
        0,
        Err(ScriptError::TooLong { line: 1 }),
    ),
    (
        &[(b'\n', 3), (b' ', 1_048_577), (b'\n', 1)],
        0,
        Err(ScriptError::TooLong { line: 4 }),
    ),
    // The second read fails; the eighteenth isn't asked for, since the seventeenth gave the byte too many.
    (&[(b' ', 9)], 2, Err(ScriptError::ReadFault)),
    (
        &[(b' ', 1_048_577)],
        18,
        Err(ScriptError::TooLong { line: 1 }),
    ),
];

fn source(alloc: Global, runs: &[Run], fails: u64) -> Result<MemSource, NoMemory> {
    let mut bytes = List::new(alloc);
    for (byte, count) in runs {
        let run = Vec::from_elem(alloc, *byte, *count)?;
        bytes.extend_from_slice(alloc, &run)?;
    }
    let mut calls = List::new(alloc);
    calls.push(fails)?;
    Ok(MemSource::new(bytes, calls))
}

fn end_of(alloc: Global, runs: &[Run], fails: u64) -> Result<(), ScriptError> {
    let mut source = source(alloc, runs, fails)?;
    read_script(alloc, &mut source)?;
    Ok(())
}

#[test]
fn the_first_byte_too_many_decides(rt: HostRuntime) {
    for (place, (runs, fails, want)) in ROWS.iter().enumerate() {
        let end = end_of(rt.alloc(), runs, *fails);
        assert!(rt; end == *want, "row {place}");
    }
}

/// Scripts, and the replies of all lines where each command's is null.
const TEXTS: [(&'static str, &'static str); 3] = [
    (
        " \t\r\n{\"s\":1,\"call\":\"begin\"}\nx\n\n[1]\r\n{\"s\":64,\"call\":\"docs\"}\n{\"s\":65,\"call\":\"docs\"}",
        "{\"ok\":null,\"s\":1}\n{\"bad\":\"json\",\"line\":3}\n{\"bad\":\"object\",\"line\":5}\n{\"ok\":null,\"s\":64}\n{\"bad\":\"s\",\"line\":7}\n",
    ),
    ("{}\n", "{\"bad\":\"s\",\"line\":1}\n"),
    ("\n \n", ""),
];

fn replies(alloc: Global, commands: &[Command]) -> Result<Vec<LineReply>, NoMemory>
    ensures { IfOk result (λ replies. length replies.items ≡ length commands.now) }
{
    let mut replies = Vec::new(alloc);
    for command in commands {
        replies.push(LineReply::Said {
            session: command.session,
            woke: false,
            answer: LineAnswer::Reply(Reply::Nothing),
        })?;
    }
    Ok(replies)
}

fn text_of(alloc: Global, script: &str) -> Result<List<u8>, ScriptError> {
    let mut bytes = List::new(alloc);
    bytes.extend_from_slice(alloc, script.as_bytes())?;
    let mut source = MemSource::new(bytes, List::new(alloc));
    let script = read_script(alloc, &mut source)?;
    let replies = replies(alloc, script.commands().as_slice())?;
    let mut out = List::new(alloc);
    script.write_replies(alloc, replies.as_slice(), &mut out)?;
    Ok(out)
}

#[test]
fn each_line_has_its_place_and_its_number(rt: HostRuntime) {
    for &(script, want) in &TEXTS {
        let is_so =
            matches!(text_of(rt.alloc(), script), Ok(text) if text.as_slice() == want.as_bytes());
        assert!(rt; is_so, "{script}");
    }
}
