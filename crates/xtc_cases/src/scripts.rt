//! Scripts with their replies, and runs of them.
use crate::cases::{Case, Outcome, PLAIN, run_case};
use std::alloc::{AllocError, Global};
use std::sync::Wait;
use std::test::Fail;
use std::thread::Threads;

/// The tree of the document x, a script on a store of it alone, and one on the store that this leaves.
/// The replies to a line stand below it, set in, and all is as `written_out` has it. Session 1 has committed as number 1 and begun once.
pub struct Row<'a> {
    pub tree: &'a str,
    pub script: &'a str,
    pub then: &'a str,
}

/// A script, and the text that it is answered.
#[derive(Drop)]
pub struct Script {
    pub lines: String,
    pub text: String,
}

impl Script {
    pub fn new(alloc: Global) -> Script {
        Script {
            lines: String::new(alloc),
            text: String::new(alloc),
        }
    }

    /// Adds lines, with their replies below them.
    pub fn add(&mut self, rows: &str) -> Result<(), AllocError> {
        for row in rows.lines() {
            match row.strip_prefix(" ") {
                Some(reply) => add_line(&mut self.text, reply)?,
                None => add_line(&mut self.lines, row)?,
            }
        }
        Ok(())
    }
}

fn add_line(out: &mut String, line: &str) -> Result<(), AllocError> {
    if !line.is_empty() {
        out.push_str(line)?;
        out.push('\n')?;
    }
    Ok(())
}

const BEGUN: &str = r#"
{"s":1,"call":"begin"}
 {"ok":1,"s":1}
"#;

/// A line as far as to its tree.
const CREATE: &str = r#"{"s":1,"call":"create","name":"x","tree":"#;

/// The rest of it, and what comes behind.
const CREATED: &str = r#"}
 {"ok":"1.1001","s":1}
{"s":1,"call":"commit"}
 {"ok":1,"s":1}
"#;

/// Session 1 makes the document x of a tree.
pub fn with_document(alloc: Global, tree: &str) -> Result<Script, AllocError> {
    let mut script = Script::new(alloc);
    script.add(BEGUN)?;
    script.lines.push_str(CREATE)?;
    script.lines.push_str(tree)?;
    script.add(CREATED)?;
    Ok(script)
}

/// The lines of a row, behind those that make its document.
pub fn lines_of_row(alloc: Global, row: &Row<'_>) -> Result<String, AllocError> {
    let mut first = with_document(alloc, row.tree)?;
    first.add(row.script)?;
    Ok(first.lines)
}

/// Runs a script over a journal of these bytes: it has the replies that stand below its lines.
fn run_answered<'x>(
    rt: &(impl Threads + Wait + Sync),
    alloc: Global,
    script: &'x Script,
    journal: &'x [u8],
) -> Result<Outcome, Fail> {
    let case = Case {
        input: &script.lines,
        text: &script.text,
        journal,
        ..PLAIN
    };
    run_case(rt, alloc, &case)
}

/// Runs a script on a store with a document of the tree alone.
fn run_first(
    rt: &(impl Threads + Wait + Sync),
    alloc: Global,
    tree: &str,
    script: &str,
) -> Result<Outcome, Fail> {
    let mut first = with_document(alloc, tree)?;
    first.add(script)?;
    run_answered(rt, alloc, &first, b"")
}

/// Runs a script on the store that a run has left.
fn run_then(
    rt: &(impl Threads + Wait + Sync),
    alloc: Global,
    left: &Outcome,
    script: &str,
) -> Result<(), Fail> {
    let mut then = Script::new(alloc);
    then.add(script)?;
    let _found = run_answered(rt, alloc, &then, &left.journal)?;
    Ok(())
}

/// Runs a script on a store with a document of the tree alone, and one on what it leaves.
pub fn run_both(
    rt: &(impl Threads + Wait + Sync),
    alloc: Global,
    tree: &str,
    script: &str,
    then: &str,
) -> Result<(), Fail> {
    let left = run_first(rt, alloc, tree, script)?;
    run_then(rt, alloc, &left, then)
}

fn run_row(rt: &(impl Threads + Wait + Sync), alloc: Global, row: &Row<'_>) -> Result<(), Fail> {
    run_both(rt, alloc, row.tree, row.script, row.then)
}

/// Runs each row, on new files.
pub fn run_rows(
    rt: &(impl Threads + Wait + Sync),
    alloc: Global,
    rows: &[Row<'_>],
) -> Result<(), Fail> {
    for row in rows {
        run_row(rt, alloc, row)?;
    }
    Ok(())
}
