//! The scripts of paths over a tree in pages, of which one is in memory: each line is answered as it is over new files.
use std::alloc::{AllocError, Global};
use std::sync::Wait;
use std::test::Fail;
use std::thread::Threads;
use xtc_cases::{Case, NEW, PATH_SCRIPTS, PLAIN, Row, Script, in_pages, run_case, with_document};

/// As many lines as those that make a row's document, with as many begins of session 1: what follows is answered alike.
const LOOK: &str = r#"
{"s":1,"call":"begin"}
 {"ok":1,"s":1}
{"s":1,"call":"doc","name":"x"}
 {"ok":"1.1001","s":1}
{"s":1,"call":"abort"}
 {"ok":null,"s":1}
"#;

/// Runs a script over two files: it has the replies that stand below its lines. Answers the journal that is left.
fn run_over<'x>(
    rt: &(impl Threads + Wait + Sync),
    alloc: Global,
    script: &'x Script,
    journal: &'x [u8],
    pages: &'x [u8],
) -> Result<Vec<u8>, Fail> {
    let case = Case {
        words: "run --frames 1",
        input: &script.lines,
        text: &script.text,
        journal,
        pages,
        ..PLAIN
    };
    Ok(run_case(rt, alloc, &case)?.journal)
}

/// The lines of a row behind those that change nothing.
fn behind_look(alloc: Global, lines: &str) -> Result<Script, AllocError> {
    let mut script = Script::new(alloc);
    script.add(LOOK)?;
    script.add(lines)?;
    Ok(script)
}

fn alone(alloc: Global, lines: &str) -> Result<Script, AllocError> {
    let mut script = Script::new(alloc);
    script.add(lines)?;
    Ok(script)
}

/// Of a row the script that makes its document, its own, and the one behind it.
#[derive(Drop)]
struct Scripts {
    document: Script,
    own: Script,
    then: Script,
}

fn scripts_of(alloc: Global, row: &Row<'_>) -> Result<Scripts, AllocError> {
    let document = with_document(alloc, row.tree)?;
    let own = behind_look(alloc, row.script)?;
    let then = alone(alloc, row.then)?;
    Ok(Scripts {
        document,
        own,
        then,
    })
}

/// Runs a row's script over its document in pages, and the script behind it over what is left: with the commits behind the pages,
/// and with all of it in pages.
fn run_in_pages(
    rt: &(impl Threads + Wait + Sync),
    alloc: Global,
    scripts: &Scripts,
    pages: &[u8],
) -> Result<(), Fail> {
    let left = run_over(rt, alloc, &scripts.own, NEW, pages)?;
    let _then = run_over(rt, alloc, &scripts.then, &left, pages)?;
    let whole = in_pages(alloc, &left, pages)?;
    let _then = run_over(rt, alloc, &scripts.then, NEW, &whole)?;
    Ok(())
}

/// Runs them over a document in a commit behind the pages of a store without documents, and over the document in pages.
fn run_behind_pages(
    rt: &(impl Threads + Wait + Sync),
    alloc: Global,
    scripts: &Scripts,
    none: &[u8],
) -> Result<(), Fail> {
    let made = run_over(rt, alloc, &scripts.document, NEW, none)?;
    let _left = run_over(rt, alloc, &scripts.own, &made, none)?;
    let pages = in_pages(alloc, &made, none)?;
    run_in_pages(rt, alloc, scripts, &pages)
}

fn run_row(rt: &(impl Threads + Wait + Sync), alloc: Global, row: &Row<'_>) -> Result<(), Fail> {
    let scripts = scripts_of(alloc, row)?;
    let none = in_pages(alloc, NEW, b"")?;
    run_behind_pages(rt, alloc, &scripts, &none)
}

#[test]
fn each_path_over_a_tree_in_pages_finds_the_same(rt: HostRuntime) -> Result<(), Fail> {
    for row in PATH_SCRIPTS {
        run_row(&rt, rt.alloc(), row)?;
    }
    Ok(())
}
