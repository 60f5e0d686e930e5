//! Scripts of several sessions through the whole program.
use std::alloc::{AllocError, Global};
use std::process::Abort;
use std::sync::Wait;
use std::test::Fail;
use std::thread::Threads;
use xtc_cases::{SESSION_SCRIPTS, run_both, run_rows};

#[test]
fn each_line_of_several_sessions_is_answered(rt: HostRuntime) -> Result<(), Fail> {
    run_rows(&rt, rt.alloc(), SESSION_SCRIPTS)
}

/// Inserts before the first child, as the two lines of a row, one after another until its code is 3.
fn before_the_first(alloc: Global) -> Result<String, AllocError> {
    let mut rows = String::from_str(alloc, BEGUN_AGAIN)?;
    for number in 0..499u32 {
        let before = 1001 - 2 * number;
        let new = before - 2;
        let insert = format!(in alloc;
            r#"
{{"s":1,"call":"insert","at":"1.1001.1001","before":"1.1001.1001.{before}","tree":["c"]}}
 {{"ok":"1.1001.1001.{new}","s":1}}
"#
        )?;
        rows.push_str(&insert)?;
    }
    rows.push_str(BEFORE_THREE)?;
    Ok(rows)
}

const BEGUN_AGAIN: &str = r#"
{"s":1,"call":"begin"}
 {"ok":2,"s":1}
"#;

const BEFORE_THREE: &str = r#"
{"s":1,"call":"insert","at":"1.1001.1001","before":"1.1001.1001.3","tree":["c"]}
 {"ok":"1.1001.1001.2.1001","s":1}
{"s":1,"call":"insert","at":"1.1001.1001","before":"1.1001.1001.2.1001","tree":["c"]}
 {"ok":"1.1001.1001.2.999","s":1}
{"s":1,"call":"commit"}
 {"ok":2,"s":1}
"#;

const FIRST_THEN: &str = r#"
{"s":1,"call":"begin"}
 {"ok":1,"s":1}
{"s":1,"call":"first","at":"1.1001.1001"}
 {"ok":"1.1001.1001.2.999","s":1}
{"s":1,"call":"dump","at":"1.1001"}
 {"ok":["a"@501 ,["c"]@,["b"]],"s":1}
"#;

/// Two inserts between two children, then two between these two, and so on until their labels have 255 divisions.
fn in_a_narrowing_gap(alloc: Global) -> Result<String, AllocError> {
    let mut rows = String::from_str(alloc, BEGUN_AGAIN)?;
    for pair in 0..251u32 {
        let next = pair + 1;
        let inserts = format!(in alloc;
            r#"
{{"s":1,"call":"insert","at":"1.1001.1001","before":"1.1001.1001@{pair} .1002@.1003","tree":["p"]}}
 {{"ok":"1.1001.1001@{next} .1002@.1001","s":1}}
{{"s":1,"call":"insert","at":"1.1001.1001","before":"1.1001.1001@{pair} .1002@.1003","tree":["q"]}}
 {{"ok":"1.1001.1001@{next} .1002@.1003","s":1}}
"#
        )?;
        rows.push_str(&inserts)?;
    }
    rows.push_str(GAP_IS_FULL)?;
    Ok(rows)
}

const GAP_IS_FULL: &str = r#"
{"s":1,"call":"insert","at":"1.1001.1001","before":"1.1001.1001@251 .1002@.1003","tree":["p"]}
 {"err":{"name":"LabelLimit"},"s":1}
{"s":1,"call":"commit"}
 {"ok":2,"s":1}
"#;

const GAP_THEN: &str = r#"
{"s":1,"call":"begin"}
 {"ok":1,"s":1}
{"s":1,"call":"next","at":"1.1001.1001@251 .1002@.1001"}
 {"ok":"1.1001.1001@251 .1002@.1003","s":1}
{"s":1,"call":"dump","at":"1.1001"}
 {"ok":["a",["b"]@251 ,["p"]@@251 ,["q"]@,["c"]],"s":1}
"#;

fn run_before_the_first(
    rt: &(impl Abort + Threads + Wait + Sync),
    alloc: Global,
) -> Result<(), Fail> {
    let script = before_the_first(alloc)?;
    run_both(rt, alloc, r#"["a",["b"]]"#, &script, FIRST_THEN)
}

fn run_in_a_narrowing_gap(
    rt: &(impl Abort + Threads + Wait + Sync),
    alloc: Global,
) -> Result<(), Fail> {
    let script = in_a_narrowing_gap(alloc)?;
    run_both(rt, alloc, r#"["a",["b"],["c"]]"#, &script, GAP_THEN)
}

#[test]
fn inserts_before_the_first_child_and_in_a_gap_get_labels_up_to_their_limit(
    rt: HostRuntime,
) -> Result<(), Fail> {
    run_before_the_first(&rt, rt.alloc())?;
    run_in_a_narrowing_gap(&rt, rt.alloc())
}
