//! One call of the input, of the replies, of the journal or of the page file fails, each in turn from the opening on: the run ends with that fault,
//! behind a beginning of its usual text.
use outside_traits::Disk;
use std::alloc::{AllocError, Global};
use std::process::Abort;
use std::sync::Wait;
use std::test::Fail;
use std::thread::Threads;
use xtc_cases::{Case, Ended, NEW, PLAIN, SESSION_SCRIPTS, SIXTY, end_of, lines_of_row};

/// Whose call fails.
#[derive(Clone, Copy)]
enum End {
    Source,
    Sink,
    Journal,
    Pages,
}

/// Each of them, and how a run then ends.
const ENDS: [(End, &str); 4] = [
    (End::Source, "5 xtc: input failed"),
    (End::Sink, "6 xtc: output failed"),
    (End::Journal, "7 xtc: disk failed"),
    (End::Pages, "7 xtc: disk failed"),
];

/// No run here makes more calls of one of them.
const MOST_CALLS: u64 = 400;

/// The case with this call failing.
fn failing<'a>(case: &Case<'a>, end: End, call: u64) -> Case<'a> {
    match end {
        End::Source => Case {
            read: call,
            ..*case
        },
        End::Sink => Case {
            write: call,
            ..*case
        },
        End::Journal => Case {
            journal_call: call,
            ..*case
        },
        End::Pages => Case {
            pages_call: call,
            ..*case
        },
    }
}

/// How many calls of a run failed.
fn faults_of(ended: &Ended) -> u64 {
    let of_disks = ended.journal.faults().saturating_add(ended.pages.faults());
    ended.stream_faults.saturating_add(of_disks)
}

/// Whether a run ends as it should: as usual where no call failed, and otherwise with this status behind a beginning of its usual text.
fn is_right(ended: &Ended, status: &str, usual: &[u8]) -> bool {
    let is_whole = faults_of(ended) == 0;
    let wanted = if is_whole { "0 " } else { status };
    match ended.told.strip_prefix(wanted.as_bytes()) {
        Some(text) => usual.starts_with(text) && (!is_whole || text.len() == usual.len()),
        None => false,
    }
}

/// This call of one of them fails: whether the run ends as it should, and whether it made that call.
fn call_fails(
    rt: &(impl Abort + Threads + Wait + Sync),
    alloc: Global,
    case: &Case<'_>,
    status: &str,
    usual: &[u8],
) -> Result<(bool, bool), AllocError> {
    let ended = end_of(rt, alloc, case, case.journal_call)?;
    Ok((is_right(&ended, status, usual), faults_of(&ended) > 0))
}

/// Each call of one of them fails, until a run has no more of these.
fn each_call_fails(
    rt: &(impl Abort + Threads + Wait + Sync),
    alloc: Global,
    case: &Case<'_>,
    end: End,
    status: &str,
    usual: &[u8],
) -> Result<(), Fail> {
    for call in 1..=MOST_CALLS {
        let (is_right, is_made) = call_fails(rt, alloc, &failing(case, end, call), status, usual)?;
        assert!(rt; is_right, "{} at call {call}: not {status}", case.words);
        if !is_made {
            return Ok(());
        }
    }
    Err(Fail::from("a run makes more calls than it should"))
}

fn all_ends_fail(
    rt: &(impl Abort + Threads + Wait + Sync),
    alloc: Global,
    case: &Case<'_>,
    usual: &[u8],
) -> Result<(), Fail> {
    for &(end, status) in &ENDS {
        each_call_fails(rt, alloc, case, end, status, usual)?;
    }
    Ok(())
}

fn each_end_fails(
    rt: &(impl Abort + Threads + Wait + Sync),
    alloc: Global,
    case: &Case<'_>,
) -> Result<(), Fail> {
    let whole = end_of(rt, alloc, case, case.journal_call)?.told;
    match whole.strip_prefix(b"0 ") {
        Some(usual) => all_ends_fail(rt, alloc, case, usual),
        None => Err(Fail::from("a run of which no call fails doesn't end well")),
    }
}

/// Two transactions that create the documents x and y.
const CREATE_TWO: &str = r#"{"s":1,"call":"begin"}
{"s":1,"call":"create","name":"x","tree":["a"]}
{"s":1,"call":"commit"}
{"s":1,"call":"begin"}
{"s":1,"call":"create","name":"y","tree":["a"]}
{"s":1,"call":"commit"}
"#;

const CASES: [Case<'static>; 3] = [
    Case {
        words: "workers --checkpoint 2",
        input: CREATE_TWO,
        piece: 16,
        journal: NEW,
        ..PLAIN
    },
    Case {
        words: "put x",
        input: "[\"a\"]",
        piece: 2,
        journal: NEW,
        ..PLAIN
    },
    Case {
        words: "query x //a",
        piece: 2,
        journal: SIXTY,
        ..PLAIN
    },
];

/// A script of several sessions with a checkpoint behind each commit.
fn each_end_of_a_script_fails(
    rt: &(impl Abort + Threads + Wait + Sync),
    alloc: Global,
) -> Result<(), Fail> {
    let Some(row) = SESSION_SCRIPTS.first() else {
        return Err(Fail::from("there is no script"));
    };
    let lines = lines_of_row(alloc, row)?;
    let script = Case {
        words: "run --checkpoint 1",
        input: &lines,
        piece: 64,
        journal: NEW,
        ..PLAIN
    };
    each_end_fails(rt, alloc, &script)
}

#[test]
fn each_failing_call_ends_a_run_behind_a_beginning_of_its_text(
    rt: HostRuntime,
) -> Result<(), Fail> {
    each_end_of_a_script_fails(&rt, rt.alloc())?;
    for case in &CASES {
        each_end_fails(&rt, rt.alloc(), case)?;
    }
    Ok(())
}
