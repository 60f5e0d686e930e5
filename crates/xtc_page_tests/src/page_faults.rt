//! A call of the page file that fails, each in turn from the opening on: how the program ends, what is written, and what the next opening finds.
use std::alloc::{AllocError, Global};
use std::process::Abort;
use std::sync::Wait;
use std::test::Fail;
use std::thread::Threads;
use xtc_cases::{Case, NEW, Outcome, PLAIN, run, run_case, texts_in_pages, written_out};

/// A command over a document of long texts in pages, with one of them in memory, and all that it writes where no call fails.
struct Row {
    case: Case<'static>,
    /// Behind which lines of the text a commit was answered.
    commits: &'static [usize],
    /// How many commits more may be found: that of a line whose other replies are still to come isn't written yet.
    unwritten: usize,
    /// What is asked of the files that are left, and what it is told behind none of the commits, one of them, and so on.
    found: &'static str,
    told: &'static [&'static str],
}

const RUN: Case<'static> = Case {
    words: "run --frames 1",
    piece: 1,
    journal: NEW,
    ..PLAIN
};

/// Two sessions: the second one waits for the first, and is woken by its commit.
const SCRIPT: Case<'static> = Case {
    input: r#"{"s":1,"call":"begin"}
{"s":1,"call":"length","at":"1.1001.1001.1001.1001"}
{"s":1,"call":"append","at":"1.1001.1001","tree":["m"]}
{"s":1,"call":"commit"}
{"s":1,"call":"begin"}
{"s":2,"call":"begin"}
{"s":1,"call":"children","at":"1.1001.1001"}
{"s":1,"call":"append","at":"1.1001.1001","tree":["n"]}
{"s":2,"call":"append","at":"1.1001.1001","tree":["o"]}
{"s":1,"call":"commit"}
{"s":2,"call":"find","at":"1.1001","path":"//c/following-sibling::*"}
{"s":2,"call":"commit"}
"#,
    text: r#"{"ok":1,"s":1}
{"ok":3000,"s":1}
{"ok":"1.1001.1001.1007","s":1}
{"ok":2,"s":1}
{"ok":2,"s":1}
{"ok":1,"s":2}
{"ok":["1.1001.1001.1001","1.1001.1001.1003","1.1001.1001.1005","1.1001.1001.1007"],"s":1}
{"ok":"1.1001.1001.1009","s":1}
{"s":2,"wait":{"asks":"EX","by":[1],"on":"last 1.1001.1001"}}
{"ok":3,"s":1}
{"ok":"1.1001.1001.1011","s":2,"woke":true}
{"ok":["1.1001.1001.1007","1.1001.1001.1009","1.1001.1001.1011"],"s":2}
{"ok":4,"s":2}
"#,
    ..RUN
};

/// What `query x /a/*` finds of the document, and behind each of the commits.
const CHILDREN: [&str; 4] = [
    "0 [\"1.1001.1001.1001\",\"1.1001.1001.1003\",\"1.1001.1001.1005\"]\n",
    "0 [\"1.1001.1001.1001\",\"1.1001.1001.1003\",\"1.1001.1001.1005\",\"1.1001.1001.1007\"]\n",
    "0 [\"1.1001.1001.1001\",\"1.1001.1001.1003\",\"1.1001.1001.1005\",\"1.1001.1001.1007\",\"1.1001.1001.1009\"]\n",
    "0 [\"1.1001.1001.1001\",\"1.1001.1001.1003\",\"1.1001.1001.1005\",\"1.1001.1001.1007\",\"1.1001.1001.1009\",\"1.1001.1001.1011\"]\n",
];

const NOT_THERE: &str = "10 Call(Dom(8))";

const ROWS: [Row; 6] = [
    Row {
        case: SCRIPT,
        commits: &[4, 10, 13],
        unwritten: 1,
        found: "query x /a/*",
        told: &CHILDREN,
    },
    Row {
        case: Case {
            words: "put y --frames 1",
            input: "[\"b\"]",
            text: "\"1.1003\"\n",
            ..RUN
        },
        commits: &[1],
        unwritten: 0,
        found: "get y",
        told: &[NOT_THERE, "0 [\"b\"]\n"],
    },
    Row {
        case: Case {
            words: "get x --frames 1",
            text: "[\"a\",[\"b\",\"@3000 x@\"],[\"b\",\"@3000 y@\"],[\"c\",\"@9000 z@\"]]\n",
            ..RUN
        },
        commits: &[],
        unwritten: 0,
        found: "get y",
        told: &[NOT_THERE],
    },
    Row {
        case: Case {
            words: "query x //c --frames 1",
            text: "[\"1.1001.1001.1005\"]\n",
            ..RUN
        },
        commits: &[],
        unwritten: 0,
        found: "get y",
        told: &[NOT_THERE],
    },
    Row {
        case: Case {
            words: "gen 7 1 --frames 1",
            status: "10 Call(DocumentExists)",
            ..RUN
        },
        commits: &[],
        unwritten: 0,
        found: "get gen",
        told: &[NOT_THERE],
    },
    // Workers write nothing before all is durable.
    Row {
        case: Case {
            words: "workers --frames 1",
            input: "{\"s\":1,\"call\":\"begin\"}\n{\"s\":1,\"call\":\"dump\",\"at\":\"1.1001.1001.1001\"}\n{\"s\":1,\"call\":\"create\",\"name\":\"y\",\"tree\":[\"b\"]}\n{\"s\":1,\"call\":\"commit\"}\n",
            text: "{\"ok\":1,\"s\":1}\n{\"ok\":[\"b\",\"@3000 x@\"],\"s\":1}\n{\"ok\":\"1.1003\",\"s\":1}\n{\"ok\":2,\"s\":1}\n{\"order\":[[1,1]]}\n",
            ..RUN
        },
        commits: &[1],
        unwritten: 0,
        found: "get y",
        told: &[NOT_THERE, "0 [\"b\"]\n"],
    },
];

/// How many lines a text has, where it has whole ones alone.
fn lines_of(text: &[u8]) -> Option<usize> {
    let mut lines: usize = 0;
    let mut is_whole = true;
    for byte in text {
        is_whole = *byte == b'\n';
        if is_whole {
            lines = lines.saturating_add(1);
        }
    }
    if is_whole { Some(lines) } else { None }
}

/// How many commits so many lines of the text answer.
fn answered(row: &Row, lines: usize) -> usize {
    let mut commits: usize = 0;
    for line in row.commits {
        if *line <= lines {
            commits = commits.saturating_add(1);
        }
    }
    commits
}

/// How many lines of the row's text a run has written before the disk failed, if it has so ended.
fn written(alloc: Global, row: &Row, told: &[u8]) -> Result<Option<usize>, AllocError> {
    let text = written_out(alloc, row.case.text)?;
    let Some(written) = told.strip_prefix(b"7 xtc: disk failed") else {
        return Ok(None);
    };
    if text.as_bytes().starts_with(written) {
        Ok(lines_of(written))
    } else {
        Ok(None)
    }
}

/// What is told of the files that are left.
fn told_then(
    rt: &(impl Abort + Threads + Wait + Sync),
    alloc: Global,
    row: &Row,
    left: &Outcome,
) -> Result<Vec<u8>, AllocError> {
    let case = Case {
        words: row.found,
        journal: &left.journal,
        pages: &left.pages,
        ..PLAIN
    };
    Ok(run(rt, alloc, &case, 0)?.told)
}

/// Whether a text is what is told behind so many commits.
fn is_told(row: &Row, commits: usize, found: &[u8]) -> bool {
    match row.told.get(commits) {
        Some(want) => found == want.as_bytes(),
        None => false,
    }
}

/// What a run has left is what it has answered.
fn agree_on_left(
    rt: &(impl Abort + Threads + Wait + Sync),
    alloc: Global,
    row: &Row,
    left: &Outcome,
    lines: usize,
) -> Result<(), AllocError> {
    let least = answered(row, lines);
    let found = told_then(rt, alloc, row, left)?;
    let is_late = row.unwritten > 0 && is_told(row, least.saturating_add(1), &found);
    assert!(rt;
        is_told(row, least, &found) || is_late,
        "{} behind {lines} lines",
        row.case.words
    );
    Ok(())
}

/// Where this call of the page file fails, the status is 7, the lines before are written, the pages are as they were, and the commits that were answered are there.
fn fails_at(
    rt: &(impl Abort + Threads + Wait + Sync),
    alloc: Global,
    row: &Row,
    pages: &[u8],
    call: u64,
) -> Result<(), Fail> {
    let case = Case {
        pages,
        pages_call: call,
        ..row.case
    };
    let left = run(rt, alloc, &case, 0)?;
    assert_eq!(rt; left.pages.as_slice(), pages);
    match written(alloc, row, &left.told)? {
        Some(lines) => Ok(agree_on_left(rt, alloc, row, &left, lines)?),
        None => Err(Fail::from("a failing call of the page file isn't told as it should")),
    }
}

/// The row as it goes where no call fails, and then with each of its calls failing.
fn run_row(
    rt: &(impl Abort + Threads + Wait + Sync),
    alloc: Global,
    row: &Row,
    pages: &[u8],
) -> Result<(), Fail> {
    let case = Case { pages, ..row.case };
    let whole = run_case(rt, alloc, &case)?;
    for call in 1..=whole.pages_calls {
        fails_at(rt, alloc, row, pages, call)?;
    }
    Ok(())
}

fn run_rows(rt: &(impl Abort + Threads + Wait + Sync), alloc: Global) -> Result<(), Fail> {
    let pages = texts_in_pages(rt, alloc)?;
    for row in &ROWS {
        run_row(rt, alloc, row, &pages)?;
    }
    Ok(())
}

#[test]
fn each_failing_call_of_the_page_file_ends_a_command_and_its_answers_stay(
    rt: HostRuntime,
) -> Result<(), Fail> {
    run_rows(&rt, rt.alloc())
}
