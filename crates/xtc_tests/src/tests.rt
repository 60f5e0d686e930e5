use dewey_labels::List;
use outside_kinds::MemDisk;
use std::alloc::{AllocError, Global};
use std::process::Abort;
use std::sync::Wait;
use std::test::Fail;
use std::thread::Threads;
use xtc_cases::{
    CUT, Case, Ended, NEW, NO_DOCUMENT, PLAIN, SIXTY, behind_opening, end_of, run_case, run_cases,
    run_on, run_words,
};

/// The same behind a gate that was never opened.
const CLOSED: &[u8] =
    b"\x01XTCJRN1\x4d\0\0\0\0\x01\0\0\0\x29\x01\x01\0x\0\0\0\0\x07\x041.1001\x01\x01\x83\x69\0\0\0\0\0\x01\x01\x01\x01\x83\x69\x83\x69\0\0\0\0\0\x02\x02a\0";

/// The sixty bytes, and behind them a commit without changes, with number 2.
const MORE: &[u8] =
    b"\x01XTCJRN1\x01\0\0\0\0\x01\0\0\0\x29\x01\x01\0x\0\0\0\0\x07\x041.1001\x01\x01\x83\x69\0\0\0\0\0\x01\x01\x01\x01\x83\x69\x83\x69\0\0\0\0\0\x02\x02a\x01\0\0\0\0\x02\0\0\0\0\0";

/// Creates the document x and commits.
const CREATE: &str = r#"{"s":1,"call":"begin"}
{"s":1,"call":"create","name":"x","tree":["a"]}
{"s":1,"call":"commit"}
"#;

/// What it is answered in an empty store.
const CREATED: &str = r#"{"ok":1,"s":1}
{"ok":"1.1001","s":1}
{"ok":1,"s":1}
"#;

/// What it is answered where commit 1 has created x.
const IS_THERE: &str = r#"{"ok":1,"s":1}
{"err":{"name":"DocumentExists"},"s":1}
{"ok":2,"s":1}
"#;

/// The same, and then a transaction that is live at the end of the input.
const CREATE_LIVE: &str = r#"{"s":1,"call":"begin"}
{"s":1,"call":"create","name":"x","tree":["a"]}
{"s":1,"call":"commit"}
{"s":1,"call":"begin"}
{"s":1,"call":"create","name":"y","tree":["a"]}
"#;

const CREATED_LIVE: &str = r#"{"ok":1,"s":1}
{"ok":"1.1001","s":1}
{"ok":1,"s":1}
{"ok":2,"s":1}
{"ok":"1.1003","s":1}
"#;

const STORES: &[Case<'static>] = &[
    Case {
        now: Some(NEW),
        ..PLAIN
    },
    Case {
        input: CREATE,
        text: CREATED,
        now: Some(SIXTY),
        ..PLAIN
    },
    Case {
        input: CREATE,
        journal: CLOSED,
        text: CREATED,
        now: Some(SIXTY),
        ..PLAIN
    },
    Case {
        input: CREATE,
        journal: SIXTY,
        text: IS_THERE,
        now: Some(MORE),
        ..PLAIN
    },
    Case {
        input: CREATE_LIVE,
        text: CREATED_LIVE,
        now: Some(SIXTY),
        ..PLAIN
    },
    Case {
        input: CREATE,
        journal: CUT,
        status: "4 xtc: damaged journal at 8",
        now: Some(CUT),
        ..PLAIN
    },
    Case {
        input: CREATE,
        pages: &[0; 100],
        status: "4 xtc: damaged pages at 0",
        now: Some(b""),
        ..PLAIN
    },
    Case {
        input: CREATE,
        journal: NO_DOCUMENT,
        status: "4 xtc: damaged tree at 1",
        now: Some(NO_DOCUMENT),
        ..PLAIN
    },
    Case {
        input: CREATE,
        journal: SIXTY,
        journal_call: 1,
        status: "7 xtc: disk failed",
        now: Some(SIXTY),
        ..PLAIN
    },
    Case {
        input: CREATE,
        journal: SIXTY,
        pages_call: 1,
        status: "7 xtc: disk failed",
        now: Some(SIXTY),
        ..PLAIN
    },
    // The replies can't be written: the commit is there.
    Case {
        input: CREATE,
        write: 1,
        status: "6 xtc: output failed",
        now: Some(SIXTY),
        ..PLAIN
    },
];

#[test]
fn each_store_answers_its_script_and_has_its_bytes(rt: HostRuntime) -> Result<(), Fail> {
    run_cases(&rt, rt.alloc(), STORES)
}

/// Seven lines, the last of which ends with the input. The others end after 23, 27, 51, 75, 99 and 122 bytes, and the one at 75 commits.
const IN_PART: Case<'static> = Case {
    input: "{\"s\":1,\"call\":\"begin\"}\n \t\r\n{\"call\":\"begin\",\"s\":1}\r\n{\"s\":1,\"call\":\"commit\"}\n{\"s\":1,\"call\":\"commit\"}\n{\"s\":2,\"call\":\"begin\"}\nnope",
    text: "{\"ok\":1,\"s\":1}\n{\"err\":{\"name\":\"InTransaction\"},\"s\":1}\n{\"ok\":1,\"s\":1}\n{\"err\":{\"name\":\"NoTransaction\"},\"s\":1}\n{\"ok\":1,\"s\":2}\n{\"bad\":\"json\",\"line\":7}\n",
    piece: 30,
    ..PLAIN
};

const PARTS: &[Case<'static>] = &[
    Case {
        piece: 1,
        ..IN_PART
    },
    Case {
        piece: 24,
        ..IN_PART
    },
    Case {
        piece: 4096,
        ..IN_PART
    },
    Case {
        read: 1,
        status: "5 xtc: input failed",
        written: 0,
        ..IN_PART
    },
    Case {
        read: 2,
        status: "5 xtc: input failed",
        written: 15,
        ..IN_PART
    },
    Case {
        read: 3,
        status: "5 xtc: input failed",
        written: 54,
        ..IN_PART
    },
    Case {
        read: 4,
        status: "5 xtc: input failed",
        written: 69,
        ..IN_PART
    },
    Case {
        read: 6,
        status: "5 xtc: input failed",
        written: 123,
        ..IN_PART
    },
    Case {
        write: 1,
        status: "6 xtc: output failed",
        written: 0,
        ..IN_PART
    },
    Case {
        write: 2,
        status: "6 xtc: output failed",
        written: 15,
        ..IN_PART
    },
    Case {
        write: 3,
        status: "6 xtc: output failed",
        written: 45,
        ..IN_PART
    },
    Case {
        write: 8,
        status: "6 xtc: output failed",
        written: 123,
        ..IN_PART
    },
    Case {
        later_call: 1,
        status: "7 xtc: disk failed",
        written: 54,
        ..IN_PART
    },
    Case {
        later_call: 4,
        status: "7 xtc: disk failed",
        written: 54,
        ..IN_PART
    },
];

#[test]
fn each_piece_and_fault_leaves_its_prefix_of_the_text(rt: HostRuntime) -> Result<(), Fail> {
    run_cases(&rt, rt.alloc(), PARTS)
}

/// Words that are no command.
const OTHERS: &[&str] = &[
    "",
    "Run",
    "run x",
    "--help",
    "run ",
    " run",
    "put",
    "get",
    "Put x",
    "put x y",
    "get x y",
    "put -x",
    "get --",
    "x put",
    "-- run",
    "run --f",
    "run -f",
    "gen",
    "gen 1",
    "gen 1 0",
    "gen -1 1",
    "query",
    "query x",
    "query x a b",
    "query x -a",
    "query -x a",
];

fn is_usage(
    rt: &(impl Abort + Threads + Wait + Sync),
    alloc: Global,
    words: &str,
) -> Result<(), Fail> {
    let case = Case {
        words,
        input: CREATE,
        status: "2 xtc: usage",
        ..PLAIN
    };
    assert_eq!(rt; calls_of(rt, alloc, &case)?, 0, "{words}");
    Ok(())
}

/// The more calls that a run makes of one of its disks.
fn calls_of(
    rt: &(impl Abort + Threads + Wait + Sync),
    alloc: Global,
    case: &Case<'_>,
) -> Result<u64, Fail> {
    let outcome = run_case(rt, alloc, case)?;
    Ok(outcome.journal_calls.max(outcome.pages_calls))
}

fn run_others(rt: &(impl Abort + Threads + Wait + Sync), alloc: Global) -> Result<(), Fail> {
    for words in OTHERS {
        is_usage(rt, alloc, words)?;
    }
    no_words(rt, alloc)
}

/// No word at all is no command.
fn no_words(rt: &(impl Abort + Threads + Wait + Sync), alloc: Global) -> Result<(), Fail> {
    let outcome = run_words(rt, alloc, &PLAIN, 0, &Vec::new(alloc))?;
    assert_eq!(rt; outcome.told.as_slice(), b"2 xtc: usage".as_slice());
    assert_eq!(rt; (outcome.journal_calls, outcome.pages_calls), (0, 0));
    Ok(())
}

#[test]
fn other_words_are_no_command_and_touch_no_disk(rt: HostRuntime) -> Result<(), Fail> {
    run_others(&rt, rt.alloc())
}

/// Three transactions that create the documents p, q and r.
const THREE: &str = r#"{"s":1,"call":"begin"}
{"s":1,"call":"create","name":"p","tree":["a"]}
{"s":1,"call":"commit"}
{"s":1,"call":"begin"}
{"s":1,"call":"create","name":"q","tree":["a"]}
{"s":1,"call":"commit"}
{"s":1,"call":"begin"}
{"s":1,"call":"create","name":"r","tree":["a"]}
{"s":1,"call":"commit"}
"#;

/// One transaction that creates the three documents.
const WHICH: &str = r#"{"s":1,"call":"begin"}
{"s":1,"call":"create","name":"p","tree":["a"]}
{"s":1,"call":"create","name":"q","tree":["a"]}
{"s":1,"call":"create","name":"r","tree":["a"]}
{"s":1,"call":"commit"}
"#;

/// What it is answered behind none, one, two and three of the commits.
const FOUND: &[&[u8]] = &[
    b"{\"ok\":1,\"s\":1}\n{\"ok\":\"1.1001\",\"s\":1}\n{\"ok\":\"1.1003\",\"s\":1}\n{\"ok\":\"1.1005\",\"s\":1}\n{\"ok\":1,\"s\":1}\n",
    b"{\"ok\":1,\"s\":1}\n{\"err\":{\"name\":\"DocumentExists\"},\"s\":1}\n{\"ok\":\"1.1003\",\"s\":1}\n{\"ok\":\"1.1005\",\"s\":1}\n{\"ok\":2,\"s\":1}\n",
    b"{\"ok\":1,\"s\":1}\n{\"err\":{\"name\":\"DocumentExists\"},\"s\":1}\n{\"err\":{\"name\":\"DocumentExists\"},\"s\":1}\n{\"ok\":\"1.1005\",\"s\":1}\n{\"ok\":3,\"s\":1}\n",
    b"{\"ok\":1,\"s\":1}\n{\"err\":{\"name\":\"DocumentExists\"},\"s\":1}\n{\"err\":{\"name\":\"DocumentExists\"},\"s\":1}\n{\"err\":{\"name\":\"DocumentExists\"},\"s\":1}\n{\"ok\":4,\"s\":1}\n",
];

/// After how many commits this is the text of `WHICH`.
fn found_at(text: &[u8]) -> Option<usize> {
    FOUND.iter().position(|found| *found == text)
}

/// How many of the commits a journal holds, if it holds a prefix of them.
fn found_in(
    rt: &(impl Abort + Threads + Wait + Sync),
    alloc: Global,
    journal: &[u8],
) -> Result<Option<usize>, AllocError> {
    let outcome = run_on(rt, alloc, WHICH, journal, 0)?;
    Ok(outcome.told.strip_prefix(b"0 ").and_then(found_at))
}

fn commits_in(
    rt: &(impl Abort + Threads + Wait + Sync),
    alloc: Global,
    journal: &[u8],
) -> Result<usize, Fail> {
    match found_in(rt, alloc, journal)? {
        Some(count) => Ok(count),
        None => Err(Fail::from("the files hold no prefix of the commits")),
    }
}

/// The fewest and the most commits that images of a journal hold.
fn commits_among(
    rt: &(impl Abort + Threads + Wait + Sync),
    alloc: Global,
    images: &[List<u8>],
) -> Result<(usize, usize), Fail> {
    let mut least = usize::MAX;
    let mut most = 0;
    for image in images {
        let count = commits_in(rt, alloc, image.as_slice())?;
        least = least.min(count);
        most = most.max(count);
    }
    Ok((least, most))
}

/// The fewest and the most commits that a crash in a call of the journal's disk leaves.
fn commits_after_stop(
    rt: &(impl Abort + Threads + Wait + Sync),
    alloc: Global,
    journal: &MemDisk,
    call: u64,
) -> Result<(usize, usize), Fail> {
    let images = journal.stop_images(alloc, call)?;
    commits_among(rt, alloc, images.as_slice())
}

/// A call behind those of the opening, four a commit, and how few and many commits are found where it doesn't come to its end.
struct Stop {
    call: u64,
    least: usize,
    most: usize,
}

const STOPS: &[Stop] = &[
    Stop {
        call: 1,
        least: 0,
        most: 0,
    },
    Stop {
        call: 2,
        least: 0,
        most: 0,
    },
    Stop {
        call: 3,
        least: 0,
        most: 1,
    },
    Stop {
        call: 4,
        least: 0,
        most: 1,
    },
    Stop {
        call: 5,
        least: 1,
        most: 1,
    },
    Stop {
        call: 8,
        least: 1,
        most: 2,
    },
    Stop {
        call: 12,
        least: 2,
        most: 3,
    },
];

/// A crash in the call, or behind it where it fails, leaves as many commits as the row says.
fn crash_leaves(
    rt: &(impl Abort + Threads + Wait + Sync),
    alloc: Global,
    journal: &MemDisk,
    call: u64,
    stop: &Stop,
) -> Result<(), Fail> {
    let found = commits_after_stop(rt, alloc, journal, call)?;
    assert_eq!(rt; found, (stop.least, stop.most), "at call {}", stop.call);
    Ok(())
}

/// Makes the three commits on a new journal, one call of which fails, 0 where none does.
fn commit_three(
    rt: &(impl Abort + Threads + Wait + Sync),
    alloc: Global,
    call: u64,
) -> Result<Ended, AllocError> {
    let case = Case {
        input: THREE,
        journal: NEW,
        ..PLAIN
    };
    end_of(rt, alloc, &case, call)
}

fn fault_leaves(
    rt: &(impl Abort + Threads + Wait + Sync),
    alloc: Global,
    call: u64,
    stop: &Stop,
) -> Result<(), Fail> {
    let failed = commit_three(rt, alloc, call)?;
    assert!(rt; failed.told.starts_with(b"7 "));
    let after = failed.journal.calls().saturating_add(1);
    crash_leaves(rt, alloc, &failed.journal, after, stop)
}

/// A crash in the call, or behind it where it fails, leaves as many commits as the row says.
fn run_stop(
    rt: &(impl Abort + Threads + Wait + Sync),
    alloc: Global,
    whole: &MemDisk,
    stop: &Stop,
) -> Result<(), Fail> {
    let call = behind_opening(rt, alloc, NEW, stop.call)?;
    crash_leaves(rt, alloc, whole, call, stop)?;
    fault_leaves(rt, alloc, call, stop)
}

fn run_stops(
    rt: &(impl Abort + Threads + Wait + Sync),
    alloc: Global,
    whole: &MemDisk,
) -> Result<(), Fail> {
    for stop in STOPS {
        run_stop(rt, alloc, whole, stop)?;
    }
    Ok(())
}

fn run_three(rt: &(impl Abort + Threads + Wait + Sync), alloc: Global) -> Result<(), Fail> {
    let calls = behind_opening(rt, alloc, NEW, 12)?;
    let whole = commit_three(rt, alloc, 0)?;
    assert_eq!(rt; whole.journal.calls(), calls);
    run_stops(rt, alloc, &whole.journal)
}

#[test]
fn a_stop_or_a_fault_in_a_commit_leaves_it_whole_or_not_at_all(
    rt: HostRuntime,
) -> Result<(), Fail> {
    run_three(&rt, rt.alloc())
}
