//! Each command over the document x with the element a in pages, and over page files that are damaged.
use std::alloc::{AllocError, Global};
use std::process::Abort;
use std::sync::Wait;
use std::test::Fail;
use std::thread::Threads;
use xtc_cases::{Case, NEW, Outcome, PLAIN, SIXTY, run, run_case, texts_in_pages, x_in_pages};

/// A journal whose one commit, behind pages of commit 1, creates the document y with the element b.
const BEHIND: &[u8] =
    b"\x01XTCJRN1\x01\0\0\0\0\x02\0\0\0\x29\x01\x01\0y\0\0\0\0\x07\x041.1003\x01\x01\x83\x6b\0\0\0\0\0\x01\x01\x01\x01\x83\x6b\x83\x69\0\0\0\0\0\x02\x02b\0";

/// The same with a commit 3, of which there is no 2.
const BEYOND: &[u8] = b"\x01XTCJRN1\x01\0\0\0\0\x03\0\0\0\0\0";

/// The same with a commit 2 without changes.
const UNCHANGED: &[u8] = b"\x01XTCJRN1\x01\0\0\0\0\x02\0\0\0\0\0";

/// An empty script, with four pages of the page file in memory.
const FOUR: Case<'static> = Case {
    words: "run --frames 4",
    journal: NEW,
    now: Some(NEW),
    ..PLAIN
};

/// A commit that creates x, which is there.
const CREATE: &str = r#"{"s":1,"call":"begin"}
{"s":1,"call":"create","name":"x","tree":["b"]}
{"s":1,"call":"commit"}
"#;

const IS_THERE: &str = r#"{"ok":1,"s":1}
{"err":{"name":"DocumentExists"},"s":1}
{"ok":2,"s":1}
"#;

/// A commit that creates y.
const CREATE_Y: &str = r#"{"s":1,"call":"begin"}
{"s":1,"call":"create","name":"y","tree":["b"]}
{"s":1,"call":"commit"}
"#;

const CREATED_Y: &str = r#"{"ok":1,"s":1}
{"ok":"1.1003","s":1}
{"ok":2,"s":1}
"#;

/// A commit that drops x.
const DROP: &str = r#"{"s":1,"call":"begin"}
{"s":1,"call":"drop","name":"x"}
{"s":1,"call":"docs"}
{"s":1,"call":"commit"}
"#;

const DROPPED: &str = r#"{"ok":1,"s":1}
{"ok":null,"s":1}
{"ok":[],"s":1}
{"ok":2,"s":1}
"#;

const COMMANDS: &[Case<'static>] = &[
    Case { ..FOUR },
    Case {
        journal: b"",
        ..FOUR
    },
    Case {
        input: CREATE,
        text: IS_THERE,
        now: Some(UNCHANGED),
        then: "0 [\"a\"]\n",
        ..FOUR
    },
    Case {
        input: CREATE_Y,
        text: CREATED_Y,
        now: Some(BEHIND),
        then: "0 [\"a\"]\n",
        ..FOUR
    },
    Case {
        input: DROP,
        text: DROPPED,
        now: None,
        then: "10 Call(Dom(8))",
        ..FOUR
    },
    Case {
        words: "workers --frames=1",
        input: CREATE_Y,
        text: "{\"ok\":1,\"s\":1}\n{\"ok\":\"1.1003\",\"s\":1}\n{\"ok\":2,\"s\":1}\n{\"order\":[[1,1]]}\n",
        now: Some(BEHIND),
        then: "0 [\"a\"]\n",
        ..FOUR
    },
    Case {
        words: "put y --frames 65536",
        input: "[\"b\"]",
        text: "\"1.1003\"\n",
        now: Some(BEHIND),
        ..FOUR
    },
    Case {
        words: "put x",
        input: "[\"b\"]",
        status: "10 Call(DocumentExists)",
        ..FOUR
    },
    Case {
        words: "get x",
        text: "[\"a\"]\n",
        ..FOUR
    },
    Case {
        words: "get y",
        status: "10 Call(Dom(8))",
        ..FOUR
    },
    Case {
        words: "get y",
        journal: BEHIND,
        text: "[\"b\"]\n",
        now: Some(BEHIND),
        then: "0 [\"a\"]\n",
        ..FOUR
    },
    Case {
        words: "query x //a",
        text: "[\"1.1001.1001\"]\n",
        ..FOUR
    },
    Case {
        words: "query y //b",
        journal: BEHIND,
        text: "[\"1.1003.1001\"]\n",
        now: Some(BEHIND),
        ..FOUR
    },
    Case {
        words: "query y //a",
        status: "10 Call(Dom(8))",
        ..FOUR
    },
    Case {
        words: "gen 7 1",
        status: "10 Call(DocumentExists)",
        ..FOUR
    },
    // Commit 1 is in the pages, and commit 3 comes behind none.
    Case {
        journal: SIXTY,
        status: "4 xtc: damaged journal at 8",
        now: Some(SIXTY),
        ..FOUR
    },
    Case {
        journal: BEYOND,
        status: "4 xtc: damaged journal at 8",
        now: Some(BEYOND),
        ..FOUR
    },
    // The words are tested first.
    Case {
        words: "run --frames 0",
        journal: SIXTY,
        status: "2 xtc: usage",
        now: Some(SIXTY),
        ..FOUR
    },
    Case {
        words: "get x --frames 65537",
        status: "2 xtc: usage",
        ..FOUR
    },
];

/// Where the case asks it, `get x` tells of the files that are left what the case says.
fn agree_then(
    rt: &(impl Abort + Threads + Wait + Sync),
    alloc: Global,
    case: &Case<'_>,
    left: &Outcome,
) -> Result<(), AllocError> {
    if case.then.is_empty() {
        return Ok(());
    }
    let get = Case {
        words: "get x",
        journal: &left.journal,
        pages: &left.pages,
        ..PLAIN
    };
    let found = run(rt, alloc, &get, 0)?;
    assert_eq!(rt;
        found.told.as_slice(),
        case.then.as_bytes(),
        "{}",
        case.words
    );
    Ok(())
}

/// Runs a case over these pages, which stay as they are.
fn run_over(
    rt: &(impl Abort + Threads + Wait + Sync),
    alloc: Global,
    case: &Case<'_>,
    pages: &[u8],
) -> Result<(), Fail> {
    let case = Case { pages, ..*case };
    let left = run_case(rt, alloc, &case)?;
    Ok(agree_then(rt, alloc, &case, &left)?)
}

fn run_commands(rt: &(impl Abort + Threads + Wait + Sync), alloc: Global) -> Result<(), Fail> {
    let pages = x_in_pages(alloc)?;
    for case in COMMANDS {
        run_over(rt, alloc, case, &pages)?;
    }
    Ok(())
}

#[test]
fn each_command_over_pages_ends_writes_and_leaves_what_its_row_says(
    rt: HostRuntime,
) -> Result<(), Fail> {
    run_commands(&rt, rt.alloc())
}

/// How many bytes a page file has, the place that is changed and the byte there; and how each command ends over it.
struct Damage {
    bytes: usize,
    at: usize,
    byte: u8,
    status: &'static str,
}

const DAMAGES: [Damage; 8] = [
    // Another name of the format, a length of no whole page, another count of pages, no entries.
    Damage {
        bytes: 24_576,
        at: 7,
        byte: b'2',
        status: "4 xtc: damaged pages at 0",
    },
    Damage {
        bytes: 100,
        at: 0,
        byte: b'X',
        status: "4 xtc: damaged pages at 0",
    },
    Damage {
        bytes: 24_576,
        at: 15,
        byte: 4,
        status: "4 xtc: damaged pages at 0",
    },
    Damage {
        bytes: 24_576,
        at: 8_193,
        byte: 0,
        status: "4 xtc: damaged pages at 8192",
    },
    // Four entries where there are three, two starts where there is one, a page that isn't whole.
    Damage {
        bytes: 24_576,
        at: 8_193,
        byte: 4,
        status: "4 xtc: damaged pages at 8192",
    },
    Damage {
        bytes: 24_576,
        at: 16_385,
        byte: 2,
        status: "4 xtc: damaged pages at 16384",
    },
    Damage {
        bytes: 24_575,
        at: 0,
        byte: b'X',
        status: "4 xtc: damaged pages at 16384",
    },
    // The catalogue has the label 1.1003 for x.
    Damage {
        bytes: 24_576,
        at: 8_209,
        byte: b'3',
        status: "4 xtc: damaged tree at 1",
    },
];

const WORDS: [&str; 6] = [
    "run --frames 1",
    "workers",
    "put y",
    "get x",
    "query x //a",
    "gen 7 1",
];

/// The page file with its damage.
fn damaged(alloc: Global, damage: &Damage) -> Result<Vec<u8>, AllocError> {
    let mut bytes = x_in_pages(alloc)?;
    if let Some(place) = bytes.get_mut(damage.at) {
        *place = damage.byte;
    }
    bytes.truncate(damage.bytes);
    Ok(bytes)
}

/// Each command ends at the place of the damage, and leaves both files as they were.
fn run_damaged(
    rt: &(impl Abort + Threads + Wait + Sync),
    alloc: Global,
    damage: &Damage,
) -> Result<(), Fail> {
    let pages = damaged(alloc, damage)?;
    for &words in &WORDS {
        let case = Case {
            words,
            input: "[\"b\"]",
            status: damage.status,
            ..FOUR
        };
        run_over(rt, alloc, &case, &pages)?;
    }
    Ok(())
}

#[test]
fn damaged_pages_are_told_with_their_place_and_stay(rt: HostRuntime) -> Result<(), Fail> {
    for damage in &DAMAGES {
        run_damaged(&rt, rt.alloc(), damage)?;
    }
    Ok(())
}

/// Reads texts on two pages in turn, once and twice.
const ONCE: &str = r#"{"s":1,"call":"begin"}
{"s":1,"call":"length","at":"1.1001.1001.1001.1001"}
{"s":1,"call":"length","at":"1.1001.1001.1005.1001"}
"#;

const TWICE: &str = r#"{"s":1,"call":"begin"}
{"s":1,"call":"length","at":"1.1001.1001.1001.1001"}
{"s":1,"call":"length","at":"1.1001.1001.1005.1001"}
{"s":1,"call":"length","at":"1.1001.1001.1001.1001"}
{"s":1,"call":"length","at":"1.1001.1001.1005.1001"}
"#;

/// How many calls of the page file a script makes.
fn calls_of<'x>(
    rt: &(impl Abort + Threads + Wait + Sync),
    alloc: Global,
    pages: &'x [u8],
    words: &'x str,
    input: &'x str,
) -> Result<u64, AllocError> {
    let case = Case {
        words,
        input,
        pages,
        ..FOUR
    };
    Ok(run(rt, alloc, &case, 0)?.pages_calls)
}

/// How many more the script makes that reads the texts again.
fn calls_again(
    rt: &(impl Abort + Threads + Wait + Sync),
    alloc: Global,
    pages: &[u8],
    words: &str,
) -> Result<u64, AllocError> {
    let once = calls_of(rt, alloc, pages, words, ONCE)?;
    let twice = calls_of(rt, alloc, pages, words, TWICE)?;
    Ok(twice.saturating_sub(once))
}

#[test]
fn a_page_that_has_a_frame_is_read_once(rt: HostRuntime) -> Result<(), Fail> {
    let pages = texts_in_pages(&rt, rt.alloc())?;
    assert_eq!(rt; calls_again(&rt, rt.alloc(), &pages, "run --frames 64")?, 0);
    assert!(rt; calls_again(&rt, rt.alloc(), &pages, "run --frames 1")? >= 2);
    Ok(())
}
