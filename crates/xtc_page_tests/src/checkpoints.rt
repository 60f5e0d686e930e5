//! Checkpoints: that they change no reply and no tree, what they leave of the two files, and what a failing call and a stop in each call of both disks leaves.
use dewey_labels::{List, NoMemory};
use outside_kinds::MemDisk;
use std::alloc::{AllocError, Global};
use std::process::Abort;
use std::sync::Wait;
use std::test::Fail;
use std::thread::Threads;
use xtc_cases::{
    Case, Ended, NEW, Outcome, PLAIN, SESSION_SCRIPTS, behind_opening, end_of, in_pages,
    lines_of_row, run,
};

/// A command on a store without a byte, the same with checkpoints, and how the files then begin: page 0 up to its base, and the journal up to its first
/// commit's number or its closed gate.
struct Asked {
    plain: &'static str,
    words: &'static str,
    input: &'static str,
    pages: &'static [u8],
    journal: &'static [u8],
}

/// Three transactions that create the documents p, q and r.
const THREE: &str = r#"{"s":1,"call":"begin"}
{"s":1,"call":"create","name":"p","tree":["a"]}
{"s":1,"call":"commit"}
{"s":1,"call":"begin"}
{"s":1,"call":"create","name":"q","tree":["a"]}
{"s":1,"call":"commit"}
{"s":1,"call":"begin"}
{"s":1,"call":"create","name":"r","tree":["a"]}
{"s":1,"call":"commit"}
"#;

/// A journal whose first commit has the number 1.
const FROM_ONE: &[u8] = b"\x01XTCJRN1\x01\0\0\0\0\x01";

const COMMANDS: &[Asked] = &[
    Asked {
        plain: "run",
        words: "run --checkpoint 1",
        input: THREE,
        pages: b"XTCPAGE1\0\0\0\x03",
        journal: NEW,
    },
    Asked {
        plain: "run",
        words: "run --checkpoint=2 --frames 1",
        input: THREE,
        pages: b"XTCPAGE1\0\0\0\x02",
        journal: b"\x01XTCJRN1\x01\0\0\0\0\x03",
    },
    Asked {
        plain: "run",
        words: "run --checkpoint 4",
        input: THREE,
        pages: b"",
        journal: FROM_ONE,
    },
    // Behind the last of the workers' commits, where there are so many.
    Asked {
        plain: "workers",
        words: "workers --checkpoint 2",
        input: THREE,
        pages: b"XTCPAGE1\0\0\0\x03",
        journal: NEW,
    },
    Asked {
        plain: "workers",
        words: "workers --checkpoint 4",
        input: THREE,
        pages: b"",
        journal: FROM_ONE,
    },
    // Of 34 commits the last two come behind the last checkpoint.
    Asked {
        plain: "gen 7 16",
        words: "gen 7 16 --checkpoint 8",
        input: "",
        pages: b"XTCPAGE1\0\0\0\x20",
        journal: b"\x01XTCJRN1\x01\0\0\0\0\x21",
    },
    Asked {
        plain: "gen 7 16",
        words: "gen 7 16 --checkpoint 17",
        input: "",
        pages: b"XTCPAGE1\0\0\0\x22",
        journal: NEW,
    },
    // The word changes nothing of one document.
    Asked {
        plain: "put x",
        words: "put x --checkpoint 1",
        input: "[\"a\"]",
        pages: b"",
        journal: FROM_ONE,
    },
];

/// Both stores hold the same tree with the same number.
fn hold_the_same(
    rt: &(impl Abort + Threads + Wait + Sync),
    alloc: Global,
    left: &Outcome,
    plain: &Outcome,
) -> Result<(), Fail> {
    let found = in_pages(alloc, &left.journal, &left.pages)?;
    let wanted = in_pages(alloc, &plain.journal, &plain.pages)?;
    assert!(rt; found == wanted, "another tree, or another number");
    Ok(())
}

/// A command with checkpoints ends, writes and leaves the same as the plain one.
fn as_without<'x>(
    rt: &(impl Abort + Threads + Wait + Sync),
    alloc: Global,
    plain: &'x str,
    words: &'x str,
    input: &'x str,
) -> Result<Outcome, Fail> {
    let without = Case {
        words: plain,
        input,
        ..PLAIN
    };
    let with = Case { words, ..without };
    let plain = run(rt, alloc, &without, 0)?;
    let left = run(rt, alloc, &with, 0)?;
    assert_eq!(rt; left.told.as_slice(), plain.told.as_slice(), "{words}");
    hold_the_same(rt, alloc, &left, &plain)?;
    Ok(left)
}

fn run_asked(
    rt: &(impl Abort + Threads + Wait + Sync),
    alloc: Global,
    asked: &Asked,
) -> Result<(), Fail> {
    let left = as_without(rt, alloc, asked.plain, asked.words, asked.input)?;
    let base = left.pages.as_slice().get(..12).unwrap_or(&[]);
    assert_eq!(rt; base, asked.pages, "{}", asked.words);
    assert!(rt;
        left.journal.starts_with(asked.journal),
        "the journal of {}",
        asked.words
    );
    Ok(())
}

#[test]
fn commands_with_checkpoints_write_the_same_and_move_the_same_tree_into_pages(
    rt: HostRuntime,
) -> Result<(), Fail> {
    for asked in COMMANDS {
        run_asked(&rt, rt.alloc(), asked)?;
    }
    Ok(())
}

/// Behind each commit all is in the pages, whatever the other sessions do.
#[test]
fn each_script_of_several_sessions_is_answered_over_checkpoints(
    rt: HostRuntime,
) -> Result<(), Fail> {
    for row in SESSION_SCRIPTS {
        let lines = lines_of_row(rt.alloc(), row)?;
        let left = as_without(&rt, rt.alloc(), "run", "run --checkpoint 1", &lines)?;
        assert!(rt; left.journal.starts_with(NEW), "{}", row.script);
    }
    Ok(())
}

/// A script on a new journal with checkpoints, and the pieces of what it is answered, each of which ends with a commit's reply.
struct Stopped {
    words: &'static str,
    input: &'static str,
    pieces: &'static [&'static str],
}

const SCRIPTS: [Stopped; 2] = [
    Stopped {
        words: "run --checkpoint 2",
        input: THREE,
        pieces: &[
            "{\"ok\":1,\"s\":1}\n{\"ok\":\"1.1001\",\"s\":1}\n{\"ok\":1,\"s\":1}\n",
            "{\"ok\":2,\"s\":1}\n{\"ok\":\"1.1003\",\"s\":1}\n{\"ok\":2,\"s\":1}\n",
            "{\"ok\":3,\"s\":1}\n{\"ok\":\"1.1005\",\"s\":1}\n{\"ok\":3,\"s\":1}\n",
        ],
    },
    // An append waits over a checkpoint for the edge at which another session has seen no child.
    Stopped {
        words: "run --frames 1 --checkpoint 1",
        input: r#"{"s":1,"call":"begin"}
{"s":1,"call":"create","name":"x","tree":["a"]}
{"s":2,"call":"begin"}
{"s":1,"call":"commit"}
{"s":1,"call":"begin"}
{"s":3,"call":"begin"}
{"s":1,"call":"first","at":"1.1001.1001"}
{"s":2,"call":"append","at":"1.1001.1001","tree":["b"]}
{"s":3,"call":"commit"}
{"s":1,"call":"commit"}
{"s":2,"call":"commit"}
"#,
        pieces: &[
            "{\"ok\":1,\"s\":1}\n{\"ok\":\"1.1001\",\"s\":1}\n{\"ok\":1,\"s\":2}\n{\"ok\":1,\"s\":1}\n",
            "{\"ok\":2,\"s\":1}\n{\"ok\":1,\"s\":3}\n{\"ok\":null,\"s\":1}\n{\"s\":2,\"wait\":{\"asks\":\"EX\",\"by\":[1],\"on\":\"first 1.1001.1001\"}}\n{\"ok\":2,\"s\":3}\n",
            "{\"ok\":3,\"s\":1}\n",
            "{\"ok\":\"1.1001.1001.1001\",\"s\":2,\"woke\":true}\n{\"ok\":4,\"s\":2}\n",
        ],
    },
];

/// What so many of its commits leave, as pages: the first call of the next one fails, where there are no checkpoints.
fn prefix(
    rt: &(impl Abort + Threads + Wait + Sync),
    alloc: Global,
    row: &Stopped,
    commits: u64,
) -> Result<Vec<u8>, Fail> {
    let case = Case {
        input: row.input,
        journal: NEW,
        ..PLAIN
    };
    let next = behind_opening(rt, alloc, NEW, commits.saturating_mul(4).saturating_add(1))?;
    let left = run(rt, alloc, &case, next)?;
    in_pages(alloc, &left.journal, b"")
}

/// What each of its commits leaves, from none on.
fn prefixes(
    rt: &(impl Abort + Threads + Wait + Sync),
    alloc: Global,
    row: &Stopped,
) -> Result<Vec<Vec<u8>>, Fail> {
    let mut found = Vec::new(alloc);
    for commits in 0..=row.pieces.len() as u64 {
        found.push(prefix(rt, alloc, row, commits)?)?;
    }
    Ok(found)
}

/// A run of which one call of a disk fails, 0 where none does.
fn left_by(
    rt: &(impl Abort + Threads + Wait + Sync),
    alloc: Global,
    row: &Stopped,
    journal_call: u64,
    pages_call: u64,
) -> Result<Ended, AllocError> {
    let case = Case {
        words: row.words,
        input: row.input,
        piece: 1,
        journal: NEW,
        pages_call,
        ..PLAIN
    };
    end_of(rt, alloc, &case, journal_call)
}

/// How many commits are answered in what a run has written before its disk failed, if it is a prefix of these pieces.
fn answered(pieces: &[&str], told: &[u8]) -> Option<usize> {
    let mut rest = told.strip_prefix(b"7 xtc: disk failed")?;
    let mut whole: usize = 0;
    for piece in pieces {
        match rest.strip_prefix(piece.as_bytes()) {
            Some(behind) => rest = behind,
            None if piece.as_bytes().starts_with(rest) => return Some(whole),
            None => return None,
        }
        whole = whole.saturating_add(1);
    }
    Some(whole)
}

/// Each two of these files hold as many commits as were answered, or one more.
fn all_hold(
    rt: &(impl Abort + Threads + Wait + Sync),
    alloc: Global,
    prefixes: &[Vec<u8>],
    commits: usize,
    journals: &[List<u8>],
    pages: &[List<u8>],
) -> Result<(), Fail> {
    for journal in journals {
        for page_file in pages {
            let found = in_pages(alloc, journal.as_slice(), page_file.as_slice())?;
            let held = prefixes
                .iter()
                .position(|it| it.as_slice() == found.as_slice());
            assert!(rt;
                held == Some(commits) || held == Some(commits.saturating_add(1)),
                "{held:?} commits, and {commits} were answered"
            );
        }
    }
    Ok(())
}

/// A file alone.
fn alone(alloc: Global, file: &[u8]) -> Result<List<List<u8>>, NoMemory> {
    let mut files = List::new(alloc);
    files.push(List::from_vec(Vec::from_slice(alloc, file)?))?;
    Ok(files)
}

/// What a stop in this call of the journal's disk leaves holds, beside these pages.
fn journals_hold(
    rt: &(impl Abort + Threads + Wait + Sync),
    alloc: Global,
    prefixes: &[Vec<u8>],
    commits: usize,
    journal: &MemDisk,
    call: u64,
    pages: &[u8],
) -> Result<(), Fail> {
    let journals = journal.stop_images(alloc, call)?;
    let pages = alone(alloc, pages)?;
    all_hold(
        rt,
        alloc,
        prefixes,
        commits,
        journals.as_slice(),
        pages.as_slice(),
    )
}

/// The same of the page file's disk, beside this journal.
fn pages_hold(
    rt: &(impl Abort + Threads + Wait + Sync),
    alloc: Global,
    prefixes: &[Vec<u8>],
    commits: usize,
    pages: &MemDisk,
    call: u64,
    journal: &[u8],
) -> Result<(), Fail> {
    let pages = pages.stop_images(alloc, call)?;
    let journal = alone(alloc, journal)?;
    all_hold(
        rt,
        alloc,
        prefixes,
        commits,
        journal.as_slice(),
        pages.as_slice(),
    )
}

/// How many commits a run has answered before its disk failed.
fn answered_by(row: &Stopped, failed: &Ended) -> Result<usize, Fail> {
    match answered(row.pieces, &failed.told) {
        Some(commits) => Ok(commits),
        None => Err(Fail::from("a failing call of a disk isn't told as it should")),
    }
}

/// A stop in a call of the journal's disk, and one behind it where it fails, beside the pages of then.
fn stop_of_journal(
    rt: &(impl Abort + Threads + Wait + Sync),
    alloc: Global,
    row: &Stopped,
    prefixes: &[Vec<u8>],
    whole: &MemDisk,
    call: u64,
) -> Result<(), Fail> {
    let failed = left_by(rt, alloc, row, call, 0)?;
    let commits = answered_by(row, &failed)?;
    let pages = failed.pages.bytes();
    journals_hold(rt, alloc, prefixes, commits, whole, call, pages)?;
    let behind = call.saturating_add(1);
    journals_hold(rt, alloc, prefixes, commits, &failed.journal, behind, pages)
}

/// The same of the page file's disk, beside the journal of then.
fn stop_of_pages(
    rt: &(impl Abort + Threads + Wait + Sync),
    alloc: Global,
    row: &Stopped,
    prefixes: &[Vec<u8>],
    whole: &MemDisk,
    call: u64,
) -> Result<(), Fail> {
    let failed = left_by(rt, alloc, row, 0, call)?;
    let commits = answered_by(row, &failed)?;
    let journal = failed.journal.bytes();
    pages_hold(rt, alloc, prefixes, commits, whole, call, journal)?;
    let behind = call.saturating_add(1);
    pages_hold(rt, alloc, prefixes, commits, &failed.pages, behind, journal)
}

/// Each call of both disks of a run, those of its opening too.
fn stops_of(
    rt: &(impl Abort + Threads + Wait + Sync),
    alloc: Global,
    row: &Stopped,
    prefixes: &[Vec<u8>],
    whole: &Ended,
) -> Result<(), Fail> {
    for call in 1..=whole.journal.calls() {
        stop_of_journal(rt, alloc, row, prefixes, &whole.journal, call)?;
    }
    for call in 1..=whole.pages.calls() {
        stop_of_pages(rt, alloc, row, prefixes, &whole.pages, call)?;
    }
    Ok(())
}

fn run_stopped(
    rt: &(impl Abort + Threads + Wait + Sync),
    alloc: Global,
    row: &Stopped,
) -> Result<(), Fail> {
    let prefixes = prefixes(rt, alloc, row)?;
    let whole = left_by(rt, alloc, row, 0, 0)?;
    // A commit makes six calls of the journal's disk; of the pages' an opening looks at the length, and a checkpoint writes and syncs.
    let of_commits = row.pieces.len().saturating_mul(6) as u64;
    assert!(rt; whole.journal.calls() >= of_commits && whole.pages.calls() >= 3);
    stops_of(rt, alloc, row, &prefixes, &whole)
}

#[test]
fn a_stop_or_a_fault_at_each_call_of_both_disks_leaves_each_answered_commit(
    rt: HostRuntime,
) -> Result<(), Fail> {
    for row in &SCRIPTS {
        run_stopped(&rt, rt.alloc(), row)?;
    }
    Ok(())
}
