//! The command `gen`: over which stores it runs, what it writes, and what it leaves of the files. Its counts are worked by hand from docs/PROFILE.md, "The generator".
use dewey_labels::List;
use outside_kinds::{MemDisk, MemSink, MemSource, NoGate};
use std::alloc::{AllocError, Global};
use std::process::Abort;
use std::sync::Wait;
use std::test::Fail;
use std::thread::Threads;
use workload_gen::Script;
use xtc::xtc;
use xtc_cases::{CUT, Case, NEW, Outcome, PLAIN, SIXTY, listed, run_case, run_cases, words_of};

/// A run over a new store, whose summary is taken in small pieces.
const GEN: Case<'static> = Case {
    words: "gen 7 1",
    input: "[",
    piece: 7,
    journal: NEW,
    ..PLAIN
};

/// What is counted of one book: three transactions, of three, three and four lines.
const ONE_BOOK: &str =
    "{\"books\":1,\"commits\":3,\"deadlocks\":0,\"errors\":0,\"found\":0,\"lines\":10,\"ok\":10,\"waits\":0}\n";

const ENDS: &[Case<'static>] = &[
    Case {
        text: ONE_BOOK,
        ..GEN
    },
    Case {
        words: "gen -- 0000000007 0000000001",
        journal: b"",
        text: ONE_BOOK,
        ..GEN
    },
    // Seven books make no round, and eight make one, in which session 1 waits once.
    Case {
        words: "gen 7 7",
        text: "{\"books\":7,\"commits\":9,\"deadlocks\":0,\"errors\":0,\"found\":0,\"lines\":28,\"ok\":28,\"waits\":0}\n",
        ..GEN
    },
    Case {
        words: "gen 7 8",
        text: "{\"books\":8,\"commits\":18,\"deadlocks\":0,\"errors\":0,\"found\":5,\"lines\":56,\"ok\":56,\"waits\":1}\n",
        ..GEN
    },
    Case {
        words: "gen 4294967295 9",
        text: "{\"books\":9,\"commits\":19,\"deadlocks\":0,\"errors\":0,\"found\":5,\"lines\":59,\"ok\":59,\"waits\":1}\n",
        ..GEN
    },
    Case {
        words: "gen 7 200",
        text: "{\"books\":200,\"commits\":402,\"deadlocks\":0,\"errors\":0,\"found\":120,\"lines\":1232,\"ok\":1232,\"waits\":25}\n",
        ..GEN
    },
    Case {
        words: "gen 7 2000",
        text: "{\"books\":2000,\"commits\":4002,\"deadlocks\":0,\"errors\":0,\"found\":1200,\"lines\":12257,\"ok\":12257,\"waits\":250}\n",
        ..GEN
    },
    // A store with a document stays as it is.
    Case {
        journal: SIXTY,
        status: "10 Call(DocumentExists)",
        now: Some(SIXTY),
        ..GEN
    },
    // The words are tested first, then the store is opened.
    Case {
        words: "gen 1 0",
        journal: CUT,
        status: "2 xtc: usage",
        now: Some(CUT),
        ..GEN
    },
    Case {
        journal: CUT,
        status: "4 xtc: damaged journal at 8",
        now: Some(CUT),
        ..GEN
    },
    // It reads no input.
    Case {
        read: 1,
        text: ONE_BOOK,
        ..GEN
    },
    // The summary can't be written.
    Case {
        write: 1,
        status: "6 xtc: output failed",
        ..GEN
    },
    Case {
        write: 2,
        status: "6 xtc: output failed",
        text: ONE_BOOK,
        written: 7,
        ..GEN
    },
    Case {
        journal_call: 1,
        status: "7 xtc: disk failed",
        now: Some(NEW),
        ..GEN
    },
];

#[test]
fn the_summary_counts_the_script_of_a_store_without_documents(rt: HostRuntime) -> Result<(), Fail> {
    run_cases(&rt, rt.alloc(), ENDS)
}

/// A call of the journal that fails, counted behind its opening, where each commit has four; and what `get gen` says of the store that is left.
const FAILING: [(u64, &str, &str); 6] = [
    (1, "10 Call(Dom(8))", ""),
    (2, "10 Call(Dom(8))", ""),
    (5, "0 ", "[\"catalogue\"]\n"),
    (6, "0 ", "[\"catalogue\"]\n"),
    (
        9,
        "0 ",
        "[\"catalogue\",[\"book\",{\"id\":\"1\"},[\"title\",\"Book 1\"],[\"price\",\"44\"]]]\n",
    ),
    (
        10,
        "0 ",
        "[\"catalogue\",[\"book\",{\"id\":\"1\"},[\"title\",\"Book 1\"],[\"price\",\"44\"]]]\n",
    ),
];

/// Runs `get gen` on a journal.
fn get_gen<'x>(
    rt: &(impl Abort + Threads + Wait + Sync),
    alloc: Global,
    journal: &'x [u8],
    status: &'x str,
    text: &'x str,
) -> Result<Outcome, Fail> {
    let case = Case {
        words: "get gen",
        journal,
        status,
        text,
        ..PLAIN
    };
    run_case(rt, alloc, &case)
}

fn got_after(
    rt: &(impl Abort + Threads + Wait + Sync),
    alloc: Global,
    call: u64,
    status: &str,
    text: &str,
) -> Result<(), Fail> {
    let case = Case {
        later_call: call,
        status: "7 xtc: disk failed",
        ..GEN
    };
    let outcome = run_case(rt, alloc, &case)?;
    get_gen(rt, alloc, &outcome.journal, status, text)?;
    Ok(())
}

#[test]
fn a_failed_disk_ends_it_and_the_commits_before_stay(rt: HostRuntime) -> Result<(), Fail> {
    for &(call, status, text) in &FAILING {
        got_after(&rt, rt.alloc(), call, status, text)?;
    }
    Ok(())
}

/// The script of `gen 7 20`.
fn script(alloc: Global) -> Result<String, AllocError> {
    let mut lines = Script::new(7, 20);
    let mut out = String::new(alloc);
    while let Some(line) = lines.next() {
        out.push_str(line.text(alloc)?.as_str())?;
        out.push('\n')?;
    }
    Ok(out)
}

/// How a run over a new store ends, what it writes, and the journal that it leaves.
#[derive(Drop)]
struct Ran {
    status: u8,
    text: Vec<u8>,
    journal: Vec<u8>,
}

fn left(
    rt: &(impl Abort + Threads + Wait + Sync),
    alloc: Global,
    words: &str,
    input: &str,
) -> Result<Ran, AllocError> {
    let words = words_of(alloc, words)?;
    let mut source = MemSource::new(listed(alloc, input.as_bytes())?, List::new(alloc));
    let mut sink = MemSink::new(alloc, List::new(alloc));
    let journal = MemDisk::new(List::new(alloc), List::new(alloc));
    let pages = MemDisk::new(List::new(alloc), List::new(alloc));
    let finish = xtc(
        rt,
        alloc,
        &words,
        &mut source,
        &mut sink,
        journal,
        pages,
        &NoGate,
    );
    Ok(Ran {
        status: finish.status.number(),
        text: Vec::from_slice(alloc, sink.bytes())?,
        journal: Vec::from_slice(alloc, finish.journal.bytes())?,
    })
}

/// What is counted of twenty books: two rounds, in which all eight transactions commit and session 1 waits once.
const TWENTY_BOOKS: &[u8] =
    b"{\"books\":20,\"commits\":38,\"deadlocks\":0,\"errors\":0,\"found\":10,\"lines\":117,\"ok\":117,\"waits\":2}\n";

#[test]
fn it_leaves_the_bytes_that_its_script_leaves(rt: HostRuntime) -> Result<(), Fail> {
    let alloc = rt.alloc();
    let text = script(alloc)?;
    let ran = left(&rt, alloc, "run", text.as_str())?;
    let generated = left(&rt, alloc, "gen 7 20", "")?;
    assert_eq!(rt; (ran.status, generated.status), (0, 0));
    assert_eq!(rt; generated.text.as_slice(), TWENTY_BOOKS);
    assert_eq!(rt; generated.journal, ran.journal);
    Ok(())
}
