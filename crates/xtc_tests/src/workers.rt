//! Whole scripts by workers through the whole program: what is written, and what the store that is left holds.
use dewey_labels::List;
use outside_kinds::{MemDisk, MemSink, MemSource};
use std::alloc::{AllocError, Global};
use std::process::Abort;
use std::sync::Wait;
use std::test::Fail;
use std::thread::Threads;
use worker_tests::InTurn;
use xtc::xtc;
use xtc_cases::{
    Case, NEW, Outcome, PLAIN, SIXTY, behind_opening, listed, run, run_cases, told, words_of,
};

/// One session creates the document x and commits.
const CREATE: Case<'static> = Case {
    words: "workers",
    input: "{\"s\":1,\"call\":\"begin\"}\n{\"s\":1,\"call\":\"create\",\"name\":\"x\",\"tree\":[\"a\"]}\n{\"s\":1,\"call\":\"commit\"}\n",
    text: "{\"ok\":1,\"s\":1}\n{\"ok\":\"1.1001\",\"s\":1}\n{\"ok\":1,\"s\":1}\n{\"order\":[[1,1]]}\n",
    ..PLAIN
};

/// No line is done of a script that can't be had.
const UNDONE: Case<'static> = Case {
    text: "",
    now: Some(NEW),
    then: "10 Call(Dom(8))",
    ..CREATE
};

const SCRIPTS: &[Case<'static>] = &[
    Case {
        now: Some(SIXTY),
        then: "0 [\"a\"]\n",
        ..CREATE
    },
    // No line at all, blank ones, and bad ones, which are counted with them.
    Case {
        input: "",
        text: "{\"order\":[]}\n",
        now: Some(NEW),
        ..CREATE
    },
    Case {
        input: "\n \t\r\n",
        text: "{\"order\":[]}\n",
        now: Some(NEW),
        ..CREATE
    },
    Case {
        input: "\n{\"s\":1}\n \r\nnope\n{\"s\":65,\"call\":\"begin\"}",
        text: "{\"bad\":\"call\",\"line\":2}\n{\"bad\":\"json\",\"line\":4}\n{\"bad\":\"s\",\"line\":5}\n{\"order\":[]}\n",
        now: Some(NEW),
        ..CREATE
    },
    // What a session is refused. Its last transaction is live at the end.
    Case {
        input: "{\"s\":3,\"call\":\"commit\"}\n{\"s\":3,\"call\":\"begin\"}\nnope\n{\"s\":3,\"call\":\"begin\"}\n{\"s\":3,\"call\":\"abort\"}\n{\"s\":3,\"call\":\"docs\"}\n{\"s\":3,\"call\":\"begin\"}\n",
        text: "{\"err\":{\"name\":\"NoTransaction\"},\"s\":3}\n{\"ok\":1,\"s\":3}\n{\"bad\":\"json\",\"line\":3}\n{\"err\":{\"name\":\"InTransaction\"},\"s\":3}\n{\"ok\":null,\"s\":3}\n{\"err\":{\"name\":\"NoTransaction\"},\"s\":3}\n{\"ok\":2,\"s\":3}\n{\"order\":[]}\n",
        now: Some(NEW),
        ..CREATE
    },
    // Where the text can't be written its commits are durable.
    Case {
        write: 1,
        status: "6 xtc: output failed",
        written: 0,
        now: Some(SIXTY),
        then: "0 [\"a\"]\n",
        ..CREATE
    },
    Case {
        write: 2,
        piece: 20,
        status: "6 xtc: output failed",
        written: 20,
        now: Some(SIXTY),
        then: "0 [\"a\"]\n",
        ..CREATE
    },
    Case {
        write: 3,
        piece: 20,
        status: "6 xtc: output failed",
        written: 40,
        now: Some(SIXTY),
        then: "0 [\"a\"]\n",
        ..CREATE
    },
    Case {
        write: 4,
        piece: 20,
        status: "6 xtc: output failed",
        written: 60,
        now: Some(SIXTY),
        then: "0 [\"a\"]\n",
        ..CREATE
    },
    // A file that can't be opened.
    Case {
        journal: SIXTY,
        journal_call: 1,
        status: "7 xtc: disk failed",
        now: Some(SIXTY),
        then: "0 [\"a\"]\n",
        ..UNDONE
    },
    Case {
        journal: SIXTY,
        pages_call: 1,
        status: "7 xtc: disk failed",
        now: Some(SIXTY),
        then: "0 [\"a\"]\n",
        ..UNDONE
    },
    Case {
        read: 1,
        status: "5 xtc: input failed",
        ..UNDONE
    },
    Case {
        read: 3,
        piece: 30,
        status: "5 xtc: input failed",
        ..UNDONE
    },
    Case {
        input: "{\"s\":1,\"call\":\"begin\"}\n{\"s\":1,\"call\":\"commit\"}\n@1048577 x@",
        status: "3 xtc: line 3 is too long",
        ..UNDONE
    },
    Case {
        input: "{\"s\":1,\"call\":\"begin\"}\n@16777216 \n@",
        status: "3 xtc: line 0 is too long",
        ..UNDONE
    },
];

#[test]
fn each_script_has_its_text_and_leaves_its_store(rt: HostRuntime) -> Result<(), Fail> {
    run_cases(&rt, rt.alloc(), SCRIPTS)
}

/// Runs a script by workers over a new store, with this gate.
fn work(
    rt: &(impl Abort + Threads + Wait + Sync),
    alloc: Global,
    input: &str,
    gate: &InTurn,
) -> Result<Vec<u8>, AllocError> {
    let words = words_of(alloc, "workers")?;
    let mut source = MemSource::new(listed(alloc, input.as_bytes())?, List::new(alloc));
    let mut sink = MemSink::new(alloc, List::new(alloc));
    let journal = MemDisk::new(List::new(alloc), List::new(alloc));
    let pages = MemDisk::new(List::new(alloc), List::new(alloc));
    let status = xtc(
        rt,
        alloc,
        &words,
        &mut source,
        &mut sink,
        journal,
        pages,
        gate,
    )
    .status;
    told(alloc, &status, sink.bytes())
}

/// Two sessions that read the documents of an empty store and commit.
const TWO: &str = r#"{"s":1,"call":"begin"}
{"s":1,"call":"docs"}
{"s":1,"call":"commit"}
{"s":2,"call":"begin"}
{"s":2,"call":"docs"}
{"s":2,"call":"commit"}
"#;

/// What they are answered where the first one commits first, and where the second one does.
const IN_ORDER: &[u8] =
    b"0 {\"ok\":1,\"s\":1}\n{\"ok\":[],\"s\":1}\n{\"ok\":1,\"s\":1}\n{\"ok\":1,\"s\":2}\n{\"ok\":[],\"s\":2}\n{\"ok\":2,\"s\":2}\n{\"order\":[[1,1],[2,1]]}\n";

const TURNED: &[u8] =
    b"0 {\"ok\":1,\"s\":1}\n{\"ok\":[],\"s\":1}\n{\"ok\":2,\"s\":1}\n{\"ok\":1,\"s\":2}\n{\"ok\":[],\"s\":2}\n{\"ok\":1,\"s\":2}\n{\"order\":[[2,1],[1,1]]}\n";

#[test]
fn the_gate_lets_the_second_commit_first(rt: HostRuntime) -> Result<(), Fail> {
    let gate = InTurn::new(2);
    let text = work(&rt, rt.alloc(), TWO, &gate)?;
    assert!(rt; gate.held());
    assert_eq!(rt; text.as_slice(), TURNED);
    Ok(())
}

/// Without a gate either may come first.
#[test]
fn either_may_commit_first(rt: HostRuntime) -> Result<(), Fail> {
    for _time in 0..20 {
        let case = Case {
            words: "workers",
            input: TWO,
            ..PLAIN
        };
        let outcome = run(&rt, rt.alloc(), &case, 0)?;
        assert!(rt; outcome.told.as_slice() == IN_ORDER || outcome.told.as_slice() == TURNED);
    }
    Ok(())
}

/// Two commits of one session, one after the other, which create the documents x and y.
const BOTH: Case<'static> = Case {
    words: "workers",
    input: "{\"s\":1,\"call\":\"begin\"}\n{\"s\":1,\"call\":\"create\",\"name\":\"x\",\"tree\":[\"a\"]}\n{\"s\":1,\"call\":\"commit\"}\n{\"s\":1,\"call\":\"begin\"}\n{\"s\":1,\"call\":\"create\",\"name\":\"y\",\"tree\":[\"a\"]}\n{\"s\":1,\"call\":\"commit\"}\n",
    journal: NEW,
    ..PLAIN
};

/// Runs a script whose journal's disk fails at a call.
fn fails_at(
    rt: &(impl Abort + Threads + Wait + Sync),
    alloc: Global,
    call: u64,
) -> Result<Outcome, AllocError> {
    let later = behind_opening(rt, alloc, NEW, call)?;
    run(rt, alloc, &BOTH, later)
}

/// What is got of a document from a journal.
fn got<'a>(
    rt: &(impl Abort + Threads + Wait + Sync),
    alloc: Global,
    journal: &'a [u8],
    words: &'a str,
) -> Result<Vec<u8>, AllocError> {
    let case = Case {
        words,
        journal,
        ..PLAIN
    };
    Ok(run(rt, alloc, &case, 0)?.told)
}

/// Whether a document of one element is got from a journal.
fn is_there(
    rt: &(impl Abort + Threads + Wait + Sync),
    alloc: Global,
    journal: &[u8],
    words: &str,
) -> Result<bool, AllocError> {
    Ok(got(rt, alloc, journal, words)?.as_slice() == b"0 [\"a\"]\n".as_slice())
}

/// How many calls a commit takes that is written alone: three writes, a sync, the gate, and a sync.
const CALLS: u64 = 6;

/// Whether a run whose journal's disk fails at a call tells so, and whether the documents x and y are there then.
fn found_after(
    rt: &(impl Abort + Threads + Wait + Sync),
    alloc: Global,
    call: u64,
) -> Result<(bool, bool, bool), AllocError> {
    let outcome = fails_at(rt, alloc, call)?;
    let failed = outcome.told.as_slice() == b"7 xtc: disk failed".as_slice();
    let x = is_there(rt, alloc, &outcome.journal, "get x")?;
    let y = is_there(rt, alloc, &outcome.journal, "get y")?;
    Ok((failed, x, y))
}

/// The first commit is durable before the second is written. Of the one whose call failed nothing is known.
#[test]
fn a_failed_disk_is_silent_and_leaves_the_first_commits(rt: HostRuntime) -> Result<(), Fail> {
    for call in 1..=2 * CALLS + 1 {
        let (failed, x, y) = found_after(&rt, rt.alloc(), call)?;
        assert_eq!(rt; failed, call <= 2 * CALLS, "at call {call}");
        assert!(rt; x || (call <= CALLS && !y), "at call {call}");
        assert!(rt; y || failed, "at call {call}");
    }
    Ok(())
}
