//! The whole program over the real files of a store, which are opened anew for each command.
use dewey_labels::List;
use outside_kinds::{MemSink, MemSource, NoGate};
use outside_traits::Disk;
use std::alloc::{AllocError, Global};
use std::sync::Wait;
use std::test::Fail;
use std::thread::Threads;
use store_files::{StoreFiles, Streams};
use xtc::xtc;
use xtc_cases::{SIXTY, listed, told, words_of};

fn source_of(alloc: Global, input: &[u8]) -> Result<MemSource, AllocError> {
    Ok(MemSource::new(listed(alloc, input)?, List::new(alloc)))
}

/// How a command ends over the files of the working folder, and then what it writes.
fn run<T: Threads + Wait + Sync>(
    rt: &HostRuntime,
    threads: &T,
    words: &str,
    input: &[u8],
) -> Result<Vec<u8>, Fail> {
    let words = words_of(rt.alloc(), words)?;
    let mut source = source_of(rt.alloc(), input)?;
    run_over(rt, threads, &words, &mut source)
}

fn run_over<T: Threads + Wait + Sync>(
    rt: &HostRuntime,
    threads: &T,
    words: &Vec<String>,
    source: &mut MemSource,
) -> Result<Vec<u8>, Fail> {
    let StoreFiles { journal, pages } = StoreFiles::open(rt, &Streams::take(rt)?)?;
    let mut sink = MemSink::new(rt.alloc(), List::new(rt.alloc()));
    let status = xtc(
        threads,
        rt.alloc(),
        words,
        source,
        &mut sink,
        journal,
        pages,
        &NoGate,
    )
    .status;
    Ok(told(rt.alloc(), &status, sink.bytes())?)
}

/// What the journal begins with, and its length.
fn journal(rt: &HostRuntime) -> Result<([u8; 60], Option<u64>), Fail> {
    let mut files = StoreFiles::open(rt, &Streams::take(rt)?)?;
    let mut bytes = [0; 60];
    let _read = files.journal.read_at(0, &mut bytes);
    Ok((bytes, files.journal.len().ok()))
}

/// Each command with its input, and how it ends and what it writes.
const COMMANDS: [(&str, &[u8], &[u8]); 5] = [
    ("get x", b"", b"10 Call(Dom(8))"),
    ("put x", b"[\"a\"]", b"0 \"1.1001\"\n"),
    ("get x", b"", b"0 [\"a\"]\n"),
    ("put x", b"[\"b\"]", b"10 Call(DocumentExists)"),
    (
        "workers",
        b"{\"s\":1,\"call\":\"commit\"}",
        b"0 {\"err\":{\"name\":\"NoTransaction\"},\"s\":1}\n{\"order\":[]}\n",
    ),
];

#[test]
fn a_document_is_there_when_the_files_are_opened_again(rt: HostRuntime) -> Result<(), Fail> {
    for (words, input, want) in &COMMANDS {
        assert_eq!(rt; run(&rt, &rt, words, input)?.as_slice(), *want, "{words}");
    }
    let (bytes, len) = journal(&rt)?;
    assert_eq!(rt; (bytes.as_slice(), len), (SIXTY, Some(60)));
    Ok(())
}
