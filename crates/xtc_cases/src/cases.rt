//! A run of the program over memory: its words, its input and files, what fails of them, and what comes of it.
use crate::in_pieces::InPieces;
use dewey_labels::List;
use outside_kinds::{MemDisk, MemSink, MemSource, NoGate};
use outside_traits::{Disk, Sink, Source};
use std::alloc::{AllocError, Global};
use std::sync::Wait;
use std::test::Fail;
use std::thread::Threads;
use xtc::{Finish, Status, xtc};

/// A run of the program: its words, its input and files, what fails of them, and what comes of it. Its texts are as `written_out` has them.
#[derive(Clone, Copy)]
pub struct Case<'a> {
    pub words: &'a str,
    pub input: &'a str,
    /// How many bytes the input has with the blanks behind it, 0 where there are none.
    pub bytes: usize,
    /// The most bytes that come and go at a time.
    pub piece: usize,
    pub journal: &'a [u8],
    pub pages: &'a [u8],
    /// The read, the write and the call of each file that fail, 0 where none does.
    pub read: u64,
    pub write: u64,
    pub journal_call: u64,
    pub pages_call: u64,
    /// The same of the journal, counted behind the calls of its opening.
    pub later_call: u64,
    /// The status by its number, with all that it tells.
    pub status: &'a str,
    pub text: &'a str,
    /// How many bytes of the text are written at most.
    pub written: usize,
    /// What the journal has then, where that is sure.
    pub now: Option<&'a [u8]>,
    /// The status and the text of `get x` on the store that is left, where it is asked.
    pub then: &'a str,
}

/// An empty script on an empty store.
pub const PLAIN: Case<'static> = Case {
    words: "run",
    input: "",
    bytes: 0,
    piece: 65_536,
    journal: b"",
    pages: b"",
    read: 0,
    write: 0,
    journal_call: 0,
    pages_call: 0,
    later_call: 0,
    status: "0 ",
    text: "",
    written: 1_000_000_000,
    now: None,
    then: "",
};

/// What a run of the program gives: how it ended and then what it has written, and the bytes of its files with the calls of these that it made.
#[derive(Drop)]
pub struct Outcome {
    pub told: Vec<u8>,
    pub journal: Vec<u8>,
    pub pages: Vec<u8>,
    pub journal_calls: u64,
    pub pages_calls: u64,
}

fn status_text(alloc: Global, status: &Status) -> Result<String, AllocError> {
    match status {
        Status::NotJsonMl(why) => format!(in alloc; "9 {} at {}", why.name(), why.path()),
        Status::DocumentRefused(why) => format!(in alloc; "10 {why:?}"),
        other => format!(in alloc; "{} {other}", other.number()),
    }
}

/// How a run ended, and then what it has written.
pub fn told(alloc: Global, status: &Status, text: &[u8]) -> Result<Vec<u8>, AllocError> {
    let mut told = status_text(alloc, status)?.into_bytes();
    told.extend_from_slice(text)?;
    Ok(told)
}

/// A text as it is meant: `@COUNT PIECE@` stands for so many of the piece, and `@@` elsewhere for the sign itself.
pub fn written_out(alloc: Global, text: &str) -> Result<String, AllocError> {
    let mut out = String::new(alloc);
    for (place, part) in text.split('@').enumerate() {
        if place % 2 == 0 {
            out.push_str(part)?;
            continue;
        }
        let Some((count, piece)) = part.split_once(' ') else {
            out.push('@')?;
            continue;
        };
        for _time in 0..count.parse::<u32>().unwrap_or(0) {
            out.push_str(piece)?;
        }
    }
    Ok(out)
}

/// A list of these.
pub fn listed<T: Copy>(alloc: Global, items: &[T]) -> Result<List<T>, AllocError> {
    Ok(List::from_vec(Vec::from_slice(alloc, items)?))
}

/// A disk with these bytes, one call of which fails, 0 where none does.
pub fn disk(alloc: Global, bytes: &[u8], fails: u64) -> Result<MemDisk, AllocError> {
    Ok(MemDisk::new(listed(alloc, bytes)?, listed(alloc, &[fails])?))
}

/// The bytes of the input, with the blanks behind it.
fn input_of(alloc: Global, case: &Case<'_>) -> Result<Vec<u8>, AllocError> {
    let mut bytes = written_out(alloc, case.input)?.into_bytes();
    if case.bytes > 0 {
        bytes.resize(case.bytes, b' ')?;
    }
    Ok(bytes)
}

/// The input of a case.
fn source_of(alloc: Global, case: &Case<'_>) -> Result<InPieces<MemSource>, AllocError> {
    let fails = listed(alloc, &[case.read])?;
    Ok(InPieces {
        inner: MemSource::new(List::from_vec(input_of(alloc, case)?), fails),
        piece: case.piece,
    })
}

/// Where a case writes.
fn sink_of(alloc: Global, case: &Case<'_>) -> Result<InPieces<MemSink>, AllocError> {
    let fails = listed(alloc, &[case.write])?;
    Ok(InPieces {
        inner: MemSink::new(alloc, fails),
        piece: case.piece,
    })
}

/// The words of a text, one blank between two.
pub fn words_of(alloc: Global, text: &str) -> Result<Vec<String>, AllocError> {
    let mut words = Vec::new(alloc);
    for word in text.split(' ') {
        words.push(String::from_str(alloc, word)?)?;
    }
    Ok(words)
}

/// Runs the program, where this call of the journal's file fails.
pub fn run(
    rt: &(impl Threads + Wait + Sync),
    alloc: Global,
    case: &Case<'_>,
    call: u64,
) -> Result<Outcome, AllocError> {
    let words = words_of(alloc, case.words)?;
    run_words(rt, alloc, case, call, &words)
}

/// The same on words that may have blanks in them, or none at all.
pub fn run_words(
    rt: &(impl Threads + Wait + Sync),
    alloc: Global,
    case: &Case<'_>,
    call: u64,
    words: &Vec<String>,
) -> Result<Outcome, AllocError> {
    let ended = end_on(rt, alloc, case, call, words)?;
    outcome_of(alloc, ended)
}

fn outcome_of(alloc: Global, ended: Ended) -> Result<Outcome, AllocError> {
    let journal = Vec::from_slice(alloc, ended.journal.bytes())?;
    let pages = Vec::from_slice(alloc, ended.pages.bytes())?;
    Ok(Outcome {
        journal,
        pages,
        journal_calls: ended.journal.calls(),
        pages_calls: ended.pages.calls(),
        told: ended.told,
    })
}

/// How a run ended and then what it has written, the faults that its streams have counted, and its disks.
#[derive(Drop)]
pub struct Ended {
    pub told: Vec<u8>,
    pub stream_faults: u64,
    pub journal: MemDisk,
    pub pages: MemDisk,
}

/// Runs the program to its end, where this call of the journal's file fails.
pub fn end_of(
    rt: &(impl Threads + Wait + Sync),
    alloc: Global,
    case: &Case<'_>,
    call: u64,
) -> Result<Ended, AllocError> {
    let words = words_of(alloc, case.words)?;
    end_on(rt, alloc, case, call, &words)
}

/// The same on words that may have blanks in them, or none at all.
fn end_on(
    rt: &(impl Threads + Wait + Sync),
    alloc: Global,
    case: &Case<'_>,
    call: u64,
    words: &Vec<String>,
) -> Result<Ended, AllocError> {
    let mut source = source_of(alloc, case)?;
    let mut sink = sink_of(alloc, case)?;
    let finish = finish_of(rt, alloc, case, call, words, &mut source, &mut sink)?;
    let stream_faults = source.inner.faults().saturating_add(sink.inner.faults());
    ended_of(alloc, finish, sink.inner.bytes(), stream_faults)
}

fn ended_of(
    alloc: Global,
    finish: Finish<MemDisk, MemDisk>,
    text: &[u8],
    stream_faults: u64,
) -> Result<Ended, AllocError> {
    let told = told(alloc, &finish.status, text)?;
    Ok(Ended {
        told,
        stream_faults,
        journal: finish.journal,
        pages: finish.pages,
    })
}

/// How a run on these words ends, with its source and sink.
fn finish_of(
    rt: &(impl Threads + Wait + Sync),
    alloc: Global,
    case: &Case<'_>,
    call: u64,
    words: &Vec<String>,
    source: &mut InPieces<MemSource>,
    sink: &mut InPieces<MemSink>,
) -> Result<Finish<MemDisk, MemDisk>, AllocError> {
    let journal = disk(alloc, case.journal, call)?;
    let pages = disk(alloc, case.pages, case.pages_call)?;
    Ok(xtc(rt, alloc, words, source, sink, journal, pages, &NoGate))
}

/// Runs the script on a journal, one call of which fails, 0 where none does.
pub fn run_on<'x>(
    rt: &(impl Threads + Wait + Sync),
    alloc: Global,
    input: &'x str,
    journal: &'x [u8],
    call: u64,
) -> Result<Outcome, AllocError> {
    let case = Case {
        input,
        journal,
        ..PLAIN
    };
    run(rt, alloc, &case, call)
}

/// The number of a call behind those of the journal's opening, 0 where none is meant.
pub fn behind_opening(
    rt: &(impl Threads + Wait + Sync),
    alloc: Global,
    journal: &[u8],
    call: u64,
) -> Result<u64, AllocError> {
    if call == 0 {
        return Ok(0);
    }
    let opened = run_on(rt, alloc, "", journal, 0)?;
    Ok(opened.journal_calls.saturating_add(call))
}

/// A text, or how many bytes there are that are none.
fn shown(alloc: Global, bytes: &[u8]) -> Result<String, AllocError> {
    match str::from_utf8(bytes) {
        Ok(text) => format!(in alloc; "{text:?}"),
        Err(_) => format!(in alloc; "{} bytes", bytes.len()),
    }
}

/// What is found is what is wanted.
fn agree(alloc: Global, case: &Case<'_>, found: &[u8], wanted: &[u8]) -> Result<(), Fail> {
    if found == wanted {
        return Ok(());
    }
    let words = case.words;
    let found = shown(alloc, found)?;
    let wanted = shown(alloc, wanted)?;
    Err(Fail::new(format!(in alloc; "{words}: {found}, and not {wanted}")?))
}

/// How the run ends, and then what it writes.
fn wanted(alloc: Global, case: &Case<'_>) -> Result<Vec<u8>, AllocError> {
    let mut wanted = written_out(alloc, case.status)?.into_bytes();
    let text = written_out(alloc, case.text)?;
    let written = case.written.min(text.len());
    wanted.extend_from_slice(&text.as_bytes()[..written])?;
    Ok(wanted)
}

/// Runs the program on these words, where the calls that the case says fail.
fn run_as(
    rt: &(impl Threads + Wait + Sync),
    alloc: Global,
    case: &Case<'_>,
    words: &Vec<String>,
) -> Result<Outcome, AllocError> {
    let later = behind_opening(rt, alloc, case.journal, case.later_call)?;
    run_words(rt, alloc, case, case.journal_call.max(later), words)
}

/// Runs the program: it ends, writes and leaves what the case says.
pub fn run_case(
    rt: &(impl Threads + Wait + Sync),
    alloc: Global,
    case: &Case<'_>,
) -> Result<Outcome, Fail> {
    let words = words_of(alloc, case.words)?;
    run_case_on(rt, alloc, case, &words)
}

/// The same on words that may have blanks in them.
pub fn run_case_on(
    rt: &(impl Threads + Wait + Sync),
    alloc: Global,
    case: &Case<'_>,
    words: &Vec<String>,
) -> Result<Outcome, Fail> {
    let outcome = run_as(rt, alloc, case, words)?;
    agree_on_end(alloc, case, &outcome)?;
    Ok(outcome)
}

fn agree_on_end(alloc: Global, case: &Case<'_>, outcome: &Outcome) -> Result<(), Fail> {
    agree(alloc, case, &outcome.told, &wanted(alloc, case)?)?;
    agree(alloc, case, &outcome.pages, case.pages)?;
    match case.now {
        Some(now) => agree(alloc, case, &outcome.journal, now),
        None => Ok(()),
    }
}

/// Runs `get x` on a journal.
fn get_x(
    rt: &(impl Threads + Wait + Sync),
    alloc: Global,
    journal: &[u8],
) -> Result<Outcome, AllocError> {
    let case = Case {
        words: "get x",
        journal,
        ..PLAIN
    };
    run(rt, alloc, &case, 0)
}

fn run_and_get(
    rt: &(impl Threads + Wait + Sync),
    alloc: Global,
    case: &Case<'_>,
) -> Result<(), Fail> {
    let outcome = run_case(rt, alloc, case)?;
    agree_then(rt, alloc, case, &outcome.journal)
}

/// Where the case asks it, `get x` tells of the journal what the case says.
fn agree_then(
    rt: &(impl Threads + Wait + Sync),
    alloc: Global,
    case: &Case<'_>,
    journal: &[u8],
) -> Result<(), Fail> {
    if case.then.is_empty() {
        return Ok(());
    }
    let then = written_out(alloc, case.then)?;
    let found = get_x(rt, alloc, journal)?;
    agree(alloc, case, &found.told, then.as_bytes())
}

/// Runs the program on each of these cases, and `get x` behind it where the case asks it.
pub fn run_cases(
    rt: &(impl Threads + Wait + Sync),
    alloc: Global,
    cases: &[Case<'_>],
) -> Result<(), Fail> {
    for case in cases {
        run_and_get(rt, alloc, case)?;
    }
    Ok(())
}

/// A journal without commits.
pub const NEW: &[u8] = b"\x01XTCJRN1\x00";

/// The journal of a store whose one commit creates the document x with the element a, as docs/FILE_FORMAT.md has it byte by byte.
pub const SIXTY: &[u8] =
    b"\x01XTCJRN1\x01\0\0\0\0\x01\0\0\0\x29\x01\x01\0x\0\0\0\0\x07\x041.1001\x01\x01\x83\x69\0\0\0\0\0\x01\x01\x01\x01\x83\x69\x83\x69\0\0\0\0\0\x02\x02a\0";

/// The sixty bytes without the last twenty.
pub const CUT: &[u8] =
    b"\x01XTCJRN1\x01\0\0\0\0\x01\0\0\0\x29\x01\x01\0x\0\0\0\0\x07\x041.1001\x01\x01\x83\x69\0\0";

/// A journal whose one commit puts the catalogue's entry of x and no document.
pub const NO_DOCUMENT: &[u8] =
    b"\x01XTCJRN1\x01\0\0\0\0\x01\0\0\0\x10\x01\x01\0x\0\0\0\0\x07\x041.1001\0";
