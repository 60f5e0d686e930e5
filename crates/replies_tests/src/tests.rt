//! Two sessions that wait for nobody, in threads: their commits come in either order. And one session whose journal fails at each of its calls.
ghost use Rattle.std.specs.Prelude.{◌≡◌, None, IfSome};
ghost use Rattle.journal.specs.Views.{TakesGroups};

use dewey_labels::{List, NoMemory};
use journal::Journal;
use node_seq::SortedSeq;
use outside_kinds::{MemDisk, MemSource, NoGate};
use std::alloc::Global;
use std::sync::Wait;
use std::thread::Threads;
use tx_core::Core;
use workers_text::{Script, read_script};
use xtc::answer_script;

const SCRIPT: &str =
    "{\"s\":1,\"call\":\"begin\"}\n{\"s\":2,\"call\":\"begin\"}\n\nx\n{\"s\":1,\"call\":\"docs\"}\n{\"s\":2,\"call\":\"docs\"}\n{\"s\":1,\"call\":\"commit\"}\n{\"s\":2,\"call\":\"commit\"}";

/// Its texts where session 1 commits first, and where session 2 does.
const TEXTS: [&str; 2] = [
    "{\"ok\":1,\"s\":1}\n{\"ok\":1,\"s\":2}\n{\"bad\":\"json\",\"line\":4}\n{\"ok\":[],\"s\":1}\n{\"ok\":[],\"s\":2}\n{\"ok\":1,\"s\":1}\n{\"ok\":2,\"s\":2}\n{\"order\":[[1,1],[2,1]]}\n",
    "{\"ok\":1,\"s\":1}\n{\"ok\":1,\"s\":2}\n{\"bad\":\"json\",\"line\":4}\n{\"ok\":[],\"s\":1}\n{\"ok\":[],\"s\":2}\n{\"ok\":2,\"s\":1}\n{\"ok\":1,\"s\":2}\n{\"order\":[[2,1],[1,1]]}\n",
];

const TWO_COMMITS: &str =
    "{\"s\":1,\"call\":\"begin\"}\n{\"s\":1,\"call\":\"commit\"}\n{\"s\":1,\"call\":\"begin\"}\n{\"s\":1,\"call\":\"commit\"}";

const ITS_TEXT: &str =
    "{\"ok\":1,\"s\":1}\n{\"ok\":1,\"s\":1}\n{\"ok\":2,\"s\":1}\n{\"ok\":2,\"s\":1}\n{\"order\":[[1,1],[1,2]]}\n";

/// How many commits a file has whose journal's call at this place fails, behind those of its opening: a commit takes three writes and a sync, then its gate's write and a sync.
const KEPT: [usize; 12] = [0, 0, 0, 0, 0, 1, 1, 1, 1, 1, 1, 2];

/// What a run came to: its text, if there is one, and how many commits the journal's file has then.
#[derive(Drop)]
struct Came {
    text: Option<Vec<u8>>,
    commits: usize,
}

impl Came {
    fn is(&self, want: Option<&str>, commits: usize) -> bool {
        let same = match (&self.text, want) {
            (Some(text), Some(want)) => text.as_slice() == want.as_bytes(),
            (None, None) => true,
            _ => false,
        };
        same && self.commits == commits
    }
}

fn source(alloc: Global, text: &str) -> Result<MemSource, NoMemory> {
    let mut bytes = List::new(alloc);
    bytes.extend_from_slice(alloc, text.as_bytes())?;
    Ok(MemSource::new(bytes, List::new(alloc)))
}

/// The journal in a fresh file, on a disk that fails at this call, counted from 1; 0: at none. None where it isn't opened.
fn journal(alloc: Global, fails: u64) -> Option<Journal<MemDisk>>
    ensures { IfSome result (λ journal. TakesGroups journal × (journal.last ≡ None)) }
{
    let mut calls = List::new(alloc);
    calls.push(fails).ok()?;
    let Ok((journal, groups)) = Journal::open(alloc, MemDisk::new(List::new(alloc), calls)) else {
        return None;
    };
    if groups.commits.is_empty() && groups.images.is_none() {
        Some(journal)
    } else {
        None
    }
}

/// How many calls the opening takes.
fn opening_calls(alloc: Global) -> Option<u64> {
    Some(journal(alloc, 0)?.into_disk().calls())
}

/// How many commits a journal's file has.
fn commits_of(alloc: Global, file: &[u8]) -> Option<usize> {
    let file = List::from_vec(Vec::from_slice(alloc, file).ok()?);
    match Journal::open(alloc, MemDisk::new(file, List::new(alloc))) {
        Ok((_, groups)) => Some(groups.commits.len()),
        Err(_) => None,
    }
}

fn script_of(alloc: Global, text: &str) -> Option<Script> {
    let mut source = source(alloc, text).ok()?;
    read_script(alloc, &mut source).ok()
}

/// The text of a script's replies, if there is one, and the disk of the journal.
#[derive(Drop)]
struct Done {
    text: Option<Vec<u8>>,
    disk: MemDisk,
}

/// Does a script over an empty store; none where memory is wanting.
fn done_over<R: Threads + Wait + Sync>(
    rt: &R,
    alloc: Global,
    journal: Journal<MemDisk>,
    script: &Script,
) -> Option<Done>
    requires { TakesGroups journal × (journal.last ≡ None) }
{
    let core = Core::new(alloc, SortedSeq::new(alloc), 0, 4_294_967_295).ok()?;
    let answered = answer_script(rt, alloc, core, journal, script, &NoGate);
    Some(Done {
        text: answered.text.ok(),
        disk: answered.journal.into_disk(),
    })
}

fn came_of(alloc: Global, done: Done) -> Option<Came> {
    let commits = commits_of(alloc, done.disk.bytes())?;
    Some(Came {
        text: done.text,
        commits,
    })
}

/// A run of a script over an empty store, with a journal that fails at this call; none where memory is wanting.
fn run<R: Threads + Wait + Sync>(rt: &R, alloc: Global, text: &str, fails: u64) -> Option<Came> {
    let script = script_of(alloc, text)?;
    let journal = journal(alloc, fails)?;
    came_of(alloc, done_over(rt, alloc, journal, &script)?)
}

#[test]
fn the_replies_stand_in_the_lines_order_and_the_order_line_last(rt: HostRuntime) {
    for turn in 0..20 {
        let is_so = match run(&rt, rt.alloc(), SCRIPT, 0) {
            Some(came) => TEXTS.iter().any(|want| came.is(Some(want), 2)),
            None => false,
        };
        assert!(rt; is_so, "turn {turn}");
    }
}

#[test]
fn a_run_whose_journal_fails_has_no_text_and_keeps_its_first_commits(rt: HostRuntime) {
    let opening = opening_calls(rt.alloc()).unwrap_or(0);
    assert!(rt; 0 < opening, "the journal is opened");
    for (place, commits) in KEPT.iter().enumerate() {
        let call = opening.wrapping_add(place as u64).wrapping_add(1);
        let is_so = match run(&rt, rt.alloc(), TWO_COMMITS, call) {
            Some(came) => came.is(None, *commits),
            None => false,
        };
        assert!(rt; is_so, "call {place} of the commits");
    }
    let whole = match run(&rt, rt.alloc(), TWO_COMMITS, opening.wrapping_add(13)) {
        Some(came) => came.is(Some(ITS_TEXT), 2),
        None => false,
    };
    assert!(rt; whole, "a call that isn't made");
}
