// A caller of `xtc` over memory, and what it knows by the clauses: a script over the two empty files of a new store.
ghost use Rattle.std.specs.Prelude.{◌≡◌, ◌≢◌, ◌⊎◌, [], None, Some};
ghost use Rattle.node_records.specs.declared.open_error.Place.{Place};
ghost use Rattle.outside_kinds.specs.MemoryDisks.{history_of, start};
ghost use Rattle.command_words.specs.Commands.{command_of, run};
ghost use Rattle.xtc_callers.specs.InPages.{every_in};
ghost use Rattle.xtc_callers.specs.NewStores.{OfRun, ScriptDone, ScriptBegun};

use dewey_labels::List;
use outside_kinds::{MemDisk, MemSink, MemSource, NoGate};
use outside_traits::Disk;
use std::alloc::Global;
use std::sync::Wait;
use std::thread::Threads;
use store_contents::empty_files_stand_for_the_empty_tree;
use xtc::{Finish, Status, xtc};

/// How a run in memory ended: its status, what it wrote, and the files of its store.
#[derive(Drop)]
pub struct MemRun {
    pub status: Status,
    pub sink: MemSink,
    pub journal: MemDisk,
    pub pages: MemDisk,
}

/// Runs a script over the two empty files of a new store, where the words are `run`.
/// At Done what the script's lines do to the sessions has the replies that were written and a book that is sound, whose transactions are serial,
/// and the files stand for the tree after them, as they read and as a crash leaves them;
/// where a checkpoint is due at the end, and this tree fits, the pages alone hold it. At another status some first lines were done.
pub fn run_new_store<R: Threads + Wait + Sync>(
    rt: &R,
    alloc: Global,
    words: &Vec<String>,
    script: List<u8>,
) -> MemRun
    ensures done { command_of words.now.items ≡ Some run → result.status ≡ Status.Done
        → OfRun result (ScriptDone (every_in words.now.items) script) }
    ensures begun { command_of words.now.items ≡ Some run → result.status ≢ Status.Usage
        → OfRun result (ScriptBegun result.status script) }
    ensures not_damaged { (place : Place) → result.status ≢ Status.Damaged place }
    ensures usage { result.status ≡ Status.Usage → command_of words.now.items ≡ None }
    ensures other_words { command_of words.now.items ≡ None → (result.status ≡ Status.Usage) ⊎ (result.status ≡ Status.NoMemory) }
    ensures untouched { result.status ≡ Status.Usage
        → (result.sink.held ≡ []) × (history_of result.journal ≡ start []) × (history_of result.pages ≡ start []) }
{
    let mut source = MemSource::new(script, List::new(alloc));
    let mut sink = MemSink::new(alloc, List::new(alloc));
    let no_journal = List::new(alloc);
    let no_pages = List::new(alloc);
    let journal = MemDisk::new(no_journal, List::new(alloc));
    let pages = MemDisk::new(no_pages, List::new(alloc));
    // Called for its contract: what a new store's files stand for.
    empty_files_stand_for_the_empty_tree();
    let Finish {
        status,
        journal,
        pages,
    } = xtc(
        rt,
        alloc,
        words,
        &mut source,
        &mut sink,
        journal,
        pages,
        &NoGate,
    );
    // Called for its contract: what a read gives is among what a crash leaves.
    let _faults = (journal.faults(), pages.faults());
    MemRun {
        status,
        sink,
        journal,
        pages,
    }
}
