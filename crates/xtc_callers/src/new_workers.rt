// A caller of `xtc` over memory: the workers of a script over the two empty files of a new store.
ghost use Rattle.std.specs.Prelude.{◌≡◌, Some};
ghost use Rattle.command_words.specs.Commands.{command_of, workers};
ghost use Rattle.xtc_callers.specs.InPages.{every_in};
ghost use Rattle.xtc_callers.specs.NewStores.{OfRun};
ghost use Rattle.xtc_callers.specs.NewWorkers.{WorkersDone};

use crate::new_store::MemRun;
use dewey_labels::List;
use outside_kinds::{MemDisk, MemSink, MemSource, NoGate};
use std::alloc::Global;
use std::sync::Wait;
use std::thread::Threads;
use store_contents::empty_files_stand_for_the_empty_tree;
use xtc::{Finish, Status, xtc};

/// Has workers do a script over the two empty files of a new store, where the words are `workers`.
/// At Done one legal and serial book shows the text that was written, and the files stand for the tree after all its commits, as they read and as a crash leaves them.
/// Where the words ask for a checkpoint behind no more commits than there are, and the tree fits, the pages alone hold it; where they ask for none the page file stays empty.
pub fn work_in_new_store<R: Threads + Wait + Sync>(
    rt: &R,
    alloc: Global,
    words: &Vec<String>,
    script: List<u8>,
) -> MemRun
    ensures done { command_of words.now.items ≡ Some workers → result.status ≡ Status.Done
        → OfRun result (WorkersDone (every_in words.now.items) script) }
{
    let mut source = MemSource::new(script, List::new(alloc));
    let mut sink = MemSink::new(alloc, List::new(alloc));
    let no_journal = List::new(alloc);
    let no_pages = List::new(alloc);
    let journal = MemDisk::new(no_journal, List::new(alloc));
    let pages = MemDisk::new(no_pages, List::new(alloc));
    // Called for its contract: what a new store's files stand for.
    empty_files_stand_for_the_empty_tree();
    let Finish {
        status,
        journal,
        pages,
    } = xtc(
        rt,
        alloc,
        words,
        &mut source,
        &mut sink,
        journal,
        pages,
        &NoGate,
    );
    MemRun {
        status,
        sink,
        journal,
        pages,
    }
}
