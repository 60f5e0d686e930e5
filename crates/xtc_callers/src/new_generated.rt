// A caller of `xtc` over memory: the generator's script over the two empty files of a new store.
ghost use Rattle.std.specs.Prelude.{◌≡◌};
ghost use Rattle.xtc_callers.specs.InPages.{every_in};
ghost use Rattle.xtc_callers.specs.NewGenerated.{GenDone, GenRefused, WhereGen, WhereGenForReason};
ghost use Rattle.xtc_callers.specs.NewStores.{OfRun};

use crate::new_store::MemRun;
use dewey_labels::List;
use outside_kinds::{MemDisk, MemSink, MemSource, NoGate};
use std::alloc::Global;
use std::sync::Wait;
use std::thread::Threads;
use store_contents::empty_files_stand_for_the_empty_tree;
use xtc::{Finish, Status, xtc};

/// Runs the generator's script over the two empty files of a new store, where the words are `gen SEED COUNT`.
/// At Done the line of its summary was written, and the files stand for the tree after its commits,
/// which the pages alone hold where it fits and a checkpoint is due at the end; where a begin or commit was refused, all was done up to there.
pub fn generate_in_new_store<R: Threads + Wait + Sync>(
    rt: &R,
    alloc: Global,
    words: &Vec<String>,
) -> MemRun
    ensures done { WhereGen words.now.items (λ seed count. result.status ≡ Status.Done
        → OfRun result (GenDone (every_in words.now.items) seed count)) }
    ensures refused { WhereGenForReason words.now.items (λ seed count why. result.status ≡ Status.DocumentRefused why
        → OfRun result (GenRefused seed count why)) }
{
    let mut source = MemSource::new(List::new(alloc), List::new(alloc));
    let mut sink = MemSink::new(alloc, List::new(alloc));
    let no_journal = List::new(alloc);
    let no_pages = List::new(alloc);
    let journal = MemDisk::new(no_journal, List::new(alloc));
    let pages = MemDisk::new(no_pages, List::new(alloc));
    // Called for its contract: what a new store's files stand for.
    empty_files_stand_for_the_empty_tree();
    let Finish {
        status,
        journal,
        pages,
    } = xtc(
        rt,
        alloc,
        words,
        &mut source,
        &mut sink,
        journal,
        pages,
        &NoGate,
    );
    MemRun {
        status,
        sink,
        journal,
        pages,
    }
}
