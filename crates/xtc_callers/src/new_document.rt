// Callers of `xtc` over memory: a document that is put into a new store, and then got.
ghost use Rattle.std.specs.Prelude.{◌≡◌, Err};
ghost use Rattle.xtc.specs.Documents.{element_in, tree_line};
ghost use Rattle.xtc_callers.specs.NewDocuments.{PutBegun, PutDone, TellsNoElement, WherePut, WherePutAndGot, WherePutOfError};
ghost use Rattle.xtc_callers.specs.NewStores.{OfRun, file_reads};

use crate::new_store::MemRun;
use dewey_labels::List;
use outside_kinds::{MemDisk, MemSink, MemSource, NoGate};
use outside_traits::Disk;
use std::alloc::Global;
use std::sync::Wait;
use std::thread::Threads;
use store_contents::empty_files_stand_for_the_empty_tree;
use xtc::{Finish, Status, get_is_dump, put_is_create, xtc};

/// Puts the input as a document into a new store, where the words are `put NAME`.
/// It isn't JsonML exactly where the whole input is none, unless a call or memory failed; and what is committed is of the whole input.
pub fn put_into_new_store<R: Threads + Wait + Sync>(
    rt: &R,
    alloc: Global,
    words: &Vec<String>,
    input: List<u8>,
) -> MemRun
    ensures not_json { WherePutOfError words.now.items
        (λ why. result.status ≡ Status.NotJsonMl why → element_in input ≡ Err why) }
    ensures no_element { WherePutOfError words.now.items (TellsNoElement input result.status) }
    ensures done { WherePut words.now.items (λ name. result.status ≡ Status.Done
        → OfRun result (PutDone name input)) }
    ensures once { WherePut words.now.items (λ name. result.status ≡ Status.NoMemory
        → PutBegun name input (file_reads result.journal) (file_reads result.pages)) }
{
    let mut source = MemSource::new(input, List::new(alloc));
    let mut sink = MemSink::new(alloc, List::new(alloc));
    let no_journal = List::new(alloc);
    let no_pages = List::new(alloc);
    let journal = MemDisk::new(no_journal, List::new(alloc));
    let pages = MemDisk::new(no_pages, List::new(alloc));
    // Called for their contracts: what a new store's files stand for, and what `put` does on the plain tree.
    empty_files_stand_for_the_empty_tree();
    put_is_create();
    let Finish {
        status,
        journal,
        pages,
    } = xtc(
        rt,
        alloc,
        words,
        &mut source,
        &mut sink,
        journal,
        pages,
        &NoGate,
    );
    // Called for its contract: what a read gives is among what a crash leaves.
    let _faults = (journal.faults(), pages.faults());
    MemRun {
        status,
        sink,
        journal,
        pages,
    }
}

/// How `put` into a new store and then `get` ended, and what `get` wrote.
#[derive(Drop)]
pub struct PutAndGot {
    pub put: Status,
    pub got: Status,
    pub sink: MemSink,
}

/// Puts the input as a document into a new store, where the words are `put NAME`, and gets it from there, where they are `get NAME`.
pub fn put_and_get<R: Threads + Wait + Sync>(
    rt: &R,
    alloc: Global,
    put_words: &Vec<String>,
    get_words: &Vec<String>,
    input: List<u8>,
) -> PutAndGot
    ensures kept { WherePutAndGot put_words.now.items get_words.now.items input result
        (λ document. result.sink.held ≡ tree_line document) }
{
    let MemRun {
        status: put,
        journal,
        pages,
        ..
    } = put_into_new_store(rt, alloc, put_words, input);
    let mut source = MemSource::new(List::new(alloc), List::new(alloc));
    let mut sink = MemSink::new(alloc, List::new(alloc));
    // Called for its contract: what `get` answers on the plain tree.
    get_is_dump();
    let Finish { status: got, .. } = xtc(
        rt,
        alloc,
        get_words,
        &mut source,
        &mut sink,
        journal,
        pages,
        &NoGate,
    );
    PutAndGot { put, got, sink }
}
