// Callers of `xtc` over memory: a query over the two files of a store, and one of a document that was put into a new store.
ghost use Rattle.std.specs.Prelude.{◌≡◌, Some};
ghost use Rattle.xtc.specs.Documents.{hits_line};
ghost use Rattle.xtc_callers.specs.Queries.{KeepsBoth, UnlessImagesOpen, WherePutAndQueried, WhereQueried, WhereQuery};

use crate::new_document::put_into_new_store;
use crate::new_store::MemRun;
use dewey_labels::List;
use outside_kinds::{MemDisk, MemSink, MemSource, NoGate};
use std::alloc::Global;
use std::sync::Wait;
use std::thread::Threads;
use xtc::{Finish, Status, query_is_find, reading_leaves_both_files, xtc};

/// Asks the store on two files what a path finds in a document, where the words are `query NAME PATH`.
/// At Done the line of what it finds there was written, and both files have the bytes that they were handed in with, where no images were open.
pub fn query_store<R: Threads + Wait + Sync>(
    rt: &R,
    alloc: Global,
    words: &Vec<String>,
    journal: MemDisk,
    pages: MemDisk,
) -> MemRun
    ensures found { WhereQueried words.now.items journal pages (λ hits. result.status ≡ Status.Done
        → result.sink.held ≡ hits_line (Some hits)) }
    ensures kept { WhereQuery words.now.items (result.status ≡ Status.Done
        → UnlessImagesOpen journal (KeepsBoth journal pages result)) }
{
    let mut source = MemSource::new(List::new(alloc), List::new(alloc));
    let mut sink = MemSink::new(alloc, List::new(alloc));
    // Called for their contracts: what `query` answers on the plain tree, and that it leaves both files.
    query_is_find();
    reading_leaves_both_files();
    let Finish {
        status,
        journal,
        pages,
    } = xtc(
        rt,
        alloc,
        words,
        &mut source,
        &mut sink,
        journal,
        pages,
        &NoGate,
    );
    MemRun {
        status,
        sink,
        journal,
        pages,
    }
}

/// How `put` into a new store and then `query` ended, and what `query` wrote.
#[derive(Drop)]
pub struct PutAndQueried {
    pub put: Status,
    pub queried: Status,
    pub sink: MemSink,
}

/// Puts the input as a document into a new store, where the words are `put NAME`, and asks there what a path finds in it, where they are `query NAME PATH`.
pub fn put_and_query<R: Threads + Wait + Sync>(
    rt: &R,
    alloc: Global,
    put_words: &Vec<String>,
    query_words: &Vec<String>,
    input: List<u8>,
) -> PutAndQueried
    ensures found { WherePutAndQueried put_words.now.items query_words.now.items input result
        (λ hits. result.sink.held ≡ hits_line (Some hits)) }
{
    let MemRun {
        status: put,
        journal,
        pages,
        ..
    } = put_into_new_store(rt, alloc, put_words, input);
    let MemRun {
        status: queried,
        sink,
        ..
    } = query_store(rt, alloc, query_words, journal, pages);
    PutAndQueried { put, queried, sink }
}
