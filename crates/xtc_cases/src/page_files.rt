//! Page files: those that a store's tree is cut into, and one as docs/FILE_FORMAT.md has it.
use crate::cases::{Case, PLAIN, disk, run_case};
use node_pages::{Cut, PAGE_BYTES, Page, cut_pages};
use node_seq::NodeRead;
use overlays::Stacked;
use recovery::open_store;
use std::alloc::{AllocError, Global};
use std::sync::Wait;
use std::test::Fail;
use std::thread::Threads;

/// The page file that the tree of two files is cut into, with the number of its last commit. It stands beside a journal without commits.
pub fn in_pages(alloc: Global, journal: &[u8], pages: &[u8]) -> Result<Vec<u8>, Fail> {
    let journal = disk(alloc, journal, 0)?;
    let pages = disk(alloc, pages, 0)?;
    match open_store(alloc, journal, pages, 2) {
        Ok(store) => {
            let mut map = Stacked::new(store.base, store.layers);
            cut(alloc, &mut map, store.number)
        }
        Err(_refused) => Err(Fail::from("the store isn't opened")),
    }
}

fn cut<S: NodeRead>(alloc: Global, map: &mut S, number: u32) -> Result<Vec<u8>, Fail> {
    match cut_pages(alloc, map, number)? {
        Cut::Pages(pages) => Ok(joined(alloc, pages.as_slice())?),
        Cut::TooMany { .. } => Err(Fail::from("the tree has too many pages")),
    }
}

fn joined(alloc: Global, pages: &[Page]) -> Result<Vec<u8>, AllocError> {
    let mut bytes = Vec::new(alloc);
    for page in pages {
        bytes.extend_from_slice(page.as_slice())?;
    }
    Ok(bytes)
}

/// The three pages of the document x with the element a, by commit 1, without the zeros behind.
const PAGES: [&[u8]; 3] = [
    b"XTCPAGE1\x00\x00\x00\x01\x00\x00\x00\x03\x00\x00\x00\x01\x00\x00\x00\x01",
    b"\x00\x03\x01\x00x\x00\x00\x00\x01\x00\x07\x041.1001\x01\x83\x69\x00\x00\x00\x00\x01\x00\x01\x01\x01\x83\x69\x83\x69\x00\x00\x00\x00\x01\x00\x02\x02a",
    b"\x00\x01\x01\x00x\x00\x00\x00\x00\x00\x00\x01",
];

/// The file of these pages.
pub fn x_in_pages(alloc: Global) -> Result<Vec<u8>, AllocError> {
    let mut bytes = Vec::new(alloc);
    for (page, content) in PAGES.iter().enumerate() {
        bytes.resize(page.saturating_mul(PAGE_BYTES), 0)?;
        bytes.extend_from_slice(content)?;
    }
    bytes.resize(PAGES.len().saturating_mul(PAGE_BYTES), 0)?;
    Ok(bytes)
}

/// Makes the document x of three elements, whose texts lie on pages of their own.
const TEXTS: Case<'static> = Case {
    words: "put x",
    input: r#"["a",["b","@3000 x@"],["b","@3000 y@"],["c","@9000 z@"]]"#,
    text: "\"1.1001\"\n",
    ..PLAIN
};

/// The page file of a store with this document alone.
pub fn texts_in_pages(rt: &(impl Threads + Wait + Sync), alloc: Global) -> Result<Vec<u8>, Fail> {
    let made = run_case(rt, alloc, &TEXTS)?;
    in_pages(alloc, &made.journal, b"")
}
