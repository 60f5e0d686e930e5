//! The files of a store, opened.
use crate::store_file::{JournalKind, PagesKind, StoreFile};
use crate::streams::Streams;
use outside_kinds::FileDisk;
use std::fs::{self, File};
use std::io;
use std::os::unix::fs::MetadataExt;
use std::rt::Files;

const JOURNAL: &str = "store.journal";

const PAGES: &str = "store.pages";

/// The files of a store, open for reading and writing. Each has a lock, until it is let go.
#[derive(Drop)]
pub struct StoreFiles {
    pub journal: StoreFile<FileDisk, JournalKind>,
    pub pages: StoreFile<FileDisk, PagesKind>,
}

impl StoreFiles {
    /// Opens or makes the two in the working folder, `store.journal` and `store.pages`, and syncs the folder. None of the streams' descriptors is free then, so neither file gets one.
    /// While somebody has one of them, another process or this one, it gives an error; also where both names are of one file, or a name is of another file than the one that was opened.
    pub fn open<R: Files<File = File>>(rt: &R, _streams: &Streams) -> io::Result<StoreFiles> {
        let journal = open_or_create(rt, JOURNAL)?;
        let pages = open_or_create(rt, PAGES)?;
        journal.try_lock()?;
        pages.try_lock()?;
        find_named(rt, JOURNAL, &journal)?;
        find_named(rt, PAGES, &pages)?;
        // The files' names last from here on, also where a run that was stopped before this had made them.
        File::open(rt, ".")?.sync_all()?;
        Ok(StoreFiles {
            journal: StoreFile::<FileDisk, JournalKind>::new(FileDisk::new(journal)),
            pages: StoreFile::<FileDisk, PagesKind>::new(FileDisk::new(pages)),
        })
    }
}

fn open_or_create<R: Files>(rt: &R, name: &str) -> io::Result<R::File> {
    File::options()
        .read(true)
        .write(true)
        .create(true)
        .open(rt, name)
}

/// Gives an error where the name isn't of this file any more: it was renamed, or another one took its place, before the lock on it was had.
fn find_named<R: Files<File = File>>(rt: &R, name: &str, file: &File) -> io::Result<()> {
    let named = fs::metadata(rt, name)?;
    let opened = file.metadata()?;
    if (named.dev(), named.ino()) == (opened.dev(), opened.ino()) {
        return Ok(());
    }
    Err(io::Error::from(io::ErrorKind::ResourceBusy))
}
