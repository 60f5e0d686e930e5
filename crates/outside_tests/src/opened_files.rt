//! The files of a store in the working folder, opened one time behind another and one beside another.
use outside_kinds::FileDisk;
use outside_traits::Disk;
use std::fs::{self, File};
use std::test::Fail;
use store_files::{StoreFiles, Streams};

/// Whether the files are had, a second time while the first has them, and again when that has let them go.
fn opened(rt: &HostRuntime) -> Result<[bool; 3], Fail> {
    let streams = Streams::take(rt)?;
    let first = StoreFiles::open(rt, &streams);
    let second = StoreFiles::open(rt, &streams);
    let beside = [first.is_ok(), second.is_ok()];
    drop(second);
    drop(first);
    Ok([beside[0], beside[1], StoreFiles::open(rt, &streams).is_ok()])
}

#[test]
fn a_store_is_had_by_one_at_a_time(rt: HostRuntime) -> Result<(), Fail> {
    assert_eq!(rt; opened(&rt)?, [true, false, true]);
    Ok(())
}

/// Whether something is written to each file and synced.
fn write(rt: &HostRuntime) -> Result<bool, Fail> {
    let mut files = StoreFiles::open(rt, &Streams::take(rt)?)?;
    let journal = files.journal.write_at(0, b"XTC").is_ok() && files.journal.sync().is_ok();
    let pages = files.pages.write_at(0, b"pages").is_ok() && files.pages.sync().is_ok();
    Ok(journal && pages)
}

/// The length of each file, and what the file of the journal's name begins with.
fn read(rt: &HostRuntime) -> Result<([Option<u64>; 2], [u8; 3]), Fail> {
    let mut files = StoreFiles::open(rt, &Streams::take(rt)?)?;
    let lengths = [files.journal.len().ok(), files.pages.len().ok()];
    let mut bytes = [0; 3];
    let mut named = FileDisk::new(File::open(rt, "store.journal")?);
    let _read = named.read_at(0, &mut bytes);
    Ok((lengths, bytes))
}

#[test]
fn what_is_written_is_there_when_the_files_are_opened_again(rt: HostRuntime) -> Result<(), Fail> {
    assert_eq!(rt; write(&rt)?, true);
    assert_eq!(rt; read(&rt)?, ([Some(3), Some(5)], *b"XTC"));
    Ok(())
}

/// Whether the files are had where one file has both names.
fn opened_as_one(rt: &HostRuntime) -> Result<bool, Fail> {
    let streams = Streams::take(rt)?;
    drop(File::create(rt, "store.journal")?);
    let _gone = fs::remove_file(rt, "store.pages");
    fs::hard_link(rt, "store.journal", "store.pages")?;
    let opened = StoreFiles::open(rt, &streams).is_ok();
    fs::remove_file(rt, "store.pages")?;
    Ok(opened)
}

#[test]
fn one_file_is_not_both_files_of_a_store(rt: HostRuntime) -> Result<(), Fail> {
    assert_eq!(rt; opened_as_one(&rt)?, false);
    Ok(())
}
