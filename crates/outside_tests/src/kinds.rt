//! Each kind, as tables of calls, one or the other failing.
use dewey_labels::List;
use outside_kinds::{Bounded, FileDisk, INPUT_LIMIT, MemDisk, MemSink, MemSource, SureSource};
use outside_traits::{Disk, Failed, Sink, Source};
use std::alloc::{AllocError, Global};
use std::fs::File;
use std::test::Fail;

/// A list of these numbers.
fn list_of<T: Copy>(alloc: Global, items: &[T]) -> Result<List<T>, AllocError> {
    Ok(List::from_vec(Vec::from_slice(alloc, items)?))
}

/// A source of five bytes that fails at these calls.
fn mem_source(alloc: Global, fails: &[u64]) -> Result<MemSource, AllocError> {
    let bytes = list_of(alloc, b"abcde")?;
    Ok(MemSource::new(bytes, list_of(alloc, fails)?))
}

/// What reads of three bytes answer, and what the buffer holds then.
fn reads<S: Source, const N: usize>(source: &mut S) -> ([Result<usize, Failed>; N], [u8; 3]) {
    let mut answers = [Ok(0); N];
    let mut buf = [0; 3];
    for answer in &mut answers {
        *answer = source.read(&mut buf);
    }
    (answers, buf)
}

/// The answers of four reads, what the buffer holds then, and the count of faults.
type FailingReads = ([Result<usize, Failed>; 4], [u8; 3], u64);

/// The calls that fail, what four reads of three bytes answer, and the count of faults.
const READS: [([u64; 2], [Result<usize, Failed>; 4], u64); 3] = [
    ([9, 9], [Ok(3), Ok(2), Ok(0), Ok(0)], 0),
    ([1, 1], [Err(Failed), Ok(3), Ok(2), Ok(0)], 1),
    ([2, 3], [Ok(3), Err(Failed), Err(Failed), Ok(2)], 2),
];

/// What four reads of a source that fails at these calls answer, what the buffer holds then, and the count of faults.
fn failing_reads(alloc: Global, fails: &[u64]) -> Result<FailingReads, Fail> {
    let mut source = mem_source(alloc, fails)?;
    let (answers, buf) = reads(&mut source);
    Ok((answers, buf, source.faults()))
}

#[test]
fn a_source_gives_its_bytes_in_order_and_fails_at_the_listed_calls(
    rt: HostRuntime,
) -> Result<(), Fail> {
    for (fails, answers, faults) in &READS {
        let read = failing_reads(rt.alloc(), fails)?;
        assert_eq!(rt; read, (*answers, *b"dec", *faults));
    }
    Ok(())
}

#[test]
fn a_sure_source_gives_its_bytes_in_order_and_then_none(rt: HostRuntime) -> Result<(), Fail> {
    let mut source = SureSource::new(list_of(rt.alloc(), b"abcde")?);
    let (read, buf) = reads::<_, 3>(&mut source);
    let want = ([Ok(3), Ok(2), Ok(0)], *b"dec", 0);
    assert_eq!(rt; (read, buf, source.faults()), want);
    Ok(())
}

/// What three reads of a source that is bounded answer, and its room and its count of faults then.
fn bounded_reads(source: &mut MemSource) -> ([Result<usize, Failed>; 3], u64, u64) {
    let mut bounded = Bounded::new(source);
    let (answers, _) = reads::<_, 3>(&mut bounded);
    (answers, bounded.room, bounded.faults())
}

#[test]
fn a_bounded_source_gives_what_its_source_gives_and_counts_its_failures(
    rt: HostRuntime,
) -> Result<(), Fail> {
    let mut source = mem_source(rt.alloc(), &[2])?;
    let want = ([Ok(3), Err(Failed), Ok(2)], INPUT_LIMIT - 5, 1);
    assert_eq!(rt; bounded_reads(&mut source), want);
    Ok(())
}

/// A sink that fails at this call.
fn mem_sink(alloc: Global, fails: u64) -> Result<MemSink, AllocError> {
    Ok(MemSink::new(alloc, list_of(alloc, &[fails])?))
}

/// The call that fails, what two writes answer, and what the sink holds then.
const WRITES: [(u64, [Result<usize, Failed>; 2], &[u8]); 3] = [
    (9, [Ok(2), Ok(3)], b"abcde"),
    (1, [Err(Failed), Ok(3)], b"cde"),
    (2, [Ok(2), Err(Failed)], b"ab"),
];

#[test]
fn a_sink_takes_each_piece_and_fails_at_the_listed_calls(rt: HostRuntime) -> Result<(), Fail> {
    for (fails, answers, held) in &WRITES {
        let mut sink = mem_sink(rt.alloc(), *fails)?;
        let wrote = [sink.write(b"ab"), sink.write(b"cde")];
        let counts = (sink.faults(), sink.refused());
        let want = (*answers, *held, (u64::from(*fails < 9), 0));
        assert_eq!(rt; (wrote, sink.bytes(), counts), want);
    }
    Ok(())
}

/// A disk of four bytes that fails at this call.
fn mem_disk(alloc: Global, fails: u64) -> Result<MemDisk, AllocError> {
    let first = list_of(alloc, b"abcd")?;
    Ok(MemDisk::new(first, list_of(alloc, &[fails])?))
}

/// Writes within the file or at its end.
fn write(disk: &mut MemDisk, at: u64, bytes: &[u8]) -> Result<(), Failed> {
    if at > disk.bytes().len() as u64 {
        return Err(Failed);
    }
    disk.write_at(at, bytes)
}

/// The letters that a disk answers one call after another with: D where it was done, F where it failed.
fn answers(disk: &mut MemDisk) -> [u8; 5] {
    let mut letters = [b'F'; 5];
    if write(disk, 1, b"XY").is_ok() {
        letters[0] = b'D';
    }
    if disk.len() == Ok(4) {
        letters[1] = b'D';
    }
    if disk.sync().is_ok() {
        letters[2] = b'D';
    }
    if write(disk, 3, b"Z!").is_ok() {
        letters[3] = b'D';
    }
    let mut buf = [0; 2];
    if disk.bytes().len() >= 4 && disk.read_at(2, &mut buf).is_ok() {
        letters[4] = b'D';
    }
    letters
}

/// The call that fails, the letters of the answers, and the disk's bytes then.
const CALLS: [(u64, &[u8; 5], &[u8]); 6] = [
    (9, b"DDDDD", b"aXYZ!"),
    (1, b"FDDDD", b"abcZ!"),
    (2, b"DFDDD", b"aXYZ!"),
    (3, b"DDFDD", b"aXYZ!"),
    (4, b"DDDFD", b"aXYd"),
    (5, b"DDDDF", b"aXYZ!"),
];

#[test]
fn a_disk_fails_at_the_listed_call_and_keeps_its_bytes(rt: HostRuntime) -> Result<(), Fail> {
    for (fails, letters, bytes) in &CALLS {
        let mut disk = mem_disk(rt.alloc(), *fails)?;
        let answered = answers(&mut disk);
        let counts = (disk.calls(), disk.faults(), disk.refused());
        let want = (**letters, *bytes, (5, u64::from(*fails < 9), 0));
        assert_eq!(rt; (answered, disk.bytes(), counts), want, "call {fails}");
    }
    Ok(())
}

/// Pushes a bar and an image, with a point for a zero.
fn push_image(text: &mut Vec<u8>, image: &[u8]) -> Result<(), AllocError> {
    text.push(b'|')?;
    for byte in image {
        text.push(if *byte == 0 { b'.' } else { *byte })?;
    }
    Ok(())
}

/// The images of a stop in a call, each behind a bar, with a point for a zero.
fn images_of(alloc: Global, disk: &MemDisk, call: u64) -> Result<Vec<u8>, Fail> {
    let mut text = Vec::new(alloc);
    for image in disk.stop_images(alloc, call)?.as_slice() {
        push_image(&mut text, image.as_slice())?;
    }
    Ok(text)
}

/// Whether the text of the images of a stop in a call begins so.
fn images_begin(alloc: Global, disk: &MemDisk, call: u64, text: &[u8]) -> Result<bool, Fail> {
    let images = images_of(alloc, disk, call)?;
    Ok(images.get(..text.len()) == Some(text))
}

/// Whether the text of the images of a stop in a call is this.
fn images_are(alloc: Global, disk: &MemDisk, call: u64, text: &[u8]) -> Result<bool, Fail> {
    let images = images_of(alloc, disk, call)?;
    Ok(images.as_slice() == text)
}

/// A call, and the images of a stop in it.
const IMAGES: [(u64, &[u8]); 5] = [
    (0, b"|abcd"),
    (1, b"|abcd|aXYd|a..d"),
    // The sync that the crash comes in has made sure of nothing yet.
    (2, b"|abcd|aXYd|a..d"),
    // A write that failed may have reached the file.
    (3, b"|aXYd|aXZd|aX.d"),
    (4, b"|aXYd|aXYd!|aXYd.|aXZd|aXZd!|aXZd.|aX.d|aX.d!|aX.d."),
];

/// The first listed call whose images are otherwise than listed.
fn images_otherwise(alloc: Global, disk: &MemDisk) -> Result<Option<u64>, Fail> {
    for (call, images) in &IMAGES {
        if !images_are(alloc, disk, *call, images)? {
            return Ok(Some(*call));
        }
    }
    Ok(None)
}

/// What a sync among four writes answers, and they.
fn writes_round_a_sync(disk: &mut MemDisk) -> [Result<(), Failed>; 5] {
    [
        write(disk, 1, b"XY"),
        disk.sync(),
        write(disk, 2, b"Z"),
        write(disk, 4, b"!"),
        write(disk, 5, b"?"),
    ]
}

/// What the calls of a disk answer, the first listed call whose images are otherwise, and whether those of a stop after all of them begin as they are to.
fn crashed(alloc: Global) -> Result<([Result<(), Failed>; 5], Option<u64>, bool), Fail> {
    let mut disk = mem_disk(alloc, 3)?;
    let wrote = writes_round_a_sync(&mut disk);
    let otherwise = images_otherwise(alloc, &disk)?;
    // The last write without the one before it stands behind zeros.
    let first = b"|aXYd|aXYd.?|aXYd..|aXYd!|";
    Ok((wrote, otherwise, images_begin(alloc, &disk, 9, first)?))
}

#[test]
fn each_write_behind_the_last_sync_is_not_there_or_there_or_zeros(
    rt: HostRuntime,
) -> Result<(), Fail> {
    let wrote = [Ok(()), Ok(()), Err(Failed), Ok(()), Ok(())];
    assert_eq!(rt; crashed(rt.alloc())?, (wrote, None, true));
    Ok(())
}

/// A disk over the file of this name, made where there is none.
fn file_disk(rt: &HostRuntime, name: &str) -> Result<FileDisk, Fail> {
    let mut options = File::options();
    options.read(true).write(true).create(true);
    Ok(FileDisk::new(options.open(rt, name)?))
}

/// What two writes to a file and its sync answer.
fn write_and_sync(rt: &HostRuntime) -> Result<[Result<(), Failed>; 3], Fail> {
    let mut disk = file_disk(rt, "disk")?;
    Ok([
        disk.write_at(0, b"abcd"),
        disk.write_at(2, b"XYZ"),
        disk.sync(),
    ])
}

/// A file's length, what a read of five bytes answers and what it gives, and the count of faults then.
type Again = (Result<u64, Failed>, Result<(), Failed>, [u8; 5], u64);

/// What a file has when it is opened again.
fn read_again(rt: &HostRuntime) -> Result<Again, Fail> {
    let mut again = file_disk(rt, "disk")?;
    let mut buf = [0; 5];
    let len = again.len();
    let read = again.read_at(0, &mut buf);
    Ok((len, read, buf, again.faults()))
}

#[test]
fn a_file_has_what_was_written_and_synced_when_it_is_opened_again(
    rt: HostRuntime,
) -> Result<(), Fail> {
    assert_eq!(rt; write_and_sync(&rt)?, [Ok(()), Ok(()), Ok(())]);
    assert_eq!(rt; read_again(&rt)?, (Ok(5), Ok(()), *b"abXYZ", 0));
    Ok(())
}

/// What a call answers, and the count of faults then.
type Counted = (Result<(), Failed>, u64);

/// A write to a file, a read past its end and a write past the last place.
fn calls_past_the_end(rt: &HostRuntime) -> Result<[Counted; 3], Fail> {
    let mut disk = file_disk(rt, "disk")?;
    let mut buf = [0; 3];
    Ok([
        (disk.write_at(0, b"ab"), disk.faults()),
        // Two bytes are there, three were asked for.
        (disk.read_at(0, &mut buf), disk.faults()),
        (disk.write_at(u64::MAX, b"ab"), disk.faults()),
    ])
}

/// A write to a file that is opened to be read.
fn write_to_unwritable(rt: &HostRuntime) -> Result<Counted, Fail> {
    let mut disk = FileDisk::new(File::open(rt, "disk")?);
    Ok((disk.write_at(0, b"x"), disk.faults()))
}

#[test]
fn a_file_counts_what_it_could_not_read_or_write(rt: HostRuntime) -> Result<(), Fail> {
    let want = [(Ok(()), 0), (Err(Failed), 1), (Err(Failed), 2)];
    assert_eq!(rt; calls_past_the_end(&rt)?, want);
    assert_eq!(rt; write_to_unwritable(&rt)?, (Err(Failed), 1));
    Ok(())
}

/// The sync of a file of this name.
fn sync_of(rt: &HostRuntime, name: &str) -> Result<Counted, Fail> {
    let mut disk = file_disk(rt, name)?;
    Ok((disk.sync(), disk.faults()))
}

#[test]
fn a_sync_that_the_system_refuses_is_counted(rt: HostRuntime) -> Result<(), Fail> {
    // fsync of a device that keeps nothing is refused (EINVAL), so a sync that did nothing would answer Ok here.
    assert_eq!(rt; sync_of(&rt, "/dev/null")?, (Err(Failed), 1));
    Ok(())
}
