//! What becomes of a map by chance: its pages, the walks over them, and the same pages with a byte changed.
use crate::checksum::Checksum;
use crate::maps::{Chance, map_by};
use dewey_labels::{Label, List, NoMemory};
use node_pages::{Cut, PAGE_BYTES, Page, cut_pages};
use node_records::{OpenError, write_key, write_record};
use node_seq::{NodeRead, SeqError};
use outside_kinds::MemDisk;
use page_store::Pool;
use paged_seq::PagedSeq;
use std::alloc::{AllocError, AllocFailed, Global};
use tree_model::{Key, Record};

/// Why there is no line.
#[derive(Drop)]
pub struct Trouble;

impl From<NoMemory> for Trouble {
    fn from(_refused: NoMemory) -> Trouble {
        Trouble
    }
}

impl From<AllocError> for Trouble {
    fn from(_refused: AllocError) -> Trouble {
        Trouble
    }
}

impl<T: Drop> From<AllocFailed<T>> for Trouble {
    fn from(_refused: AllocFailed<T>) -> Trouble {
        Trouble
    }
}

impl From<SeqError> for Trouble {
    fn from(_refused: SeqError) -> Trouble {
        Trouble
    }
}

/// How many frames a file is read with.
const FRAMES: u32 = 2;

/// How far from its start a page is changed.
const HEADS: [u32; 3] = [24, 200, 8_192];

/// The line of a map: how many bytes its file has and their checksum, those of the walks upward and downward, and where the file is damaged, with which byte changed to what.
pub fn trial_of(alloc: Global, line: &str) -> Result<String, Trouble> {
    let seed = checksum_of(line.as_bytes());
    let mut chance = Chance::new(seed);
    let bytes = file_by(alloc, &mut chance, seed)?;
    let whole = whole_text(alloc, &bytes)?;
    damaged_text(alloc, &mut chance, bytes, &whole)
}

/// The bytes of the pages of a map by chance.
fn file_by(alloc: Global, chance: &mut Chance, seed: u32) -> Result<Vec<u8>, Trouble> {
    let mut map = map_by(alloc, chance)?;
    file_of(alloc, &mut map, seed)
}

/// How many bytes a file has, their checksum, and those of the walks.
fn whole_text(alloc: Global, bytes: &[u8]) -> Result<String, Trouble> {
    let (up, down) = walks(alloc, bytes)?;
    let (length, cut) = (bytes.len(), checksum_of(bytes));
    Ok(format!(in alloc; "{length} bytes {cut}, up {up}, down {down}")?)
}

/// The checksums of the walks upward and downward.
fn walks(alloc: Global, bytes: &[u8]) -> Result<(u32, u32), Trouble> {
    match opened(alloc, Vec::from_slice(alloc, bytes)?)? {
        Ok(mut seq) => both_walks(alloc, &mut seq),
        Err(_) => Err(Trouble),
    }
}

fn both_walks<S: NodeRead>(alloc: Global, map: &mut S) -> Result<(u32, u32), Trouble> {
    let up = walk(alloc, map, true)?;
    let down = walk(alloc, map, false)?;
    Ok((up, down))
}

/// A place by chance near the start of a page, and a byte.
fn change_by(chance: &mut Chance, length: usize) -> (usize, u8) {
    let page = chance.below(length / PAGE_BYTES);
    let within = chance.one_of(&HEADS) as usize;
    let at = page
        .saturating_mul(PAGE_BYTES)
        .saturating_add(chance.below(within));
    (at, u8::try_from(chance.below(256)).unwrap_or(u8::MAX))
}

/// What is said of the whole file, and where it is damaged with a byte changed by chance.
fn damaged_text(
    alloc: Global,
    chance: &mut Chance,
    mut bytes: Vec<u8>,
    whole: &str,
) -> Result<String, Trouble> {
    let (at, byte) = change_by(chance, bytes.len());
    if at < bytes.len() {
        bytes[at] = byte;
    }
    Ok(match damage_of(alloc, bytes)? {
        None => format!(in alloc; "{whole}, whole with {at} set to {byte}")?,
        Some(place) => format!(in alloc; "{whole}, damaged at {place} with {at} set to {byte}")?,
    })
}

/// Where a file is damaged, if it is.
fn damage_of(alloc: Global, bytes: Vec<u8>) -> Result<Option<u64>, Trouble> {
    match opened(alloc, bytes)? {
        Ok(_) => Ok(None),
        Err(place) => Ok(Some(place)),
    }
}

fn checksum_of(bytes: &[u8]) -> u32 {
    let mut sum = Checksum::new();
    sum.add(bytes);
    sum.value()
}

/// The bytes of the pages that a map is cut into.
fn file_of<S: NodeRead>(alloc: Global, map: &mut S, base: u32) -> Result<Vec<u8>, Trouble> {
    match cut_pages(alloc, map, base)? {
        Cut::Pages(pages) => joined(alloc, pages.as_slice()),
        Cut::TooMany { .. } => Err(Trouble),
    }
}

fn joined(alloc: Global, pages: &[Page]) -> Result<Vec<u8>, Trouble> {
    let mut bytes = Vec::new(alloc);
    for page in pages {
        bytes.extend_from_slice(page.as_slice())?;
    }
    Ok(bytes)
}

/// The map over a file, or the place where it is damaged.
fn opened(alloc: Global, bytes: Vec<u8>) -> Result<Result<PagedSeq<MemDisk>, u64>, Trouble> {
    let pool = Pool::new(alloc, FRAMES)?;
    let disk = MemDisk::new(List::from_vec(bytes), List::new(alloc));
    match PagedSeq::open(alloc, disk, pool) {
        Ok(seq) => Ok(Ok(seq)),
        Err(refused) => match refused.fault {
            OpenError::Damaged(place) => Ok(Err(place.at)),
            _ => Err(Trouble),
        },
    }
}

/// The next entry of a map, by rising or by falling keys.
fn next<S: NodeRead>(
    alloc: Global,
    map: &mut S,
    at: &Key,
    upward: bool,
) -> Result<Option<(Key, Record)>, SeqError> {
    if upward {
        map.next_from(alloc, at)
    } else {
        map.prev_from(alloc, at)
    }
}

/// The checksum of all entries of a map, by rising or by falling keys.
fn walk<S: NodeRead>(alloc: Global, map: &mut S, upward: bool) -> Result<u32, Trouble> {
    let mut sum = Checksum::new();
    let mut at = end(alloc, upward)?;
    for _ in 0..=1_000 {
        let Some((key, record)) = next(alloc, map, &at, upward)? else {
            return Ok(sum.value());
        };
        add_entry(alloc, &key, &record, &mut sum)?;
        at = key;
    }
    Err(Trouble)
}

/// A key below or above all others.
fn end(alloc: Global, upward: bool) -> Result<Key, Trouble> {
    let mut divisions = Vec::from_slice(alloc, &[1])?;
    if !upward {
        divisions.push(4_294_967_291)?;
        for _ in 0..6 {
            divisions.push(4_294_967_291)?;
        }
    }
    match Label::of_divisions(List::from_vec(divisions)) {
        Some(label) => Ok(Key::of_node(alloc, &label)?),
        None => Err(Trouble),
    }
}

fn add_entry(alloc: Global, key: &Key, record: &Record, sum: &mut Checksum) -> Result<(), Trouble> {
    let mut bytes = List::new(alloc);
    write_key(alloc, key, &mut bytes)?;
    write_record(alloc, record, &mut bytes)?;
    sum.add(bytes.as_slice());
    Ok(())
}
