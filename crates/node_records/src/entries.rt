//! Entries: the chunks of a record, each at the record's key, as pages hold them.
ghost use Rattle.std.specs.Prelude.{ℕ, List, IfNone, ◌≡◌, ◌<◌, ◌≤◌, ◌^◌, ◌++◌, length, IfOk, IfSome, OnOk, OnErr};
ghost use Rattle.byteorder.specs.Endian.{big_bytes};
ghost use Rattle.dewey_labels.specs.Lists.{AppendsPrefix};
ghost use Rattle.node_records.specs.Entries.{IsTyped, IsWritableEntry, chunk_head, chunk_in, entry_bytes, entry_in, is_chunk};
ghost use Rattle.node_records.specs.Reads.{Takes};
ghost use Rattle.node_records.specs.declared.entries.Entry.{Entry};

use crate::keys::{has_one_end, key_at_start, put_key};
use byteorder::{BigEndian, ByteOrder};
use dewey_labels::{Copied, List, NoMemory};
use std::alloc::Global;
use tree_model::Key;

/// How many bytes of a record an entry has at most; one that isn't the record's last has so many.
pub const CHUNK_BYTES: usize = 1_024;

/// How many bytes stand between an entry's key and its own.
const HEAD_BYTES: usize = 5;

/// A chunk of a record's bytes, with the record's key.
#[derive(Debug, Drop)]
pub struct Entry {
    pub key: Key,
    /// Which chunk it is, counted from 0.
    pub chunk: u16,
    /// Whether it is the record's last.
    pub last: bool,
    pub bytes: List<u8>,
}

impl Entry {
    pub fn copy(&self, alloc: Global) -> Result<Entry, NoMemory>
        ensures { IfOk result (λ copy. copy ≡ self.now) }
    {
        Ok(Entry {
            key: self.key.copy(alloc)?,
            chunk: self.chunk,
            last: self.last,
            bytes: List::from_vec(Vec::from_slice(alloc, self.bytes.as_slice())?),
        })
    }
}

impl Copied for Entry {
    fn copy(&self, alloc: Global) -> Result<Entry, NoMemory> {
        Entry::copy(self, alloc)
    }
}

/// Writes an entry at the end of `out`: its key, the number of its chunk, whether it is the last, and its bytes with their length before them.
/// A name with the character U+0000, or bytes that are no chunk, are answered with `NoMemory`; after it `out` is as it was.
pub fn write_entry(alloc: Global, entry: &Entry, out: &mut List<u8>) -> Result<(), NoMemory>
    ensures ok { OnOk result (out.new ≡ out.old ++ entry_bytes entry.now) }
    ensures err { OnErr result (out.new ≡ out.old) }
    // So it is one that is read again.
    ensures writable { OnOk result (IsWritableEntry entry.now) }
{
    let length = entry.bytes.len();
    if length > CHUNK_BYTES || !is_chunk(entry.last as u8, length) || !has_one_end(&entry.key) {
        return Err(NoMemory);
    }
    let before = out.len();
    let put = put_entry(alloc, entry, length as u16, out);
    if put.is_err() {
        out.truncate(before);
    }
    put
}

/// The same, part by part; after `NoMemory` some of them may stand there.
fn put_entry(alloc: Global, entry: &Entry, count: u16, out: &mut List<u8>) -> Result<(), NoMemory>
    requires { count ≡ length entry.now.bytes }
    ensures ok { OnOk result (out.new ≡ out.old ++ entry_bytes entry.now) }
    ensures err { OnErr result (AppendsPrefix (entry_bytes entry.now) out.old out.new) }
    ensures typed { OnOk result (IsTyped entry.now) }
{
    put_key(alloc, &entry.key, out)?;
    out.extend_from_slice(alloc, &head(entry, count))?;
    out.extend_from_slice(alloc, entry.bytes.as_slice())?;
    Ok(())
}

/// What stands between an entry's key and its bytes, of which there are so many.
fn head(entry: &Entry, count: u16) -> [u8; HEAD_BYTES]
    requires { count ≡ length entry.now.bytes }
    ensures bytes { result ≡ chunk_head entry.now }
    ensures fits { entry.now.chunk < 2 ^ 16 }
{
    let [high, low] = two(entry.chunk);
    let [longer, shorter] = two(count);
    [high, low, entry.last as u8, longer, shorter]
}

/// A number in two bytes.
fn two(number: u16) -> [u8; 2]
    ensures bytes { result ≡ big_bytes 2 number }
    ensures fits { number < 2 ^ 16 }
{
    let mut bytes = [0; 2];
    BigEndian::write_u16(&mut bytes, number);
    bytes
}

/// Whether a chunk with this flag, 1 for a record's last, may have so many bytes.
fn is_chunk(flag: u8, length: usize) -> bool
    ensures { result ≡ is_chunk flag length }
{
    match flag {
        0 => length == CHUNK_BYTES,
        1 => 0 < length && length <= CHUNK_BYTES,
        _ => false,
    }
}

/// The entry at the start of the bytes, and how many of them it takes.
pub fn read_entry(alloc: Global, bytes: &[u8]) -> Result<Option<(Entry, usize)>, NoMemory>
    ensures exact { IfOk result (λ found. found ≡ entry_in bytes.now) }
    ensures within { IfOk result (λ found. IfSome found (λ e. e.1 ≤ length bytes.now)) }
    // What is read was written so, and nothing is refused that is written of an entry.
    ensures written { IfOk result (λ found. IfSome found (λ e. Takes (entry_bytes e.0) e.1 bytes.now × IsWritableEntry e.0)) }
    ensures none { IfOk result (λ found. IfNone found ((e : Entry) (rest : List ℕ) → IsWritableEntry e → bytes.now ≡ entry_bytes e ++ rest → ⊥)) }
{
    entry_at_start(alloc, bytes)
}

/// The same, part by part; apart, since what `read_entry` says of the grammar follows once from `exact`, and not at each end of a read.
fn entry_at_start(alloc: Global, bytes: &[u8]) -> Result<Option<(Entry, usize)>, NoMemory>
    ensures exact { IfOk result (λ found. found ≡ entry_in bytes.now) }
    ensures within { IfOk result (λ found. IfSome found (λ e. e.1 ≤ length bytes.now)) }
{
    let Some((key, key_length)) = key_at_start(alloc, bytes)? else {
        return Ok(None);
    };
    match read_chunk(alloc, key, &bytes[key_length..])? {
        Some((entry, length)) => Ok(Some((entry, key_length + length))),
        None => Ok(None),
    }
}

/// The entry whose key was read, and how many bytes it takes behind the key.
fn read_chunk(alloc: Global, key: Key, bytes: &[u8]) -> Result<Option<(Entry, usize)>, NoMemory>
    ensures exact { IfOk result (λ found. found ≡ chunk_in key bytes.now) }
    ensures within { IfOk result (λ found. IfSome found (λ e. e.1 ≤ length bytes.now)) }
{
    if bytes.len() < HEAD_BYTES {
        return Ok(None);
    }
    let flag = bytes[2];
    let length = BigEndian::read_u16(&bytes[3..]) as usize;
    let rest = &bytes[HEAD_BYTES..];
    if rest.len() < length || !is_chunk(flag, length) {
        return Ok(None);
    }
    let entry = Entry {
        key,
        chunk: BigEndian::read_u16(bytes),
        last: flag == 1,
        bytes: List::from_vec(Vec::from_slice(alloc, &rest[..length])?),
    };
    Ok(Some((entry, HEAD_BYTES + length)))
}
