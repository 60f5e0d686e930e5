//! Changes: a put with its key and its record, the record's length before it, or a delete with its key.
ghost use Rattle.std.specs.Prelude.{IsTrue, ℕ, List, IfNone, ◌≡◌, ◌+◌, ◌≤◌, ◌++◌, length, IfOk, IfSome, Some, OnOk, OnErr};
ghost use Rattle.std.specs.Str.{is_utf8};
ghost use Rattle.dewey_labels.specs.Labels.{IsLabel};
ghost use Rattle.node_records.specs.Changes.{Fits, IsWritableChange, change_bytes, change_in, delete_in, put_in, sized_record, sized_record_in};
ghost use Rattle.node_records.specs.Reads.{Takes};
ghost use Rattle.dewey_labels.specs.Lists.{AppendsPrefix};

use crate::keys::{has_one_end, key_at_start, put_key};
use crate::records::{put_record, read_whole, record_length};
use byteorder::{BigEndian, ByteOrder};
use dewey_labels::{List, NoMemory};
use std::alloc::Global;
use tree_model::{Change, Record};

/// The kinds of changes.
const PUT: u8 = 1;

const DELETE: u8 = 2;

/// Writes a change at the end of `out`: a put with its key, its record's length and its record, or a delete with its key.
/// A name with the character U+0000, or a record whose length doesn't fit four bytes, is answered with `NoMemory`; after it `out` is as it was.
pub fn write_change(alloc: Global, change: &Change, out: &mut List<u8>) -> Result<(), NoMemory>
    ensures ok { OnOk result (out.new ≡ out.old ++ change_bytes change.entry.now) }
    ensures err { OnErr result (out.new ≡ out.old) }
    // So it is one that is read again.
    ensures fits { OnOk result (Fits change.entry.now.now) }
    ensures writable { OnOk result (IsWritableChange change.entry.now) }
{
    if !has_one_end(&change.key) {
        return Err(NoMemory);
    }
    let before = out.len();
    let put = put_change(alloc, change, out);
    if put.is_err() {
        out.truncate(before);
    }
    put
}

/// The same, part by part; after `NoMemory` some of them may stand there.
fn put_change(alloc: Global, change: &Change, out: &mut List<u8>) -> Result<(), NoMemory>
    ensures ok { OnOk result (out.new ≡ out.old ++ change_bytes change.entry.now) }
    ensures err { OnErr result (AppendsPrefix (change_bytes change.entry.now) out.old out.new) }
    ensures fits { OnOk result (Fits change.entry.now.now) }
    ensures label { OnOk result (IsLabel change.entry.now.key.label) }
    ensures utf8 { OnOk result (IsTrue (is_utf8 change.entry.now.key.name)) }
{
    match &change.now {
        Some(record) => {
            out.push(PUT)?;
            put_key(alloc, &change.key, out)?;
            put_sized(alloc, record, out)?;
            Ok(())
        }
        None => {
            out.push(DELETE)?;
            put_key(alloc, &change.key, out)?;
            Ok(())
        }
    }
}

/// Writes a record's length and the record; after `NoMemory` a part of them may stand there.
fn put_sized(alloc: Global, value: &Record, out: &mut List<u8>) -> Result<(), NoMemory>
    ensures ok { OnOk result (out.new ≡ out.old ++ sized_record value.now) }
    ensures err { OnErr result (AppendsPrefix (sized_record value.now) out.old out.new) }
    ensures fits { OnOk result (Fits (Some value.now)) }
{
    let Ok(length) = u32::try_from(record_length(value)) else {
        return Err(NoMemory);
    };
    let mut bytes = [0; 4];
    BigEndian::write_u32(&mut bytes, length);
    out.extend_from_slice(alloc, &bytes)?;
    put_record(alloc, value, out)?;
    Ok(())
}

/// The change at the start of the bytes, and how many of them it takes.
pub fn read_change(alloc: Global, bytes: &[u8]) -> Result<Option<(Change, usize)>, NoMemory>
    ensures exact { IfOk result (λ found. found ≡ change_in bytes.now) }
    ensures within { IfOk result (λ found. IfSome found (λ c. c.1 ≤ length bytes.now)) }
    // What is read was written so, and nothing is refused that is written of a change.
    ensures written { IfOk result (λ found. IfSome found (λ c. Takes (change_bytes c.0) c.1 bytes.now × IsWritableChange c.0)) }
    ensures none { IfOk result (λ found. IfNone found ((c : Change) (rest : List ℕ) → IsWritableChange c → bytes.now ≡ change_bytes c ++ rest → ⊥)) }
{
    change_at_start(alloc, bytes)
}

/// The same by its kind; apart, since what `read_change` says of the grammar follows once from `exact`, and not at each end of a read.
fn change_at_start(alloc: Global, bytes: &[u8]) -> Result<Option<(Change, usize)>, NoMemory>
    ensures exact { IfOk result (λ found. found ≡ change_in bytes.now) }
    ensures within { IfOk result (λ found. IfSome found (λ x. x.1 ≤ length bytes.now)) }
{
    match bytes {
        [PUT, rest @ ..] => read_put(alloc, rest),
        [DELETE, rest @ ..] => read_delete(alloc, rest),
        _ => Ok(None),
    }
}

/// The put whose kind was read, with the length of both.
fn read_put(alloc: Global, bytes: &[u8]) -> Result<Option<(Change, usize)>, NoMemory>
    ensures exact { IfOk result (λ found. found ≡ put_in bytes.now) }
    ensures within { IfOk result (λ found. IfSome found (λ x. x.1 ≤ 1 + length bytes.now)) }
{
    let Some((key, key_length)) = key_at_start(alloc, bytes)? else {
        return Ok(None);
    };
    let Some((record, record_length)) = read_sized(alloc, &bytes[key_length..])? else {
        return Ok(None);
    };
    let change = Change {
        key,
        now: Some(record),
    };
    Ok(Some((change, 1 + key_length + record_length)))
}

/// The delete whose kind was read, with the length of both.
fn read_delete(alloc: Global, bytes: &[u8]) -> Result<Option<(Change, usize)>, NoMemory>
    ensures exact { IfOk result (λ found. found ≡ delete_in bytes.now) }
    ensures within { IfOk result (λ found. IfSome found (λ x. x.1 ≤ 1 + length bytes.now)) }
{
    let Some((key, key_length)) = key_at_start(alloc, bytes)? else {
        return Ok(None);
    };
    Ok(Some((Change { key, now: None }, 1 + key_length)))
}

/// The record behind its length, and how many bytes both take.
fn read_sized(alloc: Global, bytes: &[u8]) -> Result<Option<(Record, usize)>, NoMemory>
    ensures exact { IfOk result (λ found. found ≡ sized_record_in bytes.now) }
    ensures within { IfOk result (λ found. IfSome found (λ x. x.1 ≤ length bytes.now)) }
{
    if bytes.len() < 4 {
        return Ok(None);
    }
    let length = BigEndian::read_u32(bytes) as usize;
    let rest = &bytes[4..];
    if rest.len() < length {
        return Ok(None);
    }
    match read_whole(alloc, &rest[..length])? {
        Some(record) => Ok(Some((record, 4 + length))),
        None => Ok(None),
    }
}
