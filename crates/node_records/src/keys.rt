//! Keys: a label and a name, each with its end.
ghost use Rattle.std.specs.Prelude.{IsTrue, ℕ, List, IfNone, ◌≡◌, ◌<◌, ◌≤◌, ◌==◌, ◌++◌, length, IfOk, IfSome, OnOk, OnErr};
ghost use Rattle.std.specs.List.{AllByRecursion, position};
ghost use Rattle.std.specs.Str.{is_utf8};
ghost use Rattle.dewey_labels.specs.Labels.{IsLabel};
ghost use Rattle.node_records.specs.Keys.{IsWritable, key_bytes, key_in, name_in};
ghost use Rattle.node_records.specs.Reads.{Takes};
ghost use Rattle.dewey_labels.specs.Lists.{AppendsPrefix};

use crate::labels::{read_label, write_label};
use crate::texts::read_text;
use dewey_labels::{List, NoMemory, Text};
use std::alloc::Global;
use tree_model::Key;

/// The byte behind the name of a key.
const END: u8 = 0;

/// Writes a key at the end of `out`: its label, its name and a byte 0. After `NoMemory` `out` is as it was.
pub fn write_key(alloc: Global, key: &Key, out: &mut List<u8>) -> Result<(), NoMemory>
    ensures ok { OnOk result (out.new ≡ out.old ++ key_bytes key.now) }
    ensures err { OnErr result (out.new ≡ out.old) }
    // So only a character U+0000 in its name keeps it from being read again.
    ensures label { OnOk result (IsLabel key.now.label) }
    ensures utf8 { OnOk result (IsTrue (is_utf8 key.now.name)) }
{
    let before = out.len();
    let put = put_key(alloc, key, out);
    if put.is_err() {
        out.truncate(before);
    }
    put
}

/// Whether no byte of a key's name is read as its end.
pub(crate) fn has_one_end(key: &Key) -> bool
    ensures { IsTrue result → AllByRecursion (λ b. 0 < b) key.now.name }
{
    !key.name.as_str().as_bytes().contains(&END)
}

/// The same, part by part; after `NoMemory` some of them may stand there.
pub(crate) fn put_key(alloc: Global, key: &Key, out: &mut List<u8>) -> Result<(), NoMemory>
    ensures ok { OnOk result (out.new ≡ out.old ++ key_bytes key.now) }
    ensures err { OnErr result (AppendsPrefix (key_bytes key.now) out.old out.new) }
    ensures label { OnOk result (IsLabel key.now.label) }
    ensures utf8 { OnOk result (IsTrue (is_utf8 key.now.name)) }
{
    write_label(alloc, &key.label, out)?;
    out.extend_from_slice(alloc, key.name.as_str().as_bytes())?;
    out.push(END)?;
    Ok(())
}

/// The key at the start of the bytes, and how many of them it takes.
pub fn read_key(alloc: Global, bytes: &[u8]) -> Result<Option<(Key, usize)>, NoMemory>
    ensures exact { IfOk result (λ found. found ≡ key_in bytes.now) }
    ensures within { IfOk result (λ found. IfSome found (λ k. k.1 ≤ length bytes.now)) }
    // What is read was written so, and nothing is refused that is written of a key.
    ensures written { IfOk result (λ found. IfSome found (λ k. Takes (key_bytes k.0) k.1 bytes.now × IsWritable k.0)) }
    ensures none { IfOk result (λ found. IfNone found ((k : Key) (rest : List ℕ) → IsWritable k → bytes.now ≡ key_bytes k ++ rest → ⊥)) }
{
    key_at_start(alloc, bytes)
}

/// The same, part by part; apart, since what `read_key` says of the grammar follows once from `exact`, and not at each end of a read.
pub(crate) fn key_at_start(alloc: Global, bytes: &[u8]) -> Result<Option<(Key, usize)>, NoMemory>
    ensures exact { IfOk result (λ found. found ≡ key_in bytes.now) }
    ensures within { IfOk result (λ found. IfSome found (λ k. k.1 ≤ length bytes.now)) }
{
    let Some((label, label_length)) = read_label(alloc, bytes)? else {
        return Ok(None);
    };
    let Some((name, name_length)) = read_name(alloc, &bytes[label_length..])? else {
        return Ok(None);
    };
    Ok(Some((Key { label, name }, label_length + name_length)))
}

/// The name up to the first byte 0, and how many bytes both take.
fn read_name(alloc: Global, bytes: &[u8]) -> Result<Option<(Text, usize)>, NoMemory>
    ensures exact { IfOk result (λ found. found ≡ name_in bytes.now) }
    ensures within { IfOk result (λ found. IfSome found (λ n. n.1 ≤ length bytes.now)) }
{
    let Some(length) = end_of_name(bytes) else {
        return Ok(None);
    };
    match read_text(alloc, &bytes[..length])? {
        Some(name) => Ok(Some((name, length + 1))),
        None => Ok(None),
    }
}

/// Where the first byte 0 stands.
fn end_of_name(bytes: &[u8]) -> Option<usize>
    ensures first { result ≡ position (λ b. b == 0) bytes.now }
    ensures within { IfSome result (λ n. n < length bytes.now) }
{
    bytes.iter().position(|byte| *byte == END)
}
