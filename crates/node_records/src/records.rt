//! Records: a byte for the kind, and the name, data or value up to the end of what is read.
ghost use Rattle.std.specs.Prelude.{◌≡◌, ◌∷◌, ◌++◌, length, IfOk, IfSome, IfNone, OnOk, OnErr, Option, IsTrue};
ghost use Rattle.std.specs.Str.{is_utf8};
ghost use Rattle.tree_model.specs.Records.{HasText};
ghost use Rattle.node_records.specs.Records.{record_bytes, record_in, record_of};
ghost use Rattle.dewey_labels.specs.Lists.{AppendsPrefix};

use crate::texts::read_text;
use dewey_labels::{List, NoMemory, Text};
use std::alloc::Global;
use tree_model::Record;

/// The kinds of records.
const DOCUMENT: u8 = 1;

const ELEMENT: u8 = 2;

const TEXT: u8 = 3;

const ATTR: u8 = 4;

/// Writes a record at the end of `out`: its kind and its name, data or value. After `NoMemory` `out` is as it was.
pub fn write_record(alloc: Global, value: &Record, out: &mut List<u8>) -> Result<(), NoMemory>
    ensures ok { OnOk result (out.new ≡ out.old ++ record_bytes value.now) }
    ensures err { OnErr result (out.new ≡ out.old) }
    // So it is one that is read again.
    ensures text { OnOk result (HasText value.now) }
{
    let before = out.len();
    let put = put_record(alloc, value, out);
    if put.is_err() {
        out.truncate(before);
    }
    put
}

/// The same, part by part; after `NoMemory` the kind may stand there.
pub(crate) fn put_record(alloc: Global, value: &Record, out: &mut List<u8>) -> Result<(), NoMemory>
    ensures ok { OnOk result (out.new ≡ out.old ++ record_bytes value.now) }
    ensures err { OnErr result (AppendsPrefix (record_bytes value.now) out.old out.new) }
    ensures text { OnOk result (HasText value.now) }
{
    match value {
        Record::Document => out.push(DOCUMENT),
        Record::Element(name) => write_text(alloc, ELEMENT, name, out),
        Record::Text(data) => write_text(alloc, TEXT, data, out),
        Record::Attr(text) => write_text(alloc, ATTR, text, out),
    }
}

/// The record that all of the bytes are, with their number. A record has no end of its own.
pub fn read_record(alloc: Global, bytes: &[u8]) -> Result<Option<(Record, usize)>, NoMemory>
    ensures exact { IfOk result (λ found. found ≡ record_in bytes.now) }
    // What is read was written so, and nothing is refused that is written of a record.
    ensures written { IfOk result (λ found. IfSome found (λ r. (bytes.now ≡ record_bytes r.0) × (r.1 ≡ length bytes.now) × HasText r.0)) }
    ensures none { IfOk result (λ found. IfNone found ((r : Record) → HasText r → bytes.now ≡ record_bytes r → ⊥)) }
{
    match read_whole(alloc, bytes)? {
        Some(record) => Ok(Some((record, bytes.len()))),
        None => Ok(None),
    }
}

/// The record that all of the bytes are.
pub(crate) fn read_whole(alloc: Global, bytes: &[u8]) -> Result<Option<Record>, NoMemory>
    ensures { IfOk result (λ found. found ≡ record_of bytes.now) }
{
    match bytes {
        [DOCUMENT] => Ok(Some(Record::Document)),
        [ELEMENT, name @ ..] => Ok(read_text(alloc, name)?.map(Record::Element)),
        [TEXT, data @ ..] => Ok(read_text(alloc, data)?.map(Record::Text)),
        [ATTR, value @ ..] => Ok(read_text(alloc, value)?.map(Record::Attr)),
        _ => Ok(None),
    }
}

/// How many bytes a record takes.
pub(crate) fn record_length(value: &Record) -> usize
    ensures { result ≡ length (record_bytes value.now) }
{
    match value {
        Record::Document => 1,
        Record::Element(text) | Record::Text(text) | Record::Attr(text) => 1 + text.as_str().len(),
    }
}

/// Writes a kind and a text.
fn write_text(alloc: Global, kind: u8, text: &Text, out: &mut List<u8>) -> Result<(), NoMemory>
    ensures ok { OnOk result (out.new ≡ out.old ++ kind ∷ text.now) }
    ensures err { OnErr result (AppendsPrefix (kind ∷ text.now) out.old out.new) }
    ensures utf8 { OnOk result (IsTrue (is_utf8 text.now)) }
{
    out.push(kind)?;
    out.extend_from_slice(alloc, text.as_str().as_bytes())?;
    Ok(())
}
