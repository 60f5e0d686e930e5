//! How many bytes an entry takes on its page, told by some of them, without reading it.
ghost use Rattle.std.specs.Prelude.{◌≡◌, ◌≤◌, ◌<◌, ◌==◌, ℕ, length, Some, IfSome};
ghost use Rattle.std.specs.List.{position};
ghost use Rattle.dewey_labels.specs.Labels.{Label};
ghost use Rattle.node_records.specs.Entries.{entry_in};
ghost use Rattle.node_records.specs.Keys.{key_bytes, key_in};
ghost use Rattle.node_records.specs.Labels.{label_in};
ghost use Rattle.node_records.specs.declared.entries.Entry.{Entry};
ghost use Rattle.tree_model.specs.declared.key.Key.{Key};
ghost use Rattle.paged_seq.specs.Sizes.{division_size};

use byteorder::{BigEndian, ByteOrder};

/// How many bytes stand between an entry's key and its own.
const HEAD_BYTES: usize = 5;

/// The byte behind a label, and the one behind a name.
const END: u8 = 0;

/// How many bytes the division has that begins with this one.
fn division_size(first: u8) -> usize
    ensures { result ≡ division_size first }
{
    match first {
        0..=0x7F => 1,
        0x80..=0xBF => 2,
        0xC0..=0xDF => 3,
        _ => 5,
    }
}

/// How many bytes the label has at the start of the bytes, its end too. Where there is no label this says nothing.
fn label_size(bytes: &[u8]) -> Option<usize>
    ensures size { (l : Label × ℕ) → label_in bytes.now ≡ Some l → result ≡ Some l.1 }
    ensures within { IfSome result (λ n. n ≤ length bytes.now) }
{
    let mut at = 0;
    while at < bytes.len() {
        let first = bytes[at];
        if first == END {
            return Some(at + 1);
        }
        at += division_size(first);
    }
    None
}

/// Where the first byte 0 stands.
fn end_of_name(bytes: &[u8]) -> Option<usize>
    ensures first { result ≡ position (λ b. b == 0) bytes.now }
    ensures within { IfSome result (λ n. n < length bytes.now) }
{
    bytes.iter().position(|byte| *byte == END)
}

/// How many bytes the key has at the start of the bytes. Where there is no key this says nothing.
fn key_size(bytes: &[u8]) -> Option<usize>
    ensures size { (k : Key × ℕ) → key_in bytes.now ≡ Some k → result ≡ Some k.1 }
    ensures within { IfSome result (λ n. n ≤ length bytes.now) }
{
    let Some(label) = label_size(bytes) else {
        return None;
    };
    let (_, rest) = bytes.split_at(label);
    match end_of_name(rest) {
        Some(name) => Some(label + name + 1),
        None => None,
    }
}

/// How many bytes the key has of the entry at the start of the bytes, and how many the entry has. Where there is no entry this says nothing.
pub(crate) fn entry_sizes(bytes: &[u8]) -> Option<(usize, usize)>
    ensures sizes { (e : Entry × ℕ) → entry_in bytes.now ≡ Some e → result ≡ Some (length (key_bytes e.0.key), e.1) }
    ensures within { IfSome result (λ s. (s.0 ≤ length bytes.now) × (s.1 ≤ length bytes.now)) }
{
    let Some(key) = key_size(bytes) else {
        return None;
    };
    let (_, rest) = bytes.split_at(key);
    if rest.len() < HEAD_BYTES {
        return None;
    }
    let size = HEAD_BYTES + BigEndian::read_u16(&rest[3..]) as usize;
    if rest.len() < size {
        return None;
    }
    Some((key, key + size))
}
