//! Texts: names, data and values, which are UTF-8.
ghost use Rattle.std.specs.Prelude.{◌≡◌, IfOk};
ghost use Rattle.node_records.specs.Reads.{text_of};

use dewey_labels::{NoMemory, Text};
use std::alloc::Global;

/// The text that all of the bytes are, if they are UTF-8.
pub(crate) fn read_text(alloc: Global, bytes: &[u8]) -> Result<Option<Text>, NoMemory>
    ensures { IfOk result (λ found. found ≡ text_of bytes.now) }
{
    match str::from_utf8(bytes) {
        Ok(text) => Ok(Some(Text::of(alloc, text)?)),
        Err(_) => Ok(None),
    }
}
