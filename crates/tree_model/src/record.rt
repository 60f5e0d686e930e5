//! Records, which stand at the keys of a map.
ghost use Rattle.std.specs.Prelude.{◌≡◌, IfOk};
ghost use Rattle.tree_model.specs.Records.{is_data, record_fits};

use crate::{MOST_TEXT_BYTES, is_name};
use dewey_labels::{Copied, NoMemory, Text};
use std::alloc::Global;

/// What stands at a key.
#[derive(Debug, Drop)]
pub enum Record {
    Document,
    /// An element, with its name.
    Element(Text),
    /// A text node, with its data.
    Text(Text),
    /// An attribute, with its value; the name is that of the key.
    Attr(Text),
}

impl Record {
    /// Whether a tree may have it: an element's name is a Name, and a text's data or an attribute's value isn't too long.
    pub fn fits(&self) -> bool
        ensures fits { result ≡ record_fits self.now }
    {
        match self {
            Record::Document => true,
            Record::Element(name) => is_name(name),
            Record::Text(data) => is_data(data),
            Record::Attr(value) => is_data(value),
        }
    }

    pub fn copy(&self, alloc: Global) -> Result<Record, NoMemory>
        ensures { IfOk result (λ r. r ≡ self.now) }
    {
        Ok(match self {
            Record::Document => Record::Document,
            Record::Element(name) => Record::Element(name.copy(alloc)?),
            Record::Text(data) => Record::Text(data.copy(alloc)?),
            Record::Attr(value) => Record::Attr(value.copy(alloc)?),
        })
    }
}

/// Whether a text may be data or a value in a tree.
fn is_data(text: &Text) -> bool
    ensures { result ≡ is_data text.now }
{
    text.as_str().len() <= MOST_TEXT_BYTES
}

impl Copied for Record {
    fn copy(&self, alloc: Global) -> Result<Record, NoMemory> {
        Record::copy(self, alloc)
    }
}
