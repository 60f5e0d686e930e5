//! The replies of calls.
ghost use Rattle.std.specs.Prelude.{◌≡◌, IfOk};

use crate::{Fragment, Refusal};
use dewey_labels::{Copied, Label, List, NoMemory, Text};
use std::alloc::Global;

/// What a call answers.
#[derive(Debug, Drop)]
pub enum Reply {
    Nothing,
    Flag(bool),
    Number(u32),
    Chars(Text),
    Place(Option<Label>),
    Places(List<Label>),
    /// The documents: each name with its label.
    Names(List<(Text, Label)>),
    /// Each attribute's name and value; none where the node isn't an element.
    Attrs(Option<List<(Text, Text)>>),
    Node {
        /// 1 element, 3 text, 9 document, as in DOM Level 3 Core.
        kind: u8,
        name: Text,
        value: Option<Text>,
    },
    Tree(Option<Fragment>),
    Replaced {
        new: Label,
        old: Fragment,
    },
    Found(List<Hit>),
    Refused(Refusal),
}

/// A node of a node set, or with a name its attribute.
#[derive(Debug, Drop)]
pub struct Hit {
    pub label: Label,
    pub attr: Option<Text>,
}

impl Hit {
    pub fn copy(&self, alloc: Global) -> Result<Hit, NoMemory>
        ensures { IfOk result (λ copy. copy ≡ self.now) }
    {
        Ok(Hit {
            label: self.label.copy(alloc)?,
            attr: self.attr.copy(alloc)?,
        })
    }
}

impl Copied for Hit {
    fn copy(&self, alloc: Global) -> Result<Hit, NoMemory> {
        Hit::copy(self, alloc)
    }
}

impl Reply {
    pub fn copy(&self, alloc: Global) -> Result<Reply, NoMemory>
        ensures { IfOk result (λ copy. copy ≡ self.now) }
    {
        Ok(match self {
            Reply::Nothing => Reply::Nothing,
            Reply::Flag(flag) => Reply::Flag(*flag),
            Reply::Number(number) => Reply::Number(*number),
            Reply::Chars(chars) => Reply::Chars(chars.copy(alloc)?),
            Reply::Place(place) => Reply::Place(place.copy(alloc)?),
            Reply::Places(places) => Reply::Places(places.copy(alloc)?),
            Reply::Names(names) => Reply::Names(names.copy(alloc)?),
            Reply::Attrs(attrs) => Reply::Attrs(attrs.copy(alloc)?),
            Reply::Node { kind, name, value } => Reply::Node {
                kind: *kind,
                name: name.copy(alloc)?,
                value: value.copy(alloc)?,
            },
            Reply::Tree(tree) => Reply::Tree(tree.copy(alloc)?),
            Reply::Replaced { new, old } => Reply::Replaced {
                new: new.copy(alloc)?,
                old: old.copy(alloc)?,
            },
            Reply::Found(hits) => Reply::Found(hits.copy(alloc)?),
            Reply::Refused(refusal) => Reply::Refused(*refusal),
        })
    }
}

impl Copied for Reply {
    fn copy(&self, alloc: Global) -> Result<Reply, NoMemory> {
        Reply::copy(self, alloc)
    }
}
