//! What modes are asked at, and how it is written in replies.
ghost use Rattle.std.specs.Prelude.{◌≡◌, ◌++◌, IfOk, OnOk, OnErr};
ghost use Rattle.lock_resources.specs.Resources.{label_of};
ghost use Rattle.lock_resources.specs.ResourceText.{side_word, resource_text};
ghost use Rattle.lock_resources.specs.Hashed.{side_number};
ghost use Rattle.dewey_labels.specs.Labels.{IsLabel};
ghost use Rattle.dewey_labels.specs.LabelText.{label_text};

use dewey_labels::{Copied, Label, List, NoMemory, Text};
use std::alloc::Global;
use std::hash::{Hash, Hasher};

/// Which edge of a node: what stands first or last below it, or next to it.
#[derive(Debug, Drop, Clone, Copy, PartialEq, Eq, PartialOrd, Ord)]
pub enum Side {
    /// The edge to the first child.
    First,
    /// The edge to the last child.
    Last,
    /// The edge to the next sibling.
    Next,
    /// The edge to the previous sibling.
    Prev,
}

/// What a mode is asked at. The order is that of the variants, then of their fields.
#[derive(Debug, Drop, PartialEq, Eq, PartialOrd, Ord)]
pub enum Resource {
    /// The node with this label, or the store's root.
    Node(Label),
    /// All attributes of the node with this label; of the root, the catalogue.
    AttrRoot(Label),
    /// The attribute with this name of the node with this label; of the root, the document's name.
    Attr(Label, Text),
    /// An edge of the node with this label: which node stands there, or that none does.
    Edge(Label, Side),
}

impl Resource {
    /// The label that the resource is named by.
    pub fn label(&self) -> &Label
        ensures { result.now ≡ label_of self.now }
    {
        match self {
            Resource::Node(label)
            | Resource::AttrRoot(label)
            | Resource::Attr(label, _)
            | Resource::Edge(label, _) => label,
        }
    }

    pub fn copy(&self, alloc: Global) -> Result<Resource, NoMemory>
        ensures { IfOk result (λ copy. copy ≡ self.now) }
    {
        Ok(match self {
            Resource::Node(label) => Resource::Node(label.copy(alloc)?),
            Resource::AttrRoot(label) => Resource::AttrRoot(label.copy(alloc)?),
            Resource::Attr(label, name) => { Resource::Attr(label.copy(alloc)?, name.copy(alloc)?) }
            Resource::Edge(label, side) => Resource::Edge(label.copy(alloc)?, *side),
        })
    }

    /// Puts the resource's text at the end of `out`, as a reply shows it.
    pub fn write_text(&self, alloc: Global, out: &mut List<u8>) -> Result<(), NoMemory>
        ensures ok { OnOk result (out.new ≡ out.old ++ resource_text self.now) }
        ensures err { OnErr result (out.new ≡ out.old) }
    {
        let text = self.text(alloc)?;
        out.extend_from_slice(alloc, text.as_slice())
    }

    fn text(&self, alloc: Global) -> Result<List<u8>, NoMemory>
        ensures { IfOk result (λ text. text ≡ resource_text self.now) }
    {
        match self {
            Resource::Node(label) => joined(alloc, "node ", label, ""),
            Resource::AttrRoot(label) => joined(alloc, "attrs ", label, ".1"),
            Resource::Attr(label, name) => {
                let mut text = joined(alloc, "attr ", label, " ")?;
                text.extend_from_slice(alloc, name.as_str().as_bytes())?;
                Ok(text)
            }
            Resource::Edge(label, side) => joined(alloc, side.word(), label, ""),
        }
    }
}

impl Side {
    /// The number of an edge's kind among those of resources.
    fn number(self) -> u8
        ensures { result ≡ side_number self }
    {
        match self {
            Side::First => 3,
            Side::Last => 4,
            Side::Next => 5,
            Side::Prev => 6,
        }
    }

    /// The word that begins an edge's text, and a space.
    fn word(self) -> &'static str
        ensures { result.now ≡ side_word self }
    {
        match self {
            Side::First => "first ",
            Side::Last => "last ",
            Side::Next => "next ",
            Side::Prev => "prev ",
        }
    }
}

/// The label's text between two others.
fn joined(alloc: Global, word: &str, label: &Label, end: &str) -> Result<List<u8>, NoMemory>
    ensures text { IfOk result (λ text. text ≡ word.now ++ (label_text label.now ++ end.now)) }
    ensures label { IsLabel label.now }
{
    let _divisions = label.divisions();
    let mut text = List::new(alloc);
    text.extend_from_slice(alloc, word.as_bytes())?;
    label.write_text(alloc, &mut text)?;
    text.extend_from_slice(alloc, end.as_bytes())?;
    Ok(text)
}

/// The kind of resource, and then what names it. Equal resources are hashed alike.
impl Hash for Resource {
    ghost use Rattle.lock_resources.specs.Hashed.{fed_resource};
    ghost use Rattle.std.specs.Cmp.Rules.{hashing};
    ghost use Rattle.std.proofs.Common.{rules};

    ghost hash_input = { fed_resource };

    ghost respects_eq = { Prim.search (hashing, rules) };

    fn hash<H: Hasher>(&self, state: &mut H) {
        match self {
            Resource::Node(label) => {
                state.write_u8(0);
                label.divisions().hash(state);
            }
            Resource::AttrRoot(label) => {
                state.write_u8(1);
                label.divisions().hash(state);
            }
            Resource::Attr(label, name) => {
                state.write_u8(2);
                label.divisions().hash(state);
                name.as_str().hash(state);
            }
            Resource::Edge(label, side) => {
                state.write_u8(side.number());
                label.divisions().hash(state);
            }
        }
    }
}

impl Copied for Resource {
    fn copy(&self, alloc: Global) -> Result<Resource, NoMemory> {
        Resource::copy(self, alloc)
    }
}
