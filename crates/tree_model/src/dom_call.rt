//! The calls that are made on the tree.
ghost use Rattle.std.specs.Prelude.{◌≡◌, IfOk};

use crate::Fragment;
use dewey_labels::{Copied, Label, NoMemory, Text};
use std::alloc::Global;

/// A call of DOM Level 3 Core on the store's tree. A label names the node that the call is made at;
/// offsets and counts are in characters.
#[derive(Debug, Drop)]
pub enum DomCall {
    /// All documents, by name.
    Docs,
    /// The document with a name.
    Doc(Text),
    Node(Label),
    Parent(Label),
    First(Label),
    Last(Label),
    Next(Label),
    Prev(Label),
    Children(Label),
    /// The attribute with a name.
    Attr(Label, Text),
    HasAttr(Label, Text),
    Attrs(Label),
    TextContent(Label),
    /// The elements under a node with a name, or with `*` all of them.
    Tags(Label, Text),
    Dump(Label),
    Length(Label),
    /// From an offset on, at most a count.
    Substring(Label, u32, u32),
    /// A document with a name, empty or of one element.
    Create(Text, Option<Fragment>),
    Drop(Text),
    Append(Label, Fragment),
    /// Before a child, or with none at the end.
    Insert(Label, Option<Label>, Fragment),
    /// In place of a child.
    Replace(Label, Label, Fragment),
    Remove(Label, Label),
    /// A name and a value.
    SetAttr(Label, Text, Text),
    RemoveAttr(Label, Text),
    Rename(Label, Text),
    SetData(Label, Text),
    AppendData(Label, Text),
    InsertData(Label, u32, Text),
    DeleteData(Label, u32, u32),
    ReplaceData(Label, u32, u32, Text),
    SplitText(Label, u32),
    Normalize(Label),
    SetText(Label, Text),
}

impl DomCall {
    pub fn copy(&self, alloc: Global) -> Result<DomCall, NoMemory>
        ensures { IfOk result (λ copy. copy ≡ self.now) }
    {
        match self {
            DomCall::Docs => Ok(DomCall::Docs),
            DomCall::Doc(name) => Ok(DomCall::Doc(name.copy(alloc)?)),
            DomCall::Node(at) => Ok(DomCall::Node(at.copy(alloc)?)),
            DomCall::Parent(at) => Ok(DomCall::Parent(at.copy(alloc)?)),
            DomCall::First(at) => Ok(DomCall::First(at.copy(alloc)?)),
            DomCall::Last(at) => Ok(DomCall::Last(at.copy(alloc)?)),
            DomCall::Next(at) => Ok(DomCall::Next(at.copy(alloc)?)),
            DomCall::Prev(at) => Ok(DomCall::Prev(at.copy(alloc)?)),
            DomCall::Children(at) => Ok(DomCall::Children(at.copy(alloc)?)),
            DomCall::Attr(at, name) => {
                let (at, name) = copy_both(alloc, at, name)?;
                Ok(DomCall::Attr(at, name))
            }
            DomCall::HasAttr(at, name) => {
                let (at, name) = copy_both(alloc, at, name)?;
                Ok(DomCall::HasAttr(at, name))
            }
            DomCall::Attrs(at) => Ok(DomCall::Attrs(at.copy(alloc)?)),
            DomCall::TextContent(at) => Ok(DomCall::TextContent(at.copy(alloc)?)),
            DomCall::Tags(at, name) => {
                let (at, name) = copy_both(alloc, at, name)?;
                Ok(DomCall::Tags(at, name))
            }
            DomCall::Dump(at) => Ok(DomCall::Dump(at.copy(alloc)?)),
            DomCall::Length(at) => Ok(DomCall::Length(at.copy(alloc)?)),
            DomCall::Substring(at, offset, count) => Ok(DomCall::Substring(
                at.copy(alloc)?,
                *offset,
                *count,
            )),
            DomCall::Create(name, tree) => {
                let (name, tree) = copy_both(alloc, name, tree)?;
                Ok(DomCall::Create(name, tree))
            }
            DomCall::Drop(name) => Ok(DomCall::Drop(name.copy(alloc)?)),
            DomCall::Append(at, tree) => {
                let (at, tree) = copy_both(alloc, at, tree)?;
                Ok(DomCall::Append(at, tree))
            }
            DomCall::Insert(at, before, tree) => {
                let (at, tree) = copy_both(alloc, at, tree)?;
                Ok(DomCall::Insert(at, before.copy(alloc)?, tree))
            }
            DomCall::Replace(at, old, tree) => {
                let (at, tree) = copy_both(alloc, at, tree)?;
                Ok(DomCall::Replace(at, old.copy(alloc)?, tree))
            }
            DomCall::Remove(at, old) => {
                let (at, old) = copy_both(alloc, at, old)?;
                Ok(DomCall::Remove(at, old))
            }
            DomCall::SetAttr(at, name, value) => {
                let (at, value) = copy_both(alloc, at, value)?;
                Ok(DomCall::SetAttr(at, name.copy(alloc)?, value))
            }
            DomCall::RemoveAttr(at, name) => {
                let (at, name) = copy_both(alloc, at, name)?;
                Ok(DomCall::RemoveAttr(at, name))
            }
            DomCall::Rename(at, name) => {
                let (at, name) = copy_both(alloc, at, name)?;
                Ok(DomCall::Rename(at, name))
            }
            DomCall::SetData(at, data) => {
                let (at, data) = copy_both(alloc, at, data)?;
                Ok(DomCall::SetData(at, data))
            }
            DomCall::AppendData(at, data) => {
                let (at, data) = copy_both(alloc, at, data)?;
                Ok(DomCall::AppendData(at, data))
            }
            DomCall::InsertData(at, offset, data) => {
                let (at, data) = copy_both(alloc, at, data)?;
                Ok(DomCall::InsertData(at, *offset, data))
            }
            DomCall::DeleteData(at, offset, count) => Ok(DomCall::DeleteData(
                at.copy(alloc)?,
                *offset,
                *count,
            )),
            DomCall::ReplaceData(at, offset, count, data) => {
                let (at, data) = copy_both(alloc, at, data)?;
                Ok(DomCall::ReplaceData(at, *offset, *count, data))
            }
            DomCall::SplitText(at, offset) => Ok(DomCall::SplitText(at.copy(alloc)?, *offset)),
            DomCall::Normalize(at) => Ok(DomCall::Normalize(at.copy(alloc)?)),
            DomCall::SetText(at, data) => {
                let (at, data) = copy_both(alloc, at, data)?;
                Ok(DomCall::SetText(at, data))
            }
        }
    }
}

impl Copied for DomCall {
    fn copy(&self, alloc: Global) -> Result<DomCall, NoMemory> {
        DomCall::copy(self, alloc)
    }
}

fn copy_both<A: Copied, B: Copied>(alloc: Global, a: &A, b: &B) -> Result<(A, B), NoMemory>
    ensures { IfOk result (λ pair. (pair.0 ≡ a.now) × (pair.1 ≡ b.now)) }
{
    Ok((a.copy(alloc)?, b.copy(alloc)?))
}
