//! A look at a tree.
use dewey_labels::{Label, Text};

/// What is looked at (docs/PROFILE.md, "Paths").
#[derive(Clone, Copy, Debug)]
pub enum Look<'a> {
    /// A node.
    Node(&'a Label),
    /// Its children.
    Row(&'a Label),
    /// A node and all that lie under it.
    Tree(&'a Label),
    /// All attributes of a node.
    Attributes(&'a Label),
    /// The attribute of a node with a name.
    Attribute(&'a Label, &'a Text),
}
