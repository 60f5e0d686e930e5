//! Positions of a tree, which XPath calls nodes.
ghost use Rattle.std.specs.Prelude.{◌≡◌, [], ◌∷◌, IfOk};
ghost use Rattle.path_model.specs.Positions as path;
ghost use Rattle.xpath_axes.specs.Positions.{plain};

use dewey_labels::{Copied, Label, List, NoMemory, Text};
use path_model::{Axis, NodeTest};
use std::alloc::Global;
use tree_model::Record;

/// A position of a tree, with what was seen of it.
#[derive(Debug, Drop)]
pub enum Position {
    /// A node, with its label and record.
    Node(Label, Record),
    /// An attribute, with its element's label, its name and its value.
    Attribute(Label, Text, Text),
}

impl Position {
    pub fn copy(&self, alloc: Global) -> Result<Position, NoMemory>
        ensures { IfOk result (λ copy. copy ≡ self.now) }
    {
        Ok(match self {
            Position::Node(label, record) => {
                Position::Node(label.copy(alloc)?, record.copy(alloc)?)
            }
            Position::Attribute(label, name, value) => {
                Position::Attribute(label.copy(alloc)?, name.copy(alloc)?, value.copy(alloc)?)
            }
        })
    }
}

impl Position {
    /// Its label; that of an attribute is its element's.
    pub fn label(&self) -> &Label
        ensures { result.now ≡ path.label_of (plain self.now) }
    {
        match self {
            Position::Node(label, _) => label,
            Position::Attribute(label, ..) => label,
        }
    }

    /// Its name in keys, which is empty of a node.
    pub fn key_name(&self) -> &str
        ensures { result.now ≡ path.name_of (plain self.now) }
    {
        match self {
            Position::Node(..) => "",
            Position::Attribute(_, name, _) => name.as_str(),
        }
    }

    pub fn is_node(&self) -> bool
        ensures { result ≡ path.is_node (plain self.now) }
    {
        matches!(self, Position::Node(..))
    }

    pub fn is_document(&self) -> bool
        ensures { result ≡ path.is_document (plain self.now) }
    {
        matches!(self, Position::Node(_, Record::Document))
    }

    /// Whether it passes the test of a step along an axis (XPath 1.0, section 2.3).
    pub fn passes(&self, axis: Axis, test: &NodeTest) -> bool
        ensures { result ≡ path.passes axis test.now (plain self.now) }
    {
        match self {
            Position::Node(_, record) => record_passes(test, record),
            Position::Attribute(_, name, _) => match axis {
                Axis::Attribute => is_named(test, name),
                _ => matches!(test, NodeTest::Node),
            },
        }
    }
}

/// Whether a node passes a node test: names and `*` are of elements.
fn record_passes(test: &NodeTest, record: &Record) -> bool
    ensures { result ≡ path.node_passes test.now record.now }
{
    match record {
        Record::Element(name) => is_named(test, name),
        Record::Text(_) => matches!(test, NodeTest::Node | NodeTest::Text),
        _ => matches!(test, NodeTest::Node),
    }
}

/// Whether a name passes a node test.
fn is_named(test: &NodeTest, name: &Text) -> bool
    ensures { result ≡ path.is_named test.now name.now }
{
    match test {
        NodeTest::Name(wanted) => wanted.as_str() == name.as_str(),
        NodeTest::Any | NodeTest::Node => true,
        NodeTest::Text => false,
    }
}

impl Copied for Position {
    fn copy(&self, alloc: Global) -> Result<Position, NoMemory> {
        Position::copy(self, alloc)
    }
}

/// The list of one position.
pub fn only(alloc: Global, position: Position) -> Result<List<Position>, NoMemory>
    ensures { IfOk result (λ positions. positions ≡ position ∷ []) }
{
    let mut positions = List::new(alloc);
    positions.push(position)?;
    Ok(positions)
}
