//! The kinds of nodes, told by their records (DOM Level 3 Core, interface Node).
ghost use Rattle.std.specs.Prelude.{◌≡◌, ◌&&◌, Some};
ghost use Rattle.tree_model.specs.Fragments.{is_text_fragment, plain};
ghost use Rattle.tree_model.specs.NodeKinds.{is_text_record};
ghost use Rattle.tree_model.specs.StoredTree.{is_document_record, is_element_record};

use tree_model::{Fragment, Record};

/// Whether a node's record is a document's, which has no parent and no neighbours.
pub fn is_document(node: &Record) -> bool
    ensures { result ≡ is_document_record (Some node.now) }
{
    matches!(node, Record::Document)
}

/// Whether a node's record is an element's.
pub fn is_element(node: &Record) -> bool
    ensures { result ≡ is_element_record (Some node.now) }
{
    matches!(node, Record::Element(_))
}

/// Whether a node's record is a text's, which has no children.
pub fn is_text(node: &Record) -> bool
    ensures { result ≡ is_text_record (Some node.now) }
{
    matches!(node, Record::Text(_))
}

/// Whether the fragment is a text and the node a document, which takes an element alone.
pub fn is_text_in_document(node: &Record, fragment: &Fragment) -> bool
    ensures { result ≡ (is_document_record (Some node.now) && is_text_fragment (plain fragment.now)) }
{
    is_document(node) && fragment.is_text()
}
