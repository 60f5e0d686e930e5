//! The reading calls of DOM on any map of keys and records that stands for a tree.
//! Where the map is known and a valid tree's, each reply is exactly the definition's on that tree; known or not, the map is unchanged, and a fault comes only where its count rose.
//! A step from a node to a node is a read from a seek key, and a subtree is read entry by entry: no call walks over what its answer doesn't need, and each says how many reads it makes at most.
#![tactic(auto)]

mod attributes;
mod below;
mod documents;
mod fragment_builder;
mod kinds;
mod navigation;
mod reading;
mod refusals;
mod steps;
mod subtree_walk;
mod subtrees;
mod text_cuts;
mod texts;

pub use attributes::{all_attributes, attr, attrs, has_attr};
pub use below::{first_below, last_below};
pub use documents::{doc, docs};
pub use fragment_builder::fragment;
pub use kinds::{is_document, is_element, is_text, is_text_in_document};
pub use navigation::{children, first, last, next, node, parent, prev};
pub use reading::{dom_read, is_reading};
pub use refusals::{index_size, not_found, not_supported};
pub use steps::{attribute_at, first_child, last_child, next_sibling, previous_sibling, record_at};
pub use subtree_walk::{SubtreeWalk, subtree};
pub use subtrees::{dump, tags, text_content};
pub use text_cuts::cut;
pub use texts::{length, substring};
