//! The changing calls of DOM on any map of keys and records that stands for a tree.
//! Each call reads the map and gives its changes: one for each key whose record differs after it, by rising keys, and no other.
//! Where the map is known and a valid tree's, reply and changes are exactly the definition's on that tree.
//! Known or not, the map itself is unchanged, and a fault comes only where its count rose.
#![tactic(auto)]

mod attributes;
mod calls;
mod content;
mod data;
mod documents;
mod drops;
mod grafts;
mod merges;
mod normal_texts;
mod normalization;
mod places;
mod placing;
mod refusals;
mod removals;
mod splits;
mod subtree_entries;
mod written;

pub use attributes::{remove_attr, rename, set_attr};
pub use calls::dom_write;
pub use content::set_text;
pub use data::{append_data, delete_data, insert_data, replace_data, set_data};
pub use documents::create;
pub use drops::drop_document;
pub use normalization::normalize;
pub use placing::{append, insert};
pub use removals::{remove, replace};
pub use splits::split_text;
