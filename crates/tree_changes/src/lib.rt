//! How each call changes a tree and its map: a valid call keeps a valid tree valid, and the changes of its map are those of the places that it changes.
//! One law leads from a change of one subtree to the changes of the whole map (`one_place_is_changed`), and each call's law follows from it.
//! All of it is laws about the definitions of tree_model; the code that makes the changes stands in crates above.
#![tactic(auto)]

mod laws;

pub use laws::{
    attribute_calls_change_one_key, changes_are_differences,
    content_calls_change_what_stands_below, data_calls_change_one_key,
    document_calls_change_one_document, one_place_is_changed, placing_calls_change_subtrees,
    valid_trees_stay_valid,
};
