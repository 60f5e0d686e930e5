//! What the store keeps and is asked: keys and records, fragments, the DOM calls with their replies, and the changes that a call makes.
//! The definitions of this crate say what a tree is, which map of keys and records it stands for, and what each call does to it; `is_name` is exactly the Names of XML 1.0.
//! Reading and changing a map is left to the crates above.
#![tactic(auto)]

mod change;
mod dom_call;
mod fragment;
mod fragment_limits;
mod key;
mod laws;
mod laying;
mod limits;
mod names;
mod new_documents;
mod record;
mod refusal;
mod reply;
mod stored_tree;

pub use change::{Change, Changes};
pub use dom_call::DomCall;
pub use fragment::Fragment;
pub use key::Key;
pub use laws::{
    differences_lead_from_map_to_map, placed_fragments_are_read_again, rising_keys_pass_their_test,
    split_texts_are_texts,
};
pub use laying::lay;
pub use limits::{DEEPEST_LEVEL, MOST_NAME_BYTES, MOST_TEXT_BYTES};
pub use names::is_name;
pub use new_documents::{document_fits_at, is_text_document, is_too_deep_document};
pub use record::Record;
pub use refusal::Refusal;
pub use reply::{Hit, Reply};
pub use stored_tree::{trees_have_unbroken_maps, unbroken_maps_are_trees};
