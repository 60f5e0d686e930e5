//! Evaluation of location paths over any map of keys and records: from a node, by its label, to the node set that the path means.
//! On every valid tree the reply is that of `path_model`'s program for the path, with exactly its looks, in its order; known or not, the map is unchanged, and a fault comes only where its count rose.
//! What becomes of the looks, as requests of locks, is left to the crates above.
#![tactic(auto)]

mod context;
mod expressions;
mod find;
mod memo;
mod numbers;
mod one_walk;
mod operations;
mod order;
mod places;
mod sameness;
mod spot;
mod strings;
mod tests;
mod value;

pub use find::{answer_find, evaluate};
pub use value::XValue;
pub use xpath_axes::{Look, NoLooks, Notes};
