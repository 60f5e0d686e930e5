//! Reads location paths: exactly the grammar of the profile, and of any other text the first token that no path goes on with.
//! `parse` is the definition's answer both ways, in time linear in the text; nothing recurses deeper than the limit on nested parts.
//! What a path means is `path_model`'s; evaluating it is left to the crates above.
#![tactic(auto)]

mod characters;
mod grammar;
mod laws;
mod lex;
mod literals;
mod names;
mod node_tests;
mod operators;
mod path_error;
mod reading;
mod refusal;
mod tokens;
mod words;

pub use laws::{
    parsed_paths_are_lawful, texts_of_paths_are_read_as_them, words_are_those_of_the_profile,
};
pub use path_error::PathError;
pub use path_model::{Axis, Expr, NodeTest, Op, Step, XPath};
pub use reading::parse;
