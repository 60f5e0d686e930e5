//! The rules of a tree, tested record by record in the order of their keys: whether they are a tree's, or the place of the first that breaks
//! a rule. The records themselves aren't kept.
#![tactic(auto)]

mod catalogue;
mod path;
mod records;
mod tester;

pub use tester::Tester;
