//! Location paths and what they mean: their abstract syntax, and the definitions of axes, values and evaluation on a store's tree.
//! The positions at which the evaluation of a path ends, as a program of looks at a tree, are the set that the path means, in document order, for every path and every valid tree.
//! Reading the text of a path, and evaluating one over a map, is left to the crates above.
#![tactic(auto)]

mod copies;
mod laws;
mod path;

pub use laws::{
    expressions_are_evaluated_to_their_values, find_answers_a_set_or_not_found,
    five_axes_part_a_document, looks_show_what_axes_relate, paths_find_the_sets_that_they_mean,
    steps_lead_to_what_their_axes_relate,
};
pub use path::{Axis, CompareOp, Expr, NodeTest, Op, Step, XPath};
