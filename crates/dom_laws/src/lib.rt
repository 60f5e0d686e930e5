//! The laws of DOM calls (`dom_calls_keep_the_laws`): the form of their requests, and what makes it right to make a transaction again on another tree.
//! Two trees that agree on what a call asked for are followed step by step: the call asks for the same, is answered the same, and changes the same
//! cells, which it covered. What the calls do stands in tree_model, what they ask for in lock_plans, and how they change a tree in tree_changes.
#![tactic(auto)]

mod laws;

pub use laws::{dom_calls_keep_the_laws, dom_calls_meet_the_contract};
