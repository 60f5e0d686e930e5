//! What each call asks for, step by step: requests with their intentions, and the tests at which the call is answered early.
//! A call that is answered early asks for no more, and what it is answered there is what the call's definition says (`steps_end_as_the_call_does`).
//! `dom_requests` makes these requests over any map that stands for a tree, and hands on the reply of a call that leads from node to node. That they cover what a call sees and changes is proved in crates above.
#![tactic(auto)]

mod all_calls;
mod attributes;
mod documents;
mod gaps;
mod laws;
mod navigation;
mod placing;
mod plan;
mod seen_nodes;
mod subtrees;
mod texts;

pub use all_calls::dom_requests;
pub use laws::steps_end_as_the_call_does;
