//! Lock resources: what a transaction asks a mode at, and the intentions that it owes above it.
//! `with_intentions` adds exactly the requests of the table, from the root down: the nodes that they name are the ancestors of the resource's label in order, each once, and then the label's own node.
//! Who holds what is left to the crates above.
#![tactic(auto)]

mod intentions;
mod request;
mod resource;

pub use intentions::with_intentions;
pub use request::Request;
pub use resource::{Resource, Side};
