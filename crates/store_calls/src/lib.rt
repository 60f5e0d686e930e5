//! The calls on the store's tree as the lock machine takes them: each with its requests, its reply and its changes, over any map that stands for the tree.
//! DOM calls and finds keep the laws of calls, so every legal book of them is serial.
#![tactic(auto)]

mod laws;
mod line_call;
mod parts;
mod store_op;

pub use laws::{requests_are_rows, serial_runs_are_plain};
pub use store_op::StoreOp;
