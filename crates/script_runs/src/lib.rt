//! Scripts, line by line: the loop that reads a source's lines, has a machine do them, and writes to a sink what they are answered.
//! `run` says for any machine what was done, written and left on the disks at each end (`Ran`), that no answer waits for a read, and which count rose.
//! `gather` and `say` serve the commands that aren't done line by line.
//! What a line means, and what the two files of a store hold, is the machine's own (`LineMachine`).
#![tactic(auto)]

mod feeding;
mod halt;
mod machine;
mod running;
mod whole;

pub use halt::Halt;
pub use machine::LineMachine;
pub use running::{End, Finish, run};
pub use whole::{GatherError, gather, say};
