//! One worker for each session of a script: `run_workers`.
//! Each line has its own reply, in the order of the lines (`replies`): each session's port did that session's lines, all of them or as far as the one that met a fault (`ports`).
//! What a port does, and when a transaction that waits goes on, is left to the port; nothing is said of the order in which lines of different sessions are done.
#![tactic(auto)]

mod merge;
mod port;
mod run;
mod seats;
mod worker;

pub use port::{PortFault, SessionPort};
pub use run::{Worked, run_workers};
pub use seats::have_one_port;
