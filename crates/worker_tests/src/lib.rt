//! Tests of workers, over ports that count their lines: whole scripts, faults, and gates that show that workers run beside each other; and of scripts that are read whole.
#![tactic(auto)]

mod counting;
mod gates;

pub use counting::CountingPort;
pub use gates::{InTurn, Rounds};

#[cfg(test)]
mod scripts;
#[cfg(test)]
mod tests;
