//! Tests of whole scripts that their workers do over a store in memory.
#![tactic(auto)]

#[cfg(test)]
mod tests;
