//! Fragments, lines and replies as texts: what is read of each, which reason a refusal has, and how each answer is written.
#![tactic(auto)]

#[cfg(test)]
mod fragments;
#[cfg(test)]
mod lines;
