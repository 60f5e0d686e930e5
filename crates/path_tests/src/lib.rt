//! Texts of paths and values of their expressions, as tables.
#![tactic(auto)]

#[cfg(test)]
mod refusals;
#[cfg(test)]
mod values;
