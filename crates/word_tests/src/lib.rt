//! Words of command lines: what they ask for, which of them are refused, and what is told apart of words with options.
#![tactic(auto)]

#[cfg(test)]
mod words;
