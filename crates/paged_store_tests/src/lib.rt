//! Stores over the pages of a file, as their two files have them: opened, damaged and failing.
#![tactic(auto)]

#[cfg(test)]
mod stores;
