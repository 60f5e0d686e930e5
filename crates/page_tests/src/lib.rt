//! Pages across crates: maps that are cut into pages, as docs/FILE_FORMAT.md has them.
#![tactic(auto)]

#[cfg(test)]
mod cuts;
