//! Files byte by byte, as docs/FILE_FORMAT.md has them, and journals and stores that are stopped, that fail and that are damaged.
#![tactic(auto)]

#[cfg(test)]
mod batches;
#[cfg(test)]
mod commits;
#[cfg(test)]
mod openings;
#[cfg(test)]
mod records;
