//! Checkpoints over disks in memory: their bytes, as docs/FILE_FORMAT.md has them, failing calls and stops at each call of both disks, and damaged images.
#![tactic(auto)]

#[cfg(test)]
mod costs;
#[cfg(test)]
mod damage;
#[cfg(test)]
mod files;
#[cfg(test)]
mod stops;
#[cfg(test)]
mod stores;
