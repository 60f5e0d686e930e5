//! Runs of the whole program over page files: commands, scripts of paths, damage, failing calls, and checkpoints.
//! Each expected value is from docs/MANUAL.md, "Replies" and "Statuses", docs/PROFILE.md or docs/FILE_FORMAT.md.
#![tactic(auto)]

#[cfg(test)]
mod call_faults;
#[cfg(test)]
mod checkpoints;
#[cfg(test)]
mod page_faults;
#[cfg(test)]
mod paged_paths;
#[cfg(test)]
mod paged_stores;
