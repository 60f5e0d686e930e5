//! Runs of the whole program over memory: what no clause of `xtc` says by itself, as its status, text and bytes for one script or store after the other.
//! Each expected value is from docs/MANUAL.md, "Replies" and "Statuses", docs/PROFILE.md or docs/FILE_FORMAT.md.
#![tactic(auto)]

#[cfg(test)]
mod documents;
#[cfg(test)]
mod generator;
#[cfg(test)]
mod paths;
#[cfg(test)]
mod real_files;
#[cfg(test)]
mod sessions;
#[cfg(test)]
mod tests;
#[cfg(test)]
mod workers;
