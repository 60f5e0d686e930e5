//! Sources, sinks and disks, in memory and real: which calls fail, what they give and keep, and what a crash leaves of a disk in memory.
#![tactic(auto)]

#[cfg(test)]
mod kinds;
#[cfg(test)]
mod opened_files;
#[cfg(test)]
mod streams;
#[cfg(test)]
mod writing;
