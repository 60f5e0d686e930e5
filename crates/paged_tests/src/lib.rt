//! Maps over page files on disks in memory: opened, damaged, read with few frames and walked.
#![tactic(auto)]

#[cfg(test)]
mod costs;
#[cfg(test)]
mod damage;
#[cfg(test)]
mod files;
#[cfg(test)]
mod frames;
#[cfg(test)]
mod walks;
