//! The outside as traits: where bytes come from and where they go, each with its count of faults, and what is done round the lines of workers.
//! A call answers `Failed` only where the count of the object that it was called on rose (clause `cause`), so a body over these traits can't give up by itself.
//! What stands behind a trait, a file, a stream or a list in memory, is left to the crate that implements it.
#![tactic(auto)]

mod crash_laws;
mod disk;
mod failed;
mod gate;
mod sink;
mod source;
mod writing;

pub use crash_laws::{
    any_bytes_and_any_length_of_what_is_open, image_of_a_prefix,
    images_since_are_those_of_a_moment, no_other_image_inside_an_open_range,
    one_image_after_a_sync,
};
pub use disk::Disk;
pub use failed::Failed;
pub use gate::Gate;
pub use sink::Sink;
pub use source::Source;
pub use writing::write_all;
