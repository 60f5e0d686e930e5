//! The kinds of the outside: sources, sinks and disks in memory, and over the real streams and files.
//! Those in memory fail exactly at the calls of a list, but for running out of memory, and all their bytes are known; `MemDisk::stop_images` gives images of a crash in any of its calls, each of them an image by the definition.
//! Those over real things count what failed, and their bytes aren't known; that a real stream or file does what it is asked is left to the system.
#![tactic(auto)]

mod bounded;
mod call_counter;
mod file_disk;
mod mem_disk;
mod mem_sink;
mod mem_source;
mod no_gate;
mod noted_call;
mod stop_images;
mod streams;
mod sure_source;

pub use bounded::{Bounded, INPUT_LIMIT};
pub use file_disk::FileDisk;
pub use mem_disk::MemDisk;
pub use mem_sink::MemSink;
pub use mem_source::MemSource;
pub use no_gate::NoGate;
pub use streams::{StdSink, StdSource};
pub use sure_source::SureSource;
