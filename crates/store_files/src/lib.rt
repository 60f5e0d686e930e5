//! The two files of a store in the working folder, as the program opens them: behind the streams, each a disk of its own kind, and one program at a time.
#![tactic(auto)]

mod store_file;
mod store_files;
mod streams;

pub use store_file::{JournalKind, PagesKind, StoreFile};
pub use store_files::StoreFiles;
pub use streams::Streams;
