//! The script of the command `gen`, line by line, and what is counted of its replies: `Script`, `Line`, `Summary`.
//! A script takes no memory, and is seen as the lines that it has still to give: at first all of the script that `script` defines. A line has exactly its text.
//! What the lines do to a store is left to the crates above.
#![tactic(auto)]

mod line;
mod place;
mod script;
mod summary;
mod text;

pub use line::{Line, Step};
pub use script::{MOST_BOOKS, Script};
pub use summary::Summary;
