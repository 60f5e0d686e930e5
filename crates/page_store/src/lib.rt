//! Pages of a file, of which a bounded number is kept in memory.
//! A page that is answered is the file's, whichever are kept (`page` of `frame`, `value` of `read_page`), and one that is kept costs no call of the disk (`kept_suffices`).
//! The others stay, but where one is read and all frames are in use: then the one that was asked least recently goes (`after`), and its frame is used again (`used_again` of `spare`).
//! The file isn't written between two reads without `forget`; what the pages hold is left to the crates above.
//! Images of pages are written in place: meanwhile a crash leaves each page of which there is no image, whole (`any_moment` of `install`); once they are synced the file has them (`pages`).
//! Where images come from is left to the crates above, too: who makes a checkpoint writes them, and who opens a store after a crash in its midst.
#![tactic(auto)]

mod frame;
mod page_error;
mod pool;
mod writing;

pub use frame::{Frame, PAGE_BYTES};
pub use page_error::PageError;
pub use pool::Pool;
pub use writing::install;
