//! Opening a store over its pages: the map that they hold is read through a pool of so many of them, and the commits of its journal are
//! laid over it as one layer. `open_store` finds exactly what the two files stand for, `contents_of_files` of store_contents: base and layers
//! make a tree's map, or a rule is broken at a place; and a crash at any moment of it leaves files that stand for what they stood for
//! (clause `any_moment`). A checkpoint that a crash broke off is finished first.
#![tactic(auto)]

mod behind;
mod counting;
mod damage;
mod fault;
mod finishing;
mod gathering;
mod holding;
mod look;
mod merging;
mod netting;
mod once;
mod opening;
mod over;
mod page_zero;
mod runs;
mod syncing;
mod walking;

pub use fault::StoreFault;
pub use opening::{Opened, open_store};
