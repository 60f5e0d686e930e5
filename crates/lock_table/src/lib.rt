//! The lock table: an owner holds, at each resource, the join of the modes that it was granted there.
//! `ask` grants exactly where no other owner holds an incompatible mode, and otherwise names all that do and changes nothing; `release_all` removes one owner alone and takes no memory.
//! Which modes a call needs, and who waits for whom, is left to the crates above.
#![tactic(auto)]

mod asks;
mod buckets;
mod group_modes;
mod laws;
mod owned;
mod rows;
mod table;

pub use laws::{
    joins_bar_as_their_parts, same_resources_are_equal, tables_hold_the_joins_of_grants,
};
pub use table::{Asked, LockTable};
