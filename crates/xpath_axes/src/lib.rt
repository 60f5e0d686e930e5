//! The looks by which paths are evaluated, over any map of keys and records, and the axes: which positions lie on one from a position, in its order.
//! Where the map is known and a valid tree's, each look sees exactly the positions that `path_model` defines for it, in document order, and an axis runs the program of `path_model` for it, with its looks; known or not, the map is unchanged, and a fault comes only where its count rose.
//! A look reads the map once for each position that it sees, and once more, whatever else lies there; where only the first children that pass a node test are wanted, those behind them aren't read, and of the siblings that follow a node none before it. What becomes of the looks is settled by a `Looks`; what a path does with the positions is left to the crates above.
#![tactic(auto)]

mod attributes;
mod axes;
mod labels;
mod look;
mod looks;
mod nodes;
mod noted;
mod position;
mod wholes;

pub use attributes::{at_attribute, at_attributes};
pub use axes::{axis, axis_up_to, put_behind};
pub use labels::document_label;
pub use look::Look;
pub use looks::{Looks, NoLooks, Notes};
pub use nodes::{at_node, at_row, at_row_behind, at_row_behind_up_to, at_row_up_to, at_tree};
pub use noted::{see_node, see_row, see_tree};
pub use position::Position;
pub use wholes::{keep_if, row_ahead};
