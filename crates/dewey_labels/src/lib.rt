//! Labels: lists of divisions that tell a node's ancestors and its place in document order, and that stay as they are when other nodes come and go.
//! A `Label` is one of the table, within the limits, at every moment, and each call says exactly which list of divisions, or which text of one, it answers.
//! Which node has a label is left to the crates above, which also take their `Text` and `List` from here.
#![tactic(auto)]

mod bytes;
mod copied;
mod divisions;
mod label;
mod label_reader;
mod label_text;
mod laws;
mod list;
mod new_labels;
mod no_memory;
mod text;

pub use copied::Copied;
pub use divisions::Divisions;
pub use label::{GREATEST, Label, MOST_DIVISIONS};
pub use label_text::LabelTextError;
pub use laws::a_labels_text_is_read_again;
pub use list::List;
pub use new_labels::{
    FIRST_DIVISION, LabelError, child_after, child_before, child_beside, child_between, child_first,
};
pub use no_memory::NoMemory;
pub use text::Text;
