//! Values of path expressions: whole numbers, strings, booleans and the string-values of node sets, with the arithmetic, the conversions, the comparisons and the functions on them.
//! Each call answers what `path_model` defines for it, at all values. Evaluating expressions is left to the crates above.
#![tactic(auto)]

mod characters;
mod comparisons;
mod numbers;
mod spaces;
mod strings;
mod values;

pub use characters::{string_length, substring_from, substring_within};
pub use comparisons::compare;
pub use numbers::{is_space, minus, number_of_text, plus, sum, text_of_number, times};
pub use path_model::CompareOp;
pub use spaces::normalize_space;
pub use strings::{concat, contains, starts_with, substring_after, substring_before};
pub use values::XStrings;
