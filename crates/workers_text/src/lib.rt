//! The text of a script that workers do: how the whole script is read before its first line is done, and what may be printed for it.
//! `read_script` reads its commands, and for each line that isn't blank where its reply stands. What was read is exactly what the bytes say (`entries_of`), and an input is too long exactly where a line or the whole passes its limit, by the first byte that does (`too_long`).
//! One book shows a text, with each session's lines among its entries (`WorkersText`, `IsShownBy`), and `order_line` is its last line.
//! Who does the commands, and what they are answered, is left to the caller.
#![tactic(auto)]

mod entry;
mod input;
mod laws;
mod order;
mod reading;
mod script;
mod script_error;
mod text_laws;

pub use entry::Entry;
pub use laws::{
    commands_have_sessions, what_is_not_too_long_keeps_the_limits, what_is_too_long_stays_so,
};
pub use order::order_line;
pub use reading::read_script;
pub use script::Script;
pub use script_error::ScriptError;
pub use text_laws::a_book_that_shows_a_text_makes_it_one_of_workers;
