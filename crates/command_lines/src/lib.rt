//! The lines of a script as commands, and replies as lines.
//! A line is read as exactly the command that it asks for, or as blank, or is bad for the first reason that holds; a reply is written as exactly its text.
//! Which command is done, and what it answers, is left to the crates above; JSON to `serde_json`, fragments to `jsonml_io`.
#![tactic(auto)]

mod bad_line;
mod calls;
mod command;
mod crossing;
mod json_value;
mod key;
mod key_values;
mod line_reply;
mod reading;
mod reply_values;
mod resource_text;
mod taking;
mod words;
mod writing;

pub use bad_line::BadLine;
pub use calls::{
    AtCall, AtDataCall, AtNameCall, AtRangeCall, CALLS, DomWord, OfNameCall, Word,
    words_are_those_of_the_calls,
};
pub use command::{Command, StoreCall, What};
pub use crossing::crosses;
pub use key::Key;
pub use line_reply::{LineAnswer, LineReply, SessionRefusal};
pub use reading::read_line;
pub use writing::{write_answer, write_reply};
