//! The words after the program's name: `read_words` tells which command they ask for, how many pages it may keep in memory, and how often it is to make a checkpoint.
//! They are read exactly by their grammar (`words_of`), both ways: command and options are the grammar's, and they are refused only where the grammar has none.
//! `clap` tells options from plain words, which `read_arguments` says for any list of options; words that aren't UTF-8 don't come here.
#![tactic(auto)]

mod arguments;
mod command;
mod commands;
mod numbers;
mod words;
mod words_error;

pub use arguments::{Arguments, read_arguments};
pub use command::Command;
pub use commands::read_words;
pub use words::Words;
pub use words_error::WordsError;
