//! What words tell: a command, and the options that every command takes.
use crate::command::Command;

/// What the words after the program's name ask for.
#[derive(Clone, Copy, Debug)]
pub struct Words<'a> {
    pub command: Command<'a>,
    /// The most pages of the page file that are kept in memory, of 8,192 bytes each: from 1 to 65,536.
    pub frames: u32,
    /// A checkpoint is made behind each so many commits, at most 1,000,000; 0 for none.
    pub checkpoint: u32,
}
