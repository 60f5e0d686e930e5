//! Lines that aren't blank.

use command_lines::{Command, LineReply};

/// A line that isn't blank.
#[derive(Debug, Drop)]
pub enum Entry {
    Asked(Command),
    /// No command, with its reply, which has the line's number from 1.
    Bad(LineReply),
}
