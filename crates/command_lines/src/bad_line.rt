//! Why a line is no command.
ghost use Rattle.std.specs.Prelude.{◌≡◌, ◌≢◌, IfOk};

use dewey_labels::{Copied, NoMemory, Text};
use std::alloc::Global;

/// A line that is neither blank nor a command.
#[derive(Debug, Drop)]
pub enum BadLine {
    /// The first reason that holds, as the reply shows it.
    Why(Text),
    NoMemory,
}

impl From<NoMemory> for BadLine {
    ghost use Rattle.command_lines.specs.declared.bad_line.BadLine.TheVariants.{NoMemory};

    ghost from_gives = { λ _ error. error ≡ NoMemory };

    fn from(_error: NoMemory) -> BadLine {
        BadLine::NoMemory
    }
}

impl BadLine {
    /// The line is bad for this reason.
    pub(crate) fn of(alloc: Global, why: &str) -> BadLine
        ensures { result ≢ BadLine.NoMemory → result ≡ BadLine.Why why.now }
    {
        match Text::of(alloc, why) {
            Ok(why) => BadLine::Why(why),
            Err(NoMemory) => BadLine::NoMemory,
        }
    }
}

impl BadLine {
    pub fn copy(&self, alloc: Global) -> Result<BadLine, NoMemory>
        ensures { IfOk result (λ copy. copy ≡ self.now) }
    {
        match self {
            BadLine::Why(why) => Ok(BadLine::Why(why.copy(alloc)?)),
            BadLine::NoMemory => Ok(BadLine::NoMemory),
        }
    }
}

impl Copied for BadLine {
    fn copy(&self, alloc: Global) -> Result<BadLine, NoMemory> {
        BadLine::copy(self, alloc)
    }
}
