// What a script line asks for: nothing, something of a session, or it is bad.
ghost use Rattle.std.specs.Prelude.{◌≡◌, IfOk};
ghost use Rattle.command_lines.specs.ValidCommands.{IsValidWhat};
ghost use Rattle.session_driver.specs.Lines.{IsValidDoing};
ghost use Rattle.store_calls.specs.StoreCalls.{IsValidStoreCall};
ghost use Rattle.xtc.specs.Book.{IsValidLine};
ghost use Rattle.xtc.specs.ReadLines.{line_in};
ghost use Rattle.xtc.specs.ScriptLine.{doing_of, line_of};

use command_lines::{BadLine, Command, What};
use dewey_labels::{NoMemory, Text};
use session_driver::Doing;
use std::alloc::Global;
use store_calls::StoreOp;

/// A line of a script that was read.
#[derive(Debug, Drop)]
pub enum ReadLine {
    /// Spaces, tabs and CR alone: nothing is answered.
    Nothing,
    /// No command: why.
    Bad(Text),
    /// A session, from 1 to 64, and what it is to do.
    Asked(u32, Doing<StoreOp>),
}

/// Reads a line, given without its end.
#[tactic(auto, unfolding(crate::specs::ScriptLine::line_of))]
pub fn read_line(alloc: Global, line: &[u8]) -> Result<ReadLine, NoMemory>
    ensures line { IfOk result (λ read. line_in read ≡ line_of line.now) }
    ensures valid { IfOk result (λ read. IsValidLine (line_in read)) }
{
    match command_lines::read_line(alloc, line) {
        Ok(None) => Ok(ReadLine::Nothing),
        Ok(Some(Command { session, what })) => Ok(ReadLine::Asked(session, doing_of(what))),
        Err(BadLine::Why(why)) => Ok(ReadLine::Bad(why)),
        Err(BadLine::NoMemory) => Err(NoMemory),
    }
}

/// What a command asks a session to do.
fn doing_of(what: What) -> Doing<StoreOp>
    requires { IsValidWhat what }
    ensures doing { result ≡ doing_of what }
    ensures valid { IsValidDoing IsValidStoreCall result }
{
    match what {
        What::Begin => Doing::Begin,
        What::Commit => Doing::Commit,
        What::Abort => Doing::Abort,
        What::Call(call) => {
            let call = StoreOp::new(call);
            // It tells that the call is valid.
            let _call = call.call();
            Doing::Call(call)
        }
    }
}
