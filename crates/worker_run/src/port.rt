//! The sessions of workers.
ghost use Rattle.std.specs.Prelude.{◌≡◌, ◌++◌, [], List, None};
ghost use Rattle.command_lines.specs.ValidCommands.{IsValidCommand};
ghost use Rattle.worker_run.specs.Ports.{Ended, Exchange, LineDone, Ports};

use command_lines::{Command, LineReply};
use std::alloc::Global;
use std::sync::Wait;

/// Why a port does no more lines.
#[derive(Clone, Copy, Debug, Drop, PartialEq, Eq)]
pub enum PortFault {
    DiskFault,
    /// An earlier call of the journal failed; `faults` is the journal's count at that failure.
    Halted { faults: u64 },
    NoMemory,
}

/// A session as a worker uses it.
///
/// `ports` says of a port its session, the fault that it tells and whether its transaction is live, and what it has done from one state to another.
pub trait SessionPort {
    ghost ports: { Ports Self };

    /// Does a line of its session, or meets a fault and tells it from then on. It may wait for other sessions.
    fn line<R: Wait>(
        &mut self,
        rt: &R,
        alloc: Global,
        command: &Command,
    ) -> Result<LineReply, PortFault>
        requires session { command.now.session ≡ (ports.told self.old).session }
        requires usable { (ports.told self.old).fault ≡ None }
        requires valid { IsValidCommand command.now }
        ensures { LineDone ports self.old command.now self.new result };

    /// The number of its session.
    fn session(&self) -> u32
        ensures { result ≡ (ports.told self.now).session };

    /// The fault that a line has met.
    fn fault(&self) -> Option<PortFault>
        ensures { result ≡ (ports.told self.now).fault };

    /// Aborts a live transaction. It takes no memory, and may wait for other sessions.
    fn end<R: Wait>(&mut self, rt: &R)
        ensures { Ended ports self.old self.new };

    ghost did_nothing: { (p : Self) → ports.did p [] p };

    ghost did_on: { (p q r : Self) (xs ys : List Exchange) → ports.did p xs q → ports.did q ys r → ports.did p (xs ++ ys) r };
}
