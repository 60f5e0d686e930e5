//! A port that counts its lines.
ghost use Rattle.std.specs.Prelude.{◌≡◌, ◌+◌, length};

use command_lines::{Command, LineAnswer, LineReply};
use std::alloc::Global;
use std::sync::Wait;
use tree_model::Reply;
use worker_run::{PortFault, SessionPort};

/// A session that answers each line by its number, up to the line at which it meets a fault.
#[derive(Debug, Drop)]
pub struct CountingPort {
    pub session: u32,
    /// The lines that were done.
    pub lines: u32,
    /// Behind so many lines it meets this fault.
    pub stops: Option<(u32, PortFault)>,
    pub fault: Option<PortFault>,
    pub live: bool,
}

impl SessionPort for CountingPort {
    ghost use Rattle.worker_tests.specs.CountingPorts.{counted_nothing, counted_on, counting};

    ghost ports = { counting };

    fn line<R: Wait>(
        &mut self,
        _rt: &R,
        _alloc: Global,
        _command: &Command,
    ) -> Result<LineReply, PortFault> {
        self.live = true;
        if let Some((lines, fault)) = self.stops {
            if lines == self.lines {
                self.fault = Some(fault);
                return Err(fault);
            }
        }
        if self.lines == u32::MAX {
            self.fault = Some(PortFault::NoMemory);
            return Err(PortFault::NoMemory);
        }
        self.lines += 1;
        Ok(LineReply::Said {
            session: self.session,
            woke: false,
            answer: LineAnswer::Reply(Reply::Number(self.lines)),
        })
    }

    fn session(&self) -> u32 {
        self.session
    }

    fn fault(&self) -> Option<PortFault> {
        self.fault
    }

    fn end<R: Wait>(&mut self, _rt: &R) {
        self.live = false;
    }

    ghost did_nothing = { counted_nothing };

    ghost did_on = { counted_on };
}
