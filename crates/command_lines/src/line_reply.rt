//! What is answered to a line.
ghost use Rattle.std.specs.Prelude.{◌≡◌, IfOk};
ghost use Rattle.command_lines.specs.Replies.{session_refusal_name};

use dewey_labels::{Copied, List, NoMemory, Text};
use lock_modes::Ask;
use lock_resources::Resource;
use std::alloc::Global;
use tree_model::Reply;

/// A line of the output.
#[derive(Debug, Drop)]
pub enum LineReply {
    /// What a session is answered.
    Said {
        session: u32,
        /// The call had waited.
        woke: bool,
        answer: LineAnswer,
    },
    /// A line that is no command, by its number from 1.
    Bad {
        why: Text,
        line: u64,
    },
    /// The session and the ordinal of each commit, in the order of commits.
    Order(List<(u32, u32)>),
}

/// What a session is answered. The ordinal of a begin and the number of a commit are `Reply::Number`, and an abort's answer is `Reply::Nothing`.
#[derive(Debug, Drop)]
pub enum LineAnswer {
    Reply(Reply),
    Session(SessionRefusal),
    /// The call waits for what was asked at a resource, which these sessions hold.
    Wait {
        on: Resource,
        asks: Ask,
        by: List<u32>,
    },
    /// Waiting would have closed this cycle of sessions; the transaction is aborted.
    Deadlock(List<u32>),
}

/// Why a session is refused a line. Nothing is changed.
#[derive(Debug, Drop, Clone, Copy, PartialEq, Eq)]
pub enum SessionRefusal {
    IsWaiting,
    InTransaction,
    NoTransaction,
    TxLimit,
    CommitLimit,
}

impl SessionRefusal {
    /// The refusal's name, as replies have it.
    pub fn name(self) -> &'static str
        ensures { result.now ≡ session_refusal_name self }
    {
        match self {
            SessionRefusal::IsWaiting => "IsWaiting",
            SessionRefusal::InTransaction => "InTransaction",
            SessionRefusal::NoTransaction => "NoTransaction",
            SessionRefusal::TxLimit => "TxLimit",
            SessionRefusal::CommitLimit => "CommitLimit",
        }
    }
}

impl LineReply {
    pub fn copy(&self, alloc: Global) -> Result<LineReply, NoMemory>
        ensures { IfOk result (λ copy. copy ≡ self.now) }
    {
        match self {
            LineReply::Said {
                session,
                woke,
                answer,
            } => Ok(LineReply::Said {
                session: *session,
                woke: *woke,
                answer: answer.copy(alloc)?,
            }),
            LineReply::Bad { why, line } => Ok(LineReply::Bad {
                why: why.copy(alloc)?,
                line: *line,
            }),
            LineReply::Order(commits) => Ok(LineReply::Order(copied(alloc, commits)?)),
        }
    }
}

impl Copied for LineReply {
    fn copy(&self, alloc: Global) -> Result<LineReply, NoMemory> {
        LineReply::copy(self, alloc)
    }
}

impl LineAnswer {
    pub fn copy(&self, alloc: Global) -> Result<LineAnswer, NoMemory>
        ensures { IfOk result (λ copy. copy ≡ self.now) }
    {
        match self {
            LineAnswer::Reply(reply) => Ok(LineAnswer::Reply(reply.copy(alloc)?)),
            LineAnswer::Session(why) => Ok(LineAnswer::Session(*why)),
            LineAnswer::Wait { on, asks, by } => Ok(LineAnswer::Wait {
                on: on.copy(alloc)?,
                asks: *asks,
                by: copied(alloc, by)?,
            }),
            LineAnswer::Deadlock(cycle) => Ok(LineAnswer::Deadlock(copied(alloc, cycle)?)),
        }
    }
}

impl Copied for LineAnswer {
    fn copy(&self, alloc: Global) -> Result<LineAnswer, NoMemory> {
        LineAnswer::copy(self, alloc)
    }
}

/// A list of plain items once more.
fn copied<T: Copy + Drop>(alloc: Global, items: &List<T>) -> Result<List<T>, NoMemory>
    ensures { IfOk result (λ copy. copy ≡ items.now) }
{
    Ok(List::from_vec(Vec::from_slice(alloc, items.as_slice())?))
}
