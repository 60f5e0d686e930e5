//! The entries of a book: what may happen in a session, and what it is answered.
ghost use Rattle.std.specs.Prelude.{◌≡◌, IfOk};

use dewey_labels::{Copied, List, NoMemory};
use lock_modes::Ask;
use lock_resources::Resource;
use std::alloc::Global;
use tree_model::Reply;

/// What an attempt of a call is answered.
#[derive(Debug, Drop)]
pub enum Answer {
    /// The call was made.
    Answered(Reply),
    /// The transaction waits with this mode at this resource, where these sessions, ascending, hold modes that don't go together with it.
    Waits {
        resource: Resource,
        asks: Ask,
        holders: List<u32>,
    },
    /// Waiting would have closed this cycle of sessions: the first is the caller, each would wait for the next, and the last for the first.
    /// The caller's transaction is ended.
    Deadlock {
        cycle: List<u32>,
    },
}

/// What may happen in a session.
#[derive(Debug, Drop)]
pub enum Event<C> {
    Begin,
    /// A call is attempted.
    Call(C),
    /// The call that waits is attempted again.
    Retry,
    /// An attempt failed by running out of memory or by a fault, and its transaction then waits for nothing.
    Fail {
        /// The call; none where it was a retry.
        call: Option<C>,
        /// The number of the call's requests that were granted before.
        grants: u32,
        /// The count of faults after a fault; none after running out of memory.
        faults: Option<u64>,
    },
    Commit,
    Abort,
}

/// What an event was answered.
#[derive(Debug, Drop)]
pub enum EventAnswer {
    /// An abort, or a failed attempt.
    Nothing,
    /// The ordinal of a begun transaction, or the number of a commit.
    Number(u32),
    /// An attempt's answer.
    Call(Answer),
}

/// An entry of a book: an event of a session, and its answer.
#[derive(Debug, Drop)]
pub struct Noted<C> {
    pub session: u32,
    pub event: Event<C>,
    pub answer: EventAnswer,
}

impl Answer {
    pub fn copy(&self, alloc: Global) -> Result<Answer, NoMemory>
        ensures { IfOk result (λ copy. copy ≡ self.now) }
    {
        match self {
            Answer::Answered(reply) => Ok(Answer::Answered(reply.copy(alloc)?)),
            Answer::Waits {
                resource,
                asks,
                holders,
            } => Ok(Answer::Waits {
                resource: resource.copy(alloc)?,
                asks: *asks,
                holders: copied(alloc, holders)?,
            }),
            Answer::Deadlock { cycle } => Ok(Answer::Deadlock {
                cycle: copied(alloc, cycle)?,
            }),
        }
    }
}

impl Copied for Answer {
    fn copy(&self, alloc: Global) -> Result<Answer, NoMemory> {
        Answer::copy(self, alloc)
    }
}

impl EventAnswer {
    pub fn copy(&self, alloc: Global) -> Result<EventAnswer, NoMemory>
        ensures { IfOk result (λ copy. copy ≡ self.now) }
    {
        match self {
            EventAnswer::Nothing => Ok(EventAnswer::Nothing),
            EventAnswer::Number(number) => Ok(EventAnswer::Number(*number)),
            EventAnswer::Call(answer) => Ok(EventAnswer::Call(answer.copy(alloc)?)),
        }
    }
}

impl Copied for EventAnswer {
    fn copy(&self, alloc: Global) -> Result<EventAnswer, NoMemory> {
        EventAnswer::copy(self, alloc)
    }
}

/// A list of sessions once more.
fn copied(alloc: Global, sessions: &List<u32>) -> Result<List<u32>, NoMemory>
    ensures { IfOk result (λ copy. copy ≡ sessions.now) }
{
    Ok(List::from_vec(Vec::from_slice(alloc, sessions.as_slice())?))
}
