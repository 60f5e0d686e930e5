//! How a call ends that was tried until it needn't wait.
ghost use Rattle.std.specs.Prelude.{◌≡◌, ◌≢◌, None, Ok, IfOk};
ghost use Rattle.shared_store.specs.inside.Ends.{end_by, first_by, later_by};

use crate::errors::StoreError;
use call_contract::Answer;
use dewey_labels::{Copied, List, NoMemory};
use std::alloc::Global;
use tree_model::Reply;

/// How a call ended that was tried until it needn't wait.
#[derive(Debug, Drop)]
pub enum Ended {
    /// The call was made.
    Answered(Reply),
    /// Waiting would have closed this cycle of sessions. The transaction is ended.
    Deadlock { cycle: List<u32> },
}

impl Ended {
    pub fn copy(&self, alloc: Global) -> Result<Ended, NoMemory>
        ensures { IfOk result (λ copy. copy ≡ self.now) }
    {
        match self {
            Ended::Answered(reply) => Ok(Ended::Answered(reply.copy(alloc)?)),
            Ended::Deadlock { cycle } => Ok(Ended::Deadlock {
                cycle: List::from_vec(Vec::from_slice(alloc, cycle.as_slice())?),
            }),
        }
    }
}

impl Copied for Ended {
    fn copy(&self, alloc: Global) -> Result<Ended, NoMemory> {
        Ended::copy(self, alloc)
    }
}

/// The end that an answer is; none where the call has to wait.
fn end_of(answer: Answer) -> Option<Ended>
    ensures { result ≡ end_by answer }
{
    match answer {
        Answer::Answered(reply) => Some(Ended::Answered(reply)),
        Answer::Waits { .. } => None,
        Answer::Deadlock { cycle } => Some(Ended::Deadlock { cycle }),
    }
}

/// How the call ended at its first attempt; none where it has to wait.
pub fn first_end(tried: Result<Answer, StoreError>) -> Option<Result<Ended, StoreError>>
    ensures { result ≡ first_by tried }
{
    match tried {
        Ok(answer) => Some(Ok(end_of(answer)?)),
        Err(why) => Some(Err(why)),
    }
}

/// How a call that waited ended at a retry; none where it has to wait again.
pub fn later_end(tried: Result<Option<Answer>, StoreError>) -> Option<Result<Ended, StoreError>>
    requires { tried ≢ Ok None }
    ensures { result ≡ later_by tried }
{
    match tried {
        Ok(Some(answer)) => Some(Ok(end_of(answer)?)),
        Ok(None) => unreachable!(),
        Err(why) => Some(Err(why)),
    }
}
