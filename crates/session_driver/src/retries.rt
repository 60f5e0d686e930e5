//! The retries of the calls that wait, after a transaction has ended.

ghost use Rattle.std.specs.Prelude.{◌≡◌, ◌≢◌, ◌≤◌, ◌<◌, [], length, Err, IfOk, OnErr, IsTrue, false};
ghost use Rattle.outside_traits.specs.Faults.{HasCause};
ghost use Rattle.call_contract.specs.Sessions.{queue_after};
ghost use Rattle.tx_core.specs.Cores.{InState};
ghost use Rattle.tx_core.specs.Queues.{times};
ghost use Rattle.tx_core.specs.declared.errors.SessionError.{SessionError};
ghost use Rattle.tx_core.specs.declared.errors.CallError.TheVariants as call_error;
ghost use Rattle.session_driver.specs.Driving.{HasGrown, HasDone, HasBegun};
ghost use Rattle.session_driver.specs.Retries.{retries};
ghost use Rattle.session_driver.specs.inside.Steps.{HasFailed, LeavesRetry, KeepsQueue, LeavesRound, BeginsRound};

use crate::replies::say;
use call_contract::{Answer, TreeCall};
use command_lines::{LineAnswer, LineReply};
use node_seq::NodeRead;
use std::alloc::Global;
use tx_core::{CallError, Core};

/// Attempts the calls that wait again, in the order in which their sessions began to; after a deadlock again from the first.
pub(crate) fn retry_all<C: TreeCall + Drop, B: NodeRead + Drop>(
    alloc: Global,
    core: &mut Core<C, B>,
    out: &mut Vec<LineReply>,
) -> Result<(), CallError>
    ensures ok { IfOk result (λ _. InState C.meaning B.contents core.old
        (λ st. HasDone core.old core.new out.old.items out.new.items (retries C.meaning st))) }
    ensures err { OnErr result (InState C.meaning B.contents core.old
        (λ st. HasBegun core.old core.new out.old.items out.new.items (retries C.meaning st))) }
    ensures later { HasGrown core.old core.new out.old.items out.new.items }
    ensures session { (why : SessionError) → result ≢ Err (call_error.Session why) }
    ensures unchanged { B.unchanged core.old.base core.new.base }
    ensures cause { HasCause call_error.DiskFault (B.count core.old.base) (B.count core.new.base) result }
{
    core.is_legal();
    while retry_round(alloc, core, out)? {}
    Ok(())
}

/// Attempts the calls that wait again, up to the first deadlock, and answers whether one was met.
fn retry_round<C: TreeCall + Drop, B: NodeRead + Drop>(
    alloc: Global,
    core: &mut Core<C, B>,
    out: &mut Vec<LineReply>,
) -> Result<bool, CallError>
    ensures ok { IfOk result (λ ended. LeavesRound C.meaning B.contents core.old ended core.new out.old.items out.new.items) }
    ensures fewer { IfOk result (λ ended. IsTrue ended → length (queue_after [] core.new.book) < length (queue_after [] core.old.book)) }
    ensures err { OnErr result (BeginsRound C.meaning B.contents core.old core.new out.old.items out.new.items) }
    ensures later { HasGrown core.old core.new out.old.items out.new.items }
    ensures session { (why : SessionError) → result ≢ Err (call_error.Session why) }
    ensures unchanged { B.unchanged core.old.base core.new.base }
    ensures cause { HasCause call_error.DiskFault (B.count core.old.base) (B.count core.new.base) result }
{
    core.is_legal();
    let Ok(waiting) = Vec::from_slice(alloc, core.waiting()) else {
        return Err(CallError::NoMemory);
    };
    let mut rest = waiting.as_slice();
    while let [session, behind @ ..] = rest {
        if retry_one(alloc, core, *session, out)? {
            return Ok(true);
        }
        rest = behind;
    }
    Ok(false)
}

/// Attempts the call with which a session waits again, and answers whether it ended in a deadlock. One that waits again writes no line.
fn retry_one<C: TreeCall + Drop, B: NodeRead + Drop>(
    alloc: Global,
    core: &mut Core<C, B>,
    session: u32,
    out: &mut Vec<LineReply>,
) -> Result<bool, CallError>
    requires queued { 1 ≤ times session (queue_after [] core.old.book) }
    ensures ok { IfOk result (λ ended. LeavesRetry C.meaning B.contents core.old session ended core.new out.old.items out.new.items) }
    ensures queue { IfOk result (λ ended. KeepsQueue core.old.book session ended core.new.book) }
    ensures err { OnErr result (HasFailed core.old core.new × (out.new.items ≡ out.old.items)) }
    ensures later { HasGrown core.old core.new out.old.items out.new.items }
    ensures session { (why : SessionError) → result ≢ Err (call_error.Session why) }
    ensures unchanged { B.unchanged core.old.base core.new.base }
    ensures cause { HasCause call_error.DiskFault (B.count core.old.base) (B.count core.new.base) result }
{
    if out.reserve(1).is_err() {
        return Err(CallError::NoMemory);
    }
    core.is_legal();
    match core.retry(alloc, session)? {
        Answer::Waits { .. } => Ok(false),
        Answer::Answered(reply) => {
            say(out, session, true, LineAnswer::Reply(reply));
            Ok(false)
        }
        Answer::Deadlock { cycle } => {
            say(out, session, true, LineAnswer::Deadlock(cycle));
            Ok(true)
        }
    }
}
