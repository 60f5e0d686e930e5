//! What a line does over a core: its call, the line that is written, and the retries where it ended a transaction.

ghost use Rattle.std.specs.Prelude.{◌≡◌, ◌≢◌, ◌<◌, length, vec_capacity, None, Some, Err, IfOk, IfErr, IfSome, OnErr};
ghost use Rattle.outside_traits.specs.Faults.{HasCause};
ghost use Rattle.tx_core.specs.Commits.{IsPrepared};
ghost use Rattle.tx_core.specs.declared.commits.Prepared.{Prepared};
ghost use Rattle.tx_core.specs.declared.errors.SessionError.{SessionError};
ghost use Rattle.tx_core.specs.declared.errors.CallError.TheVariants as call_error;
ghost use Rattle.session_driver.specs.Driving.{IfRefused, SaysWhy, HasGrown, HasMadeCommit, DrivesLine, BeginsLine, DoesUnrefused, BeginsUnrefused, IsReadyToCommit, MayFinishCommit};
ghost use Rattle.session_driver.specs.Lines.{asking};
ghost use Rattle.session_driver.specs.declared.doing.Doing.TheVariants as asked;
ghost use Rattle.session_driver.specs.inside.Steps.{DoesLine};

use crate::doing::Doing;
use crate::replies::{refuse, say};
use crate::retries::retry_all;
use call_contract::{Answer, TreeCall};
use command_lines::{LineAnswer, LineReply};
use node_seq::NodeRead;
use std::alloc::Global;
use tree_model::Reply;
use tx_core::{CallError, Core, Prepared};

/// Does a line. Of a commit that isn't refused it answers what is to be made durable before `finish_commit`, and makes room for its line.
/// After an error a first part of what the line was to do is done.
pub fn drive<C: TreeCall + Drop, B: NodeRead + Drop>(
    alloc: Global,
    core: &mut Core<C, B>,
    session: u32,
    doing: Doing<C>,
    out: &mut Vec<LineReply>,
) -> Result<Option<Prepared>, CallError>
    ensures line { IfOk result (λ p. DrivesLine C.meaning B.contents (asking session doing)
        core.old core.new out.old.items out.new.items p) }
    ensures ready { IfOk result (λ p. IfSome p (IsReadyToCommit core.old core.new session doing out.old.items out.new.items (vec_capacity out.new))) }
    ensures begun { OnErr result (BeginsLine C.meaning B.contents (asking session doing)
        core.old core.new out.old.items out.new.items) }
    ensures later { HasGrown core.old core.new out.old.items out.new.items }
    ensures refused { IfRefused core.old session doing result (λ w p.
        (p ≡ None) × (core.new ≡ core.old) × SaysWhy session w out.old.items out.new.items) }
    ensures session { (why : SessionError) → result ≢ Err (call_error.Session why) }
    ensures unchanged { B.unchanged core.old.base core.new.base }
    ensures cause { HasCause call_error.DiskFault (B.count core.old.base) (B.count core.new.base) result }
{
    if out.reserve(1).is_err() {
        return Err(CallError::NoMemory);
    }
    match doing {
        Doing::Begin => begin(alloc, core, session, out)?,
        Doing::Commit => return prepare(alloc, core, session, out),
        Doing::Abort => abort(alloc, core, session, out)?,
        Doing::Call(call) => attempt(alloc, core, session, call, out)?,
    }
    Ok(None)
}

/// Makes a commit that `drive` has answered, writes its line, and retries the calls that wait. The commit and its line stand, whatever a retry answers.
pub fn finish_commit<C: TreeCall + Drop, B: NodeRead + Drop>(
    alloc: Global,
    core: &mut Core<C, B>,
    session: u32,
    prepared: Prepared,
    out: &mut Vec<LineReply>,
) -> Result<(), CallError>
    requires may_finish { MayFinishCommit core.old session prepared out.old.items (vec_capacity out.old) }
    ensures line { IfOk result (λ _. DoesUnrefused C.meaning B.contents
        (asking session asked.Commit) core.old core.new out.old.items out.new.items) }
    ensures begun { OnErr result (BeginsUnrefused C.meaning B.contents
        (asking session asked.Commit) core.old core.new out.old.items out.new.items) }
    ensures made { HasMadeCommit session core.old core.new out.old.items out.new.items }
    ensures session { (why : SessionError) → result ≢ Err (call_error.Session why) }
    ensures unchanged { B.unchanged core.old.base core.new.base }
    ensures cause { HasCause call_error.DiskFault (B.count core.old.base) (B.count core.new.base) result }
{
    let number = core.commit(session, prepared);
    // The caller has made it durable.
    core.drain(alloc);
    core.is_legal();
    say(
        out,
        session,
        false,
        LineAnswer::Reply(Reply::Number(number)),
    );
    retry_all(alloc, core, out)
}

/// Begins a transaction.
fn begin<C: TreeCall + Drop, B: NodeRead + Drop>(
    alloc: Global,
    core: &mut Core<C, B>,
    session: u32,
    out: &mut Vec<LineReply>,
) -> Result<(), CallError>
    requires room { length out.old.items < vec_capacity out.old }
    ensures line { IfOk result (λ _. DoesLine C.meaning B.contents (asking session asked.Begin)
        core.old core.new out.old.items out.new.items) }
    ensures begun { OnErr result (BeginsLine C.meaning B.contents (asking session asked.Begin)
        core.old core.new out.old.items out.new.items) }
    ensures later { HasGrown core.old core.new out.old.items out.new.items }
    ensures refused { IfRefused core.old session asked.Begin result (λ why _.
        (core.new ≡ core.old) × SaysWhy session why out.old.items out.new.items) }
    ensures session { (why : SessionError) → result ≢ Err (call_error.Session why) }
    ensures unchanged { B.unchanged core.old.base core.new.base }
    ensures cause { HasCause call_error.DiskFault (B.count core.old.base) (B.count core.new.base) result }
{
    let begun = core.begin(alloc, session);
    core.is_legal();
    match begun {
        Ok(ordinal) => {
            say(
                out,
                session,
                false,
                LineAnswer::Reply(Reply::Number(ordinal)),
            );
            Ok(())
        }
        Err(error) => refuse(out, session, error),
    }
}

/// Ends a transaction, and retries the calls that wait.
fn abort<C: TreeCall + Drop, B: NodeRead + Drop>(
    alloc: Global,
    core: &mut Core<C, B>,
    session: u32,
    out: &mut Vec<LineReply>,
) -> Result<(), CallError>
    requires room { length out.old.items < vec_capacity out.old }
    ensures line { IfOk result (λ _. DoesLine C.meaning B.contents (asking session asked.Abort)
        core.old core.new out.old.items out.new.items) }
    ensures begun { OnErr result (BeginsLine C.meaning B.contents (asking session asked.Abort)
        core.old core.new out.old.items out.new.items) }
    ensures later { HasGrown core.old core.new out.old.items out.new.items }
    ensures refused { IfRefused core.old session asked.Abort result (λ why _.
        (core.new ≡ core.old) × SaysWhy session why out.old.items out.new.items) }
    ensures session { (why : SessionError) → result ≢ Err (call_error.Session why) }
    ensures unchanged { B.unchanged core.old.base core.new.base }
    ensures cause { HasCause call_error.DiskFault (B.count core.old.base) (B.count core.new.base) result }
{
    let aborted = core.abort(session);
    core.is_legal();
    match aborted {
        Ok(()) => {
            say(out, session, false, LineAnswer::Reply(Reply::Nothing));
            retry_all(alloc, core, out)
        }
        Err(error) => refuse(out, session, error),
    }
}

/// Attempts a call. A deadlock ends the transaction, and then the calls that wait are retried.
fn attempt<C: TreeCall + Drop, B: NodeRead + Drop>(
    alloc: Global,
    core: &mut Core<C, B>,
    session: u32,
    call: C,
    out: &mut Vec<LineReply>,
) -> Result<(), CallError>
    requires room { length out.old.items < vec_capacity out.old }
    ensures line { IfOk result (λ _. DoesLine C.meaning B.contents
        (asking session (asked.Call call)) core.old core.new out.old.items out.new.items) }
    ensures begun { OnErr result (BeginsLine C.meaning B.contents
        (asking session (asked.Call call)) core.old core.new out.old.items out.new.items) }
    ensures later { HasGrown core.old core.new out.old.items out.new.items }
    ensures refused { IfRefused core.old session (asked.Call call) result (λ why _.
        (core.new ≡ core.old) × SaysWhy session why out.old.items out.new.items) }
    ensures session { (why : SessionError) → result ≢ Err (call_error.Session why) }
    ensures unchanged { B.unchanged core.old.base core.new.base }
    ensures cause { HasCause call_error.DiskFault (B.count core.old.base) (B.count core.new.base) result }
{
    let answer = core.attempt(alloc, session, call);
    core.is_legal();
    match answer {
        Ok(Answer::Answered(reply)) => {
            say(out, session, false, LineAnswer::Reply(reply));
            Ok(())
        }
        Ok(
            Answer::Waits {
                resource,
                asks,
                holders,
            },
        ) => {
            let wait = LineAnswer::Wait {
                on: resource,
                asks,
                by: holders,
            };
            say(out, session, false, wait);
            Ok(())
        }
        Ok(Answer::Deadlock { cycle }) => {
            say(out, session, false, LineAnswer::Deadlock(cycle));
            retry_all(alloc, core, out)
        }
        Err(error) => match error {
            CallError::Session(why) => refuse(out, session, why),
            CallError::DiskFault => Err(CallError::DiskFault),
            CallError::NoMemory => Err(CallError::NoMemory),
        },
    }
}

/// Prepares a commit.
fn prepare<C: TreeCall + Drop, B: NodeRead + Drop>(
    alloc: Global,
    core: &mut Core<C, B>,
    session: u32,
    out: &mut Vec<LineReply>,
) -> Result<Option<Prepared>, CallError>
    requires room { length out.old.items < vec_capacity out.old }
    ensures line { IfOk result (λ p. DrivesLine C.meaning B.contents (asking session asked.Commit)
        core.old core.new out.old.items out.new.items p) }
    ensures prepared { IfOk result (λ p. IfSome p (λ prepared. (core.new ≡ record core.old { prepared = Some session }) × IsPrepared core.old prepared)) }
    ensures room { IfOk result (λ p. IfSome p (λ _. (out.new.items ≡ out.old.items) × (length out.new.items < vec_capacity out.new))) }
    ensures err { OnErr result (out.new.items ≡ out.old.items) }
    ensures same { core.new ≡ record core.old { prepared = core.new.prepared } }
    ensures later { HasGrown core.old core.new out.old.items out.new.items }
    ensures refused { IfRefused core.old session asked.Commit result (λ w p.
        (p ≡ None) × (core.new ≡ core.old) × SaysWhy session w out.old.items out.new.items) }
    ensures memory { IfErr result (λ e. e ≡ call_error.NoMemory) }
{
    let prepared = core.prepare(alloc, session);
    core.is_legal();
    match prepared {
        Ok(prepared) => Ok(Some(prepared)),
        Err(error) => {
            refuse(out, session, error)?;
            Ok(None)
        }
    }
}
