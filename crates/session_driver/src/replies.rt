//! The lines that are written.

ghost use Rattle.std.specs.Prelude.{◌≡◌, ◌<◌, ◌++◌, ◌∷◌, [], length, vec_capacity, None, Some, IfOk, IfErr, OnErr};
ghost use Rattle.command_lines.specs.declared.line_reply.LineReply.TheVariants.{Said};
ghost use Rattle.command_lines.specs.declared.line_reply.SessionRefusal.{SessionRefusal};
ghost use Rattle.tx_core.specs.declared.errors.CallError.TheVariants as call_error;
ghost use Rattle.session_driver.specs.Driving.{SaysWhy, shown_why};

use command_lines::{LineAnswer, LineReply, SessionRefusal};
use tx_core::{CallError, SessionError};

/// Writes what a session is answered; there is room for it.
pub(crate) fn say(out: &mut Vec<LineReply>, session: u32, woke: bool, answer: LineAnswer)
    requires room { length out.old.items < vec_capacity out.old }
    ensures { out.new.items ≡ out.old.items ++ Said session woke answer ∷ [] }
{
    let line = LineReply::Said {
        session,
        woke,
        answer,
    };
    if out.push(line).is_err() {
        unreachable!();
    }
}

/// Writes why a session is refused; there is room for it. Want of memory is no refusal.
pub(crate) fn refuse(
    out: &mut Vec<LineReply>,
    session: u32,
    error: SessionError,
) -> Result<(), CallError>
    requires room { length out.old.items < vec_capacity out.old }
    ensures ok { IfOk result (λ _. (why : SessionRefusal)
        × (shown_why error ≡ Some why) × SaysWhy session why out.old.items out.new.items) }
    ensures err { OnErr result ((shown_why error ≡ None) × (out.new.items ≡ out.old.items)) }
    ensures memory { IfErr result (λ e. e ≡ call_error.NoMemory) }
{
    let Some(why) = refusal_of(error) else {
        return Err(CallError::NoMemory);
    };
    say(out, session, false, LineAnswer::Session(why));
    Ok(())
}

/// The refusal that an error is, if it is one.
fn refusal_of(error: SessionError) -> Option<SessionRefusal>
    ensures { result ≡ shown_why error }
{
    match error {
        SessionError::IsWaiting => Some(SessionRefusal::IsWaiting),
        SessionError::InTransaction => Some(SessionRefusal::InTransaction),
        SessionError::NoTransaction => Some(SessionRefusal::NoTransaction),
        SessionError::TxLimit => Some(SessionRefusal::TxLimit),
        SessionError::CommitLimit => Some(SessionRefusal::CommitLimit),
        SessionError::NoMemory => None,
    }
}
