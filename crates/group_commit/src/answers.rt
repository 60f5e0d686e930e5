//! The answers of a session's calls, as lines of a worker have them.
ghost use Rattle.std.specs.Prelude.{◌≡◌};
ghost use Rattle.session_driver.specs.Driving.{shown_why};
ghost use Rattle.group_commit.specs.inside.Answering.{as_ended, as_error, as_fault, as_nothing, as_number, as_reply};

use command_lines::{LineAnswer, LineReply, SessionRefusal};
use shared_store::{Ended, StoreError};
use tree_model::Reply;
use tx_core::SessionError;
use worker_run::PortFault;

/// The refusal that an error is, if it is one.
fn refusal_of(error: SessionError) -> Option<SessionRefusal>
    ensures { result ≡ shown_why error }
{
    match error {
        SessionError::IsWaiting => Some(SessionRefusal::IsWaiting),
        SessionError::InTransaction => Some(SessionRefusal::InTransaction),
        SessionError::NoTransaction => Some(SessionRefusal::NoTransaction),
        SessionError::TxLimit => Some(SessionRefusal::TxLimit),
        SessionError::CommitLimit => Some(SessionRefusal::CommitLimit),
        SessionError::NoMemory => None,
    }
}

/// A refusal is answered, and anything else is a fault.
fn error(error: StoreError) -> Result<LineAnswer, PortFault>
    ensures { result ≡ as_error error }
{
    match error {
        StoreError::Session(why) => match refusal_of(why) {
            Some(refusal) => Ok(LineAnswer::Session(refusal)),
            None => Err(PortFault::NoMemory),
        },
        StoreError::DiskFault => Err(PortFault::DiskFault),
        StoreError::NoMemory => Err(PortFault::NoMemory),
        StoreError::Halted { faults } => Err(PortFault::Halted { faults }),
    }
}

/// Why a port does no more lines, by the error of a call that can't be refused.
pub(crate) fn fault_of(error: StoreError) -> PortFault
    ensures { result ≡ as_fault error }
{
    match error {
        StoreError::Session(_) | StoreError::NoMemory => PortFault::NoMemory,
        StoreError::DiskFault => PortFault::DiskFault,
        StoreError::Halted { faults } => PortFault::Halted { faults },
    }
}

/// The answer of a begin or a commit.
pub(crate) fn number(given: Result<u32, StoreError>) -> Result<LineAnswer, PortFault>
    ensures { result ≡ as_number given }
{
    match given {
        Ok(number) => Ok(LineAnswer::Reply(Reply::Number(number))),
        Err(why) => error(why),
    }
}

/// The answer of an abort.
pub(crate) fn nothing(given: Result<(), StoreError>) -> Result<LineAnswer, PortFault>
    ensures { result ≡ as_nothing given }
{
    match given {
        Ok(()) => Ok(LineAnswer::Reply(Reply::Nothing)),
        Err(why) => error(why),
    }
}

/// The answer of a call.
pub(crate) fn ended(given: Result<Ended, StoreError>) -> Result<LineAnswer, PortFault>
    ensures { result ≡ as_ended given }
{
    match given {
        Ok(Ended::Answered(reply)) => Ok(LineAnswer::Reply(reply)),
        Ok(Ended::Deadlock { cycle }) => Ok(LineAnswer::Deadlock(cycle)),
        Err(why) => error(why),
    }
}

/// The line of a session's answer.
pub(crate) fn reply(
    session: u32,
    answer: Result<LineAnswer, PortFault>,
) -> Result<LineReply, PortFault>
    ensures { result ≡ as_reply session answer }
{
    match answer {
        Ok(answer) => Ok(LineReply::Said {
            session,
            woke: false,
            answer,
        }),
        Err(fault) => Err(fault),
    }
}
