// The replies by which what is asked in turn ends before its end.
ghost use Rattle.std.specs.Prelude.{◌≡◌};
ghost use Rattle.command_lines.specs.declared.line_reply.LineAnswer.TheVariants as line_answer;
ghost use Rattle.durable_sessions.specs.Reasons.{first_reason, limit_of, limit_of_session, reason_in, reason_of, reason_of_answer};

use command_lines::{LineAnswer, LineReply, SessionRefusal};
use tree_model::{Refusal, Reply};
use xpath_parser::PathError;

/// Why the store refuses a document.
#[derive(Debug, Drop)]
pub enum Reason {
    /// The path that is asked for is none.
    Path(PathError),
    /// The tree refuses the call.
    Call(Refusal),
    /// No number is left for a transaction, or no room for the commit's body.
    Limit,
}

/// The first refusal.
pub fn reason_in(replies: &[LineReply]) -> Option<Reason>
    ensures { result ≡ reason_in replies.now }
{
    for reply in replies {
        if let Some(why) = reason_of(reply) {
            return Some(why);
        }
    }
    None
}

/// Why a reply refuses the document, if it does.
fn reason_of(reply: &LineReply) -> Option<Reason>
    ensures { result ≡ reason_of reply.now }
{
    match reply {
        LineReply::Said { answer, .. } => reason_of_answer(answer),
        LineReply::Bad { .. } | LineReply::Order(_) => None,
    }
}

fn reason_of_answer(answer: &LineAnswer) -> Option<Reason>
    ensures { result ≡ reason_of_answer answer.now }
{
    match answer {
        LineAnswer::Reply(reply) => reason_of_reply(reply),
        LineAnswer::Session(refusal) => limit_of_session(*refusal),
        LineAnswer::Wait { .. } | LineAnswer::Deadlock(_) => None,
    }
}

fn reason_of_reply(reply: &Reply) -> Option<Reason>
    ensures { result ≡ reason_of_answer (line_answer.Reply reply.now) }
{
    match reply {
        Reply::Refused(why) => Some(Reason::Call(*why)),
        _ => None,
    }
}

/// No number is left for the transaction that a session begins, or no room for its commit.
fn limit_of_session(refusal: SessionRefusal) -> Option<Reason>
    ensures { result ≡ limit_of_session refusal }
{
    match refusal {
        SessionRefusal::TxLimit | SessionRefusal::CommitLimit => Some(Reason::Limit),
        _ => None,
    }
}

/// The first refusal of a begin or a commit by the numbers that are left.
pub fn limit_in(replies: &[LineReply]) -> Option<Reason>
    ensures { result ≡ first_reason limit_of replies.now }
{
    for reply in replies {
        if let Some(why) = limit_of(reply) {
            return Some(why);
        }
    }
    None
}

fn limit_of(reply: &LineReply) -> Option<Reason>
    ensures { result ≡ limit_of reply.now }
{
    match reply {
        LineReply::Said {
            answer: LineAnswer::Session(refusal),
            ..
        } => limit_of_session(*refusal),
        _ => None,
    }
}
