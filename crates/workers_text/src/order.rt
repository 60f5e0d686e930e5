//! The order line of a book.
ghost use Rattle.std.specs.Prelude.{◌≡◌, IfOk};
ghost use Rattle.call_contract.specs.Books.{number_in};
ghost use Rattle.shared_store.specs.Lists.{SessionsFit};
ghost use Rattle.workers_text.specs.WorkersText.{order_of};
ghost use Rattle.workers_text.specs.inside.Ordering.{after_call, after_entry, committed_by};

use call_contract::{Answer, Event, EventAnswer, Noted};
use command_lines::LineReply;
use dewey_labels::{List, NoMemory};
use std::alloc::Global;

/// A live transaction: its ordinal, and whether a call of it waits.
#[derive(Clone, Copy, Debug, Drop)]
pub(crate) struct Begun {
    ordinal: u32,
    waits: bool,
}

/// The transaction after a call with this answer.
fn after_call(begun: Begun, given: &EventAnswer) -> Option<Begun>
    ensures { result ≡ after_call begun given.now }
{
    match given {
        EventAnswer::Call(Answer::Answered(_)) => Some(Begun {
            ordinal: begun.ordinal,
            waits: false,
        }),
        EventAnswer::Call(Answer::Waits { .. }) => Some(Begun {
            ordinal: begun.ordinal,
            waits: true,
        }),
        EventAnswer::Call(Answer::Deadlock { .. }) => None,
        EventAnswer::Nothing | EventAnswer::Number(_) => Some(begun),
    }
}

/// The transaction of a session after an entry of it.
fn after_entry<C>(begun: Option<Begun>, event: &Event<C>, given: &EventAnswer) -> Option<Begun>
    ensures { result ≡ after_entry begun event.now given.now }
{
    match (begun, event) {
        (None, Event::Begin) => Some(Begun {
            ordinal: number(given),
            waits: false,
        }),
        (None, _) => None,
        (Some(begun), Event::Call(_)) => after_call(begun, given),
        (Some(begun), Event::Retry) if begun.waits => after_call(begun, given),
        (Some(begun), Event::Begin | Event::Retry) => Some(begun),
        (Some(begun), Event::Fail { .. }) => Some(Begun {
            ordinal: begun.ordinal,
            waits: false,
        }),
        (Some(_), Event::Commit | Event::Abort) => None,
    }
}

/// The number of an answer; 0 where it is none.
fn number(given: &EventAnswer) -> u32
    ensures { result ≡ number_in given.now }
{
    match given {
        EventAnswer::Number(number) => *number,
        EventAnswer::Nothing | EventAnswer::Call(_) => 0,
    }
}

/// The session and the ordinal of the transaction that an entry commits, if it commits one.
fn committed<C>(noted: &Noted<C>, begun: Option<Begun>) -> Option<(u32, u32)>
    ensures { result ≡ committed_by noted.now.session noted.now.event begun }
{
    match (&noted.event, begun) {
        (Event::Commit, Some(begun)) => Some((noted.session, begun.ordinal)),
        _ => None,
    }
}

/// The order line: the session and the ordinal of each transaction that the book committed, in the order of the commits.
pub fn order_line<C>(alloc: Global, book: &[Noted<C>]) -> Result<LineReply, NoMemory>
    requires { SessionsFit book.now }
    ensures { IfOk result (λ line. line ≡ order_of book.now) }
{
    let mut live = [None; 65];
    let mut order = List::new(alloc);
    for noted in book {
        let place = noted.session as usize;
        let begun: Option<Begun> = live[place];
        if let Some(committed) = committed(noted, begun) {
            order.push(committed)?;
        }
        live[place] = after_entry(begun, &noted.event, &noted.answer);
    }
    Ok(LineReply::Order(order))
}
