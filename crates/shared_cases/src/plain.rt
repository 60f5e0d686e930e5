//! A plain model of sessions that move amounts: texts by their labels, and where each session is. It says of a book whether it is legal and serial.
//! It has no locks: who has to wait, and whether a circle was the first one, is left to the core.
use crate::line::Trouble;
use crate::moves::{TEXTS, text_label};
use call_contract::{Answer, Event, EventAnswer, Noted};
use command_lines::StoreCall;
use dewey_labels::{Label, LabelTextError, Text};
use std::alloc::Global;
use store_calls::StoreOp;
use tree_model::{DomCall, Reply};

/// Where a session is.
#[derive(Clone, Copy, Debug, PartialEq, Eq, Drop)]
enum Stand {
    /// It has no transaction.
    Idle,
    Live,
    /// It has one, of which a call waits.
    Waits,
}

/// A session: how many transactions it has begun, where it is, and the entry of its last begin.
#[derive(Clone, Copy, Debug, Drop)]
struct Seat {
    begun: u32,
    stand: Stand,
    since: usize,
}

/// What is committed, and the sessions from 0 to 64.
#[derive(Drop)]
struct Plain {
    labels: Vec<Label>,
    texts: Vec<Text>,
    seats: [Seat; 65],
    commits: u32,
}

/// The sum of the texts behind a book's commits; none where it isn't legal and serial.
pub fn sum_behind(alloc: Global, book: &[Noted<StoreOp>]) -> Result<Option<u64>, Trouble> {
    let mut plain = Plain::new(alloc);
    for at in 0..book.len() {
        if !plain.goes_on(alloc, book, at)? {
            return Ok(None);
        }
    }
    Ok(Some(plain.sum()))
}

/// The label of the text of an amount.
fn label_of(alloc: Global, index: u32) -> Result<Label, Trouble> {
    match Label::read_text(alloc, text_label(alloc, index)?.as_bytes()) {
        Ok(label) => Ok(label),
        Err(LabelTextError::NoMemory) => Err(Trouble::NoMemory),
        Err(_) => Err(Trouble::NoCommand),
    }
}

/// The call of an entry.
fn call_at(book: &[Noted<StoreOp>], at: usize) -> Option<&StoreCall> {
    match &book.get(at)?.event {
        Event::Call(op) => Some(op.call()),
        _ => None,
    }
}

impl Plain {
    fn new(alloc: Global) -> Plain {
        Plain {
            labels: Vec::new(alloc),
            texts: Vec::new(alloc),
            seats: [Seat {
                begun: 0,
                stand: Stand::Idle,
                since: 0,
            }; 65],
            commits: 0,
        }
    }

    /// Whether an entry is as the model has it, which then goes on from it. A failed attempt isn't.
    fn goes_on(
        &mut self,
        alloc: Global,
        book: &[Noted<StoreOp>],
        at: usize,
    ) -> Result<bool, Trouble> {
        let Some(noted) = book.get(at) else {
            return Ok(false);
        };
        let session = noted.session;
        match (&noted.event, &noted.answer) {
            (Event::Begin, EventAnswer::Number(ordinal)) => Ok(self.begins(at, session, *ordinal)),
            (Event::Call(_), EventAnswer::Call(answer)) => {
                Ok(self.attempts(session, Stand::Live, answer))
            }
            (Event::Retry, EventAnswer::Call(answer)) => {
                Ok(self.attempts(session, Stand::Waits, answer))
            }
            (Event::Abort, EventAnswer::Nothing) => Ok(self.leaves(session, Stand::Idle)),
            (Event::Commit, EventAnswer::Number(number)) => {
                self.commits(alloc, book, at, session, *number)
            }
            _ => Ok(false),
        }
    }

    fn seat(&self, session: u32) -> Option<Seat> {
        match self.seats.get(session as usize) {
            Some(seat) => Some(*seat),
            None => None,
        }
    }

    fn stand(&self, session: u32) -> Stand {
        match self.seat(session) {
            Some(seat) => seat.stand,
            None => Stand::Idle,
        }
    }

    fn put(&mut self, session: u32, seat: Seat) {
        let place = session as usize;
        if place < 65 {
            self.seats[place] = seat;
        }
    }

    fn begins(&mut self, at: usize, session: u32, ordinal: u32) -> bool {
        let Some(seat) = self.seat(session) else {
            return false;
        };
        let begun = seat.begun.saturating_add(1);
        self.put(
            session,
            Seat {
                begun,
                stand: Stand::Live,
                since: at,
            },
        );
        seat.stand == Stand::Idle && begun == ordinal
    }

    /// The session then stands so. False where it had no transaction.
    fn leaves(&mut self, session: u32, stand: Stand) -> bool {
        let Some(seat) = self.seat(session) else {
            return false;
        };
        self.put(
            session,
            Seat {
                begun: seat.begun,
                stand,
                since: seat.since,
            },
        );
        seat.stand != Stand::Idle
    }

    /// An attempt of a session that stood so before.
    fn attempts(&mut self, session: u32, before: Stand, answer: &Answer) -> bool {
        let stood = self.stand(session) == before;
        let names = self.names(session, answer);
        let stand = match answer {
            Answer::Answered(_) => Stand::Live,
            Answer::Waits { .. } => Stand::Waits,
            Answer::Deadlock { .. } => Stand::Idle,
        };
        self.leaves(session, stand) && stood && names
    }

    /// Whether who bars the session is another one with a transaction, and each of a circle but its first, the session itself, waits.
    fn names(&self, session: u32, answer: &Answer) -> bool {
        match answer {
            Answer::Answered(_) => true,
            Answer::Waits { holders, .. } => {
                !holders.is_empty() && self.bar(session, holders.as_slice())
            }
            Answer::Deadlock { cycle } => match cycle.as_slice().split_first() {
                Some((first, others)) => {
                    *first == session && !others.is_empty() && self.all_wait(others)
                }
                None => false,
            },
        }
    }

    fn bar(&self, session: u32, holders: &[u32]) -> bool {
        for holder in holders {
            if *holder == session || self.stand(*holder) == Stand::Idle {
                return false;
            }
        }
        true
    }

    fn all_wait(&self, sessions: &[u32]) -> bool {
        for session in sessions {
            if self.stand(*session) != Stand::Waits {
                return false;
            }
        }
        true
    }

    fn commits(
        &mut self,
        alloc: Global,
        book: &[Noted<StoreOp>],
        at: usize,
        session: u32,
        number: u32,
    ) -> Result<bool, Trouble> {
        let Some(seat) = self.seat(session) else {
            return Ok(false);
        };
        self.commits = self.commits.saturating_add(1);
        if seat.stand != Stand::Live || number != self.commits {
            return Ok(false);
        }
        self.leaves(session, Stand::Idle);
        self.does_again(alloc, book, session, seat.since, at)
    }

    /// Does a session's answered calls between two entries again, on what is committed; false where one gets another reply.
    fn does_again(
        &mut self,
        alloc: Global,
        book: &[Noted<StoreOp>],
        session: u32,
        since: usize,
        until: usize,
    ) -> Result<bool, Trouble> {
        let mut asked = since;
        for at in since..until {
            let Some(noted) = book.get(at) else {
                return Ok(false);
            };
            if noted.session == session {
                if matches!(noted.event, Event::Call(_)) {
                    asked = at;
                }
                if !self.answers(alloc, call_at(book, asked), &noted.answer)? {
                    return Ok(false);
                }
            }
        }
        Ok(true)
    }

    /// Whether an entry with a reply has the one that its call gets now, which is done then.
    fn answers(
        &mut self,
        alloc: Global,
        call: Option<&StoreCall>,
        answer: &EventAnswer,
    ) -> Result<bool, Trouble> {
        match (call, answer) {
            (Some(call), EventAnswer::Call(Answer::Answered(reply))) => {
                self.replies(alloc, call, reply)
            }
            (None, EventAnswer::Call(Answer::Answered(_))) => Ok(false),
            _ => Ok(true),
        }
    }

    fn replies(&mut self, alloc: Global, call: &StoreCall, reply: &Reply) -> Result<bool, Trouble> {
        match (call, reply) {
            (StoreCall::Dom(DomCall::Create(_, _)), Reply::Place(Some(_))) => self.creates(alloc),
            (
                StoreCall::Dom(DomCall::Node(at)),
                Reply::Node {
                    kind: 3,
                    value: Some(value),
                    ..
                },
            ) => Ok(self.has(at, value)),
            (StoreCall::Dom(DomCall::SetData(at, data)), Reply::Nothing) => {
                self.sets(alloc, at, data)
            }
            _ => Ok(false),
        }
    }

    /// Makes the amounts, where there are none.
    fn creates(&mut self, alloc: Global) -> Result<bool, Trouble> {
        if !self.labels.is_empty() {
            return Ok(false);
        }
        for index in 0..TEXTS {
            self.labels.push(label_of(alloc, index)?)?;
            self.texts.push(Text::of(alloc, "10000000")?)?;
        }
        Ok(true)
    }

    /// The place of a label; behind all where it isn't one of a text.
    fn place(&self, at: &Label) -> usize {
        let mut place = 0usize;
        for label in &self.labels {
            if label == at {
                return place;
            }
            place = place.saturating_add(1);
        }
        place
    }

    fn has(&self, at: &Label, value: &Text) -> bool {
        match self.texts.get(self.place(at)) {
            Some(text) => text == value,
            None => false,
        }
    }

    fn sets(&mut self, alloc: Global, at: &Label, data: &Text) -> Result<bool, Trouble> {
        let place = self.place(at);
        if place >= self.texts.len() {
            return Ok(false);
        }
        self.texts[place] = data.copy(alloc)?;
        Ok(true)
    }

    /// The sum of the texts' numbers.
    fn sum(&self) -> u64 {
        let mut sum: u64 = 0;
        for text in &self.texts {
            sum = sum.saturating_add(text.as_str().parse::<u64>().unwrap_or(0));
        }
        sum
    }
}
