//! Places of a script.
ghost use Rattle.std.specs.Prelude.{◌≡◌, ◌+◌, ◌*◌, ◌≤◌, ◌<◌, ◌^◌, None, Some, option_map};
ghost use Rattle.workload_gen.specs.inside.Rests.{IsPlace, after, book_line, closing_line, line_at, opening_line, round_line};
ghost use Rattle.workload_gen.specs.Scripts.{line};

use crate::line::{Line, Step};

/// Where a script stands: the part, its number, and the next line in it.
#[derive(Clone, Copy, Debug, PartialEq, Eq)]
pub(crate) enum Place {
    Opening(u32),
    Book(u32, u32),
    Round(u32, u32),
    Closing(u32),
}

fn line(session: u32, step: Step) -> Line
    ensures { result ≡ line session step }
{
    Line { session, step }
}

fn opening_line(at: u32) -> Line
    ensures { result ≡ opening_line at }
{
    if at == 0 {
        line(1, Step::Begin)
    } else if at == 1 {
        line(1, Step::Create)
    } else {
        line(1, Step::Commit)
    }
}

fn book_line(seed: u32, book: u32, at: u32) -> Line
    requires { (0 < book) × (book ≤ 20000) }
    ensures { result ≡ book_line seed book at }
{
    let session = (book - 1) % 8 + 1;
    if at == 0 {
        line(session, Step::Begin)
    } else if at == 1 {
        let price = (u64::from(seed) + 37 * u64::from(book)) % 10_000;
        line(
            session,
            Step::Book {
                number: book,
                price: price as u32,
            },
        )
    } else {
        line(session, Step::Commit)
    }
}

fn round_line(seed: u32, round: u32, at: u32) -> Line
    requires { (round ≤ 2500) × (at < 25) }
    ensures { result ≡ round_line seed round at }
{
    if at < 8 {
        line(at + 1, Step::Begin)
    } else if at < 16 {
        let session = at - 7;
        let book = 8 * round + session;
        let stars = 1 + (u64::from(seed) + u64::from(book)) % 5;
        line(
            session,
            Step::Review {
                book,
                stars: stars as u32,
            },
        )
    } else if at == 16 {
        line(
            1,
            Step::Children {
                book: 8 * round + 2,
            },
        )
    } else if at < 24 {
        line(at - 15, Step::Commit)
    } else {
        line(1, Step::Commit)
    }
}

fn closing_line(at: u32) -> Line
    ensures { result ≡ closing_line at }
{
    if at == 0 {
        line(1, Step::Begin)
    } else if at == 1 {
        line(1, Step::Find)
    } else if at == 2 {
        line(1, Step::Drop)
    } else {
        line(1, Step::Commit)
    }
}

/// The line at a place; none at the end.
pub(crate) fn line_at(seed: u32, count: u32, place: Place) -> Option<Line>
    requires place { IsPlace count place }
    requires count { count ≤ 20000 }
    ensures { result ≡ line_at seed place }
{
    match place {
        Place::Opening(at) => Some(opening_line(at)),
        Place::Book(book, at) => Some(book_line(seed, book, at)),
        Place::Round(round, at) => Some(round_line(seed, round, at)),
        Place::Closing(at) => { if at < 4 { Some(closing_line(at)) } else { None } }
    }
}

/// The place of the next line.
pub(crate) fn after(count: u32, place: Place) -> Place
    requires place { IsPlace count place }
    requires count { count ≤ 20000 }
    ensures { result ≡ after count place }
{
    match place {
        Place::Opening(at) => {
            if at == 2 {
                Place::Book(1, 0)
            } else {
                Place::Opening(at + 1)
            }
        }
        Place::Book(book, at) => {
            if at < 2 {
                Place::Book(book, at + 1)
            } else if book < count {
                Place::Book(book + 1, 0)
            } else if count < 8 {
                Place::Closing(0)
            } else {
                Place::Round(0, 0)
            }
        }
        Place::Round(round, at) => {
            if at < 24 {
                Place::Round(round, at + 1)
            } else if round + 1 < count / 8 {
                Place::Round(round + 1, 0)
            } else {
                Place::Closing(0)
            }
        }
        Place::Closing(at) => Place::Closing(at + 1),
    }
}
