//! Lines of the script, and their texts.
ghost use Rattle.std.specs.Prelude.{◌≡◌, IfOk, string_bytes};
ghost use Rattle.workload_gen.specs.LineTexts.{division, line_text, step_text};

use crate::text::add;
use std::alloc::{AllocError, Global};

/// A line of the script.
#[derive(Clone, Copy, Debug, PartialEq, Eq)]
pub struct Line {
    /// From 1 to 8.
    pub session: u32,
    pub step: Step,
}

/// What a line asks for.
#[derive(Clone, Copy, Debug, PartialEq, Eq)]
pub enum Step {
    Begin,
    Commit,
    /// The document `gen` is made, with an empty catalogue.
    Create,
    /// A book is appended to the catalogue, by its number from 1.
    Book { number: u32, price: u32 },
    /// A review with so many stars is appended to the book of this number.
    Review { book: u32, stars: u32 },
    /// The children of the book of this number.
    Children { book: u32 },
    /// The books with a review of three stars or more.
    Find,
    /// The document is dropped.
    Drop,
}

impl Line {
    /// The line as it stands in a script, without its end.
    pub fn text(&self, alloc: Global) -> Result<String, AllocError>
        ensures { IfOk result (λ text. string_bytes text ≡ line_text self.now) }
    {
        let step = self.step.text(alloc)?;
        let mut out = String::new(alloc);
        add(alloc, "{\"s\":", u64::from(self.session), &mut out)?;
        out.push_str(",\"call\":")?;
        out.push_str(step.as_str())?;
        out.push_str("}")?;
        Ok(out)
    }
}

impl Step {
    /// The word of a line, and what stands behind it.
    fn text(self, alloc: Global) -> Result<String, AllocError>
        ensures { IfOk result (λ text. string_bytes text ≡ step_text self) }
    {
        match self {
            Step::Begin => String::from_str(alloc, "\"begin\""),
            Step::Commit => String::from_str(alloc, "\"commit\""),
            Step::Create => String::from_str(
                alloc,
                "\"create\",\"name\":\"gen\",\"tree\":[\"catalogue\"]",
            ),
            Step::Book { number, price } => book_text(alloc, u64::from(number), u64::from(price)),
            Step::Review { book, stars } => review_text(alloc, book, stars),
            Step::Children { book } => children_text(alloc, book),
            Step::Find => String::from_str(
                alloc,
                "\"find\",\"at\":\"1.1001\",\"path\":\"/catalogue/book[review/@stars >= 3]\"",
            ),
            Step::Drop => String::from_str(alloc, "\"drop\",\"name\":\"gen\""),
        }
    }
}

fn book_text(alloc: Global, number: u64, price: u64) -> Result<String, AllocError>
    ensures { IfOk result (λ text. string_bytes text ≡ step_text (Step.Book number price)) }
{
    let mut out = String::new(alloc);
    add(
        alloc,
        "\"append\",\"at\":\"1.1001.1001\",\"tree\":[\"book\",{\"id\":\"",
        number,
        &mut out,
    )?;
    add(alloc, "\"},[\"title\",\"Book ", number, &mut out)?;
    add(alloc, "\"],[\"price\",\"", price, &mut out)?;
    out.push_str("\"]]")?;
    Ok(out)
}

fn review_text(alloc: Global, book: u32, stars: u32) -> Result<String, AllocError>
    ensures { IfOk result (λ text. string_bytes text ≡ step_text (Step.Review book stars)) }
{
    let mut out = String::new(alloc);
    add(
        alloc,
        "\"append\",\"at\":\"1.1001.1001.",
        division(book),
        &mut out,
    )?;
    add(
        alloc,
        "\",\"tree\":[\"review\",{\"stars\":\"",
        u64::from(stars),
        &mut out,
    )?;
    out.push_str("\"},\"ok\"]")?;
    Ok(out)
}

fn children_text(alloc: Global, book: u32) -> Result<String, AllocError>
    ensures { IfOk result (λ text. string_bytes text ≡ step_text (Step.Children book)) }
{
    let mut out = String::new(alloc);
    add(
        alloc,
        "\"children\",\"at\":\"1.1001.1001.",
        division(book),
        &mut out,
    )?;
    out.push_str("\"")?;
    Ok(out)
}

/// The last division of the label of the book of this number.
fn division(book: u32) -> u64
    ensures { result ≡ division book }
{
    999 + 2 * u64::from(book)
}
