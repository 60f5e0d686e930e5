// Numbers and literals.
ghost use Rattle.std.specs.Prelude.{◌≡◌, ◌<◌, ◌^◌, IfOk, IfSome};
ghost use Rattle.xpath_parser.specs.Input.{Reads};
ghost use Rattle.xpath_parser.specs.Grammar as spec;

use crate::characters::is_digit;
use crate::names::text_of;
use crate::refusal::{Refusal, What};
use crate::tokens::Tokens;
use dewey_labels::{NoMemory, Text};
use path_model::Expr;
use std::alloc::Global;

/// The most digits of a number.
const MOST_DIGITS: usize = 18;

impl<'a> Tokens<'a> {
    #[tactic(auto, unfolding(crate::specs::Grammar::numbered))]
    pub fn number(&mut self) -> Result<Expr, Refusal>
        ensures { Reads (spec.numbered self.old) result self.new }
    {
        let Some(number) = number_of(self.spelling()) else {
            return Err(self.unsupported(What::Number));
        };
        self.take();
        self.unfiltered(Expr::Number(number as i64))
    }

    #[tactic(auto, unfolding(crate::specs::Grammar::quoted))]
    pub fn literal(&mut self, alloc: Global) -> Result<Expr, Refusal>
        ensures { Reads (spec.quoted self.old) result self.new }
    {
        let literal = literal_of(alloc, self.spelling())?;
        self.take();
        self.unfiltered(Expr::Literal(literal))
    }
}

/// The number of 1 to 18 digits.
fn number_of(text: &[char]) -> Option<u64>
    ensures value { result ≡ spec.number_of text.now }
    ensures fits { IfSome result (λ n. n < 10 ^ 18) }
{
    if text.is_empty() || text.len() > MOST_DIGITS {
        return None;
    }
    let mut number = 0;
    for c in text {
        if !is_digit(*c) {
            return None;
        }
        number = number * 10 + (*c as u64 - 48);
    }
    Some(number)
}

/// The characters between the quotes.
fn literal_of(alloc: Global, text: &[char]) -> Result<Text, NoMemory>
    ensures { IfOk result (λ literal. literal ≡ spec.literal_of text.now) }
{
    match text {
        [_, inside @ .., _] => text_of(alloc, inside),
        _ => text_of(alloc, &[]),
    }
}
