// A cursor over the tokens of a text, seen as the text from the next token on. It cuts each token as it is reached.
ghost use Rattle.std.specs.Prelude.{◌≡◌, ◌≤◌, length, encode_utf8_all, IfOk};
ghost use Rattle.xpath_parser.specs.Input as spec;
ghost use Rattle.xpath_parser.specs.Input.{Reads};

use crate::lex;
use crate::lex::Kind;
use crate::names::text_of;
use crate::refusal::{Refusal, What};
use dewey_labels::{NoMemory, Text};
use std::alloc::Global;
use std::marker::Model;

#[derive(Drop)]
pub struct Tokens<'a> {
    ahead: &'a [char],
    token: (Kind, usize),
}

impl<'a> Model for Tokens<'a> {
    ghost use Rattle.std.specs.Prelude.{List, ℕ};
    ghost use Rattle.std.specs.Coded.{coded_list, coded_ℕ};
    ghost use Rattle.xpath_parser.specs.inside.Cursor.{text_of, IsReady};

    ghost Value = { List ℕ };

    ghost coded = { coded_list coded_ℕ };

    ghost view = { text_of };

    ghost invariant = { IsReady };
}

impl<'a> Tokens<'a> {
    ghost use Rattle.xpath_parser.specs.Lex.{skip};

    pub fn new(text: &'a [char]) -> Tokens<'a>
        ensures { result ≡ skip text.now }
    {
        let ahead = lex::skip(text);
        Tokens {
            ahead,
            token: lex::token(ahead),
        }
    }

    #[tactic(auto, unfolding(crate::specs::Input::kind))]
    pub fn peek(&self) -> Kind
        ensures { result ≡ spec.kind self.now }
    {
        self.token.0
    }

    /// How many characters there are from the next token on.
    pub fn left(&self) -> usize
        ensures { result ≡ length self.now }
    {
        self.ahead.len()
    }

    #[tactic(auto, unfolding(crate::specs::Input::spelling))]
    pub fn spelling(&self) -> &'a [char]
        ensures { result.now ≡ spec.spelling self.now }
    {
        &self.ahead[..self.token.1]
    }

    #[tactic(auto, unfolding(crate::specs::Input::sees))]
    pub fn sees(&self, kind: Kind) -> bool
        ensures { result ≡ spec.sees kind self.now }
    {
        self.peek() == kind
    }

    /// Whether the next token is this name.
    #[tactic(auto, unfolding(crate::specs::Input::sees_word))]
    pub fn sees_word(&self, word: &[char]) -> bool
        ensures { result ≡ spec.sees_word word.now self.now }
    {
        self.sees(Kind::Name) && self.spelling() == word
    }

    #[tactic(auto, unfolding(crate::specs::Input::next))]
    pub fn take(&mut self)
        ensures { self.new ≡ spec.next self.old }
    {
        let ahead = lex::skip(&self.ahead[self.token.1..]);
        self.token = lex::token(ahead);
        self.ahead = ahead;
    }

    /// Takes a name.
    pub fn take_name(&mut self, alloc: Global) -> Result<Text, NoMemory>
        ensures name { IfOk result (λ name. name ≡ encode_utf8_all (spec.spelling self.old)) }
        ensures next { self.new ≡ spec.next self.old }
    {
        let spelling = self.spelling();
        self.take();
        text_of(alloc, spelling)
    }

    /// Refuses the next token.
    pub fn refuse(&self) -> Refusal
        ensures { result ≡ Refusal.Syntax (length self.now) }
    {
        Refusal::Syntax(self.left())
    }

    pub fn unsupported(&self, what: What) -> Refusal
        ensures { result ≡ Refusal.Unsupported what (length self.now) }
    {
        Refusal::Unsupported(what, self.left())
    }

    #[tactic(auto, unfolding(crate::specs::Input::expect))]
    pub fn expect(&mut self, kind: Kind) -> Result<(), Refusal>
        ensures { Reads (spec.expect kind self.old) result self.new }
    {
        if !self.sees(kind) {
            return Err(self.refuse());
        }
        self.take();
        Ok(())
    }
}
