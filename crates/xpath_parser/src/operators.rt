// What stands behind operands: operators, and tokens that no path goes on with.
ghost use Rattle.std.specs.Prelude.{◌≡◌};
ghost use Rattle.xpath_parser.specs.Input.{Reads};
ghost use Rattle.xpath_parser.specs.Grammar as spec;

use crate::lex::Kind;
use crate::refusal::{Refusal, What};
use crate::tokens::Tokens;
use path_model::{Expr, Op};

const AND: [char; 3] = ['a', 'n', 'd'];

const OR: [char; 2] = ['o', 'r'];

const DIV: [char; 3] = ['d', 'i', 'v'];

const MOD: [char; 3] = ['m', 'o', 'd'];

/// The operator of a sign, with its level of precedence, 1 being the tightest.
fn sign_operator(kind: Kind) -> Option<(u8, Op)>
    ensures { result ≡ spec.sign_operator kind }
{
    match kind {
        Kind::Star => Some((1, Op::Mul)),
        Kind::Plus => Some((2, Op::Add)),
        Kind::Minus => Some((2, Op::Sub)),
        Kind::Less => Some((3, Op::Lt)),
        Kind::LessEqual => Some((3, Op::Le)),
        Kind::Greater => Some((3, Op::Gt)),
        Kind::GreaterEqual => Some((3, Op::Ge)),
        Kind::Equal => Some((4, Op::Eq)),
        Kind::NotEqual => Some((4, Op::Ne)),
        _ => None,
    }
}

impl<'a> Tokens<'a> {
    /// The operator that comes next, with its level of precedence.
    #[tactic(auto, unfolding(crate::specs::Grammar::operator))]
    fn any_operator(&self) -> Option<(u8, Op)>
        ensures { result ≡ spec.operator self.now }
    {
        if self.sees_word(&AND) {
            return Some((5, Op::And));
        }
        if self.sees_word(&OR) {
            return Some((6, Op::Or));
        }
        sign_operator(self.peek())
    }

    /// The operator of a level of precedence that comes next.
    pub fn operator(&self, level: u8) -> Option<Op>
        ensures { result ≡ spec.of_level level (spec.operator self.now) }
    {
        match self.any_operator() {
            Some((found, op)) if found == level => Some(op),
            _ => None,
        }
    }

    /// Whether an expression of XPath 1.0 goes on with the next token.
    #[tactic(auto, unfolding(crate::specs::Grammar::is_operator))]
    pub fn is_operator(&self) -> bool
        ensures { result ≡ spec.is_operator self.now }
    {
        self.any_operator().is_some()
    }

    /// Whether an operator comes next that this profile leaves out.
    #[tactic(auto, unfolding(crate::specs::Grammar::is_foreign))]
    pub fn is_foreign(&self) -> bool
        ensures { result ≡ spec.is_foreign self.now }
    {
        self.sees(Kind::Bar) || self.sees_word(&DIV) || self.sees_word(&MOD)
    }

    /// Refuses the token that stands where a closing one is expected.
    #[tactic(auto, unfolding(crate::specs::Grammar::stray))]
    pub fn stray(&self) -> Refusal
        ensures { result ≡ spec.stray self.now }
    {
        if self.is_foreign() {
            self.unsupported(What::Operator)
        } else {
            self.refuse()
        }
    }

    #[tactic(auto, unfolding(crate::specs::Grammar::close))]
    pub fn close(&mut self, kind: Kind) -> Result<(), Refusal>
        ensures { Reads (spec.close kind self.old) result self.new }
    {
        if !self.sees(kind) {
            return Err(self.stray());
        }
        self.take();
        Ok(())
    }

    /// An expression that is no path, which no predicate and no step may follow.
    #[tactic(auto, unfolding(crate::specs::Grammar::unfiltered))]
    pub fn unfiltered(&self, expr: Expr) -> Result<Expr, Refusal>
        ensures { Reads (spec.unfiltered expr self.now) result self.now }
    {
        if self.sees(Kind::OpenBracket) || self.sees(Kind::Slash) || self.sees(Kind::DoubleSlash) {
            return Err(self.unsupported(What::Filter));
        }
        Ok(expr)
    }
}
