// Why a token is refused.
ghost use Rattle.std.specs.Prelude.{◌≡◌};

use dewey_labels::NoMemory;
use std::alloc::AllocError;

/// A refusal, with how many characters stand from the refused token on.
#[derive(Clone, Copy, Debug, Drop, PartialEq, Eq)]
pub enum Refusal {
    Syntax(usize),
    Unsupported(What, usize),
    Deep(usize),
    NoMemory,
}

/// What a path of XPath 1.0 may have and one of this profile may not.
#[derive(Clone, Copy, Debug, Drop, PartialEq, Eq)]
pub enum What {
    Axis,
    NodeTest,
    Prefix,
    Expression,
    Variable,
    Function,
    Operator,
    Fraction,
    Number,
    Filter,
    Argument,
}

impl From<NoMemory> for Refusal {
    ghost use Rattle.xpath_parser.specs.declared.refusal.Refusal.TheVariants.{NoMemory};

    ghost from_gives = { λ _ refusal. refusal ≡ NoMemory };

    fn from(_error: NoMemory) -> Refusal {
        Refusal::NoMemory
    }
}

impl From<AllocError> for Refusal {
    ghost use Rattle.xpath_parser.specs.declared.refusal.Refusal.TheVariants.{NoMemory};

    ghost from_gives = { λ _ refusal. refusal ≡ NoMemory };

    fn from(_error: AllocError) -> Refusal {
        Refusal::NoMemory
    }
}
