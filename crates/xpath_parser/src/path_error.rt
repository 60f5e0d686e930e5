// Why a text is no path.
ghost use Rattle.std.specs.Prelude.{◌≡◌, IfOk};
ghost use Rattle.xpath_parser.specs.Parse.{refusal_name, refusal_place};

use dewey_labels::{Copied, NoMemory, Text};
use std::alloc::{AllocError, Global};

/// Why a text is no path. `place` is the first byte of the first token that no path goes on with, or the text's length at its end.
#[derive(Debug, Drop)]
pub enum PathError {
    Syntax { place: u64 },
    /// The token would go on with an expression of XPath 1.0; `what` says with which part.
    Unsupported { place: u64, what: Text },
    /// The token opens the 51st of nested predicates, parentheses, calls and unary minuses.
    Deep { place: u64 },
    NoMemory,
}

impl From<NoMemory> for PathError {
    ghost use Rattle.xpath_parser.specs.declared.path_error.PathError.TheVariants.{NoMemory};

    ghost from_gives = { λ _ error. error ≡ NoMemory };

    fn from(_error: NoMemory) -> PathError {
        PathError::NoMemory
    }
}

impl From<AllocError> for PathError {
    ghost use Rattle.xpath_parser.specs.declared.path_error.PathError.TheVariants.{NoMemory};

    ghost from_gives = { λ _ error. error ≡ NoMemory };

    fn from(_error: AllocError) -> PathError {
        PathError::NoMemory
    }
}

impl PathError {
    /// The refusal's name, as replies have it.
    pub fn name(&self) -> &'static str
        ensures { result.now ≡ refusal_name self.now }
    {
        match self {
            PathError::Syntax { .. } => "Syntax",
            PathError::Unsupported { .. } => "Unsupported",
            PathError::Deep { .. } => "Deep",
            PathError::NoMemory => "NoMemory",
        }
    }

    /// The place in bytes; 0 where memory was wanting.
    pub fn place(&self) -> u64
        ensures { result ≡ refusal_place self.now }
    {
        match self {
            PathError::Syntax { place }
            | PathError::Unsupported { place, .. }
            | PathError::Deep { place } => *place,
            PathError::NoMemory => 0,
        }
    }
}

impl PathError {
    pub fn copy(&self, alloc: Global) -> Result<PathError, NoMemory>
        ensures { IfOk result (λ copy. copy ≡ self.now) }
    {
        match self {
            PathError::Syntax { place } => Ok(PathError::Syntax { place: *place }),
            PathError::Unsupported { place, what } => Ok(PathError::Unsupported {
                place: *place,
                what: what.copy(alloc)?,
            }),
            PathError::Deep { place } => Ok(PathError::Deep { place: *place }),
            PathError::NoMemory => Ok(PathError::NoMemory),
        }
    }
}

impl Copied for PathError {
    fn copy(&self, alloc: Global) -> Result<PathError, NoMemory> {
        PathError::copy(self, alloc)
    }
}
