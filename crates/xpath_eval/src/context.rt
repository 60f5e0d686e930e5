//! Where an expression stands.
ghost use Rattle.std.specs.Prelude.{◌≡◌, ◌<◌, ◌^◌, false};
ghost use Rattle.path_model.specs.Values as value;
ghost use Rattle.xpath_eval.specs.Values.{meant};

use crate::value::XValue;
use xpath_axes::Position;

/// The context node, its proximity position counted from 1, and the context size (XPath 1.0, section 1).
#[derive(Clone, Copy, Debug)]
pub(crate) struct Context<'a> {
    pub(crate) at: &'a Position,
    pub(crate) proximity: usize,
    pub(crate) size: usize,
    /// What stands for an operand that is lacking.
    pub(crate) lacking: &'a XValue,
    ghost small: { (proximity < 2 ^ 63) × (size < 2 ^ 63) },
    ghost lacks: { meant lacking.now ≡ value.flag false },
}
