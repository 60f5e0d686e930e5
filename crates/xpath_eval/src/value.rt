//! Values of expressions (XPath 1.0, section 1).
ghost use Rattle.std.specs.Prelude.{◌≡◌, ◌<◌, ◌^◌};
ghost use Rattle.path_model.specs.Functions.{keeps, whole};
ghost use Rattle.path_model.specs.Values as spec;
ghost use Rattle.xpath_eval.specs.Values.{meant};

use dewey_labels::Text;
use xpath_axes::Position;

/// A node set, in document order, a whole number or none, a string or a boolean.
#[derive(Debug, Drop)]
pub enum XValue {
    Nodes(Vec<Position>),
    Number(i64),
    NotANumber,
    Chars(Text),
    Flag(bool),
}

impl XValue {
    pub fn of_number(number: Option<i64>) -> XValue
        ensures { meant result ≡ spec.number number }
    {
        match number {
            Some(number) => XValue::Number(number),
            None => XValue::NotANumber,
        }
    }

    /// The boolean of the value (XPath 1.0, section 4.3, `boolean`).
    pub fn truth(&self) -> bool
        ensures { result ≡ spec.truth (meant self.now) }
    {
        match self {
            XValue::Nodes(nodes) => !nodes.is_empty(),
            XValue::Number(number) => *number != 0,
            XValue::NotANumber => false,
            XValue::Chars(chars) => !chars.as_str().is_empty(),
            XValue::Flag(flag) => *flag,
        }
    }

    /// Whether the predicate with this value keeps the node at a proximity position: a number is tested against that, any other value is turned into a boolean.
    pub fn keeps(&self, proximity: usize) -> bool
        ensures { result ≡ keeps (meant self.now) proximity }
    {
        match self {
            XValue::Number(number) => i128::from(*number) == proximity as i128,
            XValue::NotANumber => false,
            _ => self.truth(),
        }
    }
}
