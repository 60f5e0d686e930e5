//! Values with a node set by its string-values, and what they are turned into.
ghost use Rattle.std.specs.Prelude.{◌≡◌, IfOk};
ghost use Rattle.path_model.specs.Values as spec;
ghost use Rattle.xpath_values.specs.PlainValues.{plain};

use crate::numbers::{number_of_text, text_of_number};
use dewey_labels::{List, NoMemory, Text};
use std::alloc::Global;

/// A value: a node set by the string-values of its nodes, in document order, a whole number or none, a string or a boolean.
#[derive(Debug, Drop)]
pub enum XStrings {
    Nodes(List<Text>),
    Number(i64),
    NotANumber,
    Chars(Text),
    Flag(bool),
}

impl XStrings {
    /// The boolean of the value (XPath 1.0, section 4.3, `boolean`).
    pub fn truth(&self) -> bool
        ensures { result ≡ spec.truth (plain self.now) }
    {
        match self {
            XStrings::Nodes(strings) => !strings.is_empty(),
            XStrings::Number(number) => *number != 0,
            XStrings::NotANumber => false,
            XStrings::Chars(chars) => !chars.as_str().is_empty(),
            XStrings::Flag(flag) => *flag,
        }
    }

    /// The number of the value, if it is one (section 4.4, `number`).
    pub fn number(&self) -> Option<i64>
        ensures { result ≡ spec.number_in (plain self.now) }
    {
        match self {
            XStrings::Nodes(strings) => number_of_text(first_text(strings)),
            XStrings::Number(number) => Some(*number),
            XStrings::NotANumber => None,
            XStrings::Chars(chars) => number_of_text(chars.as_str()),
            XStrings::Flag(flag) => Some(if *flag { 1 } else { 0 }),
        }
    }

    /// The string of the value (section 4.2, `string`).
    pub fn text(&self, alloc: Global) -> Result<Text, NoMemory>
        ensures { IfOk result (λ text. text ≡ spec.text_in (plain self.now)) }
    {
        match self {
            XStrings::Nodes(strings) => Text::of(alloc, first_text(strings)),
            XStrings::Number(number) => text_of_number(alloc, Some(*number)),
            XStrings::NotANumber => text_of_number(alloc, None),
            XStrings::Chars(chars) => chars.copy(alloc),
            XStrings::Flag(true) => Text::of(alloc, "true"),
            XStrings::Flag(false) => Text::of(alloc, "false"),
        }
    }
}

/// The string-value of the first node, and the empty string where there is none.
fn first_text(strings: &List<Text>) -> &str
    ensures { result.now ≡ spec.first_text strings.now }
{
    match strings.as_slice() {
        [first, ..] => first.as_str(),
        [] => "",
    }
}
