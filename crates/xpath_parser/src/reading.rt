// The path of a text.
ghost use Rattle.std.specs.Prelude.{◌≡◌, ◌≢◌, ◌≤◌, length, encode_utf8_all, IfOk, IsTrue};
ghost use Rattle.std.specs.Str.{chars};
ghost use Rattle.path_model.specs.Lawful.{is_lawful};
ghost use Rattle.xpath_parser.specs.Parse as spec;

use crate::grammar;
use crate::path_error::PathError;
use crate::refusal::{Refusal, What};
use crate::tokens::Tokens;
use dewey_labels::{NoMemory, Text};
use path_model::XPath;
use std::alloc::{AllocError, Global};

/// Reads a location path. Its cost is linear in the text's length.
pub fn parse(alloc: Global, text: &str) -> Result<XPath, PathError>
    ensures path { spec.Parses text.now result }
    ensures lawful { IfOk result (λ path. IsTrue (is_lawful path)) }
{
    let characters = characters_of(alloc, text)?;
    let mut tokens = Tokens::new(&characters);
    match grammar::whole(alloc, &mut tokens) {
        Ok(path) => Ok(path),
        Err(refusal) => Err(error_of(alloc, &characters, refusal)),
    }
}

fn characters_of(alloc: Global, text: &str) -> Result<Vec<char>, AllocError>
    ensures { IfOk result (λ v. v.items ≡ chars text.now) }
{
    text.chars().collect(alloc)
}

/// The first byte of the token from which on so many characters are left.
fn place_of(text: &[char], left: usize) -> u64
    requires { length (encode_utf8_all text.now) ≤ usize.MAX }
    ensures { result ≡ spec.place_of text.now left }
{
    let mut place = 0;
    for c in &text[..text.len().saturating_sub(left)] {
        place += c.len_utf8() as u64;
    }
    place
}

fn what_text(what: What) -> &'static str
    ensures { result.now ≡ spec.what_text what }
{
    match what {
        What::Axis => "axis",
        What::NodeTest => "node test",
        What::Prefix => "prefix",
        What::Expression => "expression",
        What::Variable => "variable",
        What::Function => "function",
        What::Operator => "operator",
        What::Fraction => "fraction",
        What::Number => "number",
        What::Filter => "filter",
        What::Argument => "argument",
    }
}

/// A refusal with its place.
fn error_of(alloc: Global, text: &[char], refusal: Refusal) -> PathError
    requires { length (encode_utf8_all text.now) ≤ usize.MAX }
    ensures { result ≢ PathError.NoMemory → result ≡ spec.error_of text.now refusal }
{
    match refusal {
        Refusal::Syntax(left) => PathError::Syntax {
            place: place_of(text, left),
        },
        Refusal::Unsupported(what, left) => match Text::of(alloc, what_text(what)) {
            Ok(what) => PathError::Unsupported {
                place: place_of(text, left),
                what,
            },
            Err(NoMemory) => PathError::NoMemory,
        },
        Refusal::Deep(left) => PathError::Deep {
            place: place_of(text, left),
        },
        Refusal::NoMemory => PathError::NoMemory,
    }
}
