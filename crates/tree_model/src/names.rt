//! Names of elements, attributes and documents.
ghost use Rattle.std.specs.Prelude.{◌≡◌};
ghost use Rattle.std.specs.List.{list_all};
ghost use Rattle.std.specs.Str.{chars};
ghost use Rattle.tree_model.specs.Names.{are_name_chars, begins_name, is_in_ranges, is_start_char, is_name_char, is_name};

use crate::MOST_NAME_BYTES;
use dewey_labels::Text;

/// The first and the last character of each range of NameStartChar.
const START_RANGES: [(char, char); 16] = [
    (':', ':'),
    ('A', 'Z'),
    ('_', '_'),
    ('a', 'z'),
    ('\u{C0}', '\u{D6}'),
    ('\u{D8}', '\u{F6}'),
    ('\u{F8}', '\u{2FF}'),
    ('\u{370}', '\u{37D}'),
    ('\u{37F}', '\u{1FFF}'),
    ('\u{200C}', '\u{200D}'),
    ('\u{2070}', '\u{218F}'),
    ('\u{2C00}', '\u{2FEF}'),
    ('\u{3001}', '\u{D7FF}'),
    ('\u{F900}', '\u{FDCF}'),
    ('\u{FDF0}', '\u{FFFD}'),
    ('\u{10000}', '\u{EFFFF}'),
];

/// The ranges that NameChar adds.
const FURTHER_RANGES: [(char, char); 5] = [
    ('-', '.'),
    ('0', '9'),
    ('\u{B7}', '\u{B7}'),
    ('\u{300}', '\u{36F}'),
    ('\u{203F}', '\u{2040}'),
];

/// Whether a text is a Name of XML 1.0 (fifth edition) of at most 1,024 bytes.
#[tactic(auto, unfolding(crate::specs::Names::is_name))]
pub fn is_name(s: &Text) -> bool
    ensures exact { result ≡ is_name s.now }
{
    let text = s.as_str();
    text.len() <= MOST_NAME_BYTES && are_name_chars(text)
}

fn are_name_chars(text: &str) -> bool
    ensures { result ≡ are_name_chars (chars text.now) }
{
    begins_name(text) && has_name_chars(text)
}

/// Whether the text has a first character, and it may begin a Name.
fn begins_name(text: &str) -> bool
    ensures { result ≡ begins_name (chars text.now) }
{
    text.chars().next().is_some_and(is_start_char)
}

fn has_name_chars(text: &str) -> bool
    ensures { result ≡ list_all is_name_char (chars text.now) }
{
    text.chars().all(is_name_char)
}

fn is_start_char(c: char) -> bool
    ensures { result ≡ is_start_char c }
{
    is_in_ranges(&START_RANGES, c)
}

fn is_name_char(c: char) -> bool
    ensures { result ≡ is_name_char c }
{
    is_start_char(c) || is_in_ranges(&FURTHER_RANGES, c)
}

fn is_in_ranges(ranges: &[(char, char)], c: char) -> bool
    ensures { result ≡ is_in_ranges ranges.now c }
{
    ranges.iter().any(|(first, last)| *first <= c && c <= *last)
}
