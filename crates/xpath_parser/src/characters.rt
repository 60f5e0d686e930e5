// Characters of names (XML 1.0, fifth edition, section 2.3), and others that tokens are cut by.
ghost use Rattle.std.specs.Prelude.{◌≡◌};
ghost use Rattle.tree_model.specs.Names.{is_in_ranges, is_start_char, is_name_char};
ghost use Rattle.path_model.specs.Numbers as numbers;
ghost use Rattle.xpath_parser.specs.Lex as spec;

/// The first and the last character of each range of NameStartChar.
const START_RANGES: [(char, char); 16] = [
    (':', ':'),
    ('A', 'Z'),
    ('_', '_'),
    ('a', 'z'),
    ('\u{C0}', '\u{D6}'),
    ('\u{D8}', '\u{F6}'),
    ('\u{F8}', '\u{2FF}'),
    ('\u{370}', '\u{37D}'),
    ('\u{37F}', '\u{1FFF}'),
    ('\u{200C}', '\u{200D}'),
    ('\u{2070}', '\u{218F}'),
    ('\u{2C00}', '\u{2FEF}'),
    ('\u{3001}', '\u{D7FF}'),
    ('\u{F900}', '\u{FDCF}'),
    ('\u{FDF0}', '\u{FFFD}'),
    ('\u{10000}', '\u{EFFFF}'),
];

/// The ranges that NameChar adds.
const FURTHER_RANGES: [(char, char); 5] = [
    ('-', '.'),
    ('0', '9'),
    ('\u{B7}', '\u{B7}'),
    ('\u{300}', '\u{36F}'),
    ('\u{203F}', '\u{2040}'),
];

fn is_start_char(c: char) -> bool
    ensures { result ≡ is_start_char c }
{
    is_in_ranges(&START_RANGES, c)
}

fn is_name_char(c: char) -> bool
    ensures { result ≡ is_name_char c }
{
    is_start_char(c) || is_in_ranges(&FURTHER_RANGES, c)
}

fn is_in_ranges(ranges: &[(char, char)], c: char) -> bool
    ensures { result ≡ is_in_ranges ranges.now c }
{
    ranges.iter().any(|(first, last)| *first <= c && c <= *last)
}

/// Whether a run of name characters begins with it: a colon is none here.
pub fn begins_run(c: char) -> bool
    ensures { result ≡ spec.begins_run c }
{
    is_start_char(c) && c != ':'
}

pub fn is_in_run(c: char) -> bool
    ensures { result ≡ spec.is_in_run c }
{
    is_name_char(c) && c != ':'
}

pub fn is_digit(c: char) -> bool
    ensures { result ≡ numbers.is_digit c }
{
    '0' <= c && c <= '9'
}

pub fn is_space(c: char) -> bool
    ensures { result ≡ numbers.is_space c }
{
    c == ' ' || c == '\t' || c == '\r' || c == '\n'
}
