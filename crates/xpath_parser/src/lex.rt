// Cuts the token at the front of a text.
ghost use Rattle.std.specs.Prelude.{◌≡◌, ◌≤◌, ◌+◌, length};
ghost use Rattle.xpath_parser.specs.Lex as spec;
ghost use Rattle.path_model.specs.Numbers as numbers;
ghost use Rattle.std.specs.List.{prefix_len};

use crate::characters::{begins_run, is_digit, is_in_run, is_space};

/// What a token is.
#[derive(Clone, Copy, Debug, Drop, PartialEq, Eq)]
pub enum Kind {
    /// The end of the text.
    End,
    /// A character that begins no token.
    Bad,
    Name,
    /// `a:*`
    Prefix,
    Number,
    Fraction,
    Literal,
    Variable,
    Open,
    Close,
    OpenBracket,
    CloseBracket,
    Comma,
    At,
    DoubleColon,
    Slash,
    DoubleSlash,
    Dot,
    DoubleDot,
    Star,
    Bar,
    Plus,
    Minus,
    Equal,
    NotEqual,
    Less,
    LessEqual,
    Greater,
    GreaterEqual,
}

fn first_is(z: &[char], c: char) -> bool
    ensures { result ≡ spec.begins_with_char c z.now }
{
    match z {
        [first, ..] => *first == c,
        [] => false,
    }
}

fn run(z: &[char]) -> usize
    ensures value { result ≡ spec.run z.now }
    ensures within { result ≤ length z.now }
{
    let mut end = 0;
    while end < z.len() && is_in_run(z[end]) {
        end += 1;
    }
    end
}

fn digits(z: &[char]) -> usize
    ensures value { result ≡ spec.digits z.now }
    ensures within { result ≤ length z.now }
{
    let mut end = 0;
    while end < z.len() && is_digit(z[end]) {
        end += 1;
    }
    end
}

fn spaces(z: &[char]) -> usize
    ensures value { result ≡ prefix_len numbers.is_space z.now }
    ensures within { result ≤ length z.now }
{
    let mut end = 0;
    while end < z.len() && is_space(z[end]) {
        end += 1;
    }
    end
}

fn quoted(quote: char, z: &[char]) -> usize
    ensures value { result ≡ spec.quoted quote z.now }
    ensures within { result ≤ length z.now }
{
    let mut end = 0;
    while end < z.len() && z[end] != quote {
        end += 1;
    }
    end
}

fn begins_run_in(z: &[char]) -> bool
    ensures { result ≡ spec.first_passes spec.begins_run z.now }
{
    match z {
        [first, ..] => begins_run(*first),
        [] => false,
    }
}

fn begins_digits(z: &[char]) -> bool
    ensures { result ≡ spec.first_passes numbers.is_digit z.now }
{
    match z {
        [first, ..] => is_digit(*first),
        [] => false,
    }
}

/// Behind a run of `len` characters and a colon.
#[tactic(auto, unfolding(crate::specs::Lex::behind_colon))]
fn behind_colon(len: usize, z: &[char]) -> (Kind, usize)
    requires { len + length z.now + 1 ≤ usize.MAX }
    ensures value { result ≡ spec.behind_colon len z.now }
    ensures within { result.1 ≤ len + 1 + length z.now }
{
    if begins_run_in(z) {
        (Kind::Name, len + 1 + run(z))
    } else if first_is(z, '*') {
        (Kind::Prefix, len + 2)
    } else {
        (Kind::Name, len)
    }
}

#[tactic(auto, unfolding(crate::specs::Lex::behind_run))]
fn name_token(z: &[char]) -> (Kind, usize)
    ensures value { result ≡ spec.name_token z.now }
    ensures within { result.1 ≤ length z.now }
{
    let len = run(z);
    let rest = &z[len..];
    if first_is(rest, ':') {
        behind_colon(len, &rest[1..])
    } else {
        (Kind::Name, len)
    }
}

#[tactic(auto, unfolding(crate::specs::Lex::behind_digits))]
fn number_token(z: &[char]) -> (Kind, usize)
    ensures value { result ≡ spec.number_token z.now }
    ensures within { result.1 ≤ length z.now }
{
    let len = digits(z);
    let rest = &z[len..];
    if first_is(rest, '.') {
        (Kind::Fraction, len + 1 + digits(&rest[1..]))
    } else {
        (Kind::Number, len)
    }
}

#[tactic(auto, unfolding(crate::specs::Lex::behind_point))]
fn behind_point(z: &[char]) -> (Kind, usize)
    requires { length z.now + 1 ≤ usize.MAX }
    ensures value { result ≡ spec.behind_point z.now }
    ensures within { result.1 ≤ 1 + length z.now }
{
    if first_is(z, '.') {
        (Kind::DoubleDot, 2)
    } else if begins_digits(z) {
        (Kind::Fraction, 1 + digits(z))
    } else {
        (Kind::Dot, 1)
    }
}

#[tactic(auto, unfolding(crate::specs::Lex::behind_quote))]
fn behind_quote(quote: char, z: &[char]) -> (Kind, usize)
    requires { length z.now + 1 ≤ usize.MAX }
    ensures value { result ≡ spec.behind_quote quote z.now }
    ensures within { result.1 ≤ 1 + length z.now }
{
    let len = quoted(quote, z);
    if len < z.len() {
        (Kind::Literal, len + 2)
    } else {
        (Kind::Bad, 1)
    }
}

#[tactic(auto, unfolding(crate::specs::Lex::behind_dollar))]
fn behind_dollar(z: &[char]) -> (Kind, usize)
    requires { length z.now + 1 ≤ usize.MAX }
    ensures value { result ≡ spec.behind_dollar z.now }
    ensures within { result.1 ≤ 1 + length z.now }
{
    if begins_run_in(z) {
        (Kind::Variable, 1 + run(z))
    } else {
        (Kind::Bad, 1)
    }
}

fn sign(c: char) -> Kind
    ensures { result ≡ spec.sign c }
{
    match c {
        '(' => Kind::Open,
        ')' => Kind::Close,
        '[' => Kind::OpenBracket,
        ']' => Kind::CloseBracket,
        ',' => Kind::Comma,
        '@' => Kind::At,
        '*' => Kind::Star,
        '|' => Kind::Bar,
        '+' => Kind::Plus,
        '-' => Kind::Minus,
        '=' => Kind::Equal,
        '/' => Kind::Slash,
        '<' => Kind::Less,
        '>' => Kind::Greater,
        _ => Kind::Bad,
    }
}

fn double_sign(c: char, d: char) -> Kind
    ensures { result ≡ spec.double_sign c d }
{
    match (c, d) {
        ('/', '/') => Kind::DoubleSlash,
        (':', ':') => Kind::DoubleColon,
        ('!', '=') => Kind::NotEqual,
        ('<', '=') => Kind::LessEqual,
        ('>', '=') => Kind::GreaterEqual,
        _ => Kind::Bad,
    }
}

#[tactic(auto, unfolding(crate::specs::Lex::sign_token))]
fn sign_token(c: char, z: &[char]) -> (Kind, usize)
    ensures value { result ≡ spec.sign_token c z.now }
    ensures within { result.1 ≤ 1 + length z.now }
{
    let [d, ..] = z else {
        return (sign(c), 1);
    };
    match double_sign(c, *d) {
        Kind::Bad => (sign(c), 1),
        both => (both, 2),
    }
}

#[tactic(auto, unfolding(crate::specs::Lex::token_at))]
fn token_at(c: char, z: &[char]) -> (Kind, usize)
    requires { length z.now + 1 ≤ usize.MAX }
    ensures value { result ≡ spec.token_at c z.now }
    ensures within { result.1 ≤ 1 + length z.now }
{
    if c == '.' {
        behind_point(z)
    } else if c == '"' || c == '\'' {
        behind_quote(c, z)
    } else if c == '$' {
        behind_dollar(z)
    } else {
        sign_token(c, z)
    }
}

/// The kind of the first token, and its length.
#[tactic(auto, unfolding(crate::specs::Lex::token))]
pub fn token(z: &[char]) -> (Kind, usize)
    ensures value { result ≡ spec.token z.now }
    ensures within { result.1 ≤ length z.now }
{
    let [c, rest @ ..] = z else {
        return (Kind::End, 0);
    };
    if begins_run(*c) {
        name_token(z)
    } else if is_digit(*c) {
        number_token(z)
    } else {
        token_at(*c, rest)
    }
}

/// The text from the first token on.
pub fn skip(z: &[char]) -> &[char]
    ensures { result.now ≡ spec.skip z.now }
{
    &z[spaces(z)..]
}
