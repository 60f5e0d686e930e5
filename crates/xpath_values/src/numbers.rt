//! Whole numbers of at most 18 digits, or not-a-number, and texts as numbers.
ghost use Rattle.std.specs.Prelude.{◌≡◌, ◌≤ℤ◌, reverse, pos, Some, None, IfOk, IfSome, if◌then◌else◌};
ghost use Rattle.path_model.specs.Numbers as spec;
ghost use Rattle.path_model.specs.Functions.{added_up, zero_number};

use dewey_labels::{NoMemory, Text};
use std::alloc::Global;

/// The greatest number; the least is its opposite.
const GREATEST: i64 = 999_999_999_999_999_999;

const LEAST: i64 = -999_999_999_999_999_999;

const MOST_DIGITS: usize = 18;

/// The number, if it is in range.
fn in_range(number: i64) -> Option<i64>
    ensures { result ≡ spec.in_range number }
{
    if LEAST <= number && number <= GREATEST {
        Some(number)
    } else {
        None
    }
}

/// The sum; not-a-number where one of them is, or out of range.
pub fn plus(a: Option<i64>, b: Option<i64>) -> Option<i64>
    ensures { result ≡ spec.plus a b }
{
    match (a, b) {
        (Some(a), Some(b)) => in_range(a.checked_add(b)?),
        _ => None,
    }
}

/// The difference; not-a-number where one of them is, or out of range.
pub fn minus(a: Option<i64>, b: Option<i64>) -> Option<i64>
    ensures { result ≡ spec.minus a b }
{
    match (a, b) {
        (Some(a), Some(b)) => in_range(a.checked_sub(b)?),
        _ => None,
    }
}

/// The product; not-a-number where one of them is, or out of range.
pub fn times(a: Option<i64>, b: Option<i64>) -> Option<i64>
    ensures { result ≡ spec.times a b }
{
    match (a, b) {
        (Some(a), Some(b)) => in_range(a.checked_mul(b)?),
        _ => None,
    }
}

/// The sum of the numbers that texts are, in their order; not-a-number where one of them is, or out of range on the way.
pub fn sum(texts: &[Text]) -> Option<i64>
    ensures { result ≡ added_up zero_number texts.now }
{
    let mut total = Some(0);
    for text in texts {
        total = plus(total, number_of_text(text.as_str()));
    }
    total
}

/// How the number is written: in decimal, or `NaN`.
pub fn text_of_number(alloc: Global, number: Option<i64>) -> Result<Text, NoMemory>
    ensures { IfOk result (λ text. text ≡ spec.text_of_number number) }
{
    match number {
        Some(number) => Ok(Text::from_string(format!(in alloc; "{number}")?)),
        None => Text::of(alloc, "NaN"),
    }
}

/// The number that a text is without white space at its ends: an optional minus and 1 to 18 digits.
pub fn number_of_text(text: &str) -> Option<i64>
    ensures { result ≡ spec.number_of_text text.now }
{
    number_read(without_spaces_behind(without_spaces_before(text.as_bytes())))
}

/// Space, tab, CR or LF.
pub fn is_space(byte: u8) -> bool
    ensures { result ≡ spec.is_space byte }
{
    matches!(byte, b' ' | b'\t' | b'\r' | b'\n')
}

fn without_spaces_before(bytes: &[u8]) -> &[u8]
    ensures { result.now ≡ spec.without_front bytes.now }
{
    let mut rest = bytes;
    while let [first, behind @ ..] = rest {
        if !is_space(*first) {
            break;
        }
        rest = behind;
    }
    rest
}

fn without_spaces_behind(bytes: &[u8]) -> &[u8]
    ensures { result.now ≡ reverse (spec.without_front (reverse bytes.now)) }
{
    let mut rest = bytes;
    while let [before @ .., last] = rest {
        if !is_space(*last) {
            break;
        }
        rest = before;
    }
    rest
}

fn number_read(bytes: &[u8]) -> Option<i64>
    ensures { result ≡ spec.number_read bytes.now }
{
    match bytes {
        [b'-', digits @ ..] => Some(-digits_value(digits)?),
        digits => digits_value(digits),
    }
}

/// The value of 1 to 18 digits.
fn digits_value(digits: &[u8]) -> Option<i64>
    ensures value { result ≡ (if spec.are_digits digits.now then Some (pos (spec.digits_value 0 digits.now)) else None) }
    ensures small { IfSome result (λ value. pos 0 ≤ℤ value) }
{
    if digits.is_empty() || digits.len() > MOST_DIGITS {
        return None;
    }
    let mut value = 0;
    for digit in digits {
        if !digit.is_ascii_digit() {
            return None;
        }
        value = value * 10 + u64::from(digit - b'0');
    }
    Some(value as i64)
}
