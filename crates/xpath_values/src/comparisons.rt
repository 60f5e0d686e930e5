//! Comparisons of values (XPath 1.0, section 3.4).
ghost use Rattle.std.specs.Prelude.{◌≡◌, ◌||◌, Some, IsTrue};
ghost use Rattle.std.specs.List.{list_any};
ghost use Rattle.path_model.specs.Values as spec;
ghost use Rattle.xpath_values.specs.PlainValues.{plain};

use crate::XStrings;
use crate::numbers::number_of_text;
use dewey_labels::Text;
use path_model::CompareOp;

/// Whether the values compare. Two node sets take at most as many steps as their pairs of string-values have bytes, all else as many as its strings have.
pub fn compare(op: CompareOp, left: &XStrings, right: &XStrings) -> bool
    ensures { result ≡ spec.compare op (plain left.now) (plain right.now) }
{
    match (left, right) {
        (XStrings::Nodes(a), XStrings::Nodes(b)) => compare_sets(op, a.as_slice(), b.as_slice()),
        (XStrings::Nodes(a), XStrings::Flag(b)) => compare_flags(op, !a.is_empty(), *b),
        (XStrings::Flag(a), XStrings::Nodes(b)) => compare_flags(op, *a, !b.is_empty()),
        (XStrings::Nodes(a), XStrings::Chars(b)) => some_text(op, a.as_slice(), b.as_str()),
        (XStrings::Chars(a), XStrings::Nodes(b)) => to_some_text(op, a.as_str(), b.as_slice()),
        (XStrings::Nodes(a), _) => some_number(op, a.as_slice(), right.number()),
        (_, XStrings::Nodes(b)) => to_some_number(op, left.number(), b.as_slice()),
        (XStrings::Flag(_), _) | (_, XStrings::Flag(_)) => compare_with_flag(op, left, right),
        (XStrings::Chars(a), XStrings::Chars(b)) => compare_texts(op, a.as_str(), b.as_str()),
        _ => compare_numbers(op, left.number(), right.number()),
    }
}

/// Whether some pair of string-values compares.
fn compare_sets(op: CompareOp, a: &[Text], b: &[Text]) -> bool
    ensures { result ≡ list_any (λ s. list_any (λ r. spec.compare_single op (spec.text s) (spec.text r)) b.now) a.now }
{
    a.iter().any(|s| to_some_text(op, s.as_str(), b))
}

fn some_text(op: CompareOp, set: &[Text], text: &str) -> bool
    ensures { result ≡ list_any (λ s. spec.compare_single op (spec.text s) (spec.text text.now)) set.now }
{
    set.iter().any(|s| compare_texts(op, s.as_str(), text))
}

fn to_some_text(op: CompareOp, text: &str, set: &[Text]) -> bool
    ensures { result ≡ list_any (λ s. spec.compare_single op (spec.text text.now) (spec.text s)) set.now }
{
    set.iter().any(|s| compare_texts(op, text, s.as_str()))
}

fn some_number(op: CompareOp, set: &[Text], number: Option<i64>) -> bool
    ensures { result ≡ list_any (λ s. spec.compare_single op (spec.text s) (spec.number number)) set.now }
{
    set.iter().any(|s| compare_numbers(op, number_of_text(s.as_str()), number))
}

fn to_some_number(op: CompareOp, number: Option<i64>, set: &[Text]) -> bool
    ensures { result ≡ list_any (λ s. spec.compare_single op (spec.number number) (spec.text s)) set.now }
{
    set.iter().any(|s| compare_numbers(op, number, number_of_text(s.as_str())))
}

fn compare_texts(op: CompareOp, a: &str, b: &str) -> bool
    ensures { result ≡ spec.compare_single op (spec.text a.now) (spec.text b.now) }
{
    match op {
        CompareOp::Eq => a == b,
        CompareOp::Ne => a != b,
        _ => compare_numbers(op, number_of_text(a), number_of_text(b)),
    }
}

fn compare_flags(op: CompareOp, a: bool, b: bool) -> bool
    ensures { result ≡ spec.compare_single op (spec.flag a) (spec.flag b) }
{
    match op {
        CompareOp::Eq => a == b,
        CompareOp::Ne => a != b,
        _ => compare_numbers(op, Some(i64::from(a)), Some(i64::from(b))),
    }
}

/// As booleans, or by their order as numbers.
fn compare_with_flag(op: CompareOp, left: &XStrings, right: &XStrings) -> bool
    requires { IsTrue (spec.is_flag (plain left.now) || spec.is_flag (plain right.now)) }
    ensures { result ≡ spec.compare_single op (plain left.now) (plain right.now) }
{
    match op {
        CompareOp::Eq => left.truth() == right.truth(),
        CompareOp::Ne => left.truth() != right.truth(),
        _ => compare_numbers(op, left.number(), right.number()),
    }
}

fn compare_numbers(op: CompareOp, a: Option<i64>, b: Option<i64>) -> bool
    ensures { result ≡ spec.compare_numbers op a b }
{
    let (Some(a), Some(b)) = (a, b) else {
        return op == CompareOp::Ne;
    };
    match op {
        CompareOp::Eq => a == b,
        CompareOp::Ne => a != b,
        CompareOp::Lt => a < b,
        CompareOp::Le => a <= b,
        CompareOp::Gt => a > b,
        CompareOp::Ge => a >= b,
    }
}
