//! Numbers, comparisons and functions on strings, as tables.
use dewey_labels::{List, NoMemory, Text};
use path_model::CompareOp;
use std::alloc::Global;
use std::test::Fail;
use xpath_values::{
    XStrings, compare, concat, normalize_space, number_of_text, substring_after, substring_before,
    substring_within, text_of_number,
};

/// Texts, and the numbers that they are.
const NUMBERS: [(&str, Option<i64>); 12] = [
    ("9", Some(9)),
    (" 11 ", Some(11)),
    ("\t-7\r\n", Some(-7)),
    ("-0", Some(0)),
    ("999999999999999999", Some(999_999_999_999_999_999)),
    ("0999999999999999999", None),
    ("1.5", None),
    ("abc", None),
    ("", None),
    ("+1", None),
    ("- 1", None),
    ("\u{A0}1", None),
];

#[test]
fn a_text_is_a_number_by_its_digits(rt: HostRuntime) {
    for &(text, wanted) in &NUMBERS {
        assert_eq!(rt; number_of_text(text), wanted, "at {text:?}");
    }
}

fn node_set(alloc: Global, strings: &[&str]) -> Result<XStrings, NoMemory> {
    let mut nodes = List::new(alloc);
    for string in strings {
        nodes.push(Text::of(alloc, string)?)?;
    }
    Ok(XStrings::Nodes(nodes))
}

/// Whether a node set compares with a number.
fn to_number(alloc: Global, strings: &[&str], op: CompareOp, number: i64) -> Result<bool, Fail> {
    let set = node_set(alloc, strings)?;
    Ok(compare(op, &set, &XStrings::Number(number)))
}

/// Whether two node sets compare.
fn to_set(alloc: Global, left: &[&str], op: CompareOp, right: &[&str]) -> Result<bool, Fail> {
    let left = node_set(alloc, left)?;
    let right = node_set(alloc, right)?;
    Ok(compare(op, &left, &right))
}

#[test]
fn a_node_set_compares_with_a_number_where_some_node_does(rt: HostRuntime) -> Result<(), Fail> {
    for (strings, op, number, wanted) in [
        (["9"].as_slice(), CompareOp::Gt, 10, false),
        (&[" 11 "], CompareOp::Gt, 10, true),
        (&["1.5"], CompareOp::Gt, 10, false),
        (&["abc"], CompareOp::Gt, 10, false),
        (&["abc"], CompareOp::Ne, 10, true),
        (&["9", " 11 "], CompareOp::Gt, 10, true),
        (&[], CompareOp::Ne, 10, false),
    ] {
        let found = to_number(rt.alloc(), strings, op, number)?;
        assert_eq!(rt; found, wanted, "at {strings:?}");
    }
    Ok(())
}

#[test]
fn two_node_sets_compare_where_some_pair_does(rt: HostRuntime) -> Result<(), Fail> {
    for (left, op, right, wanted) in [
        (["1"].as_slice(), CompareOp::Eq, ["1"].as_slice(), true),
        (&["2"], CompareOp::Eq, &["1"], false),
        (&["2", "1"], CompareOp::Eq, &["3", "1"], true),
        (&["1", "1"], CompareOp::Ne, &["1"], false),
        (&["1", "2"], CompareOp::Ne, &["1", "2"], true),
        (&["5", "x"], CompareOp::Lt, &["4", "6"], true),
    ] {
        let found = to_set(rt.alloc(), left, op, right)?;
        assert_eq!(rt; found, wanted, "at {left:?} {right:?}");
    }
    Ok(())
}

/// The calls that take memory, each with ample memory, and the cuts that XPath 1.0, section 4.2, gives as examples.
fn answer(alloc: Global, call: u8) -> Result<Text, NoMemory> {
    match call {
        0 => text_of_number(alloc, Some(-12)),
        1 => text_of_number(alloc, None),
        2 => XStrings::Flag(true).text(alloc),
        3 => node_set(alloc, &["x", "y"])?.text(alloc),
        4 => normalize_space(alloc, " \ta  b\r\n\u{A0} "),
        5 => Text::of(alloc, substring_before("1999/04/01", "/")),
        6 => Text::of(alloc, substring_after("1999/04/01", "/")),
        7 => Text::of(alloc, substring_within("12345", Some(0), Some(3))),
        8 => Text::of(alloc, substring_within("é😀x", Some(2), Some(1))),
        _ => concat(
            alloc,
            vec![in alloc; Text::of(alloc, "a")?, Text::of(alloc, "b")?]?.as_slice(),
        ),
    }
}

#[test]
fn calls_on_strings_answer_with_ample_memory(rt: HostRuntime) -> Result<(), Fail> {
    for (call, wanted) in [
        (0, "-12"),
        (1, "NaN"),
        (2, "true"),
        (3, "x"),
        (4, "a b \u{A0}"),
        (5, "1999"),
        (6, "04/01"),
        (7, "12"),
        (8, "😀"),
        (9, "ab"),
    ] {
        let found = answer(rt.alloc(), call)?;
        assert_eq!(rt; found.as_str(), wanted, "at {call}");
    }
    Ok(())
}
