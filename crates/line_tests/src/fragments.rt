//! Fragments as JSON, the rules that a value breaks, and the limits.
use dewey_labels::{List, Text};
use jsonml_io::{
    FragmentError, of_value, read_fragment, read_value, text_of, to_value, write_fragment,
};
use serde_json::Value;
use std::alloc::Global;
use std::test::Fail;
use tree_model::Fragment;

/// The bytes of a fragment's text, if its tokens give the same.
fn bytes_of(alloc: Global, fragment: &Fragment) -> Result<List<u8>, Fail> {
    let mut out = List::new(alloc);
    write_fragment(alloc, fragment, &mut out)?;
    let by_tokens = text_of(alloc, fragment)?;
    if by_tokens.as_slice() == out.as_slice() {
        Ok(out)
    } else {
        Err(Fail::from("two texts"))
    }
}

/// The fragment's text, which its value and its tokens give.
fn told_of(alloc: Global, fragment: &Fragment) -> Result<String, Fail> {
    let bytes = bytes_of(alloc, fragment)?;
    match str::from_utf8(bytes.as_slice()) {
        Ok(text) => Ok(String::from_str(alloc, text)?),
        Err(_) => Err(Fail::from("no text")),
    }
}

/// The name and place of a copy of a refusal.
fn refusal_of(alloc: Global, error: &FragmentError) -> Result<String, Fail> {
    let copy = error.copy(alloc)?;
    Ok(format!(in alloc; "{} {}", copy.name(), copy.path())?)
}

/// The fragment's text, or the name and place of the refusal.
fn told(alloc: Global, read: Result<Fragment, FragmentError>) -> Result<String, Fail> {
    match read {
        Ok(fragment) => told_of(alloc, &fragment),
        Err(error) => refusal_of(alloc, &error),
    }
}

/// A value, and its fragment's text, or the refusal's name and place.
const VALUES: [(&str, &str); 34] = [
    // Each rule at the top.
    ("[", "NotJson "),
    ("{}", "NotJsonMl "),
    ("null", "NotJsonMl "),
    ("7", "NotJsonMl "),
    ("[]", "NotJsonMl "),
    ("[1]", "NotJsonMl /0"),
    ("[\"1a\"]", "BadName /0"),
    ("[\"\"]", "BadName /0"),
    // In an attribute.
    ("[\"a\",{\"1\":[]}]", "BadName /1/1"),
    ("[\"a\",{\"b~/c\":\"\"}]", "BadName /1/b~0~1c"),
    ("[\"a\",{\"\u{E9}/\":\"\"}]", "BadName /1/\u{E9}~1"),
    ("[\"a\",{\"n\":[]}]", "NotJsonMl /1/n"),
    ("[\"a\",{\"n\":{}}]", "NotJsonMl /1/n"),
    ("[\"a\",{\"n\":1.5}]", "Fraction /1/n"),
    ("[\"a\",{\"n\":-0}]", "Fraction /1/n"),
    ("[\"a\",{\"n\":1e2}]", "Fraction /1/n"),
    ("[\"a\",{\"n\":18446744073709551616}]", "Fraction /1/n"),
    ("[\"a\",{\"n\":-9223372036854775809}]", "Fraction /1/n"),
    // In a child.
    ("[\"a\",\"x\",[]]", "NotJsonMl /2"),
    ("[\"a\",[\"b\",[\"c\",[null]]]]", "NotJsonMl /1/1/1/0"),
    (
        "[\"a\",{\"n\":\"\"},[\"b\",{\"m\":0.5}]]",
        "Fraction /2/1/m",
    ),
    ("[\"a\",[\"b\"],{}]", "NotJsonMl /2"),
    ("[\"a\",\"x\",true]", "NotJsonMl /2"),
    // Two at once: attributes by their names' bytes, then children from the left.
    ("[\"1\",{\"n\":[]},7]", "BadName /0"),
    ("[\"a\",{\"n\":[]},7]", "NotJsonMl /1/n"),
    ("[\"a\",{\"b\":1.5,\"a\":[]}]", "NotJsonMl /1/a"),
    ("[\"a\",{\"b\":1.5,\"Z\":2.5}]", "Fraction /1/Z"),
    ("[\"a\",[\"b\",7],[]]", "NotJsonMl /1/1"),
    // None.
    ("\"t\"", "\"t\""),
    (
        "[\"a\",{\"n\":5,\"t\":true,\"z\":null},\"\",[\"b\"],\"x\",\"y\"]",
        "[\"a\",{\"n\":\"5\",\"t\":\"true\",\"z\":\"\"},\"\",[\"b\"],\"x\",\"y\"]",
    ),
    (
        " [\"a\", {\"m\": false, \"b\": -9223372036854775808, \"a\": 18446744073709551615} ] ",
        "[\"a\",{\"a\":\"18446744073709551615\",\"b\":\"-9223372036854775808\",\"m\":\"false\"}]",
    ),
    ("[\"a\",{\"n\":1,\"n\":2}]", "[\"a\",{\"n\":\"2\"}]"),
    ("[\"a\",{}]", "[\"a\"]"),
    ("[\"a\",{},{}]", "NotJsonMl /2"),
];

#[test]
fn a_value_is_a_fragment_or_breaks_a_first_rule(rt: HostRuntime) -> Result<(), Fail> {
    let alloc = rt.alloc();
    for &(json, want) in &VALUES {
        let read = read_fragment(alloc, json.as_bytes());
        assert_eq!(rt; told(alloc, read)?.as_str(), want, "{json}");
    }
    Ok(())
}

/// `before` so many times, then `middle`, then `behind` so many times.
pub fn nested(
    alloc: Global,
    times: usize,
    before: &str,
    middle: &str,
    behind: &str,
) -> Result<String, Fail> {
    let mut text = String::new(alloc);
    for _ in 0..times {
        text.push_str(before)?;
    }
    text.push_str(middle)?;
    for _ in 0..times {
        text.push_str(behind)?;
    }
    Ok(text)
}

/// Elements around what stands in the middle; how it is refused, and how deep.
const NESTED: [(usize, &str, &str, usize); 7] = [
    (99, "[\"b\"]", "", 0),
    (100, "[\"b\"]", "TooDeep ", 100),
    (100, "[]", "TooDeep ", 100),
    (99, "[]", "NotJsonMl ", 99),
    (99, "\"t\"", "", 0),
    (100, "\"t\"", "TooDeep ", 100),
    (100, "7", "NotJsonMl ", 100),
];

/// What a text is told as where it isn't refused, or with this at such a depth.
fn wanted(alloc: Global, json: &str, refused: &str, place: usize) -> Result<String, Fail> {
    if refused.is_empty() {
        return Ok(String::from_str(alloc, json)?);
    }
    let path = nested(alloc, place, "/1", "", "")?;
    Ok(format!(in alloc; "{refused}{path}")?)
}

/// What so many elements around a middle are told as, and what is wanted.
fn told_around(
    alloc: Global,
    around: usize,
    middle: &str,
    refused: &str,
    place: usize,
) -> Result<(String, String), Fail> {
    let json = nested(alloc, around, "[\"a\",", middle, "]")?;
    let told = told(alloc, read_fragment(alloc, json.as_bytes()))?;
    let want = wanted(alloc, &json, refused, place)?;
    Ok((told, want))
}

#[test]
fn arrays_nest_100_deep(rt: HostRuntime) -> Result<(), Fail> {
    for &(around, middle, refused, place) in &NESTED {
        let (told, want) = told_around(rt.alloc(), around, middle, refused, place)?;
        assert_eq!(rt; told, want, "{around} around {middle}");
    }
    Ok(())
}

/// What stands before and behind 1,048,576 letters, and how the whole is refused.
const AROUND_LETTERS: [(&str, &str, &str); 5] = [
    ("\"", "\"", ""),
    ("\"", "x\"", "TextLimit "),
    ("[\"a\",{\"n\":\"", "\"}]", ""),
    ("[\"a\",{\"n\":\"", "x\"}]", "TextLimit /1/n"),
    ("[\"", "x\"]", "BadName /0"),
];

/// Whether letters with these around them are told as they stand, or so refused.
fn letters_are_told(
    alloc: Global,
    letters: &str,
    before: &str,
    behind: &str,
    refused: &str,
) -> Result<bool, Fail> {
    let json = format!(in alloc; "{before}{letters}{behind}")?;
    let told = told(alloc, read_fragment(alloc, json.as_bytes()))?;
    let want = if refused.is_empty() {
        json.as_str()
    } else {
        refused
    };
    Ok(told.as_str() == want)
}

#[test]
fn texts_have_1048576_bytes(rt: HostRuntime) -> Result<(), Fail> {
    let letters = nested(rt.alloc(), 1_048_576, "x", "", "")?;
    for &(before, behind, refused) in &AROUND_LETTERS {
        assert!(rt; letters_are_told(rt.alloc(), &letters, before, behind, refused)?);
    }
    Ok(())
}

fn fragment_of(alloc: Global, value: &Value) -> Result<Fragment, Fail> {
    match of_value(alloc, value) {
        Ok(fragment) => Ok(fragment),
        Err(_) => Err(Fail::from("no fragment")),
    }
}

/// Whether a fragment is written as this value, and as this text.
fn is_written_as(
    alloc: Global,
    fragment: &Fragment,
    value: &Value,
    json: &str,
) -> Result<bool, Fail> {
    let again = to_value(alloc, fragment)?;
    let same = again == *value;
    drop(again);
    Ok(same && told_of(alloc, fragment)?.as_str() == json)
}

/// Whether the fragment of a value is.
fn is_again(alloc: Global, value: &Value, json: &str) -> Result<bool, Fail> {
    let fragment = fragment_of(alloc, value)?;
    is_written_as(alloc, &fragment, value, json)
}

/// Whether a fragment's text is read as a value that the fragment is written as, and is written again.
fn is_written_again(alloc: Global, json: &str) -> Result<bool, Fail> {
    match read_value(alloc, json.as_bytes())? {
        Some(value) => is_again(alloc, &value, json),
        None => Err(Fail::from("no value")),
    }
}

#[test]
fn values_are_read_and_written(rt: HostRuntime) -> Result<(), Fail> {
    let alloc = rt.alloc();
    let json = "[\"a\",{\"n\":\"\\u0001\"},\"\\\"\",[\"b\"]]";
    assert!(rt; is_written_again(alloc, json)?);
    assert!(rt; read_value(alloc, &[0xFF])?.is_none());
    let refused = of_value(alloc, &Value::Null);
    assert_eq!(rt; told(alloc, refused)?.as_str(), "NotJsonMl ");
    Ok(())
}

fn push_attribute(
    alloc: Global,
    attrs: &mut List<(Text, Text)>,
    name: &str,
    value: &str,
) -> Result<(), Fail> {
    let name = Text::of(alloc, name)?;
    let value = Text::of(alloc, value)?;
    attrs.push((name, value))?;
    Ok(())
}

fn attributes(alloc: Global) -> Result<List<(Text, Text)>, Fail> {
    let mut attrs = List::new(alloc);
    push_attribute(alloc, &mut attrs, "b", "1")?;
    push_attribute(alloc, &mut attrs, "a", "2")?;
    push_attribute(alloc, &mut attrs, "b", "3")?;
    Ok(attrs)
}

fn element(alloc: Global) -> Result<Fragment, Fail> {
    let name = Text::of(alloc, "e")?;
    Ok(Fragment::Element {
        name,
        attrs: attributes(alloc)?,
        children: List::new(alloc),
    })
}

#[test]
fn attributes_out_of_order_are_an_object(rt: HostRuntime) -> Result<(), Fail> {
    let fragment = element(rt.alloc())?;
    let want = "[\"e\",{\"a\":\"2\",\"b\":\"3\"}]";
    assert_eq!(rt; told_of(rt.alloc(), &fragment)?.as_str(), want);
    Ok(())
}
