// The attributes of an element, read from the members of a JSON object.
ghost use Rattle.std.specs.Prelude.{◌≡◌, [], IsTrue, IfOk, string_bytes};
ghost use Rattle.std.specs.Fmt.{decimal, signed_decimal};
ghost use Rattle.serde_json.specs.View.{view, members_view, number_view};
ghost use Rattle.tree_model.specs.Records.{is_data};
ghost use Rattle.tree_model.specs.ValidTrees.{NamesRise, ValuesFit};
ghost use Rattle.jsonml_io.specs.Pointers.{step_to_member};
ghost use Rattle.jsonml_io.specs.JsonMl.{Reads, below, attributes, attribute, value_text, whole_number, limited};

use crate::FragmentError;
use dewey_labels::{List, NoMemory, Text};
use serde_json::{Map, Number, Value};
use std::alloc::Global;
use tree_model::{MOST_TEXT_BYTES, is_name};

/// The attributes that an object's members are.
pub fn attributes(
    alloc: Global,
    members: Map<String, Value>,
) -> Result<List<(Text, Text)>, FragmentError>
    ensures read { Reads (attributes (members_view members.entries)) result }
    ensures names { IfOk result (NamesRise []) }
    ensures values { IfOk result ValuesFit }
{
    let mut attrs = List::new(alloc);
    for (name, value) in members {
        let name = Text::from_string(name);
        let value = value_at(alloc, &name, value)?;
        attrs.push((name, value))?;
    }
    Ok(attrs)
}

/// The value of the attribute with a name.
fn value_at(alloc: Global, name: &Text, value: Value) -> Result<Text, FragmentError>
    ensures read { Reads (below (step_to_member name.now) (attribute name.now (view value))) result }
    ensures fits { IfOk result (λ text. IsTrue (is_data text)) }
{
    match attribute(alloc, name, value) {
        Ok(text) => Ok(text),
        Err(error) => Err(error.at_member(alloc, name.as_str())),
    }
}

fn attribute(alloc: Global, name: &Text, value: Value) -> Result<Text, FragmentError>
    ensures read { Reads (attribute name.now (view value)) result }
    ensures fits { IfOk result (λ text. IsTrue (is_data text)) }
{
    if is_name(name) {
        value_text(alloc, value)
    } else {
        Err(FragmentError::BadName { path: top(alloc) })
    }
}

/// The text of an attribute's value.
fn value_text(alloc: Global, value: Value) -> Result<Text, FragmentError>
    ensures read { Reads (value_text (view value)) result }
    ensures fits { IfOk result (λ text. IsTrue (is_data text)) }
{
    match value {
        Value::Null => Ok(Text::of(alloc, "")?),
        Value::Bool(true) => Ok(Text::of(alloc, "true")?),
        Value::Bool(false) => Ok(Text::of(alloc, "false")?),
        Value::Number(number) => whole_number(alloc, number),
        Value::String(text) => limited(alloc, text),
        Value::Array(_) | Value::Object(_) => Err(FragmentError::NotJsonMl { path: top(alloc) }),
    }
}

fn whole_number(alloc: Global, number: Number) -> Result<Text, FragmentError>
    ensures read { Reads (whole_number (number_view number)) result }
    ensures fits { IfOk result (λ text. IsTrue (is_data text)) }
{
    if let Some(n) = number.as_u64() {
        return Ok(unsigned_text(alloc, n)?);
    }
    match number.as_i64() {
        Some(n) => Ok(signed_text(alloc, n)?),
        None => Err(FragmentError::Fraction { path: top(alloc) }),
    }
}

fn unsigned_text(alloc: Global, n: u64) -> Result<Text, NoMemory>
    ensures text { IfOk result (λ text. text ≡ decimal n) }
    ensures fits { IfOk result (λ text. IsTrue (is_data text)) }
{
    Ok(Text::from_string(format!(in alloc; "{n}")?))
}

fn signed_text(alloc: Global, n: i64) -> Result<Text, NoMemory>
    ensures text { IfOk result (λ text. text ≡ signed_decimal n) }
    ensures fits { IfOk result (λ text. IsTrue (is_data text)) }
{
    Ok(Text::from_string(format!(in alloc; "{n}")?))
}

/// A text within the limit.
pub fn limited(alloc: Global, text: String) -> Result<Text, FragmentError>
    ensures read { Reads (limited (string_bytes text)) result }
    ensures fits { IfOk result (λ text. IsTrue (is_data text)) }
{
    if text.len() > MOST_TEXT_BYTES {
        Err(FragmentError::TextLimit { path: top(alloc) })
    } else {
        Ok(Text::from_string(text))
    }
}

/// The pointer to the top, which is empty.
pub fn top(alloc: Global) -> Text
    ensures { result ≡ [] }
{
    Text::from_string(String::new(alloc))
}
