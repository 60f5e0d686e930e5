// A fragment written as a JSON value, or as the bytes of compact JSON.
ghost use Rattle.std.specs.Prelude.{◌≡◌, ◌++◌, map, Ok, IfOk, OnOk, OnErr};
ghost use Rattle.serde_json.specs.Data.{no_members, string};
ghost use Rattle.serde_json.specs.View.{view, members_view};
ghost use Rattle.jsonml_io.specs.Written.{with_members, opening, json_of, fragment_text, IsReadAgain};

use dewey_labels::{List, NoMemory, Text};
use serde_json::{Map, Value};
use std::alloc::Global;
use tree_model::Fragment;

/// The value that a fragment is written as.
pub fn to_value(alloc: Global, fragment: &Fragment) -> Result<Value, NoMemory>
    ensures { IfOk result (λ value. view value ≡ json_of fragment.now) }
{
    match fragment {
        Fragment::Text(text) => string_value(alloc, text),
        Fragment::Element {
            name,
            attrs,
            children,
        } => {
            let mut items = opening(alloc, name, attrs)?;
            for child in children.as_slice() {
                items.push(to_value(alloc, child)?)?;
            }
            Ok(Value::Array(items))
        }
    }
}

/// Puts the fragment's text at the end of `out`. What is written of a valid fragment that nests at most 100 deep is read again as it.
pub fn write_fragment(
    alloc: Global,
    fragment: &Fragment,
    out: &mut List<u8>,
) -> Result<(), NoMemory>
    ensures ok { OnOk result (out.new ≡ out.old ++ fragment_text fragment.now) }
    ensures read_again { OnOk result (IsReadAgain fragment.now) }
    ensures err { OnErr result (out.new ≡ out.old) }
{
    let text = to_value(alloc, fragment)?.to_vec(alloc)?;
    out.extend_from_slice(alloc, &text)
}

fn string_value(alloc: Global, text: &Text) -> Result<Value, NoMemory>
    ensures { IfOk result (λ value. view value ≡ string text.now) }
{
    Ok(Value::String(String::from_str(alloc, text.as_str())?))
}

/// What stands before an element's children.
fn opening(alloc: Global, name: &Text, attrs: &List<(Text, Text)>) -> Result<Vec<Value>, NoMemory>
    ensures { IfOk result (λ items. map view items.items ≡ opening name.now attrs.now) }
{
    let name = string_value(alloc, name)?;
    let mut items = Vec::new(alloc);
    items.push(name)?;
    if !attrs.is_empty() {
        let members = members(alloc, attrs)?;
        items.push(Value::Object(members))?;
    }
    Ok(items)
}

fn members(alloc: Global, attrs: &List<(Text, Text)>) -> Result<Map<String, Value>, NoMemory>
    ensures { IfOk result (λ members. members_view members.entries ≡ with_members no_members attrs.now) }
{
    let mut members = Map::new(alloc);
    for (name, value) in attrs.as_slice() {
        let key = String::from_str(alloc, name.as_str())?;
        drop(members.insert(key, string_value(alloc, value)?)?);
    }
    Ok(members)
}
