//! The values of the replies of calls.
ghost use Rattle.std.specs.Prelude.{◌≡◌, option_map, IfOk};
ghost use Rattle.serde_json.specs.Data.{no_members, object, string};
ghost use Rattle.serde_json.specs.View.{view, members_view};
ghost use Rattle.jsonml_io.specs.Written.{with_members, json_of};
ghost use Rattle.command_lines.specs.ReplyValues.{dom_error_name, named, refusal_value, label_value, or_null, attributes_value, node_value, replaced_value, reply_value};

use crate::json_value::{ToJson, array_of, string};
use dewey_labels::{Label, List, NoMemory, Text};
use jsonml_io::to_value;
use serde_json::{Map, Value, json};
use std::alloc::Global;
use tree_model::{Fragment, Refusal, Reply};

/// The value of a reply. A fragment's texts are copied into it once.
pub fn reply_value(alloc: Global, reply: &Reply) -> Result<Value, NoMemory>
    ensures { IfOk result (λ value. view value ≡ reply_value reply.now) }
{
    match reply {
        Reply::Nothing => Ok(Value::Null),
        Reply::Flag(flag) => Ok(Value::Bool(*flag)),
        Reply::Number(number) => number.to_json(alloc),
        Reply::Chars(text) => string(alloc, text.as_str()),
        Reply::Place(place) => place_value(alloc, place),
        Reply::Places(places) => array_of(alloc, places.as_slice()),
        Reply::Names(documents) => array_of(alloc, documents.as_slice()),
        Reply::Attrs(attrs) => attrs_value(alloc, attrs),
        Reply::Node { kind, name, value } => node_value(alloc, *kind, name, value),
        Reply::Tree(tree) => tree_value(alloc, tree),
        Reply::Replaced { new, old } => replaced_value(alloc, new, old),
        Reply::Found(hits) => array_of(alloc, hits.as_slice()),
        Reply::Refused(why) => refusal_value(alloc, *why),
    }
}

fn place_value(alloc: Global, place: &Option<Label>) -> Result<Value, NoMemory>
    ensures { IfOk result (λ value. view value ≡ or_null label_value place.now) }
{
    match place {
        Some(label) => label.to_json(alloc),
        None => Ok(Value::Null),
    }
}

fn attrs_value(alloc: Global, attrs: &Option<List<(Text, Text)>>) -> Result<Value, NoMemory>
    ensures { IfOk result (λ value. view value ≡ or_null attributes_value attrs.now) }
{
    match attrs {
        Some(attrs) => Ok(Value::Object(members(alloc, attrs)?)),
        None => Ok(Value::Null),
    }
}

/// Attributes as an object's members.
fn members(alloc: Global, attrs: &List<(Text, Text)>) -> Result<Map<String, Value>, NoMemory>
    ensures { IfOk result (λ members. members_view members.entries ≡ with_members no_members attrs.now) }
{
    let mut members = Map::new(alloc);
    for (name, value) in attrs.as_slice() {
        let key = String::from_str(alloc, name.as_str())?;
        drop(members.insert(key, string(alloc, value.as_str())?)?);
    }
    Ok(members)
}

fn node_value(alloc: Global, kind: u8, name: &Text, value: &Option<Text>) -> Result<Value, NoMemory>
    ensures { IfOk result (λ all. view all ≡ node_value kind name.now value.now) }
{
    let value = text_value(alloc, value)?;
    Ok(json!(in alloc; {"name": name.as_str(), "type": kind, "value": value})?)
}

fn text_value(alloc: Global, text: &Option<Text>) -> Result<Value, NoMemory>
    ensures { IfOk result (λ value. view value ≡ or_null string text.now) }
{
    match text {
        Some(text) => string(alloc, text.as_str()),
        None => Ok(Value::Null),
    }
}

fn tree_value(alloc: Global, tree: &Option<Fragment>) -> Result<Value, NoMemory>
    ensures { IfOk result (λ value. view value ≡ or_null json_of tree.now) }
{
    match tree {
        Some(tree) => to_value(alloc, tree),
        None => Ok(Value::Null),
    }
}

fn replaced_value(alloc: Global, new: &Label, old: &Fragment) -> Result<Value, NoMemory>
    ensures { IfOk result (λ value. view value ≡ replaced_value new.now old.now) }
{
    let new = new.to_json(alloc)?;
    let old = to_value(alloc, old)?;
    Ok(json!(in alloc; {"new": new, "old": old})?)
}

/// `{"code":C,"name":N}` for a code of DOM, otherwise `{"name":N}`
pub fn refusal_value(alloc: Global, why: Refusal) -> Result<Value, NoMemory>
    ensures { IfOk result (λ value. view value ≡ refusal_value why) }
{
    match why {
        Refusal::Dom(code) => dom_value(alloc, code),
        Refusal::DocumentExists => named(alloc, "DocumentExists"),
        Refusal::TooDeep => named(alloc, "TooDeep"),
        Refusal::TextLimit => named(alloc, "TextLimit"),
        Refusal::LabelLimit => named(alloc, "LabelLimit"),
    }
}

fn dom_value(alloc: Global, code: u16) -> Result<Value, NoMemory>
    ensures { IfOk result (λ value. view value ≡ refusal_value (Refusal.Dom code)) }
{
    let name = dom_error_name(code);
    Ok(json!(in alloc; {"code": code, "name": name})?)
}

/// The name of a code of DOM Level 3 Core's DOMException.
fn dom_error_name(code: u16) -> &'static str
    ensures { result.now ≡ dom_error_name code }
{
    match code {
        1 => "INDEX_SIZE_ERR",
        3 => "HIERARCHY_REQUEST_ERR",
        5 => "INVALID_CHARACTER_ERR",
        8 => "NOT_FOUND_ERR",
        _ => "NOT_SUPPORTED_ERR",
    }
}

/// `{"name":N}`
pub fn named(alloc: Global, name: &str) -> Result<Value, NoMemory>
    ensures { IfOk result (λ value. view value ≡ object (named name.now)) }
{
    Ok(json!(in alloc; {"name": name})?)
}
