// A fragment read from bytes or a JSON value: an element and its attributes, then its content, in the order of JsonML.
ghost use Rattle.std.specs.Prelude.{◌≡◌, ◌≢◌, ◌+◌, ◌^◌, ◌<◌, [], Ok, Err, IsTrue, IfOk, IfErr, option_map, string_bytes};
ghost use Rattle.std.specs.Vec.Iter.{into_iter_items, into_iter_len};
ghost use Rattle.serde_json.specs.Data.{item, string};
ghost use Rattle.serde_json.specs.View.{view, items_view, members_view};
ghost use Rattle.tree_model.specs.Fragments.{plain, IsValid};
ghost use Rattle.tree_model.specs.Names.{is_name};
ghost use Rattle.tree_model.specs.ValidTrees.{NamesRise, ValuesFit};
ghost use Rattle.jsonml_io.specs.Pointers.{step_to_item};
ghost use Rattle.jsonml_io.specs.JsonMl.{value_of, fragment_in, fragment_of, fragment_at, element, content, children, attributes, text_at, Reads, below, behind};
ghost use Rattle.jsonml_io.specs.inside.Rows.{AreValid};

use crate::FragmentError;
use crate::attributes::{attributes, limited, top};
use crate::pointer::step_to_item;
use dewey_labels::{List, NoMemory, Text};
use serde_json::{Map, Value};
use std::alloc::Global;
use std::vec::IntoIter;
use tree_model::{Fragment, is_name};

/// How deep arrays may nest.
const MOST_DEPTH: u32 = 100;

/// The JSON value that bytes are, if they are one.
pub fn read_value(alloc: Global, bytes: &[u8]) -> Result<Option<Value>, NoMemory>
    ensures { IfOk result (λ value. option_map view value ≡ value_of bytes.now) }
{
    let Ok(text) = str::from_utf8(bytes) else {
        return Ok(None);
    };
    match Value::from_str(alloc, text) {
        Ok(value) => Ok(Some(value)),
        Err(error) => {
            if error.is_memory() {
                Err(NoMemory)
            } else {
                Ok(None)
            }
        }
    }
}

/// The fragment that bytes are.
#[tactic(auto, unfolding(crate::specs::JsonMl::fragment_in))]
pub fn read_fragment(alloc: Global, bytes: &[u8]) -> Result<Fragment, FragmentError>
    ensures fragment { IfOk result (λ f. fragment_in bytes.now ≡ Ok f) }
    ensures refusal { IfErr result (λ e. e ≢ FragmentError.NoMemory → fragment_in bytes.now ≡ Err e) }
    ensures valid { IfOk result (λ f. IsValid (plain f)) }
{
    match read_value(alloc, bytes)? {
        Some(value) => from_value(alloc, value),
        None => Err(FragmentError::NotJson),
    }
}

/// The fragment that a value is. Its texts are copied.
pub fn of_value(alloc: Global, value: &Value) -> Result<Fragment, FragmentError>
    ensures fragment { IfOk result (λ f. fragment_of (view value.now) ≡ Ok f) }
    ensures refusal { IfErr result (λ e. e ≢ FragmentError.NoMemory → fragment_of (view value.now) ≡ Err e) }
    ensures valid { IfOk result (λ f. IsValid (plain f)) }
{
    match value.clone() {
        Ok(copy) => from_value(alloc, copy),
        Err(_) => Err(FragmentError::NoMemory),
    }
}

/// The fragment that a value is. Its texts are moved and not copied.
pub fn from_value(alloc: Global, value: Value) -> Result<Fragment, FragmentError>
    ensures fragment { IfOk result (λ f. fragment_of (view value) ≡ Ok f) }
    ensures refusal { IfErr result (λ e. e ≢ FragmentError.NoMemory → fragment_of (view value) ≡ Err e) }
    ensures valid { IfOk result (λ f. IsValid (plain f)) }
{
    fragment_at(alloc, value, MOST_DEPTH)
}

#[cycle(reading)]
fn fragment_at(alloc: Global, value: Value, left: u32) -> Result<Fragment, FragmentError>
    ensures read { Reads (fragment_at left (view value)) result }
    ensures valid { IfOk result (λ f. IsValid (plain f)) }
{
    match value {
        Value::String(text) => text_at(alloc, text, left),
        Value::Array(items) => {
            if left == 0 {
                Err(FragmentError::TooDeep { path: top(alloc) })
            } else {
                element(alloc, items, left - 1)
            }
        }
        _ => Err(FragmentError::NotJsonMl { path: top(alloc) }),
    }
}

/// The element that an array's items are. Its children have `left` levels.
#[cycle(reading)]
fn element(alloc: Global, items: Vec<Value>, left: u32) -> Result<Fragment, FragmentError>
    ensures read { Reads (element left (items_view items.items)) result }
    ensures valid { IfOk result (λ f. IsValid (plain f)) }
{
    let mut items = items.into_iter();
    let Some(first) = items.next() else {
        return Err(FragmentError::NotJsonMl { path: top(alloc) });
    };
    match first {
        Value::String(name) => named(alloc, Text::from_string(name), items, left),
        _ => Err(FragmentError::NotJsonMl {
            path: item_path(alloc, 0)?,
        }),
    }
}

/// The element with a name and the items behind it.
#[cycle(reading)]
fn named(
    alloc: Global,
    name: Text,
    items: IntoIter<Value>,
    left: u32,
) -> Result<Fragment, FragmentError>
    requires fits { 1 + into_iter_len items < 2 ^ 64 }
    ensures read { Reads (element left (item (string name) (items_view (into_iter_items items)))) result }
    ensures valid { IfOk result (λ f. IsValid (plain f)) }
{
    if is_name(&name) {
        content(alloc, name, items, left)
    } else {
        Err(FragmentError::BadName {
            path: item_path(alloc, 0)?,
        })
    }
}

/// The element behind its name.
#[cycle(reading)]
fn content(
    alloc: Global,
    name: Text,
    mut items: IntoIter<Value>,
    left: u32,
) -> Result<Fragment, FragmentError>
    requires fits { 1 + into_iter_len items < 2 ^ 64 }
    requires name { IsTrue (is_name name) }
    ensures read { Reads (content left name (items_view (into_iter_items items))) result }
    ensures valid { IfOk result (λ f. IsValid (plain f)) }
{
    let Some(first) = items.next() else {
        return Ok(Fragment::Element {
            name,
            attrs: List::new(alloc),
            children: List::new(alloc),
        });
    };
    let mut children = List::new(alloc);
    match first {
        Value::Object(members) => {
            let attrs = attributes_at_1(alloc, members)?;
            let children = children_behind(alloc, children, items, 2, left)?;
            Ok(Fragment::Element {
                name,
                attrs,
                children,
            })
        }
        child => {
            children.push(child_at(alloc, child, 1, left)?)?;
            let children = children_behind(alloc, children, items, 2, left)?;
            Ok(Fragment::Element {
                name,
                attrs: List::new(alloc),
                children,
            })
        }
    }
}

/// Further children behind those in `front`, the first of them the item with this index.
#[cycle(reading)]
fn children_behind(
    alloc: Global,
    mut front: List<Fragment>,
    items: IntoIter<Value>,
    first: usize,
    left: u32,
) -> Result<List<Fragment>, FragmentError>
    requires fits { first + into_iter_len items < 2 ^ 64 }
    requires front { AreValid front }
    ensures read { Reads (behind front (children left first (items_view (into_iter_items items)))) result }
    ensures valid { IfOk result AreValid }
{
    let mut index = first;
    for item in items {
        front.push(child_at(alloc, item, index, left)?)?;
        index += 1;
    }
    Ok(front)
}

/// The path to an item.
fn item_path(alloc: Global, index: usize) -> Result<Text, NoMemory>
    ensures { IfOk result (λ path. path ≡ step_to_item index) }
{
    Ok(Text::from_string(step_to_item(alloc, index)?))
}

/// The attributes, which are the item with index 1.
fn attributes_at_1(
    alloc: Global,
    members: Map<String, Value>,
) -> Result<List<(Text, Text)>, FragmentError>
    ensures read { Reads (below (step_to_item 1) (attributes (members_view members.entries))) result }
    ensures names { IfOk result (NamesRise []) }
    ensures values { IfOk result ValuesFit }
{
    match attributes(alloc, members) {
        Ok(attrs) => Ok(attrs),
        Err(error) => Err(error.at_item(alloc, 1)),
    }
}

#[cycle(reading)]
fn child_at(alloc: Global, value: Value, index: usize, left: u32) -> Result<Fragment, FragmentError>
    ensures read { Reads (below (step_to_item index) (fragment_at left (view value))) result }
    ensures valid { IfOk result (λ f. IsValid (plain f)) }
{
    match fragment_at(alloc, value, left) {
        Ok(child) => Ok(child),
        Err(error) => Err(error.at_item(alloc, index)),
    }
}

/// A text, where arrays may nest `left` levels deep.
fn text_at(alloc: Global, text: String, left: u32) -> Result<Fragment, FragmentError>
    ensures read { Reads (text_at left (string_bytes text)) result }
    ensures valid { IfOk result (λ f. IsValid (plain f)) }
{
    let text = limited(alloc, text)?;
    if left == 0 {
        Err(FragmentError::TooDeep { path: top(alloc) })
    } else {
        Ok(Fragment::Text(text))
    }
}
