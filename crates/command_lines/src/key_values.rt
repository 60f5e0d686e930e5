//! The values of keys, by their kinds.
ghost use Rattle.std.specs.Prelude.{◌≡◌, ◌≢◌, option_map, IsTrue, IfOk, IfSome};
ghost use Rattle.serde_json.specs.View.{view};
ghost use Rattle.dewey_labels.specs.Labels.{IsLabel};
ghost use Rattle.path_model.specs.Lawful.{is_lawful};
ghost use Rattle.tree_model.specs.Fragments.{plain, plain_or_none, IsValid};
ghost use Rattle.xpath_parser.specs.Parse.{parsed};
ghost use Rattle.command_lines.specs.Reasons.{Reads, refused_path, refused_tree};
ghost use Rattle.command_lines.specs.KeyValues.{path_or_reason, wrong_key, string_at, text_at, whole_at, label_at, label_or_none_at, path_at, tree_at, tree_or_none_at, below_root, node_label};

use crate::{BadLine, Key};
use dewey_labels::{Label, LabelTextError, NoMemory, Text};
use jsonml_io::{FragmentError, from_value};
use path_model::XPath;
use serde_json::Value;
use std::alloc::Global;
use tree_model::Fragment;
use xpath_parser::{PathError, parse};

/// The key is missing, or its value of the wrong kind.
fn wrong(alloc: Global, key: Key) -> BadLine
    ensures { result ≢ BadLine.NoMemory → result ≡ wrong_key key }
{
    BadLine::of(alloc, key.name())
}

/// A text, which is moved and not copied.
pub fn text_at(alloc: Global, key: Key, value: Option<Value>) -> Result<Text, BadLine>
    ensures { Reads (text_at key (option_map view value)) result }
{
    string_at(alloc, key.name(), value)
}

/// A text, or this reason.
pub fn string_at(alloc: Global, why: &str, value: Option<Value>) -> Result<Text, BadLine>
    ensures { Reads (string_at why.now (option_map view value)) result }
{
    match value {
        Some(Value::String(text)) => Ok(Text::from_string(text)),
        _ => Err(BadLine::of(alloc, why)),
    }
}

pub fn whole_at(alloc: Global, key: Key, value: Option<Value>) -> Result<u32, BadLine>
    ensures { Reads (whole_at key (option_map view value)) result }
{
    match value.as_ref().and_then(Value::as_u64) {
        Some(number) if number <= u32::MAX as u64 => Ok(number as u32),
        _ => Err(wrong(alloc, key)),
    }
}

pub fn label_at(alloc: Global, key: Key, value: Option<Value>) -> Result<Label, BadLine>
    ensures reads { Reads (label_at key (option_map view value)) result }
    ensures label { IfOk result IsLabel }
{
    let text = text_at(alloc, key, value)?;
    match node_label(alloc, &text)? {
        Some(label) => Ok(label),
        None => Err(wrong(alloc, key)),
    }
}

/// The label with this text, which isn't the root's.
fn node_label(alloc: Global, text: &Text) -> Result<Option<Label>, NoMemory>
    ensures label { IfOk result (λ label. label ≡ node_label text.now) }
    ensures valid { IfOk result (λ label. IfSome label IsLabel) }
{
    match Label::read_text(alloc, text.as_str().as_bytes()) {
        Ok(label) => Ok(below_root(label)),
        Err(LabelTextError::NotALabel { .. }) => Ok(None),
        Err(LabelTextError::NoMemory) => Err(NoMemory),
    }
}

fn below_root(label: Label) -> Option<Label>
    ensures label { result ≡ below_root label }
    ensures valid { IfSome result IsLabel }
{
    let _divisions = label.divisions();
    if label.level() == 0 {
        None
    } else {
        Some(label)
    }
}

pub fn label_or_none_at(
    alloc: Global,
    key: Key,
    value: Option<Value>,
) -> Result<Option<Label>, BadLine>
    ensures reads { Reads (label_or_none_at key (option_map view value)) result }
    ensures label { IfOk result (λ label. IfSome label IsLabel) }
{
    match value {
        Some(Value::Null) => Ok(None),
        value => Ok(Some(label_at(alloc, key, value)?)),
    }
}

/// A location path, in time linear in its text.
pub fn path_at(alloc: Global, key: Key, value: Option<Value>) -> Result<XPath, BadLine>
    ensures reads { Reads (path_at key (option_map view value)) result }
    ensures lawful { IfOk result (λ path. IsTrue (is_lawful path)) }
{
    let text = text_at(alloc, key, value)?;
    path_of(alloc, text.as_str())
}

/// The path of a text, or why it is none.
fn path_of(alloc: Global, text: &str) -> Result<XPath, BadLine>
    ensures reads { Reads (path_or_reason (parsed text.now)) result }
    ensures lawful { IfOk result (λ path. IsTrue (is_lawful path)) }
{
    match parse(alloc, text) {
        Ok(path) => Ok(path),
        Err(PathError::NoMemory) => Err(BadLine::NoMemory),
        Err(error) => Err(refused_path(alloc, &error)?),
    }
}

/// The reason that names a path's refusal and its place.
fn refused_path(alloc: Global, error: &PathError) -> Result<BadLine, NoMemory>
    ensures { IfOk result (λ why. why ≡ refused_path error.now) }
{
    let why = format!(in alloc; "path {} {}", error.name(), error.place())?;
    Ok(BadLine::Why(Text::from_string(why)))
}

/// A fragment, whose texts are moved and not copied.
pub fn tree_at(alloc: Global, key: Key, value: Option<Value>) -> Result<Fragment, BadLine>
    ensures reads { Reads (tree_at key (option_map view value)) result }
    ensures valid { IfOk result (λ tree. IsValid (plain tree)) }
{
    let Some(value) = value else {
        return Err(wrong(alloc, key));
    };
    match from_value(alloc, value) {
        Ok(tree) => Ok(tree),
        Err(FragmentError::NoMemory) => Err(BadLine::NoMemory),
        Err(error) => Err(refused_tree(alloc, &error)?),
    }
}

/// The reason that names a fragment's refusal and its place.
fn refused_tree(alloc: Global, error: &FragmentError) -> Result<BadLine, NoMemory>
    ensures { IfOk result (λ why. why ≡ refused_tree error.now) }
{
    let why = format!(in alloc; "tree {} {}", error.name(), error.path())?;
    Ok(BadLine::Why(Text::from_string(why)))
}

pub fn tree_or_none_at(
    alloc: Global,
    key: Key,
    value: Option<Value>,
) -> Result<Option<Fragment>, BadLine>
    ensures reads { Reads (tree_or_none_at key (option_map view value)) result }
    ensures valid { IfOk result (λ tree. IsValid (plain_or_none tree)) }
{
    match value {
        None | Some(Value::Null) => Ok(None),
        value => Ok(Some(tree_at(alloc, key, value)?)),
    }
}
