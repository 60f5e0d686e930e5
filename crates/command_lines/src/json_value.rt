//! What is written as a JSON value, and lists of it.
ghost use Rattle.std.specs.Prelude.{◌≡◌, IfOk};
ghost use Rattle.serde_json.specs.Data.{string};
ghost use Rattle.serde_json.specs.View.{view};
ghost use Rattle.command_lines.specs.ReplyValues.{array_of};

use dewey_labels::{Label, NoMemory, Text};
use serde_json::{Value, json};
use std::alloc::Global;
use tree_model::Hit;

/// Something that a reply shows as a JSON value.
pub trait ToJson {
    ghost use Rattle.serde_json.specs.Data.{Data};

    /// The value that it is shown as.
    ghost json: { Self → Data };

    fn to_json(&self, alloc: Global) -> Result<Value, NoMemory>
        ensures { IfOk result (λ value. view value ≡ json self.now) };
}

/// The array of these.
pub fn array_of<T: ToJson>(alloc: Global, items: &[T]) -> Result<Value, NoMemory>
    ensures { IfOk result (λ value. view value ≡ array_of T.json items.now) }
{
    let mut values = Vec::with_capacity(alloc, items.len())?;
    for item in items {
        values.push(item.to_json(alloc)?)?;
    }
    Ok(Value::Array(values))
}

/// A text as a JSON string.
pub fn string(alloc: Global, text: &str) -> Result<Value, NoMemory>
    ensures { IfOk result (λ value. view value ≡ string text.now) }
{
    Ok(Value::String(String::from_str(alloc, text)?))
}

impl ToJson for u32 {
    ghost use Rattle.command_lines.specs.ReplyValues.{number_value};

    ghost json = { number_value };

    fn to_json(&self, _alloc: Global) -> Result<Value, NoMemory> {
        Ok(Value::from(*self))
    }
}

impl ToJson for Label {
    ghost use Rattle.command_lines.specs.ReplyValues.{label_value};

    ghost json = { label_value };

    fn to_json(&self, alloc: Global) -> Result<Value, NoMemory> {
        Ok(Value::String(self.string(alloc)?))
    }
}

/// A document's name and label.
impl ToJson for (Text, Label) {
    ghost use Rattle.command_lines.specs.ReplyValues.{document_value};

    ghost json = { document_value };

    fn to_json(&self, alloc: Global) -> Result<Value, NoMemory> {
        let label = self.1.to_json(alloc)?;
        Ok(json!(in alloc; [self.0.as_str(), label])?)
    }
}

impl ToJson for Hit {
    ghost use Rattle.command_lines.specs.ReplyValues.{hit_value};

    ghost json = { hit_value };

    fn to_json(&self, alloc: Global) -> Result<Value, NoMemory> {
        let mut text = self.label.string(alloc)?;
        if let Some(name) = &self.attr {
            text.push_str("/@")?;
            text.push_str(name.as_str())?;
        }
        Ok(Value::String(text))
    }
}

/// A commit's session and ordinal.
impl ToJson for (u32, u32) {
    ghost use Rattle.command_lines.specs.ReplyValues.{commit_value};

    ghost json = { commit_value };

    fn to_json(&self, alloc: Global) -> Result<Value, NoMemory> {
        Ok(json!(in alloc; [self.0, self.1])?)
    }
}
