//! The text of a resource, as a string.
ghost use Rattle.std.specs.Prelude.{◌≡◌, ◌++◌, IfOk, string_bytes};
ghost use Rattle.dewey_labels.specs.Labels.{IsLabel};
ghost use Rattle.dewey_labels.specs.LabelText.{label_text};
ghost use Rattle.lock_resources.specs.ResourceText.{side_word, resource_text};

use dewey_labels::{Label, NoMemory};
use lock_resources::{Resource, Side};
use std::alloc::Global;

pub fn resource_text(alloc: Global, resource: &Resource) -> Result<String, NoMemory>
    ensures { IfOk result (λ text. string_bytes text ≡ resource_text resource.now) }
{
    match resource {
        Resource::Node(label) => joined(alloc, "node ", label, ""),
        Resource::AttrRoot(label) => joined(alloc, "attrs ", label, ".1"),
        Resource::Attr(label, name) => {
            let mut text = joined(alloc, "attr ", label, " ")?;
            text.push_str(name.as_str())?;
            Ok(text)
        }
        Resource::Edge(label, side) => joined(alloc, side_word(*side), label, ""),
    }
}

/// The word that begins an edge's text, and a space.
fn side_word(side: Side) -> &'static str
    ensures { result.now ≡ side_word side }
{
    match side {
        Side::First => "first ",
        Side::Last => "last ",
        Side::Next => "next ",
        Side::Prev => "prev ",
    }
}

/// The label's text between two others.
fn joined(alloc: Global, word: &str, label: &Label, end: &str) -> Result<String, NoMemory>
    ensures text { IfOk result (λ text. string_bytes text ≡ word.now ++ (label_text label.now ++ end.now)) }
    ensures label { IsLabel label.now }
{
    let _divisions = label.divisions();
    let mut text = String::from_str(alloc, word)?;
    text.push_str(label.text(alloc)?.as_str())?;
    text.push_str(end)?;
    Ok(text)
}
