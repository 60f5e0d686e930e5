//! What the parts of a DOM call tell of themselves by their types: labels are labels, and texts are UTF-8.
ghost use Rattle.std.specs.Prelude.{IsTrue};
ghost use Rattle.std.specs.List.{AllByRecursion};
ghost use Rattle.std.specs.Str.{is_utf8};
ghost use Rattle.dewey_labels.specs.Labels.{IsLabel};
ghost use Rattle.tree_changes.specs.ValidCalls.{IsValidCall, labels_named, fragment_brought, text_brought};
ghost use Rattle.tree_model.specs.Fragments.{IsValid};

use dewey_labels::{Label, Text};
use tree_model::DomCall;

/// Tells that a call is valid where its fragment is.
#[tactic(auto, using(crate::proofs::ValidParts::valid_by_parts))]
pub fn tell_parts(call: &DomCall)
    ensures { IsValid (fragment_brought call.now) → IsValidCall call.now }
{
    tell_labels(call);
    tell_text_brought(call);
}

pub fn tell_labels(call: &DomCall)
    ensures { AllByRecursion IsLabel (labels_named call.now) }
{
    match call {
        DomCall::Docs | DomCall::Doc(_) | DomCall::Create(..) | DomCall::Drop(_) => (),
        DomCall::Insert(at, Some(child), _)
        | DomCall::Replace(at, child, _)
        | DomCall::Remove(at, child) => {
            tell_label(at);
            tell_label(child);
        }
        DomCall::Node(at)
        | DomCall::Parent(at)
        | DomCall::First(at)
        | DomCall::Last(at)
        | DomCall::Next(at)
        | DomCall::Prev(at)
        | DomCall::Children(at)
        | DomCall::Attr(at, _)
        | DomCall::HasAttr(at, _)
        | DomCall::Attrs(at)
        | DomCall::TextContent(at)
        | DomCall::Tags(at, _)
        | DomCall::Dump(at)
        | DomCall::Length(at)
        | DomCall::Substring(at, _, _)
        | DomCall::Append(at, _)
        | DomCall::Insert(at, None, _)
        | DomCall::SetAttr(at, _, _)
        | DomCall::RemoveAttr(at, _)
        | DomCall::Rename(at, _)
        | DomCall::SetData(at, _)
        | DomCall::AppendData(at, _)
        | DomCall::InsertData(at, _, _)
        | DomCall::DeleteData(at, _, _)
        | DomCall::ReplaceData(at, _, _, _)
        | DomCall::SplitText(at, _)
        | DomCall::Normalize(at)
        | DomCall::SetText(at, _) => tell_label(at),
    }
}

#[tactic(auto, using(crate::proofs::ValidParts::no_text_is_utf8))]
fn tell_text_brought(call: &DomCall)
    ensures { IsTrue (is_utf8 (text_brought call.now)) }
{
    match call {
        DomCall::SetAttr(_, _, text)
        | DomCall::SetData(_, text)
        | DomCall::AppendData(_, text)
        | DomCall::InsertData(_, _, text)
        | DomCall::ReplaceData(_, _, _, text)
        | DomCall::SetText(_, text) => tell_text(text),
        _ => (),
    }
}

pub fn tell_label(at: &Label)
    ensures { IsLabel at.now }
{
    let _divisions = at.divisions();
}

fn tell_text(text: &Text)
    ensures { IsTrue (is_utf8 text.now) }
{
    let _text = text.as_str();
}
