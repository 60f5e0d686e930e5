// A fragment's tokens, one behind the other.
ghost use Rattle.std.specs.Prelude.{◌≡◌, ◌++◌, ◌∷◌, [], true, IfOk, OnOk};
ghost use Rattle.json.specs.Token.{begin_array, begin_object, string};
ghost use Rattle.jsonml_io.specs.Written.{fragment_text};
ghost use Rattle.jsonml_io.specs.inside.Tokens.{attribute_tokens, fragment_tokens, member_tokens, names_rise};

use crate::writing::write_fragment;
use dewey_labels::{List, NoMemory, Text};
use json::Writer;
use std::alloc::Global;
use tree_model::Fragment;

/// The text that a fragment is written as. It looks at each node once.
/// Where the names of an element's attributes don't rise, as those of a valid fragment do, it goes by the fragment's value.
pub fn text_of(alloc: Global, fragment: &Fragment) -> Result<Vec<u8>, NoMemory>
    ensures { IfOk result (λ text. text.items ≡ fragment_text fragment.now) }
{
    let mut writer = Writer::new(Vec::new(alloc));
    let whole = put_fragment(fragment, &mut writer)?;
    if whole {
        return Ok(writer.into_inner());
    }
    let mut text = List::new(alloc);
    write_fragment(alloc, fragment, &mut text)?;
    Ok(text.into_vec())
}

/// Puts a fragment's tokens; false where there are attributes whose names don't rise, and the tokens aren't whole.
fn put_fragment(fragment: &Fragment, writer: &mut Writer) -> Result<bool, NoMemory>
    ensures tokens { IfOk result (λ whole. whole ≡ true → writer.new.tokens ≡ writer.old.tokens ++ fragment_tokens fragment.now) }
    ensures before { writer.new.before ≡ writer.old.before }
{
    match fragment {
        Fragment::Text(text) => {
            writer.string(text.as_str())?;
            Ok(true)
        }
        Fragment::Element {
            name,
            attrs,
            children,
        } => {
            if !put_opening(name, attrs, writer)? {
                return Ok(false);
            }
            for child in children.as_slice() {
                if !put_fragment(child, writer)? {
                    return Ok(false);
                }
            }
            writer.end_array()?;
            Ok(true)
        }
    }
}

/// Puts what stands before an element's children.
fn put_opening(
    name: &Text,
    attrs: &List<(Text, Text)>,
    writer: &mut Writer,
) -> Result<bool, NoMemory>
    ensures tokens { IfOk result (λ whole. whole ≡ true
        → writer.new.tokens ≡ writer.old.tokens ++ begin_array ∷ string name.now ∷ attribute_tokens attrs.now) }
    ensures before { writer.new.before ≡ writer.old.before }
{
    writer.begin_array()?;
    writer.string(name.as_str())?;
    if attrs.is_empty() {
        return Ok(true);
    }
    if !names_rise(attrs.as_slice()) {
        return Ok(false);
    }
    put_attributes(attrs.as_slice(), writer)?;
    Ok(true)
}

/// Whether each name stands above the one before it.
fn names_rise(attrs: &[(Text, Text)]) -> bool
    ensures { result ≡ names_rise attrs.now }
{
    let mut rest = attrs;
    while let [first, after @ ..] = rest {
        if let [second, ..] = after {
            if first.0.cmp(&second.0).is_ge() {
                return false;
            }
        }
        rest = after;
    }
    true
}

/// Puts attributes as an object.
fn put_attributes(attrs: &[(Text, Text)], writer: &mut Writer) -> Result<(), NoMemory>
    ensures tokens { OnOk result (writer.new.tokens ≡ writer.old.tokens ++ begin_object ∷ member_tokens attrs.now) }
    ensures before { writer.new.before ≡ writer.old.before }
{
    writer.begin_object()?;
    for (name, value) in attrs {
        writer.key(name.as_str())?;
        writer.string(value.as_str())?;
    }
    writer.end_object()?;
    Ok(())
}
