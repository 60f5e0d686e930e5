//! The calls that change an element's attributes and its name (DOM Level 3 Core, interface Element, and `renameNode`). Each makes two reads at most.
ghost use Rattle.std.specs.Prelude.{◌≡◌, [], OnErr, ◌≤◌, ◌+◌};
ghost use Rattle.tree_model.specs.Attributes as attributes;
ghost use Rattle.node_seq.specs.ChangeLists.{IsChangeList};
ghost use Rattle.outside_traits.specs.Faults.{HasCause};
ghost use Rattle.dom_writes.specs.Changing.{ChangesAs, RepliesAs};

use crate::refusals::{invalid_character, text_limit};
use crate::written::{add_change, change_key, is_too_long, node_at};
use dewey_labels::{Label, Text};
use dom_reads::{is_element, not_found, not_supported};
use node_seq::{NodeRead, SeqError};
use std::alloc::Global;
use tree_model::{Changes, Key, Record, Reply, is_name};

/// `setAttribute`.
pub fn set_attr<S: NodeRead>(
    alloc: Global,
    at: &Label,
    name: &Text,
    value: &Text,
    seq: &mut S,
    out: &mut Changes,
) -> Result<Reply, SeqError>
    requires empty { out.old ≡ [] }
    ensures reply { RepliesAs (S.contents seq.old) result
        (attributes.set_attr at.now name.now value.now) }
    ensures changes { ChangesAs (S.contents seq.old) result out.new
        (attributes.set_attr at.now name.now value.now) }
    ensures rise { IsChangeList out.new }
    ensures err { OnErr result (out.new ≡ out.old) }
    ensures unchanged { S.unchanged seq.old seq.new }
    ensures reads { S.reads seq.new ≤ S.reads seq.old + 2 }
    ensures cause { HasCause SeqError.DiskFault (S.count seq.old) (S.count seq.new) result }
{
    let Some(found) = node_at(alloc, at, seq)? else {
        return Ok(not_found());
    };
    if !is_element(&found) {
        return Ok(not_supported());
    }
    if !is_name(name) {
        return Ok(invalid_character());
    }
    if is_too_long(value) {
        return Ok(text_limit());
    }
    let key = Key::of_attribute(alloc, at, name.as_str())?;
    let now = Record::Attr(value.copy(alloc)?);
    change_key(alloc, key, Some(now), seq, out)?;
    Ok(Reply::Nothing)
}

/// `removeAttribute`: one that is missing is no fault, nor is a name that is no Name.
pub fn remove_attr<S: NodeRead>(
    alloc: Global,
    at: &Label,
    name: &Text,
    seq: &mut S,
    out: &mut Changes,
) -> Result<Reply, SeqError>
    requires empty { out.old ≡ [] }
    ensures reply { RepliesAs (S.contents seq.old) result (attributes.remove_attr at.now name.now) }
    ensures changes { ChangesAs (S.contents seq.old) result out.new
        (attributes.remove_attr at.now name.now) }
    ensures rise { IsChangeList out.new }
    ensures err { OnErr result (out.new ≡ out.old) }
    ensures unchanged { S.unchanged seq.old seq.new }
    ensures reads { S.reads seq.new ≤ S.reads seq.old + 2 }
    ensures cause { HasCause SeqError.DiskFault (S.count seq.old) (S.count seq.new) result }
{
    let Some(found) = node_at(alloc, at, seq)? else {
        return Ok(not_found());
    };
    if !is_element(&found) {
        return Ok(not_supported());
    }
    if !is_name(name) {
        return Ok(Reply::Nothing);
    }
    let key = Key::of_attribute(alloc, at, name.as_str())?;
    change_key(alloc, key, None, seq, out)?;
    Ok(Reply::Nothing)
}

/// `renameNode`, of an element. One read.
pub fn rename<S: NodeRead>(
    alloc: Global,
    at: &Label,
    name: &Text,
    seq: &mut S,
    out: &mut Changes,
) -> Result<Reply, SeqError>
    requires empty { out.old ≡ [] }
    ensures reply { RepliesAs (S.contents seq.old) result (attributes.rename at.now name.now) }
    ensures changes { ChangesAs (S.contents seq.old) result out.new
        (attributes.rename at.now name.now) }
    ensures rise { IsChangeList out.new }
    ensures err { OnErr result (out.new ≡ out.old) }
    ensures unchanged { S.unchanged seq.old seq.new }
    ensures reads { S.reads seq.new ≤ S.reads seq.old + 1 }
    ensures cause { HasCause SeqError.DiskFault (S.count seq.old) (S.count seq.new) result }
{
    let Some(found) = node_at(alloc, at, seq)? else {
        return Ok(not_found());
    };
    if !is_element(&found) {
        return Ok(not_supported());
    }
    if !is_name(name) {
        return Ok(invalid_character());
    }
    let key = Key::of_node(alloc, at)?;
    let now = Record::Element(name.copy(alloc)?);
    add_change(key, Some(found), Some(now), out)?;
    Ok(Reply::Nothing)
}
