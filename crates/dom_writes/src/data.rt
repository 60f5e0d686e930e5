//! The calls that change a text's data (DOM Level 3 Core, interface CharacterData). Offsets and counts are of characters. Each makes one read.
ghost use Rattle.std.specs.Prelude.{◌≡◌, [], ◌++◌, if◌then◌else◌, IfOk, OnErr, OnOk, ◌≤◌, ◌+◌};
ghost use Rattle.tree_model.specs.Keys.{IsValidKey, node_key};
ghost use Rattle.tree_model.specs.Limits.{is_too_long};
ghost use Rattle.tree_model.specs.Texts as texts;
ghost use Rattle.tree_model.specs.declared.refusal.Refusal.TheVariants.{TextLimit};
ghost use Rattle.tree_model.specs.declared.reply.Reply.TheVariants.{Nothing, Refused};
ghost use Rattle.node_seq.specs.ChangeLists.{IsChangeList};
ghost use Rattle.outside_traits.specs.Faults.{HasCause};
ghost use Rattle.dom_writes.specs.Changing.{ChangesAs, RepliesAs};
ghost use Rattle.dom_writes.specs.inside.TextsSet.{text_change};

use crate::refusals::text_limit;
use crate::written::{add_change, is_too_long, node_at};
use dewey_labels::{Label, NoMemory, Text};
use dom_reads::{cut, index_size, not_found, not_supported};
use node_seq::{NodeRead, SeqError};
use std::alloc::Global;
use tree_model::{Changes, Key, Record, Reply};

/// `data` set.
pub fn set_data<S: NodeRead>(
    alloc: Global,
    at: &Label,
    data: &Text,
    seq: &mut S,
    out: &mut Changes,
) -> Result<Reply, SeqError>
    requires empty { out.old ≡ [] }
    ensures reply { RepliesAs (S.contents seq.old) result (texts.set_data at.now «data».now) }
    ensures changes { ChangesAs (S.contents seq.old) result out.new
        (texts.set_data at.now «data».now) }
    ensures rise { IsChangeList out.new }
    ensures err { OnErr result (out.new ≡ out.old) }
    ensures unchanged { S.unchanged seq.old seq.new }
    ensures reads { S.reads seq.new ≤ S.reads seq.old + 1 }
    ensures cause { HasCause SeqError.DiskFault (S.count seq.old) (S.count seq.new) result }
{
    let Some(found) = node_at(alloc, at, seq)? else {
        return Ok(not_found());
    };
    let Record::Text(before) = found else {
        return Ok(not_supported());
    };
    let now = data.copy(alloc)?;
    Ok(change_data(alloc, at, before, now, out)?)
}

/// Gives a text other data, unless it is too long.
fn change_data(
    alloc: Global,
    at: &Label,
    before: Text,
    now: Text,
    out: &mut Changes,
) -> Result<Reply, NoMemory>
    requires empty { out.old ≡ [] }
    requires key { IsValidKey (node_key at.now) }
    ensures reply { IfOk result (λ reply. reply ≡ (if is_too_long now then Refused TextLimit else Nothing)) }
    ensures changes { OnOk result (out.new
        ≡ (if is_too_long now then [] else text_change at.now before now)) }
    ensures rise { IsChangeList out.new }
    ensures err { OnErr result (out.new ≡ out.old) }
{
    if is_too_long(&now) {
        return Ok(text_limit());
    }
    let key = Key::of_node(alloc, at)?;
    add_change(
        key,
        Some(Record::Text(before)),
        Some(Record::Text(now)),
        out,
    )?;
    Ok(Reply::Nothing)
}

/// `appendData`.
pub fn append_data<S: NodeRead>(
    alloc: Global,
    at: &Label,
    data: &Text,
    seq: &mut S,
    out: &mut Changes,
) -> Result<Reply, SeqError>
    requires empty { out.old ≡ [] }
    ensures reply { RepliesAs (S.contents seq.old) result (texts.append_data at.now «data».now) }
    ensures changes { ChangesAs (S.contents seq.old) result out.new
        (texts.append_data at.now «data».now) }
    ensures rise { IsChangeList out.new }
    ensures err { OnErr result (out.new ≡ out.old) }
    ensures unchanged { S.unchanged seq.old seq.new }
    ensures reads { S.reads seq.new ≤ S.reads seq.old + 1 }
    ensures cause { HasCause SeqError.DiskFault (S.count seq.old) (S.count seq.new) result }
{
    let Some(found) = node_at(alloc, at, seq)? else {
        return Ok(not_found());
    };
    let Record::Text(before) = found else {
        return Ok(not_supported());
    };
    let now = joined(alloc, before.as_str(), data.as_str(), "")?;
    Ok(change_data(alloc, at, before, now, out)?)
}

/// Three texts behind one another.
fn joined(alloc: Global, first: &str, second: &str, third: &str) -> Result<Text, NoMemory>
    ensures { IfOk result (λ text. text ≡ first.now ++ (second.now ++ third.now)) }
{
    let mut text = String::from_str(alloc, first)?;
    text.push_str(second)?;
    text.push_str(third)?;
    Ok(Text::from_string(text))
}

/// `insertData`.
pub fn insert_data<S: NodeRead>(
    alloc: Global,
    at: &Label,
    offset: u32,
    data: &Text,
    seq: &mut S,
    out: &mut Changes,
) -> Result<Reply, SeqError>
    requires empty { out.old ≡ [] }
    ensures reply { RepliesAs (S.contents seq.old) result
        (texts.replace_data at.now offset 0 «data».now) }
    ensures changes { ChangesAs (S.contents seq.old) result out.new
        (texts.replace_data at.now offset 0 «data».now) }
    ensures rise { IsChangeList out.new }
    ensures err { OnErr result (out.new ≡ out.old) }
    ensures unchanged { S.unchanged seq.old seq.new }
    ensures reads { S.reads seq.new ≤ S.reads seq.old + 1 }
    ensures cause { HasCause SeqError.DiskFault (S.count seq.old) (S.count seq.new) result }
{
    replace_data(alloc, at, offset, 0, data, seq, out)
}

/// `deleteData`. What lies past the end isn't there to be deleted.
pub fn delete_data<S: NodeRead>(
    alloc: Global,
    at: &Label,
    offset: u32,
    count: u32,
    seq: &mut S,
    out: &mut Changes,
) -> Result<Reply, SeqError>
    requires empty { out.old ≡ [] }
    ensures reply { RepliesAs (S.contents seq.old) result
        (texts.replace_data at.now offset count []) }
    ensures changes { ChangesAs (S.contents seq.old) result out.new
        (texts.replace_data at.now offset count []) }
    ensures rise { IsChangeList out.new }
    ensures err { OnErr result (out.new ≡ out.old) }
    ensures unchanged { S.unchanged seq.old seq.new }
    ensures reads { S.reads seq.new ≤ S.reads seq.old + 1 }
    ensures cause { HasCause SeqError.DiskFault (S.count seq.old) (S.count seq.new) result }
{
    let nothing = Text::of(alloc, "")?;
    replace_data(alloc, at, offset, count, &nothing, seq, out)
}

/// `replaceData`. What lies past the end isn't there to be replaced.
pub fn replace_data<S: NodeRead>(
    alloc: Global,
    at: &Label,
    offset: u32,
    count: u32,
    data: &Text,
    seq: &mut S,
    out: &mut Changes,
) -> Result<Reply, SeqError>
    requires empty { out.old ≡ [] }
    ensures reply { RepliesAs (S.contents seq.old) result
        (texts.replace_data at.now offset count «data».now) }
    ensures changes { ChangesAs (S.contents seq.old) result out.new
        (texts.replace_data at.now offset count «data».now) }
    ensures rise { IsChangeList out.new }
    ensures err { OnErr result (out.new ≡ out.old) }
    ensures unchanged { S.unchanged seq.old seq.new }
    ensures reads { S.reads seq.new ≤ S.reads seq.old + 1 }
    ensures cause { HasCause SeqError.DiskFault (S.count seq.old) (S.count seq.new) result }
{
    let Some(found) = node_at(alloc, at, seq)? else {
        return Ok(not_found());
    };
    let Record::Text(before) = found else {
        return Ok(not_supported());
    };
    let Some((start, rest)) = cut(before.as_str(), offset) else {
        return Ok(index_size());
    };
    let now = joined(alloc, start, data.as_str(), behind(rest, count))?;
    Ok(change_data(alloc, at, before, now, out)?)
}

/// The text behind its first characters; empty where it has fewer.
fn behind(text: &str, characters: u32) -> &str
    ensures { result.now ≡ texts.data_from characters text.now }
{
    match cut(text, characters) {
        Some((_, behind)) => behind,
        None => "",
    }
}
