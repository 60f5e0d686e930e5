//! What a word asks for, by the keys that it takes.
ghost use Rattle.std.specs.Prelude.{◌≡◌, IfOk};
ghost use Rattle.serde_json.specs.View.{members_view};
ghost use Rattle.command_lines.specs.declared.calls.DomWord.TheVariants.{OfName, Create, At, AtName, AtData, AtRange, Append, Insert, Replace, Remove, SetAttr, InsertData, ReplaceData, SplitText};
ghost use Rattle.command_lines.specs.Taking.{Takes};
ghost use Rattle.command_lines.specs.ValidCommands.{IsValidCall, IsValidWhat};
ghost use Rattle.command_lines.specs.Words.{of_name_call, at_call, at_name_call, at_data_call, at_range_call, dom_call, find, what_in};

use crate::calls::{AtCall, AtDataCall, AtNameCall, AtRangeCall, DomWord, OfNameCall, Word};
use crate::taking::{label, label_or_none, path, text, tree, tree_or_none, whole};
use crate::{BadLine, Key, StoreCall, What};
use dewey_labels::{Label, Text};
use serde_json::{Map, Value};
use std::alloc::Global;
use tree_model::DomCall;

/// What a word asks for. Its keys are taken out of the members in their order.
pub fn what_in(alloc: Global, word: Word, members: &mut Map<String, Value>) -> Result<What, BadLine>
    ensures takes { Takes (what_in word) (members_view members.old.entries) (members_view members.new.entries) result }
    ensures valid { IfOk result IsValidWhat }
{
    match word {
        Word::Begin => Ok(What::Begin),
        Word::Commit => Ok(What::Commit),
        Word::Abort => Ok(What::Abort),
        Word::Dom(call) => Ok(What::Call(StoreCall::Dom(dom_call(alloc, call, members)?))),
        Word::Find => Ok(What::Call(find(alloc, members)?)),
    }
}

fn find(alloc: Global, members: &mut Map<String, Value>) -> Result<StoreCall, BadLine>
    ensures takes { Takes find (members_view members.old.entries) (members_view members.new.entries) result }
    ensures valid { IfOk result (λ call. IsValidWhat (What.Call call)) }
{
    let at = label(alloc, members, Key::At)?;
    let path = path(alloc, members, Key::Path)?;
    Ok(StoreCall::Find { at, path })
}

fn dom_call(
    alloc: Global,
    word: DomWord,
    members: &mut Map<String, Value>,
) -> Result<DomCall, BadLine>
    ensures takes { Takes (dom_call word) (members_view members.old.entries) (members_view members.new.entries) result }
    ensures valid { IfOk result IsValidCall }
{
    match word {
        DomWord::Docs => Ok(DomCall::Docs),
        DomWord::OfName(call) => of_name(alloc, call, members),
        DomWord::Create => create(alloc, members),
        DomWord::At(call) => at(alloc, call, members),
        DomWord::AtName(call) => at_name(alloc, call, members),
        DomWord::AtData(call) => at_data(alloc, call, members),
        DomWord::AtRange(call) => at_range(alloc, call, members),
        DomWord::Append => append(alloc, members),
        DomWord::Insert => insert(alloc, members),
        DomWord::Replace => replace(alloc, members),
        DomWord::Remove => remove(alloc, members),
        DomWord::SetAttr => set_attr(alloc, members),
        DomWord::InsertData => insert_data(alloc, members),
        DomWord::ReplaceData => replace_data(alloc, members),
        DomWord::SplitText => split_text(alloc, members),
    }
}

fn of_name(
    alloc: Global,
    call: OfNameCall,
    members: &mut Map<String, Value>,
) -> Result<DomCall, BadLine>
    ensures takes { Takes (dom_call (OfName call)) (members_view members.old.entries) (members_view members.new.entries) result }
    ensures valid { IfOk result IsValidCall }
{
    let name = text(alloc, members, Key::Name)?;
    Ok(of_name_call(call, name))
}

fn at(alloc: Global, call: AtCall, members: &mut Map<String, Value>) -> Result<DomCall, BadLine>
    ensures takes { Takes (dom_call (At call)) (members_view members.old.entries) (members_view members.new.entries) result }
    ensures valid { IfOk result IsValidCall }
{
    let at = label(alloc, members, Key::At)?;
    Ok(at_call(call, at))
}

fn at_name(
    alloc: Global,
    call: AtNameCall,
    members: &mut Map<String, Value>,
) -> Result<DomCall, BadLine>
    ensures takes { Takes (dom_call (AtName call)) (members_view members.old.entries) (members_view members.new.entries) result }
    ensures valid { IfOk result IsValidCall }
{
    let at = label(alloc, members, Key::At)?;
    let name = text(alloc, members, Key::Name)?;
    Ok(at_name_call(call, at, name))
}

fn at_data(
    alloc: Global,
    call: AtDataCall,
    members: &mut Map<String, Value>,
) -> Result<DomCall, BadLine>
    ensures takes { Takes (dom_call (AtData call)) (members_view members.old.entries) (members_view members.new.entries) result }
    ensures valid { IfOk result IsValidCall }
{
    let at = label(alloc, members, Key::At)?;
    let data = text(alloc, members, Key::Data)?;
    Ok(at_data_call(call, at, data))
}

fn at_range(
    alloc: Global,
    call: AtRangeCall,
    members: &mut Map<String, Value>,
) -> Result<DomCall, BadLine>
    ensures takes { Takes (dom_call (AtRange call)) (members_view members.old.entries) (members_view members.new.entries) result }
    ensures valid { IfOk result IsValidCall }
{
    let at = label(alloc, members, Key::At)?;
    let offset = whole(alloc, members, Key::Offset)?;
    let count = whole(alloc, members, Key::Count)?;
    Ok(at_range_call(call, at, offset, count))
}

fn create(alloc: Global, members: &mut Map<String, Value>) -> Result<DomCall, BadLine>
    ensures takes { Takes (dom_call Create) (members_view members.old.entries) (members_view members.new.entries) result }
    ensures valid { IfOk result IsValidCall }
{
    let name = text(alloc, members, Key::Name)?;
    let tree = tree_or_none(alloc, members, Key::TreeOrNone)?;
    Ok(DomCall::Create(name, tree))
}

fn append(alloc: Global, members: &mut Map<String, Value>) -> Result<DomCall, BadLine>
    ensures takes { Takes (dom_call Append) (members_view members.old.entries) (members_view members.new.entries) result }
    ensures valid { IfOk result IsValidCall }
{
    let at = label(alloc, members, Key::At)?;
    let tree = tree(alloc, members, Key::Tree)?;
    Ok(DomCall::Append(at, tree))
}

fn insert(alloc: Global, members: &mut Map<String, Value>) -> Result<DomCall, BadLine>
    ensures takes { Takes (dom_call Insert) (members_view members.old.entries) (members_view members.new.entries) result }
    ensures valid { IfOk result IsValidCall }
{
    let at = label(alloc, members, Key::At)?;
    let before = label_or_none(alloc, members, Key::Before)?;
    let tree = tree(alloc, members, Key::Tree)?;
    Ok(DomCall::Insert(at, before, tree))
}

fn replace(alloc: Global, members: &mut Map<String, Value>) -> Result<DomCall, BadLine>
    ensures takes { Takes (dom_call Replace) (members_view members.old.entries) (members_view members.new.entries) result }
    ensures valid { IfOk result IsValidCall }
{
    let at = label(alloc, members, Key::At)?;
    let old = label(alloc, members, Key::Old)?;
    let tree = tree(alloc, members, Key::Tree)?;
    Ok(DomCall::Replace(at, old, tree))
}

fn remove(alloc: Global, members: &mut Map<String, Value>) -> Result<DomCall, BadLine>
    ensures takes { Takes (dom_call Remove) (members_view members.old.entries) (members_view members.new.entries) result }
    ensures valid { IfOk result IsValidCall }
{
    let at = label(alloc, members, Key::At)?;
    let old = label(alloc, members, Key::Old)?;
    Ok(DomCall::Remove(at, old))
}

fn set_attr(alloc: Global, members: &mut Map<String, Value>) -> Result<DomCall, BadLine>
    ensures takes { Takes (dom_call SetAttr) (members_view members.old.entries) (members_view members.new.entries) result }
    ensures valid { IfOk result IsValidCall }
{
    let at = label(alloc, members, Key::At)?;
    let name = text(alloc, members, Key::Name)?;
    let value = text(alloc, members, Key::Value)?;
    Ok(DomCall::SetAttr(at, name, value))
}

fn insert_data(alloc: Global, members: &mut Map<String, Value>) -> Result<DomCall, BadLine>
    ensures takes { Takes (dom_call InsertData) (members_view members.old.entries) (members_view members.new.entries) result }
    ensures valid { IfOk result IsValidCall }
{
    let at = label(alloc, members, Key::At)?;
    let offset = whole(alloc, members, Key::Offset)?;
    let data = text(alloc, members, Key::Data)?;
    Ok(DomCall::InsertData(at, offset, data))
}

fn replace_data(alloc: Global, members: &mut Map<String, Value>) -> Result<DomCall, BadLine>
    ensures takes { Takes (dom_call ReplaceData) (members_view members.old.entries) (members_view members.new.entries) result }
    ensures valid { IfOk result IsValidCall }
{
    let at = label(alloc, members, Key::At)?;
    let offset = whole(alloc, members, Key::Offset)?;
    let count = whole(alloc, members, Key::Count)?;
    let data = text(alloc, members, Key::Data)?;
    Ok(DomCall::ReplaceData(at, offset, count, data))
}

fn split_text(alloc: Global, members: &mut Map<String, Value>) -> Result<DomCall, BadLine>
    ensures takes { Takes (dom_call SplitText) (members_view members.old.entries) (members_view members.new.entries) result }
    ensures valid { IfOk result IsValidCall }
{
    let at = label(alloc, members, Key::At)?;
    let offset = whole(alloc, members, Key::Offset)?;
    Ok(DomCall::SplitText(at, offset))
}

fn of_name_call(call: OfNameCall, name: Text) -> DomCall
    ensures call { result ≡ of_name_call call name }
    ensures valid { IsValidCall result }
{
    match call {
        OfNameCall::Doc => DomCall::Doc(name),
        OfNameCall::Drop => DomCall::Drop(name),
    }
}

fn at_call(call: AtCall, at: Label) -> DomCall
    ensures call { result ≡ at_call call at }
    ensures valid { IsValidCall result }
{
    match call {
        AtCall::Node => DomCall::Node(at),
        AtCall::Parent => DomCall::Parent(at),
        AtCall::First => DomCall::First(at),
        AtCall::Last => DomCall::Last(at),
        AtCall::Next => DomCall::Next(at),
        AtCall::Prev => DomCall::Prev(at),
        AtCall::Children => DomCall::Children(at),
        AtCall::Attrs => DomCall::Attrs(at),
        AtCall::TextContent => DomCall::TextContent(at),
        AtCall::Dump => DomCall::Dump(at),
        AtCall::Length => DomCall::Length(at),
        AtCall::Normalize => DomCall::Normalize(at),
    }
}

fn at_name_call(call: AtNameCall, at: Label, name: Text) -> DomCall
    ensures call { result ≡ at_name_call call at name }
    ensures valid { IsValidCall result }
{
    match call {
        AtNameCall::Attr => DomCall::Attr(at, name),
        AtNameCall::HasAttr => DomCall::HasAttr(at, name),
        AtNameCall::Tags => DomCall::Tags(at, name),
        AtNameCall::RemoveAttr => DomCall::RemoveAttr(at, name),
        AtNameCall::Rename => DomCall::Rename(at, name),
    }
}

fn at_data_call(call: AtDataCall, at: Label, text: Text) -> DomCall
    ensures call { result ≡ at_data_call call at text }
    ensures valid { IsValidCall result }
{
    match call {
        AtDataCall::SetData => DomCall::SetData(at, text),
        AtDataCall::AppendData => DomCall::AppendData(at, text),
        AtDataCall::SetText => DomCall::SetText(at, text),
    }
}

fn at_range_call(call: AtRangeCall, at: Label, offset: u32, count: u32) -> DomCall
    ensures call { result ≡ at_range_call call at offset count }
    ensures valid { IsValidCall result }
{
    match call {
        AtRangeCall::Substring => DomCall::Substring(at, offset, count),
        AtRangeCall::DeleteData => DomCall::DeleteData(at, offset, count),
    }
}
