//! Keys that are taken out of an object's members, by their kinds.
ghost use Rattle.std.specs.Prelude.{◌≡◌, option_map, IfOk, IsTrue};
ghost use Rattle.serde_json.specs.Find.{get_member};
ghost use Rattle.serde_json.specs.View.{view, members_view};
ghost use Rattle.path_model.specs.Lawful.{is_lawful};
ghost use Rattle.tree_model.specs.Fragments.{plain, plain_or_none, IsValid};
ghost use Rattle.command_lines.specs.KeyValues.{key_name, text_at, whole_at, label_at, label_or_none_at, path_at, tree_at, tree_or_none_at};
ghost use Rattle.command_lines.specs.Taking.{without, take_key, Takes};

use crate::key_values::{
    label_at, label_or_none_at, path_at, text_at, tree_at, tree_or_none_at, whole_at,
};
use crate::{BadLine, Key};
use dewey_labels::{Label, Text};
use path_model::XPath;
use serde_json::{Map, Value};
use std::alloc::Global;
use tree_model::Fragment;

/// Takes a member out of an object.
pub fn take(members: &mut Map<String, Value>, name: &str) -> Option<Value>
    ensures value { option_map view result ≡ get_member name.now (members_view members.old.entries) }
    ensures left { members_view members.new.entries ≡ without name.now (members_view members.old.entries) }
{
    members.remove(name)
}

pub fn text(alloc: Global, members: &mut Map<String, Value>, key: Key) -> Result<Text, BadLine>
    ensures { Takes (take_key text_at key) (members_view members.old.entries) (members_view members.new.entries) result }
{
    text_at(alloc, key, take(members, key.name()))
}

pub fn whole(alloc: Global, members: &mut Map<String, Value>, key: Key) -> Result<u32, BadLine>
    ensures { Takes (take_key whole_at key) (members_view members.old.entries) (members_view members.new.entries) result }
{
    whole_at(alloc, key, take(members, key.name()))
}

pub fn label(alloc: Global, members: &mut Map<String, Value>, key: Key) -> Result<Label, BadLine>
    ensures { Takes (take_key label_at key) (members_view members.old.entries) (members_view members.new.entries) result }
{
    label_at(alloc, key, take(members, key.name()))
}

pub fn label_or_none(
    alloc: Global,
    members: &mut Map<String, Value>,
    key: Key,
) -> Result<Option<Label>, BadLine>
    ensures { Takes (take_key label_or_none_at key) (members_view members.old.entries) (members_view members.new.entries) result }
{
    label_or_none_at(alloc, key, take(members, key.name()))
}

pub fn path(alloc: Global, members: &mut Map<String, Value>, key: Key) -> Result<XPath, BadLine>
    ensures takes { Takes (take_key path_at key) (members_view members.old.entries) (members_view members.new.entries) result }
    ensures lawful { IfOk result (λ path. IsTrue (is_lawful path)) }
{
    path_at(alloc, key, take(members, key.name()))
}

pub fn tree(alloc: Global, members: &mut Map<String, Value>, key: Key) -> Result<Fragment, BadLine>
    ensures takes { Takes (take_key tree_at key) (members_view members.old.entries) (members_view members.new.entries) result }
    ensures valid { IfOk result (λ tree. IsValid (plain tree)) }
{
    tree_at(alloc, key, take(members, key.name()))
}

pub fn tree_or_none(
    alloc: Global,
    members: &mut Map<String, Value>,
    key: Key,
) -> Result<Option<Fragment>, BadLine>
    ensures takes { Takes (take_key tree_or_none_at key) (members_view members.old.entries) (members_view members.new.entries) result }
    ensures valid { IfOk result (λ tree. IsValid (plain_or_none tree)) }
{
    tree_or_none_at(alloc, key, take(members, key.name()))
}
