//! The toys.
ghost use Rattle.std.specs.Prelude.{◌≡◌, ◌++◌, [], Some, IsTrue, IfOk, IfSome, OnOk, OnErr};
ghost use Rattle.std.specs.List.{AllByRecursion};
ghost use Rattle.dewey_labels.specs.Labels.{IsLabel};
ghost use Rattle.lock_modes.specs.declared.ask.Ask.TheVariants as ask;
ghost use Rattle.lock_resources.specs.declared.resource.Resource.TheVariants as resource;
ghost use Rattle.lock_resources.specs.Resources.{Fits};
ghost use Rattle.lock_resources.specs.Intentions.{has_row, with_intentions};
ghost use Rattle.tree_model.specs.Navigation.{described};
ghost use Rattle.tree_model.specs.Tree.{Tree, map_of};
ghost use Rattle.tree_model.specs.Keys.{IsValidKey};
ghost use Rattle.tree_model.specs.Entries.{get};
ghost use Rattle.tree_model.specs.declared.record.Record.TheVariants as record_of;
ghost use Rattle.tree_model.specs.declared.reply.Reply.TheVariants.{Nothing};
ghost use Rattle.outside_traits.specs.Faults.{HasCause};
ghost use Rattle.node_seq.specs.declared.node_read.SeqError.TheVariants.{DiskFault};
ghost use Rattle.node_seq.specs.Trees.{StandsFor};
ghost use Rattle.call_rows.specs.Toys.{cleared_reply, cleared_changes};

use call_contract::TreeCall;
use dewey_labels::{Label, List, NoMemory, Text};
use lock_modes::{Ask, Mode};
use lock_resources::{Request, Resource, with_intentions};
use node_seq::{NodeRead, SeqError};
use std::alloc::Global;
use tree_model::{Change, Changes, Key, Record, Refusal, Reply};

/// Asks what the node at a label is.
#[derive(Debug, Drop)]
pub struct Look {
    pub at: Label,
}

/// Makes the data of the text at a label empty.
#[derive(Debug, Drop)]
pub struct Clear {
    pub at: Label,
}

/// A call that no node has.
#[derive(Debug, Drop)]
pub struct Never {
    pub at: Label,
}

/// Adds a request at the node, with its intentions.
pub(crate) fn ask_node(
    alloc: Global,
    at: &Label,
    mode: Mode,
    out: &mut List<Request>,
) -> Result<(), NoMemory>
    requires { IsTrue (has_row (resource.Node at.now) (ask.Node mode)) }
    ensures ok { OnOk result (out.new ≡ out.old ++ with_intentions (resource.Node at.now) (ask.Node mode)) }
    ensures fits { AllByRecursion Fits out.old → AllByRecursion Fits out.new }
    ensures err { OnErr result (out.new ≡ out.old) }
{
    let resource = Resource::Node(at.copy(alloc)?);
    with_intentions(alloc, resource, Ask::Node(mode), out)
}

/// What a record says of its node.
fn describe(alloc: Global, found: Record) -> Result<Reply, NoMemory>
    ensures { IfOk result (λ reply. reply ≡ described found) }
{
    Ok(match found {
        Record::Document => Reply::Node {
            kind: 9,
            name: Text::of(alloc, "#document")?,
            value: None,
        },
        Record::Element(name) => Reply::Node {
            kind: 1,
            name,
            value: None,
        },
        Record::Text(data) => Reply::Node {
            kind: 3,
            name: Text::of(alloc, "#text")?,
            value: Some(data),
        },
        Record::Attr(_value) => Reply::Refused(Refusal::Dom(8)),
    })
}

impl TreeCall for Look {
    ghost use Rattle.dewey_labels.specs.Labels.{IsLabel};
    ghost use Rattle.call_contract.specs.Calls.{held_meaning};
    ghost use Rattle.call_contract.proofs.HeldCalls.{held_laws};
    ghost use Rattle.node_seq.specs.Trees.{StandsFor};
    ghost use Rattle.call_rows.specs.Toys.{look};
    ghost use Rattle.call_rows.proofs.LookLaws.{look_laws};

    ghost meaning = { held_meaning (λ c. c.at) look };

    ghost is_valid = { λ c. IsLabel c.at };

    fn requests<S: NodeRead>(
        &self,
        alloc: Global,
        _seq: &mut S,
        out: &mut List<Request>,
    ) -> Result<Option<Reply>, SeqError> {
        let _divisions = self.at.divisions();
        ask_node(alloc, &self.at, Mode::NR, out)?;
        Ok(None)
    }

    fn apply<S: NodeRead>(
        &self,
        alloc: Global,
        seq: &mut S,
        _out: &mut Changes,
    ) -> Result<Reply, SeqError> {
        let _divisions = self.at.divisions();
        let _faults = seq.faults();
        let key = Key::of_node(alloc, &self.at)?;
        match seq.get(alloc, &key)? {
            Some(found) => Ok(describe(alloc, found)?),
            None => Ok(Reply::Refused(Refusal::Dom(8))),
        }
    }

    ghost laws = { held_laws (λ c. c.at) IsLabel look look_laws };
}

impl TreeCall for Clear {
    ghost use Rattle.dewey_labels.specs.Labels.{IsLabel};
    ghost use Rattle.call_contract.specs.Calls.{held_meaning};
    ghost use Rattle.call_contract.proofs.HeldCalls.{held_laws};
    ghost use Rattle.node_seq.specs.Trees.{StandsFor};
    ghost use Rattle.call_rows.specs.Toys.{clear};
    ghost use Rattle.call_rows.proofs.ClearLaws.{clear_laws};

    ghost meaning = { held_meaning (λ c. c.at) clear };

    ghost is_valid = { λ c. IsLabel c.at };

    fn requests<S: NodeRead>(
        &self,
        alloc: Global,
        _seq: &mut S,
        out: &mut List<Request>,
    ) -> Result<Option<Reply>, SeqError> {
        let _divisions = self.at.divisions();
        ask_node(alloc, &self.at, Mode::SX, out)?;
        Ok(None)
    }

    fn apply<S: NodeRead>(
        &self,
        alloc: Global,
        seq: &mut S,
        out: &mut Changes,
    ) -> Result<Reply, SeqError> {
        let _divisions = self.at.divisions();
        let key = Key::of_node(alloc, &self.at)?;
        let found = record_at(alloc, seq, &key)?;
        Ok(clear_record(alloc, key, found, out)?)
    }

    ghost laws = { held_laws (λ c. c.at) IsLabel clear clear_laws };
}

/// The record at a key that a tree may have.
fn record_at<S: NodeRead>(alloc: Global, seq: &mut S, key: &Key) -> Result<Option<Record>, SeqError>
    ensures value { IfOk result (λ found. (t : Tree) → StandsFor (S.contents seq.old) t → get key.now (map_of t) ≡ found) }
    ensures valid { IfOk result (λ found. IfSome found (λ r. IsValidKey key.now)) }
    ensures unchanged { S.unchanged seq.old seq.new }
    ensures cause { HasCause DiskFault (S.count seq.old) (S.count seq.new) result }
{
    let _faults = seq.faults();
    if !key.is_valid() {
        return Ok(None);
    }
    seq.get(alloc, key)
}

/// Clears what was found at the key.
fn clear_record(
    alloc: Global,
    key: Key,
    found: Option<Record>,
    out: &mut Changes,
) -> Result<Reply, NoMemory>
    requires { out.old ≡ [] }
    ensures reply { IfOk result (λ reply. reply ≡ cleared_reply found) }
    ensures changes { OnOk result (out.new ≡ cleared_changes key found) }
    ensures err { OnErr result (out.new ≡ out.old) }
{
    match found {
        None => Ok(Reply::Refused(Refusal::Dom(8))),
        Some(Record::Text(text)) => clear_text(alloc, key, text, out),
        Some(_) => Ok(Reply::Refused(Refusal::Dom(9))),
    }
}

/// Makes the data empty, unless it is.
fn clear_text(alloc: Global, key: Key, text: Text, out: &mut Changes) -> Result<Reply, NoMemory>
    requires { out.old ≡ [] }
    ensures reply { IfOk result (λ reply. reply ≡ Nothing) }
    ensures changes { OnOk result (out.new ≡ cleared_changes key (Some (record_of.Text text))) }
    ensures err { OnErr result (out.new ≡ out.old) }
{
    if text.as_str().is_empty() {
        return Ok(Reply::Nothing);
    }
    let empty = Text::of(alloc, "")?;
    out.push(Change {
        key,
        now: Some(Record::Text(empty)),
    })?;
    Ok(Reply::Nothing)
}

impl TreeCall for Never {
    ghost use Rattle.dewey_labels.specs.Labels.{IsLabel};
    ghost use Rattle.call_contract.specs.Calls.{held_meaning};
    ghost use Rattle.call_contract.proofs.HeldCalls.{held_laws};
    ghost use Rattle.node_seq.specs.Trees.{StandsFor};
    ghost use Rattle.call_rows.specs.Toys.{never};
    ghost use Rattle.call_rows.proofs.LookLaws.{never_laws};

    ghost meaning = { held_meaning (λ c. c.at) never };

    ghost is_valid = { λ c. IsLabel c.at };

    fn requests<S: NodeRead>(
        &self,
        _alloc: Global,
        _seq: &mut S,
        _out: &mut List<Request>,
    ) -> Result<Option<Reply>, SeqError> {
        let _divisions = self.at.divisions();
        Ok(None)
    }

    fn apply<S: NodeRead>(
        &self,
        _alloc: Global,
        seq: &mut S,
        _out: &mut Changes,
    ) -> Result<Reply, SeqError> {
        let _divisions = self.at.divisions();
        let _faults = seq.faults();
        Ok(Reply::Refused(Refusal::Dom(9)))
    }

    ghost laws = { held_laws (λ c. c.at) IsLabel never never_laws };
}
