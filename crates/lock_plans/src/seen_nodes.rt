//! Nodes that a plan asks for and that are then read, since the requests behind them depend on what they are.
ghost use Rattle.std.specs.Prelude.{◌≡◌, ◌≢◌, ◌++◌, IsTrue, IfOk, OnOk};
ghost use Rattle.dewey_labels.specs.Labels.{is_child, parent as parent_of, root};
ghost use Rattle.lock_modes.specs.declared.ask.Ask.TheVariants as ask;
ghost use Rattle.lock_modes.specs.declared.mode.Mode.TheVariants.{NR};
ghost use Rattle.lock_resources.specs.declared.resource.Resource.TheVariants.{Node};
ghost use Rattle.lock_resources.specs.Intentions.{with_intentions};
ghost use Rattle.tree_model.specs.NodeKinds.{is_element as is_element_node};
ghost use Rattle.tree_model.specs.Placing.{has_child};
ghost use Rattle.tree_model.specs.Tree.{at as node_at, found as is_found, record_of};
ghost use Rattle.tree_model.specs.ValidTrees.{same_label};
ghost use Rattle.node_seq.specs.Trees.{OnTree};
ghost use Rattle.outside_traits.specs.Faults.{HasCause};
ghost use Rattle.lock_plans.specs.inside.PlanSteps.{sees_child, text_data};

use crate::plan::Plan;
use dewey_labels::{Label, NoMemory, Text};
use dom_reads::{is_element, record_at};
use node_seq::{NodeRead, SeqError};
use std::alloc::Global;
use tree_model::Record;

impl Plan {
    /// Asks to read a node, and reads its record, if the node is there.
    pub fn see<S: NodeRead>(
        &mut self,
        alloc: Global,
        at: &Label,
        seq: &mut S,
    ) -> Result<Option<Record>, SeqError>
        ensures found { OnTree (S.contents seq.old) result (λ t r. r ≡ record_of (node_at at.now t.documents)) }
        ensures asks { OnOk result (self.new ≡ self.old ++ with_intentions (Node at.now) (ask.Node NR)) }
        ensures unchanged { S.unchanged seq.old seq.new }
        ensures cause { HasCause SeqError.DiskFault (S.count seq.old) (S.count seq.new) result }
    {
        self.read_node(alloc, at)?;
        record_at(alloc, at, seq)
    }

    /// Asks to read a node. Whether it is there.
    pub fn see_node<S: NodeRead>(
        &mut self,
        alloc: Global,
        at: &Label,
        seq: &mut S,
    ) -> Result<bool, SeqError>
        ensures found { OnTree (S.contents seq.old) result (λ t is_there. is_there ≡ is_found (node_at at.now t.documents)) }
        ensures asks { OnOk result (self.new ≡ self.old ++ with_intentions (Node at.now) (ask.Node NR)) }
        ensures unchanged { S.unchanged seq.old seq.new }
        ensures cause { HasCause SeqError.DiskFault (S.count seq.old) (S.count seq.new) result }
    {
        let found = self.see(alloc, at, seq)?;
        Ok(found.is_some())
    }

    /// Asks to read a node. Whether it is there and an element.
    pub fn see_element<S: NodeRead>(
        &mut self,
        alloc: Global,
        at: &Label,
        seq: &mut S,
    ) -> Result<bool, SeqError>
        ensures found { OnTree (S.contents seq.old) result (λ t is_one. is_one ≡ is_element_node (node_at at.now t.documents)) }
        ensures asks { OnOk result (self.new ≡ self.old ++ with_intentions (Node at.now) (ask.Node NR)) }
        ensures unchanged { S.unchanged seq.old seq.new }
        ensures cause { HasCause SeqError.DiskFault (S.count seq.old) (S.count seq.new) result }
    {
        match self.see(alloc, at, seq)? {
            Some(found) => Ok(is_element(&found)),
            None => Ok(false),
        }
    }

    /// Asks to read a node. Its data, if it is there and a text.
    pub fn see_text<S: NodeRead>(
        &mut self,
        alloc: Global,
        at: &Label,
        seq: &mut S,
    ) -> Result<Option<Text>, SeqError>
        ensures found { OnTree (S.contents seq.old) result (λ t text. text ≡ text_data (record_of (node_at at.now t.documents))) }
        ensures asks { OnOk result (self.new ≡ self.old ++ with_intentions (Node at.now) (ask.Node NR)) }
        ensures unchanged { S.unchanged seq.old seq.new }
        ensures cause { HasCause SeqError.DiskFault (S.count seq.old) (S.count seq.new) result }
    {
        match self.see(alloc, at, seq)? {
            Some(Record::Text(data)) => Ok(Some(data)),
            _ => Ok(None),
        }
    }

    /// Asks to read a child of a node that is there, if the child's label says that it is one. Whether it is there.
    pub fn see_child<S: NodeRead>(
        &mut self,
        alloc: Global,
        at: &Label,
        child: &Label,
        seq: &mut S,
    ) -> Result<bool, SeqError>
        ensures found { OnTree (S.contents seq.old) result (λ t is_there. at.now ≢ root → is_there ≡ has_child at.now child.now t) }
        ensures asks { OnOk result (at.now ≢ root → self.new ≡ self.old ++ sees_child at.now child.now) }
        ensures child { IfOk result (λ is_there. IsTrue is_there → IsTrue (is_child at.now child.now)) }
        ensures parent { IfOk result (λ is_there. IsTrue is_there → parent_of child.now ≡ at.now) }
        ensures unchanged { S.unchanged seq.old seq.new }
        ensures cause { HasCause SeqError.DiskFault (S.count seq.old) (S.count seq.new) result }
    {
        if !is_child_of(alloc, at, child)? {
            return Ok(false);
        }
        self.see_node(alloc, child, seq)
    }
}

/// Whether a label is that of a child of `at`.
fn is_child_of(alloc: Global, at: &Label, child: &Label) -> Result<bool, NoMemory>
    ensures same { IfOk result (λ is_one. at.now ≢ root → is_one ≡ same_label (parent_of child.now) at.now) }
    ensures child { IfOk result (λ is_one. IsTrue is_one → IsTrue (is_child at.now child.now)) }
    ensures parent { IfOk result (λ is_one. IsTrue is_one → parent_of child.now ≡ at.now) }
{
    let _divisions = child.divisions();
    match child.parent(alloc)? {
        Some(parent) => Ok(parent == *at),
        None => Ok(false),
    }
}
