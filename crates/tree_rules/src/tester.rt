//! The rules of a tree, tested record by record in the order of their keys.
ghost use Rattle.std.specs.Prelude.{◌≡◌, ◌+◌, ◌++◌, ◌∷◌, [], false, true, None, IfOk, OnOk};
ghost use Rattle.dewey_labels.specs.Labels.{IsLabel};
ghost use Rattle.dewey_labels.specs.Lists.{is_empty};
ghost use Rattle.tree_model.specs.Entries.{Entries, Sorted};
ghost use Rattle.tree_model.specs.Keys.{node_key};
ghost use Rattle.tree_model.specs.Places.{is_root};
ghost use Rattle.tree_model.specs.StoredTree.{IsStoredTree, attribute_fits, broken_at, entry_fits, may_stand_at, node_fits};
ghost use Rattle.tree_rules.specs.Testing.{HasTaken, IsNext, KeepsNext};
ghost use Rattle.tree_rules.specs.inside.Paths.{is_above};

use crate::catalogue::{is_named_once, name_document, take_off};
use crate::path::{Step, go_to, holds_nodes, may_enter, room_at};
use crate::records::{is_document, is_node, is_root, is_value};
use dewey_labels::{Label, NoMemory};
use std::alloc::Global;
use std::collections::BTreeMap;
use tree_model::{DEEPEST_LEVEL, Key, Record, is_name};

/// Tests the records of a map one after another, and holds none of them: it has the labels of the nodes down to the last record, and
/// those that catalogue entries give and that no document has had yet. So its memory is that of the deepest node and the catalogue.
#[derive(Drop)]
pub struct Tester {
    /// The nodes from the document on down to the last record's.
    path: Vec<Step>,
    /// The label of the last record.
    last: Option<Label>,
    /// The labels that catalogue entries give, each with whether one entry alone gives it. Those of documents that were taken are gone.
    named: BTreeMap<Label, bool>,
    /// Whether each catalogue entry has a Name, and a label as its value.
    all_name: bool,
    taken: u64,
    /// How many records stand before the first that breaks a rule.
    broken: Option<u64>,
}

impl Tester {
    /// It has taken no record.
    pub fn new(alloc: Global) -> Tester
        ensures { HasTaken result [] }
    {
        Tester {
            path: Vec::new(alloc),
            last: None,
            named: BTreeMap::new(alloc),
            all_name: true,
            taken: 0,
            broken: None,
        }
    }

    /// Takes the record at the next key. After an error it is of no use any more. It copies the key's label twice at most, and takes a step
    /// for each node above it; a catalogue entry and a document cost a logarithm of steps more.
    pub fn take(&mut self, alloc: Global, key: &Key, value: &Record) -> Result<(), NoMemory>
        ensures { OnOk result ((es : Entries) → HasTaken self.old es → HasTaken self.new (es ++ (key.now, value.now) ∷ [])) }
    {
        match self.broken {
            Some(_first) => {
                self.count()?;
                Ok(())
            }
            None => self.test(alloc, key, value),
        }
    }

    /// The number of records before the first that breaks a rule of the tree, if their keys rise; that of all where only the catalogue does.
    pub fn broken_at(&self) -> Option<u64>
        ensures place { (es : Entries) → HasTaken self.now es → Sorted es → result ≡ broken_at es }
        ensures tree { result ≡ None → (es : Entries) → HasTaken self.now es → Sorted es → IsStoredTree es }
    {
        match self.broken {
            Some(at) => Some(at),
            None => self.ends_at(),
        }
    }
}

impl Tester {
    /// Counts one record more. No more of them are counted than a number of eight bytes tells.
    fn count(&mut self) -> Result<(), NoMemory>
        ensures { OnOk result (self.new ≡ record self.old { taken = self.old.taken + 1 }) }
    {
        match self.taken.checked_add(1) {
            Some(taken) => {
                self.taken = taken;
                Ok(())
            }
            None => Err(NoMemory),
        }
    }

    /// Tests the next record, where none has broken a rule.
    fn test(&mut self, alloc: Global, key: &Key, value: &Record) -> Result<(), NoMemory>
        requires unbroken { self.old.broken ≡ None }
        ensures { OnOk result ((es : Entries) → HasTaken self.old es → HasTaken self.new (es ++ (key.now, value.now) ∷ [])) }
    {
        let fits = self.fits(alloc, key, value)?;
        if fits {
            self.keep(alloc, key, value)?;
            self.count()?;
            return Ok(());
        }
        self.broken = Some(self.taken);
        self.count()?;
        Ok(())
    }

    /// The number of all records, where only the catalogue breaks a rule. No record has.
    fn ends_at(&self) -> Option<u64>
        requires unbroken { self.now.broken ≡ None }
        ensures place { (es : Entries) → HasTaken self.now es → Sorted es → result ≡ broken_at es }
        ensures tree { result ≡ None → (es : Entries) → HasTaken self.now es → Sorted es → IsStoredTree es }
    {
        let names = self.all_name;
        if !names {
            return Some(self.taken);
        }
        let is_done = self.named.is_empty();
        if is_done {
            return None;
        }
        Some(self.taken)
    }

    /// Whether the next record may stand behind those that were taken.
    fn fits(&self, alloc: Global, key: &Key, value: &Record) -> Result<bool, NoMemory>
        ensures fits { IfOk result (λ fits. (es : Entries) → IsNext self.now es (key.now, value.now) → fits ≡ entry_fits es (key.now, value.now)) }
        ensures label { OnOk result (IsLabel key.now.label) }
    {
        if is_root(&key.label) {
            return Ok(!is_node(key));
        }
        if !is_node(key) {
            return Ok(self.attribute_fits(key, value));
        }
        self.node_fits(alloc, &key.label, value)
    }

    /// Whether an attribute has a name and a value, and its element was taken.
    fn attribute_fits(&self, key: &Key, value: &Record) -> bool
        ensures { (es : Entries) → is_empty key.now.name ≡ false → IsNext self.now es (key.now, value.now) → result ≡ attribute_fits key.now value.now es }
    {
        is_name(&key.name) && is_value(value) && holds_nodes(room_at(&self.path, &key.label))
    }

    /// Whether a node keeps the limits and may stand behind the records that were taken.
    fn node_fits(&self, alloc: Global, label: &Label, value: &Record) -> Result<bool, NoMemory>
        requires inner { is_root label.now ≡ false }
        ensures { IfOk result (λ fits. (es : Entries) → IsNext self.now es (node_key label.now, value.now) → fits ≡ node_fits label.now value.now es) }
    {
        if label.level() > DEEPEST_LEVEL || !value.fits() {
            return Ok(false);
        }
        self.may_stand_at(alloc, label, value)
    }

    /// Whether a node with this record may stand behind the records that were taken.
    fn may_stand_at(&self, alloc: Global, label: &Label, value: &Record) -> Result<bool, NoMemory>
        requires inner { is_root label.now ≡ false }
        ensures { IfOk result (λ may. (es : Entries) → IsNext self.now es (node_key label.now, value.now) → may ≡ may_stand_at label.now value.now es) }
    {
        let Some(parent) = label.parent(alloc)? else {
            unreachable!()
        };
        if is_root(&parent) {
            return Ok(is_document(value) && is_named_once(&self.named, label));
        }
        let room = room_at(&self.path, &parent);
        let taken = self.is_above_last(&parent);
        Ok(may_enter(room, value, taken))
    }

    /// Whether the last record lies under the label.
    fn is_above_last(&self, label: &Label) -> bool
        ensures { result ≡ is_above label.now self.now.last }
    {
        match &self.last {
            Some(last) => label.is_ancestor_of(last),
            None => false,
        }
    }

    /// Keeps what is needed of a record that may stand there.
    fn keep(&mut self, alloc: Global, key: &Key, value: &Record) -> Result<(), NoMemory>
        ensures keeps { OnOk result (KeepsNext self.old (key.now, value.now) self.new) }
        ensures taken { OnOk result (self.new.taken ≡ self.old.taken) }
        ensures broken { OnOk result (self.new.broken ≡ self.old.broken) }
    {
        self.last = Some(key.label.copy(alloc)?);
        if is_root(&key.label) {
            let names = name_document(alloc, &mut self.named, key, value)?;
            self.all_name = self.all_name && names;
            return Ok(());
        }
        if is_node(key) {
            go_to(alloc, &mut self.path, &key.label, value)?;
            take_off(&mut self.named, &key.label, value);
        }
        Ok(())
    }
}
