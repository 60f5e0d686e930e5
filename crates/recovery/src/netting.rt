// What commits make of the records that the pages hold: the whole map is tested as it is read, and the net changes are kept.
ghost use Rattle.std.specs.Prelude.{◌≡◌, ◌≤◌, IsTrue, IfOk, IfErr, OnOk};
ghost use Rattle.tree_model.specs.Changes.{Rising, keys_rise, laid};
ghost use Rattle.tree_model.specs.Entries.{Entries, Sorted, changed};
ghost use Rattle.journal.specs.Refusals.{HasReason, UnlessFault};
ghost use Rattle.node_seq.specs.ChangeLists.{IsChangeList};
ghost use Rattle.paged_seq.specs.PagedMaps.{file_entries};
ghost use Rattle.store_contents.specs.Contents.{after_commits, last_of};
ghost use Rattle.recovery.specs.inside.Counts.{CountRose};
ghost use Rattle.recovery.specs.inside.Nets.{IsMisfitAfter, IsNetOf, MakeTree, MisfitRead, as_changes};

use crate::counting::told;
use crate::holding::fault_of;
use crate::runs::{Run, all_in_one, go_on};
use crate::walking::broken_at;
use dewey_labels::{List, NoMemory};
use journal::Group;
use node_records::{File, OpenError};
use node_seq::NodeRead;
use outside_traits::Disk;
use overlays::{Layers, Overlay};
use paged_seq::PagedSeq;
use std::alloc::Global;
use std::collections::BTreeMap;
use tree_model::{Change, Changes, Key, Record};

/// The net changes of commits as one layer, and the number of the last of them.
#[derive(Drop)]
pub struct Net {
    pub layers: Layers,
    pub number: u32,
}

/// Follows commits over the records of pages, whose number this is.
/// The net changes cost a logarithm of steps for each change, whatever the pages hold. The map that they make is gone through once, and tested:
/// each data page is read once, and no record is kept.
pub fn follow<P: Disk + Drop>(
    alloc: Global,
    seq: &mut PagedSeq<P>,
    base: u32,
    commits: List<Group>,
) -> Result<Net, OpenError>
    requires sorted { IsTrue P.is_known → Sorted (file_entries (P.history seq.old.disk).now.reads) }
    ensures net { IfOk result (λ net. IsNetOf P.is_known (P.history seq.old.disk).now.reads base commits net.layers.changes net.number) }
    ensures reason { IfErr result (HasReason
        (IsMisfitAfter P.is_known (P.history seq.old.disk).now.reads commits)
        (CountRose P.Disk seq.old.disk seq.new.disk)) }
    ensures most { seq.new.pool.most ≡ seq.old.pool.most }
    ensures same { IsTrue P.is_known → P.history seq.new.disk ≡ P.history seq.old.disk }
    ensures exact { OnOk result (P.faults seq.new.disk ≡ P.faults seq.old.disk) }
    ensures uncounted { IfErr result (λ fault. UnlessFault fault (P.faults seq.new.disk ≡ P.faults seq.old.disk)) }
    ensures later { P.faults seq.old.disk ≤ P.faults seq.new.disk }
{
    let net = match net_changes(alloc, base, commits) {
        Ok(net) => net,
        Err(NoMemory) => return Err(OpenError::NoMemory),
    };
    let (changes, number) = net;
    match is_tree(alloc, seq, changes.as_slice()) {
        Ok(()) => match layer_of(alloc, changes) {
            Ok(layers) => Ok(Net { layers, number }),
            Err(NoMemory) => Err(OpenError::NoMemory),
        },
        Err(fault) => Err(fault),
    }
}

/// What the changes make of the records of pages is a tree's map.
fn is_tree<P: Disk + Drop>(
    alloc: Global,
    seq: &mut PagedSeq<P>,
    changes: &[Change],
) -> Result<(), OpenError>
    requires rising { Rising changes.now }
    requires sorted { IsTrue P.is_known → Sorted (file_entries (P.history seq.old.disk).now.reads) }
    ensures tree { OnOk result (MakeTree P.is_known (P.history seq.old.disk).now.reads changes.now) }
    ensures reason { IfErr result (HasReason
        (MisfitRead P.is_known (P.history seq.old.disk).now.reads changes.now)
        (CountRose P.Disk seq.old.disk seq.new.disk)) }
    ensures most { seq.new.pool.most ≡ seq.old.pool.most }
    ensures same { IsTrue P.is_known → P.history seq.new.disk ≡ P.history seq.old.disk }
    ensures exact { OnOk result (P.faults seq.new.disk ≡ P.faults seq.old.disk) }
    ensures uncounted { IfErr result (λ fault. UnlessFault fault (P.faults seq.new.disk ≡ P.faults seq.old.disk)) }
    ensures later { P.faults seq.old.disk ≤ P.faults seq.new.disk }
{
    let before = seq.faults();
    match broken_at(alloc, seq, changes) {
        Ok(found) => match found {
            None => Ok(()),
            Some(at) => Err(OpenError::at(File::Tree, at)),
        },
        Err(fault) => Err(told(fault_of(fault), before, seq.faults())),
    }
}

/// What commits say in the end of each key that they name, and the number of the last of them.
fn net_changes(alloc: Global, base: u32, commits: List<Group>) -> Result<(Changes, u32), NoMemory>
    ensures rising { IfOk result (λ net. Rising net.0) }
    ensures effect { IfOk result (λ net. (es : Entries) → Sorted es → changed net.0 es ≡ after_commits commits es) }
    ensures number { IfOk result (λ net. net.1 ≡ last_of commits base) }
{
    let mut older = Vec::new(alloc);
    let mut newest = Run::new(Vec::new(alloc));
    let mut number = base;
    for group in commits.into_vec() {
        let next = run_of(alloc, group.changes)?;
        newest = go_on(alloc, &mut older, newest, next)?;
        number = group.number;
    }
    let net = all_in_one(alloc, older, newest)?;
    Ok((List::from_vec(net.into_changes()), number))
}

/// Changes as a run. A journal gives them by rising keys, and they are taken as they are. On a disk that isn't known keys may fall: then a tree sorts them.
fn run_of(alloc: Global, changes: Changes) -> Result<Run, NoMemory>
    ensures { IfOk result (λ run. (es : Entries) → Sorted es → changed run es ≡ changed changes es) }
{
    if rises(changes.as_slice()) {
        return Ok(Run::new(changes.into_vec()));
    }
    let mut net = BTreeMap::new(alloc);
    note(&mut net, changes)?;
    let changes = changes_of(alloc, net)?;
    Ok(Run::new(changes.into_vec()))
}

/// Whether each key stands above the one before it.
fn rises(changes: &[Change]) -> bool
    ensures { result ≡ keys_rise changes.now }
{
    let mut rest = changes;
    while let [first, after @ ..] = rest {
        if let [second, ..] = after {
            if first.key.cmp(&second.key).is_ge() {
                return false;
            }
        }
        rest = after;
    }
    true
}

/// Notes what changes say of their keys, in place of what was said of them before.
fn note(net: &mut BTreeMap<Key, Option<Record>>, changes: Changes) -> Result<(), NoMemory>
    ensures { OnOk result (as_changes net.new.entries ≡ laid changes (as_changes net.old.entries)) }
{
    for change in changes.into_vec() {
        let Change { key, now } = change;
        let _before = net.insert(key, now)?;
    }
    Ok(())
}

/// What is said of the keys, in their order.
fn changes_of(alloc: Global, net: BTreeMap<Key, Option<Record>>) -> Result<Changes, NoMemory>
    ensures { IfOk result (λ changes. changes ≡ as_changes net.entries) }
{
    let mut changes = List::from_vec(Vec::with_capacity(alloc, net.len())?);
    for (key, now) in net {
        changes.push(Change { key, now })?;
    }
    Ok(changes)
}

/// The changes as the only layer.
fn layer_of(alloc: Global, changes: Changes) -> Result<Layers, NoMemory>
    requires list { IsChangeList changes }
    ensures { IfOk result (λ layers. layers.changes ≡ changes) }
{
    let mut own = Overlay::new(alloc);
    own.add(alloc, changes)?;
    let mut layers = Layers::new(alloc);
    layers.push_layer(own);
    Ok(layers)
}
