//! A copy of a map in memory.

ghost use Rattle.std.specs.Prelude.{◌≡◌, IfOk, OnOk};
ghost use Rattle.outside_traits.specs.Faults.{HasCause};
ghost use Rattle.tree_model.specs.Entries.{Sorted, put};
ghost use Rattle.tree_model.specs.Tree.{map_of};
ghost use Rattle.node_seq.specs.declared.node_read.SeqError.TheVariants.{DiskFault};
ghost use Rattle.node_seq.specs.Trees.{OnTree};
ghost use Rattle.overlays.specs.Views.{AreEmptyIn, contents_after, contents_seen};
ghost use Rattle.tx_core.specs.inside.Asking.{OnSeenTree};

use crate::parts::Parts;
use call_contract::TreeCall;
use dewey_labels::{Label, List, NoMemory};
use node_seq::{NodeRead, SeqError, SortedSeq, entries_above};
use overlays::{Gaps, Layers, Overlay, View};
use std::alloc::Global;
use tree_model::{Key, Record};

/// Puts an entry into a map.
fn put_entry(alloc: Global, map: &mut SortedSeq, entry: (Key, Record)) -> Result<(), NoMemory>
    ensures { OnOk result (map.new ≡ put entry map.old) }
{
    let (key, record) = entry;
    let _before = map.put(alloc, key, record)?;
    Ok(())
}

/// The map with these entries. Each is put behind those before it, by one search.
fn map_with(alloc: Global, entries: List<(Key, Record)>) -> Result<SortedSeq, NoMemory>
    ensures { IfOk result (λ map. Sorted entries → map ≡ entries) }
{
    let mut map = SortedSeq::new(alloc);
    for entry in entries.into_vec() {
        put_entry(alloc, &mut map, entry)?;
    }
    Ok(map)
}

/// A copy of a map that stands for a tree. It reads each entry once.
fn copy_map<S: NodeRead>(alloc: Global, seq: &mut S) -> Result<SortedSeq, SeqError>
    ensures tree { OnTree (S.contents seq.old) result (λ t copy. copy ≡ map_of t) }
    ensures unchanged { S.unchanged seq.old seq.new }
    ensures cause { HasCause DiskFault (S.count seq.old) (S.count seq.new) result }
{
    let label = Label::root(alloc)?;
    let root = Key::of_node(alloc, &label)?;
    let entries = entries_above(alloc, &root, seq)?;
    Ok(map_with(alloc, entries)?)
}

/// A copy of what is seen through the layers and an overlay.
fn copy_view<'v, B: NodeRead>(
    alloc: Global,
    base: &'v mut B,
    layers: &'v Layers,
    own: &'v Overlay,
    gaps: &'v mut Gaps,
) -> Result<SortedSeq, SeqError>
    requires empty { AreEmptyIn gaps.old (contents_seen own.now layers.now.changes (B.contents base.old)) }
    ensures tree { OnSeenTree own.now layers.now (B.contents base.old) result
        (λ t copy. copy ≡ map_of t) }
    ensures unchanged { B.unchanged base.old base.new }
    ensures cause { HasCause DiskFault (B.count base.old) (B.count base.new) result }
{
    let mut view = View {
        base,
        layers,
        own,
        gaps,
    };
    copy_map(alloc, &mut view)
}

/// A copy of what is committed. It reads the base once an entry, and a few times more where it passes deletions.
pub fn copy_committed<C: TreeCall + Drop, B: NodeRead>(
    alloc: Global,
    parts: &mut Parts<C, B>,
) -> Result<SortedSeq, SeqError>
    ensures tree { OnTree (contents_after parts.old.layers.changes (B.contents parts.old.base)) result (λ t copy. copy ≡ map_of t) }
    ensures same { parts.new ≡ record parts.old { base = parts.new.base; layers = parts.new.layers } }
    ensures layers { parts.new.layers ≡ parts.old.layers }
    ensures unchanged { B.unchanged parts.old.base parts.new.base }
    ensures cause { HasCause DiskFault (B.count parts.old.base) (B.count parts.new.base) result }
{
    let own = Overlay::new(alloc);
    let mut gaps = Gaps::new(alloc);
    copy_view(alloc, &mut parts.base, &parts.layers, &own, &mut gaps)
}
