// What the core of sessions is laid over.
ghost use Rattle.std.specs.Prelude.{◌≡◌};
ghost use Rattle.tx_core.specs.Cores.{over};

use call_contract::TreeCall;
use checkpoint::Base;
use node_seq::{NodeRead, SortedSeq};
use outside_traits::Disk;
use overlays::Stacked;
use std::alloc::Global;
use tx_core::Core;

/// A map that sessions read, and that may take in what was committed over it.
///
/// `stays` holds of a base and the same base after sessions were asked: what they leave alone of it, whatever it took in.
pub trait SessionBase: NodeRead + Drop + Sized {
    ghost stays: { Self → Self → Type 0 };

    /// Takes in what was committed, where that is due. It is called after each commit. What the core stands for stays, and no fault is counted.
    fn take_in<C: TreeCall + Drop>(alloc: Global, core: &mut Core<C, Self>)
        ensures same { core.new ≡ over core.old core.new.base }
        ensures stays { stays core.old.base core.new.base }
        ensures uncounted { Self.count core.new.base ≡ Self.count core.old.base };

    ghost unchanged_stays: { (x y : Self) → Self.unchanged x y → stays x y };

    ghost stays_onward: { (x y z : Self) → stays x y → stays y z → stays x z };
}

/// A map in memory takes in what was committed: nothing of it stays.
impl SessionBase for SortedSeq {
    ghost stays = { λ x y. Unit {0} };

    fn take_in<C: TreeCall + Drop>(alloc: Global, core: &mut Core<C, SortedSeq>) {
        // Without memory nothing changes, and the next commit tries again.
        let _ = core.merge(alloc);
    }

    ghost unchanged_stays = { λ x y is. tt };

    ghost stays_onward = { λ x y z one two. tt };
}

/// What was committed stays in the core's layers: base and layers are as they were, but for what reading leaves.
impl<S: NodeRead + Drop> SessionBase for Stacked<S> {
    ghost use Rattle.std.proofs.Common.{◌∙◌};

    ghost stays = { λ x y. S.unchanged x.base y.base × (x.layers ≡ y.layers) };

    fn take_in<C: TreeCall + Drop>(_alloc: Global, _core: &mut Core<C, Stacked<S>>) {}

    ghost unchanged_stays = { λ x y is. is };

    ghost stays_onward = { λ x y z one two. (S.unchanged_onward x.base y.base z.base one.0 two.0, one.1 ∙ two.1) };
}

/// Pages with what was committed since as layers, or a copy of the map while a checkpoint writes the pages: what was committed stays in the core's layers.
impl<P: Disk + Drop> SessionBase for Base<P> {
    ghost use Rattle.checkpoint.specs.Bases.{IsUnchanged, unchanged_onward};

    ghost stays = { λ x y. IsUnchanged P.is_known P.history P.faults x y };

    fn take_in<C: TreeCall + Drop>(_alloc: Global, _core: &mut Core<C, Base<P>>) {}

    ghost unchanged_stays = { λ x y is. is };

    ghost stays_onward = { λ x y z one two. unchanged_onward P.is_known P.history P.faults x y z one two };
}
