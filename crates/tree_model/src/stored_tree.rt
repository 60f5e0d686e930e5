//! Laws of the maps that a store keeps: by them a map that is tested record by record stands for one tree.
ghost use Rattle.std.specs.Prelude.{◌≡◌, None};
ghost use Rattle.std.specs.List.{AllByRecursion};
ghost use Rattle.dewey_labels.specs.Labels.{IsLabel};
ghost use Rattle.tree_model.specs.Entries.{Entries, Sorted};
ghost use Rattle.tree_model.specs.Tree.{Tree, map_of};
ghost use Rattle.tree_model.specs.ValidTrees.{IsValidTree};
ghost use Rattle.tree_model.specs.StoredTree.{IsStoredTree, broken_at};

/// A sorted map whose keys have labels is that of a valid tree where none of its records breaks a rule.
#[tactic(auto, using(crate::proofs::StoredMaps::stored_tree))]
pub fn unbroken_maps_are_trees()
    ensures trees { (es : Entries) → Sorted es → AllByRecursion (λ e. IsLabel e.0.label) es → broken_at es ≡ None → IsStoredTree es }
{}

/// The map of a valid tree breaks no rule, and is that of no other one.
#[tactic(auto, using(crate::proofs::UnbrokenTrees::unbroken, crate::proofs::SameMaps::same_tree))]
pub fn trees_have_unbroken_maps()
    ensures unbroken { (t : Tree) → IsValidTree t → broken_at (map_of t) ≡ None }
    ensures one { (t u : Tree) → IsValidTree t → IsValidTree u → map_of t ≡ map_of u → t ≡ u }
{}
