//! What holds of the pages of a map: laws over the definitions alone, each the contract of a function with nothing to do.
ghost use Rattle.std.specs.Prelude.{◌≡◌, List};
ghost use Rattle.std.specs.List.{AllByRecursion};
ghost use Rattle.tree_model.specs.Entries.{Entries};
ghost use Rattle.tree_model.specs.Tree.{Tree, map_of};
ghost use Rattle.tree_model.specs.ValidTrees.{IsValidTree};
ghost use Rattle.node_records.specs.declared.entries.Entry.{Entry};
ghost use Rattle.node_pages.specs.Chunks.{all_chunks};
ghost use Rattle.node_pages.specs.Cuts.{data_of, directory_of};
ghost use Rattle.node_pages.specs.Cutting.{IsStored};
ghost use Rattle.node_pages.specs.EntryForm.{entry_behind};
ghost use Rattle.node_pages.specs.Filling.{AreFilled, joined};
ghost use Rattle.node_pages.specs.PageStarts.{start_behind, starts_from};

/// The data pages of a map keep the rule of filling and have its entries in order, and no other pages do; so do those of the directory with the pages' starts.
pub fn the_pages_of_a_map_keep_the_rule()
    ensures stored { (t : Tree) → IsValidTree t → AllByRecursion IsStored (map_of t) }
    ensures filled { (es : Entries) → AllByRecursion IsStored es → AreFilled entry_behind (data_of es) }
    ensures entries { (es : Entries) → joined (data_of es) ≡ all_chunks es }
    ensures no_others { (es : Entries) (pages : List (List Entry)) → AreFilled entry_behind pages → joined pages ≡ all_chunks es → pages ≡ data_of es }
    ensures directory { (es : Entries) → AllByRecursion IsStored es → AreFilled start_behind (directory_of (data_of es)) }
    ensures starts { (es : Entries) → joined (directory_of (data_of es)) ≡ starts_from 1 (data_of es) }
{}
