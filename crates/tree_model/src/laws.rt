//! Laws of the definitions, each the contract of a function that does nothing.
ghost use Rattle.dewey_labels.specs.Labels.{Label};
ghost use Rattle.std.specs.Prelude.{◌≡◌, ℕ, ◌++◌, List, IsTrue};
ghost use Rattle.std.specs.Str.{is_utf8};
ghost use Rattle.tree_model.specs.Changes.{Rising, keys_rise, now_at, difference, differences};
ghost use Rattle.tree_model.specs.Entries.{Entries, Sorted, get, changed};
ghost use Rattle.tree_model.specs.Fragments.{plain, plain_row};
ghost use Rattle.tree_model.specs.Graft.{graft};
ghost use Rattle.tree_model.specs.Records.{is_data};
ghost use Rattle.tree_model.specs.Subtrees.{fragments_of};
ghost use Rattle.tree_model.specs.Texts.{data_before, data_from};
ghost use Rattle.tree_model.specs.Tree.{none};
ghost use Rattle.tree_model.specs.declared.change.Change.{Change};
ghost use Rattle.tree_model.specs.declared.fragment.Fragment.{Fragment};
ghost use Rattle.tree_model.specs.declared.key.Key.{Key};

/// The changes from one sorted map to another: one for each key whose record differs and no other, keys rising, and they lead there.
#[tactic(auto, using(crate::proofs::Differences::at_differences, crate::proofs::Differences::rising_differences, crate::proofs::Differences::changed_differences))]
pub fn differences_lead_from_map_to_map()
    ensures each { (k : Key) (es fs : Entries) → Sorted fs → now_at k (differences es fs) ≡ difference (get k es) (get k fs) }
    ensures rising { (es fs : Entries) → Sorted es → Sorted fs → Rising (differences es fs) }
    ensures there { (es fs : Entries) → Sorted es → Sorted fs → changed (differences es fs) es ≡ fs }
{}

/// The test of rising keys decides whether they rise.
#[tactic(auto, using(crate::proofs::ChangeLists::rising_of_test, crate::proofs::ChangeLists::test_of_rising))]
pub fn rising_keys_pass_their_test()
    ensures passes { (cs : List Change) → Rising cs → IsTrue (keys_rise cs) }
    ensures rise { (cs : List Change) → IsTrue (keys_rise cs) → Rising cs }
{}

/// A text that is split gives two texts, which joined again are the text.
#[tactic(auto, using(crate::proofs::SplitTexts::parts_joined))]
pub fn split_texts_are_texts()
    ensures parts { (offset : ℕ) (d : List ℕ) → IsTrue (is_data d) → IsTrue (is_data (data_before offset d)) × IsTrue (is_data (data_from offset d)) }
    ensures joined { (offset : ℕ) (d : List ℕ) → IsTrue (is_utf8 d) → data_before offset d ++ data_from offset d ≡ d }
{}

/// A fragment that is placed at a label is read from there again.
#[tactic(auto, using(crate::proofs::PlacedFragments::plain_again))]
pub fn placed_fragments_are_read_again()
    ensures again { (l : Label) (f : Fragment) → plain_row (fragments_of (graft l (plain f) none)) ≡ plain f }
{}
