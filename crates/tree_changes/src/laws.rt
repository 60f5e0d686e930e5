//! The laws, each the contract of a function that does nothing.
ghost use Rattle.std.specs.Prelude.{◌≡◌, ◌++◌, [], true, false, ℕ, List, Option, Some, None, IsTrue};
ghost use Rattle.std.specs.List.{AllByRecursion};
ghost use Rattle.std.specs.Str.{is_utf8};
ghost use Rattle.dewey_labels.specs.Labels.{Label};
ghost use Rattle.tree_model.specs.Names.{Name, is_name};
ghost use Rattle.tree_model.specs.Keys.{key_at, node_key};
ghost use Rattle.tree_model.specs.Entries.{Entries, Sorted, get, set, changed};
ghost use Rattle.tree_model.specs.Changes.{Rising, differences};
ghost use Rattle.tree_model.specs.Tree.{Forest, Tree, at, beside};
ghost use Rattle.tree_model.specs.ValidTrees.{IsValidTree};
ghost use Rattle.tree_model.specs.Fragments.{Fragments, IsValid};
ghost use Rattle.tree_model.specs.Outcomes.{is_refused};
ghost use Rattle.tree_model.specs.NodeKinds.{is_text_node};
ghost use Rattle.tree_model.specs.Edits.{edited};
ghost use Rattle.tree_model.specs.Attributes.{set_attr, remove_attr, rename};
ghost use Rattle.tree_model.specs.Texts.{set_data, append_data, replace_data, normal, normalize, set_text};
ghost use Rattle.tree_model.specs.Placing.{append, insert, replace, remove};
ghost use Rattle.tree_model.specs.Documents.{create, drop_document};
ghost use Rattle.tree_model.specs.DomCalls.{dom};
ghost use Rattle.tree_model.specs.declared.change.Change.{Change};
ghost use Rattle.tree_model.specs.declared.dom_call.DomCall.{DomCall};
ghost use Rattle.tree_model.specs.declared.key.Key.{Key};
ghost use Rattle.tree_model.specs.declared.record.Record.{Record};
ghost use Rattle.tree_model.specs.declared.record.Record.TheVariants.{Attr, Document, Element, Text};
ghost use Rattle.tree_changes.specs.KeyChanges.{differs, that_differ, change_at};
ghost use Rattle.tree_changes.specs.SubtreeEntries.{entries_within, amid, fragment_entries, document_entries, new_document_entries, text_alone};
ghost use Rattle.tree_changes.specs.CallChanges.{OnValidTrees, HasNode, HasRecord, IsDone, ChangesPlace, ChangesKey, ChangesData, ChangesElement, ChangesBelow, PutsAtNew, PutsInstead, Deletes, SplitsData, replaced};
ghost use Rattle.tree_changes.specs.ValidCalls.{IsValidCall};

/// A list of changes with rising keys, each of which changes the map, is the list of the differences between the map and what it makes of it.
/// So is what is left of any list with rising keys, where the changes are left out that change nothing.
#[tactic(auto, using(crate::proofs::ChangeLists::differences_of_changes, crate::proofs::ChangeLists::differences_that_differ, crate::proofs::ChangeLists::differences_of_one, crate::proofs::ChangeLists::no_differences, crate::proofs::Stretches::differences_between))]
pub fn changes_are_differences()
    ensures all { (cs : List Change) (es : Entries) → Sorted es → Rising cs → AllByRecursion (λ c. differs es c ≡ true) cs
        → cs ≡ differences es (changed cs es) }
    ensures filtered { (cs : List Change) (es : Entries) → Sorted es → Rising cs → that_differ es cs ≡ differences es (changed cs es) }
    ensures of_one { (k : Key) (now : Option Record) (es : Entries) → Sorted es → differences es (set k now es) ≡ change_at k (get k es) now }
    ensures of_none { (es : Entries) → Sorted es → differences es es ≡ [] }
    ensures between { (a old new b : Entries) → Sorted (amid a b old) → Sorted (amid a b new)
        → differences (amid a b old) (amid a b new) ≡ differences old new }
{}

/// A call on an element's attributes or name changes one key at most: nothing where it is refused, and nothing where the record that it wants stands there already.
#[tactic(auto, using(crate::proofs::AttributeLaws::set_attr_differences, crate::proofs::AttributeLaws::remove_attr_differences, crate::proofs::AttributeLaws::remove_attr_no_name, crate::proofs::AttributeLaws::rename_differences))]
pub fn attribute_calls_change_one_key()
    ensures set_attr { (l : Label) (n : Name) (v : List ℕ)
        → OnValidTrees (ChangesKey (set_attr l n v) (key_at l n) (Some (Attr v))) }
    ensures remove_attr { (l : Label) (n : Name)
        → OnValidTrees (λ t. is_name n ≡ true → ChangesKey (remove_attr l n) (key_at l n) None t) }
    ensures remove_attr_of_no_name { (l : Label) (n : Name) (t : Tree) → is_name n ≡ false → (remove_attr l n t).1 ≡ t }
    ensures rename { (l : Label) (n : Name)
        → OnValidTrees (ChangesKey (rename l n) (node_key l) (Some (Element n))) }
{}

/// A call that sets a text's data anew changes the text's key at most.
#[tactic(auto, using(crate::proofs::DataLaws::set_data_differences, crate::proofs::DataLaws::append_data_differences, crate::proofs::DataLaws::replace_data_differences))]
pub fn data_calls_change_one_key()
    ensures set_data { (l : Label) (d : List ℕ)
        → OnValidTrees (ChangesKey (set_data l d) (node_key l) (Some (Text d))) }
    ensures append_data { (l : Label) (d : List ℕ)
        → OnValidTrees (ChangesData (append_data l d) l (λ old. old ++ d)) }
    ensures replace_data { (l : Label) (offset count : ℕ) (d : List ℕ)
        → OnValidTrees (ChangesData (replace_data l offset count d) l (replaced offset count d)) }
{}

/// Where one subtree is changed, with the trees behind it, the differences of the whole map are those of its entries.
#[tactic(auto, using(crate::proofs::EditedMaps::place_differences))]
pub fn one_place_is_changed()
    ensures { (l : Label) (change : Forest → Forest)
        → OnValidTrees (λ t. IsValidTree (edited l change t) → HasNode l t → ChangesPlace l change t) }
{}

/// Every valid call keeps a valid tree valid, and a refused one leaves the tree.
pub fn valid_trees_stay_valid()
    ensures keeps { (c : DomCall) (t : Tree) → IsValidCall c → IsValidTree t → IsValidTree (dom c t).1 }
    ensures refused { (c : DomCall) (t : Tree) → is_refused (dom c t).0 ≡ true → (dom c t).1 ≡ t }
{}

/// A call that places a fragment puts the entries of its tree at the new label, and one that takes a subtree out deletes the entries of that one.
#[tactic(auto, using(crate::proofs::PlacingLaws::append_differences, crate::proofs::PlacingLaws::insert_differences, crate::proofs::PlacingLaws::replace_differences, crate::proofs::PlacingLaws::remove_differences))]
pub fn placing_calls_change_subtrees()
    ensures append { (p : Label) (f : Fragments)
        → OnValidTrees (λ t. IsValid f → PutsAtNew (append p f) (fragment_entries f) t) }
    ensures insert { (p c : Label) (f : Fragments)
        → OnValidTrees (λ t. IsValid f → PutsAtNew (insert p (Some c) f) (fragment_entries f) t) }
    ensures replace { (p old : Label) (f : Fragments)
        → OnValidTrees (λ t. IsValid f → PutsInstead (replace p old f) old (fragment_entries f) t) }
    ensures remove { (p old : Label) → OnValidTrees (λ t. IsDone (remove p old) t
        → Deletes (remove p old) (entries_within (at old t.documents)) t) }
{}

/// `create` puts the catalogue's entry and the new document's entries; `drop` deletes those of the document that has the name.
#[tactic(auto, using(crate::proofs::DocumentLaws::create_differences, crate::proofs::DocumentLaws::drop_differences))]
pub fn document_calls_change_one_document()
    ensures create { (n : Name) (f : Fragments)
        → OnValidTrees (λ t. IsValid f → PutsAtNew (create n f) (new_document_entries n f) t) }
    ensures drop { (n : Name) → OnValidTrees (λ t. (l : Label) → beside n t.catalogue ≡ Some l
        → Deletes (drop_document n) (document_entries n l t) t) }
{}

/// `set_text` and `normalize` change what stands under their node, and `set_text` of a text its data; `split_text` changes the text, and puts one behind it.
#[tactic(auto, using(crate::proofs::ContentLaws::set_text_differences, crate::proofs::ContentLaws::set_text_of_text, crate::proofs::ContentLaws::set_text_of_document, crate::proofs::ContentLaws::normalize_differences, crate::proofs::ContentLaws::normalize_of_text, crate::proofs::SplitLaws::split_text_differences))]
pub fn content_calls_change_what_stands_below()
    ensures set_text { (l : Label) (d : List ℕ) → OnValidTrees (λ t. IsTrue (is_utf8 d)
        → ChangesElement (set_text l d) l (λ old. text_alone l d) t) }
    ensures set_text_of_text { (l : Label) (d : List ℕ) → OnValidTrees (λ t. IsTrue (is_utf8 d)
        → ChangesData (set_text l d) l (λ old. d) t) }
    ensures set_text_of_document { (l : Label) (d : List ℕ) → OnValidTrees (λ t. IsTrue (is_utf8 d)
        → HasRecord l Document t → (set_text l d t).1 ≡ t) }
    ensures normalize { (l : Label) → OnValidTrees (λ t. is_text_node (at l t.documents) ≡ false
        → ChangesBelow (normalize l) l normal t) }
    ensures normalize_of_text { (l : Label) (t : Tree) → is_text_node (at l t.documents) ≡ true → (normalize l t).1 ≡ t }
    ensures split_text { (l : Label) (offset : ℕ) → OnValidTrees (λ t. (d : List ℕ) (new : Label)
        → HasRecord l (Text d) t → SplitsData l offset d new t) }
{}
