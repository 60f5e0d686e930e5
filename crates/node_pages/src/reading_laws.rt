//! What holds of pages that are read: laws over the definitions alone, each the contract of a function with nothing to do.
ghost use Rattle.std.specs.Prelude.{◌≡◌, ◌<◌, ◌^◌, ℕ, List, IsTrue, Ok, Err};
ghost use Rattle.std.specs.List.{AllByRecursion};
ghost use Rattle.tree_model.specs.Entries.{Entries, Sorted};
ghost use Rattle.tree_model.specs.Keys.{IsValidKey};
ghost use Rattle.tree_model.specs.Records.{record_fits};
ghost use Rattle.node_pages.specs.CutReads.{IsCuttable, ReadsBack};
ghost use Rattle.node_pages.specs.PageZero.{count_of, header_of};
ghost use Rattle.node_pages.specs.PageFiles.{Index, IsIndex, contents_of_file, contents_with, file_page, index_of_file};
ghost use Rattle.node_pages.specs.PageRules.{KeepsRules};
ghost use Rattle.node_pages.specs.PagesIn.{pages_in};

use tree_model::{Key, Record};

/// What pages stand for, and the first that breaks a rule, depends on those below page 0's count alone.
pub fn pages_behind_the_count_are_not_read()
    ensures { (f g : ℕ → List ℕ) → ((n : ℕ) → n < count_of (header_of (f 0)) → f n ≡ g n) → pages_in f ≡ pages_in g }
{}

/// The pages that a map is cut into are read as this map again, with its number.
pub fn pages_of_a_cut_are_read_again()
    ensures again { (number : ℕ) (es : Entries) (pages : List (List ℕ)) → number < 2 ^ 32
        → Sorted es → AllByRecursion IsCuttable es → ReadsBack number es pages }
    // Such are all records that a valid tree may have.
    ensures valid { (k : Key) (r : Record) → IsValidKey k → IsTrue (record_fits r) → IsCuttable (k, r) }
{}

/// Pages that break no rule hold a map in the order of its keys.
pub fn pages_that_keep_the_rules_are_maps_in_order()
    ensures { (page : ℕ → List ℕ) (es : Entries) (base : ℕ) → pages_in page ≡ Ok (es, base) → Sorted es }
{}

/// A file whose data pages begin so stands for the records of their entries, and one that breaks a rule breaks it at the same page.
pub fn where_data_pages_begin_is_told_by_the_file()
    ensures map { (file : List ℕ) (i : Index) → index_of_file file ≡ Ok i
        → contents_of_file file ≡ Ok (contents_with file i) }
    ensures pages { (file : List ℕ) (i : Index) → index_of_file file ≡ Ok i → IsIndex (file_page file) i.starts }
    ensures broken { (file : List ℕ) (n : ℕ) → index_of_file file ≡ Err n → contents_of_file file ≡ Err n }
{}

/// The page that is answered is the first one that breaks a rule: it breaks one, and each page before it keeps those of its kind. Where a map is answered, all pages keep theirs.
pub fn the_first_page_that_breaks_a_rule_is_answered()
    ensures breaks { (page : ℕ → List ℕ) (n : ℕ) → pages_in page ≡ Err n → ¬ (KeepsRules page n) }
    ensures before { (page : ℕ → List ℕ) (n m : ℕ) → pages_in page ≡ Err n → m < n → KeepsRules page m }
    ensures all { (page : ℕ → List ℕ) (es : Entries) (base m : ℕ) → pages_in page ≡ Ok (es, base) → KeepsRules page m }
    // The pages of a file are meant: where one of them breaks a rule is where the file is damaged.
    ensures file { (file : List ℕ) (n : ℕ) → contents_of_file file ≡ Err n → pages_in (file_page file) ≡ Err n }
{}
