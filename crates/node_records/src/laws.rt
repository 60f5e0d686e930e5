//! What holds of the bytes of keys, records, changes and entries: laws over the definitions alone, each the contract of a function with nothing to do.
ghost use Rattle.std.specs.Prelude.{◌≡◌, ◌++◌, ℕ, List, length, Some};
ghost use Rattle.std.specs.List.{AllByRecursion};
ghost use Rattle.std.specs.Ordering.{nat_cmp};
ghost use Rattle.std.specs.Cmp.Lexicographic.{slice_cmp};
ghost use Rattle.tree_model.specs.Keys.{IsValidKey, key_cmp};
ghost use Rattle.node_records.specs.Changes.{AreWrittenAs, IsWritableChange, change_bytes, change_in, changes_bytes, changes_of};
ghost use Rattle.node_records.specs.Entries.{IsWritableEntry, entry_bytes, entry_in};
ghost use Rattle.node_records.specs.Keys.{IsWritable, key_bytes, key_in};
ghost use Rattle.outside_traits.specs.Bytes.{IsBytes};
ghost use Rattle.tree_model.specs.Records.{HasText};
ghost use Rattle.node_records.specs.Records.{record_bytes, record_of};

use crate::entries::Entry;
use tree_model::{Change, Key, Record};

/// What is written is read again: a record from its own bytes alone, all others whatever follows.
pub fn what_is_written_is_read_again()
    ensures keys { (k : Key) (rest : List ℕ) → IsWritable k → key_in (key_bytes k ++ rest) ≡ Some (k, length (key_bytes k)) }
    ensures records { (r : Record) → HasText r → record_of (record_bytes r) ≡ Some r }
    ensures changes { (c : Change) (rest : List ℕ) → IsWritableChange c → change_in (change_bytes c ++ rest) ≡ Some (c, length (change_bytes c)) }
    ensures entries { (e : Entry) (rest : List ℕ) → IsWritableEntry e → entry_in (entry_bytes e ++ rest) ≡ Some (e, length (entry_bytes e)) }
    ensures valid { (k : Key) → IsValidKey k → IsWritable k }
{}

/// A body of changes that is written is read again, and what is read as one was written so.
pub fn bodies_are_read_again()
    ensures again { (cs : List Change) → AllByRecursion IsWritableChange cs → changes_of (changes_bytes cs) ≡ Some cs }
    ensures written { (bytes : List ℕ) (cs : List Change) → IsBytes bytes → changes_of bytes ≡ Some cs → AreWrittenAs cs bytes }
{}

/// Keys sort as their bytes do: the order of `Key` is the one that the first differing byte decides.
pub fn keys_sort_as_their_bytes()
    ensures { (a b : Key) → IsWritable a → IsWritable b → slice_cmp nat_cmp (key_bytes a) (key_bytes b) ≡ key_cmp a b }
{}
