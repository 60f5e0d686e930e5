//! Entries that a valid tree may have.
ghost use Rattle.std.specs.Prelude.{◌≡◌, true, false, Some, IsTrue, IfOk, IfErr, IfSome};
ghost use Rattle.node_seq.specs.Reads.{IsEntryOfTrees, IsRecordOfTrees, IsValidEntry};
ghost use Rattle.tree_model.specs.declared.record.Record.{Record};
ghost use Rattle.paged_seq.specs.PagedMaps.{is_valid_entry, valid_at};

use tree_model::{Key, Record};

/// Whether a valid tree may have the entry.
pub(crate) fn is_valid(key: &Key, found: &Record) -> bool
    ensures test { result ≡ is_valid_entry (key.now, found.now) }
    ensures valid { IsTrue result → IsValidEntry (key.now, found.now) }
{
    key.is_valid() && found.fits()
}

/// The record, unless no valid tree may have it at the key.
pub(crate) fn valid_at(key: &Key, found: Option<Record>) -> Option<Record>
    ensures value { result ≡ valid_at is_valid_entry key.now found }
    ensures valid { IsRecordOfTrees result }
{
    match found {
        Some(record) if is_valid(key, &record) => Some(record),
        _ => None,
    }
}

/// The entry, if there is one that a valid tree may have; the error is the key of one that none may have.
pub(crate) fn pass_over(found: Option<(Key, Record)>) -> Result<Option<(Key, Record)>, Key>
    ensures ok { IfOk result (λ same. (same ≡ found) × IsEntryOfTrees same × IfSome same (λ e. is_valid_entry e ≡ true)) }
    ensures passed { IfErr result (λ at. (r : Record) × (found ≡ Some (at, r)) × (is_valid_entry (at, r) ≡ false)) }
{
    match found {
        Some((at, record)) => {
            if is_valid(&at, &record) {
                Ok(Some((at, record)))
            } else {
                Err(at)
            }
        }
        None => Ok(None),
    }
}
