// Changes with rising keys are made on records as these are tested, in one pass over both.
ghost use Rattle.std.specs.Prelude.{◌≡◌, ◌++◌, IfOk, OnOk, option_copied};
ghost use Rattle.tree_model.specs.Changes.{Rising};
ghost use Rattle.tree_model.specs.Entries.{Entries};
ghost use Rattle.tree_rules.specs.Testing.{HasTaken};
ghost use Rattle.recovery.specs.inside.Merging.{HasMade, HasMerged, NoneBefore, begins_at, comes_before, standing};

use dewey_labels::NoMemory;
use std::alloc::Global;
use tree_model::{Change, Key, Record};
use tree_rules::Tester;

/// Tests what the changes below a record's key put, and the record unless a change is of its key. Answers the changes that are left.
pub fn take_record<'c>(
    alloc: Global,
    changes: &'c [Change],
    entry: &(Key, Record),
    tester: &mut Tester,
) -> Result<&'c [Change], NoMemory>
    requires rising { Rising changes.now }
    ensures taken { IfOk result (λ left. (taken : Entries) → HasTaken tester.old taken → HasMerged entry.now changes.now left.now taken tester.new) }
    ensures rising { IfOk result (λ left. Rising left.now) }
{
    let left = put_before(alloc, changes, Some(&entry.0), tester)?;
    if begins_at(left, &entry.0) {
        return Ok(left);
    }
    tester.take(alloc, &entry.0, &entry.1)?;
    Ok(left)
}

/// Tests what the changes that come before a limit put, and answers the others.
pub fn put_before<'c>(
    alloc: Global,
    changes: &'c [Change],
    limit: Option<&Key>,
    tester: &mut Tester,
) -> Result<&'c [Change], NoMemory>
    requires rising { Rising changes.now }
    ensures put { IfOk result (λ left. (taken : Entries) → HasTaken tester.old taken
        → HasMade (option_copied limit.entry) changes.now left.now taken tester.new) }
    ensures rising { IfOk result (λ left. Rising left.now) }
    ensures none { IfOk result (λ left. NoneBefore (option_copied limit.entry) left.now) }
{
    let mut left = changes;
    while let Some((change, behind)) = left.split_first() {
        if !comes_before(&change.key, limit) {
            return Ok(left);
        }
        put_one(alloc, change, tester)?;
        left = behind;
    }
    Ok(left)
}

/// Whether a key comes before a limit; each does where there is none.
fn comes_before(key: &Key, limit: Option<&Key>) -> bool
    ensures { result ≡ comes_before key.now (option_copied limit.entry) }
{
    match limit {
        Some(limit) => key.cmp(limit).is_lt(),
        None => true,
    }
}

/// Tests the record that a change puts, if it puts one.
fn put_one(alloc: Global, change: &Change, tester: &mut Tester) -> Result<(), NoMemory>
    ensures { OnOk result ((taken : Entries) → HasTaken tester.old taken → HasTaken tester.new (taken ++ standing change.entry.now.key change.entry.now.now)) }
{
    match &change.now {
        Some(record) => {
            tester.take(alloc, &change.key, record)?;
            Ok(())
        }
        None => Ok(()),
    }
}

/// Whether the first of these changes is of the key.
fn begins_at(changes: &[Change], key: &Key) -> bool
    ensures { result ≡ begins_at changes.now key.now }
{
    match changes.first() {
        Some(change) => change.key.cmp(key).is_eq(),
        None => false,
    }
}
