//! What tests over the rows of a table share.
use std::fmt::Debug;
use std::process::Abort;

/// Ends the test where what a row gives isn't what is wanted.
pub fn agree<R: Debug, T: PartialEq + Debug>(rt: &impl Abort, row: &R, found: &T, wanted: &T) {
    assert_eq!(rt; *found, *wanted, "at {row:?}");
}
