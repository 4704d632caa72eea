//! An assertion for the rows of a table.
use std::process::Abort;

/// Ends the test where the row of this name isn't right.
pub(crate) fn check(rt: &impl Abort, right: bool, row: &str) {
    assert!(rt; right, "{row:?}");
}
