//! What a test says of a row that does not hold.

use std::fmt::Debug;
use std::process::Abort;

/// Fails with the row's number and both values, unless what was told is what was wanted.
pub(crate) fn same<T: PartialEq + Debug>(rt: &impl Abort, row: usize, told: &T, wanted: &T) {
    assert_eq!(rt; told, wanted, "at row {row}");
}
