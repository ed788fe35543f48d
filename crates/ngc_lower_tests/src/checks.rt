use std::fmt::Debug;
use std::process::Abort;

/// Fails the test if the result of a row of its table is not the wanted one.
pub fn same<T: PartialEq + Debug, R: Debug>(rt: &impl Abort, row: &R, found: &T, wanted: &T) {
    assert_eq!(rt; found, wanted, "at {row:?}");
}

/// Fails the test if this doesn't hold for a row of its table.
pub fn holds<R: Debug>(rt: &impl Abort, row: &R, found: bool) {
    assert!(rt; found, "at {row:?}");
}
