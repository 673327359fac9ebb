//! The assertion of the tests. An assertion that prints both values costs the prover seven times as much.
use std::process::Abort;

/// Ends the test if the values differ.
pub(crate) fn alike<T: PartialEq + Copy>(rt: &impl Abort, is: T, wanted: T) {
    assert!(rt; is == wanted);
}

/// Ends the test if it is not so.
pub(crate) fn holds(rt: &impl Abort, is: bool) {
    assert!(rt; is);
}
