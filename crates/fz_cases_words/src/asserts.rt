//! What is asked of a line. Each question is one call for the prover.
use std::process::Abort;

/// The value is the one that is wanted for the line.
pub(crate) fn alike<T: PartialEq + Copy>(rt: &impl Abort, line: &str, is: T, wanted: T) {
    assert!(rt; is == wanted, "{line}");
}

/// What is said of the line holds.
pub(crate) fn holds(rt: &impl Abort, line: &str, is: bool) {
    assert!(rt; is, "{line}");
}
