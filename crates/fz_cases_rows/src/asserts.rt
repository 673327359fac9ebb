//! What is asked of a value. Each question is one call for the prover.
use std::process::Abort;

/// The value is the one that is wanted.
pub(crate) fn alike<T: PartialEq + Copy>(rt: &impl Abort, is: T, wanted: T) {
    assert!(rt; is == wanted);
}
