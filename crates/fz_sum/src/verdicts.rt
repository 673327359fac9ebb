//! What is said of a sum that a header has.

/// What is said of a sum that a header has (FITS 4.0, section 4.4.2.7).
#[derive(Clone, Copy, Debug, PartialEq, Eq)]
pub enum Verdict {
    /// No card gives the sum: there is none, or its value is no text or the empty text.
    Absent,
    /// The sum is as the card says.
    Right,
    /// The sum is not as the card says.
    Wrong,
}
