//! A column of array descriptors.

/// A column of array descriptors (FITS 4.0, section 7.3.5).
#[derive(Clone, Copy, Debug, PartialEq, Eq)]
pub struct Column {
    /// The byte of the row at which its descriptor begins.
    pub at: u32,
    /// Whether the descriptor has two numbers of 64 bits (Q) and not of 32 (P).
    pub wide: bool,
    /// The bytes of one element of the described array.
    pub unit: u32,
}
