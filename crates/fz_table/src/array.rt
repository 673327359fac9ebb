//! An array descriptor.

/// Where an array is in the heap (FITS 4.0, section 7.3.5).
#[derive(Clone, Copy, Debug, PartialEq, Eq)]
pub struct Descriptor {
    /// The number of elements.
    pub count: u64,
    /// The byte of the heap at which the first one is.
    pub offset: u64,
}
