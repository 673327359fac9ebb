//! What a packed header says of the tiles' bytes.

/// The length of the heap, and the greatest count in each column (FITS 4.0, section 7.3.5).
#[derive(Clone, Copy, Debug, PartialEq, Eq)]
pub struct Totals {
    /// The bytes of the heap.
    pub heap: u64,
    /// The greatest count of elements of a coded tile.
    pub emax_coded: u64,
    /// The greatest count of pixels of a stored tile.
    pub emax_stored: u64,
    /// Whether the header has the two cards of sums.
    pub sums: bool,
}
