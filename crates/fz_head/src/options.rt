//! What `pack` is asked to do.
use fz_block::Axes;

/// The codec words of the command line.
#[derive(Clone, Copy, Debug, PartialEq, Eq)]
pub enum CodecWord {
    Rice,
    Plio,
    None,
}

/// The options of `pack`.
#[derive(Clone, Copy, Debug, PartialEq, Eq)]
pub struct PackOptions {
    pub codec: CodecWord,
    /// The lengths of a tile along the leading axes, each at least 1; none for one row of axis 1.
    pub tile: Option<Axes>,
    /// The numbers in a block of the Rice code, from 1 to 32767.
    pub block: u32,
    /// Whether DATASUM and CHECKSUM are written.
    pub sums: bool,
    /// The number of workers, from 1 to 64.
    pub workers: u32,
}
