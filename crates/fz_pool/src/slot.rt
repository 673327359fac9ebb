//! A place of the window: the buffers of one tile, and what is to be done with it.
use fz_base::{Bytes, Numbers};
use fz_tile::{Codec, Place2, TileFault};

/// What is to be done with a tile. It uses the first `pixels` places of the slot's numbers, or the
/// first `2 * pixels` if `bitpix` is 64, and the first `len` bytes of its code.
#[derive(Clone, Copy, Debug, PartialEq, Eq)]
pub struct Job {
    /// The tile's number in its image.
    pub tile: u32,
    /// How many pixels the tile has.
    pub pixels: u32,
    /// How the tile is coded, or is to be.
    pub codec: Codec,
    /// 8, 16, 32 or 64.
    pub bitpix: i32,
    /// The column that the tile's bytes belong to.
    pub place: Place2,
    /// How many bytes of the slot's code are the tile's.
    pub len: u32,
    /// The bytes of the record in the heap. `encode_window` does not look at it.
    pub total: u64,
}

/// One tile's numbers, its code, its job, and the fault that a worker found.
#[derive(Drop)]
pub struct Slot {
    /// The tile's numbers, and room for those of a larger tile.
    pub numbers: Numbers,
    /// The tile's bytes, and room for those of a larger tile.
    pub code: Bytes,
    /// What is to be done with the tile.
    pub job: Job,
    /// What a worker found. `decode_window` answers it.
    pub fault: Option<TileFault>,
}
