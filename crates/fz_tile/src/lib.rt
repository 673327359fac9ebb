//! The numbers of a tile and the bytes that stand for it in the heap, both ways (FITS 4.0, sections 10.1.3 and 5.2).
//!
//! Reading order: `codec`, `coded`, `fault`; then `encode`, `decode`, `part`, `plain`, `range`, `laws`. `pixels` is older: the bytes
//! of pixels of 16 bits.
#![tactic(auto)]

mod codec;
mod coded;
mod decode;
mod encode;
mod fault;
mod laws;
mod part;
mod pixels;
mod plain;
mod range;

pub use codec::Codec;
pub use coded::{Coded, Place2};
pub use decode::decode_tile;
pub use encode::encode_tile;
pub use fault::TileFault;
pub use fz_rice::Mark;
pub use laws::{column_law, one_fault_law, one_record_law, plain_law, slice_law, tile_code_law};
pub use part::{decode_part, first_part_mark};
pub use pixels::{read_pixels, write_pixels};
pub use plain::{plain_len, read_plain, write_plain};
