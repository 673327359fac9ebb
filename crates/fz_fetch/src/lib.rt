//! The rows of a packed image, read and decoded: tiles are read into the window and decoded there, round by round.
//!
//! Reading order: `tiles`, `rows`, `loading`; `ahead`, `heap`, `loading_ahead`; `fetching`; `decoding`.
#![tactic(auto)]

mod ahead;
mod decoding;
mod fetching;
mod heap;
mod loading;
mod loading_ahead;
mod rows;
mod tiles;

pub use ahead::{Ahead, ROWS_LEN};
pub use decoding::{ImageIn, Round, decode_round, decode_tiles};
pub use fetching::{faulty, fetch_ahead, fetch_beside, fetch_tiles};
pub use rows::row_of;
pub use tiles::{MOST_TILES, known_tile, number_tiles, place_in, tile_pixels};
