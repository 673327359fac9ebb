//! What the table of a packed image is made of: its tiles in rounds, its rows, its heap and its header.
//!
//! Reading order: `layout`, `progress`; `gather`, `strips`, `loading` (the tiles of a round into the window), `descriptors`,
//! `round` (a round of tiles), `header`, `law`.
#![tactic(auto)]

mod descriptors;
mod gather;
mod header;
mod law;
mod layout;
mod loading;
mod progress;
mod round;
mod strips;

pub use descriptors::put_rows;
pub use header::make_header;
pub use law::table_law;
pub use layout::Layout;
pub use loading::{job_of, load_round, tile_pixels};
pub use progress::{Progress, Underway, code_of};
pub use round::{Writing, encode_loaded, encode_tiles, round_len, write_encoded};
pub use strips::Strips;
