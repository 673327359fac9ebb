//! The pixels of tiles go to their places in what is written; and one tile, or a part of it, is read and decoded without
//! a window.
//!
//! Reading order: `runs`, `gather`, `bytes`, `scattering`, `picking`; `one`, `marks`, `parts`, `span`, `placing`; `law`.
#![tactic(auto)]

mod bytes;
mod gather;
mod law;
mod marks;
mod one;
mod parts;
mod picking;
mod placing;
mod runs;
mod scattering;
mod span;

pub use fz_tile::Mark;
pub use law::scattered_law;
pub use marks::{TileMark, part_start};
pub use one::fetch_tile;
pub use parts::fetch_part;
pub use picking::scatter_picks;
pub use placing::{place_between, place_part};
pub use scattering::{scatter_held, scatter_tiles};
pub use span::part_span;
