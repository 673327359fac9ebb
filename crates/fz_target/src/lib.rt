//! What a patch looks for and measures before it writes: the packed image and the image that is put into it, and the
//! new codes of the tiles with a pixel in the box.
//!
//! Reading order: `target`, `form`, `given`, `find`; `merge`, `tile`, `walk`, `measure`, `most`.
#![tactic(auto)]

mod find;
mod form;
mod given;
mod measure;
mod merge;
mod most;
mod target;
mod tile;
mod walk;

pub use find::{Asked, changed, find_target};
pub use measure::{Measure, coded_count, is_measured, measure_codes, stored_count};
pub use most::said_most;
pub use target::Target;
pub use tile::prepare_tile;
pub use walk::{code_slot, tiles_in_box};
