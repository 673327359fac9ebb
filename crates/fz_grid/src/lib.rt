//! Arrays and their division into tiles: where a pixel is, which tiles a region touches, in which runs it lies, and which
//! part each tile has in what is cut out.
//!
//! Reading order: `region`, `sizes`, `pixel`, `grid`, `overlap`, `places`, `overlaps`, `run`, `joined`,
//! `sieve`, `pick`, `picking`, `sieving`, `part`, `law`; `line`, `pick_place`, `line_walk`, `lines_of`, `tile_parts`,
//! `cutout_laws`.
#![tactic(auto)]

mod cutout_laws;
mod grid;
mod joined;
mod law;
mod line;
mod line_walk;
mod lines_of;
mod overlap;
mod overlaps;
mod part;
mod pick;
mod pick_place;
mod picking;
mod pixel;
mod places;
mod region;
mod run;
mod sieve;
mod sieving;
mod sizes;
mod tile_parts;
mod volumes;

pub use cutout_laws::{cutout_law, picked_tiles_law};
pub use grid::{Grid, tile_counts};
pub use joined::runs;
pub use law::{one_tile_law, overlap_law, place_law, shape_law, tile_pixels_law, tiles_law};
pub use line::Line;
pub use line_walk::Lines;
pub use lines_of::lines;
pub use overlaps::Overlaps;
pub use part::{AxisPart, Part};
pub use pick::Picks;
pub use picking::picks;
pub use pixel::{coordinates, index};
pub use region::Region;
pub use run::Runs;
pub use sieve::{Sieve, pick_along, picks_along};
pub use sieving::SieveTiles;
pub use sizes::volume;
pub use tile_parts::{cutout_axes, tile_lines, whole_lines};
pub use volumes::{has_more_places, has_more_tiles};
