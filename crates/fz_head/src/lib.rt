//! Plans and headers of packed images: which HDUs are images to pack or packed tables, how an image is packed, and its header
//! there and back.
//!
//! Reading order: `options`, `plan`, `planning`, `totals`, `packed`, `plain`, `law`.
#![tactic(auto)]

mod empty_primary;
mod find;
mod law;
mod options;
mod packable;
mod packed;
mod plain;
mod plan;
mod planning;
mod repeats;
mod tiles;
mod totals;
mod written;

pub use empty_primary::to_empty_primary;
pub use find::{first_offset, first_set, has_name, is_set};
pub use law::{
    accepted_law, card_in_place_law, sizes_law, sum_cards_law, there_and_back_law, whole_cards_law,
};
pub use options::{CodecWord, PackOptions};
pub use packable::{has_places, is_packable, is_packed, is_table};
pub use packed::{codec_name, coded_letter, coded_unit, form_card, stored_letter, to_packed};
pub use plain::{to_cut, to_plain};
pub use plan::Plan;
pub use planning::{MAX_PIXELS, MAX_TILE_PIXELS, MAX_TILES, is_wide, pack_plan, parameter_count};
pub use repeats::{Once, first_repeat};
pub use totals::Totals;
