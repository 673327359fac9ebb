//! Packed images piece by piece, for a reader who holds some bytes of a file and no file: the header of an
//! HDU by its front, the plan of its image in numbers, the record of a tile by its row, and the pixels of a
//! tile by its record. No call opens, reads or allocates anything.
//!
//! Reading order: `plan`, `flattening`, `codecs`, `divided`, `tables`, `lawful`; `hdu`, `place`, `borrowed`,
//! `fronts`; `record`, `tiles`, `rows`, `decoding`; `boxes`, `stops`, `needs`, `reads`, `placing`, `cutting`; `law`.
#![tactic(auto)]

mod borrowed;
mod boxes;
mod codecs;
mod cutting;
mod decoding;
mod divided;
mod flattening;
mod fronts;
mod hdu;
mod law;
mod lawful;
mod needs;
mod place;
mod placing;
mod plan;
mod reads;
mod record;
mod rows;
mod stops;
mod tables;
mod tiles;

pub use boxes::{FzBox, is_box, sieve_of};
pub use codecs::can_read;
pub use cutting::cut_box;
pub use decoding::decode_record;
pub use flattening::{image_of, plan_of};
pub use fronts::{Unread, hdu_at_front, image_at_front, more_wanted};
pub use hdu::{FzFault, FzHdu, fault_of};
pub use law::{box_law, file_law, front_law, packed_law, plan_law};
pub use lawful::is_lawful;
pub use needs::{FzNeeds, box_needs};
pub use place::FzAt;
pub use plan::{FzArrays, FzPlan};
pub use reads::list_reads;
pub use record::{FzRecord, flat_record, record_there};
pub use rows::read_row;
pub use stops::{Stopped, Why};
pub use tiles::{places_of, tile_pixels};
