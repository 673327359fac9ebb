//! What rejects a header, and the plan that a packed one stands for.
//!
//! Reading order: `unpacking`, `job_checks`, `boxes`, `checked`.
#![tactic(auto)]

mod boxes;
mod checked;
mod job_checks;
mod packed_codec;
mod packed_rice;
mod packed_shape;
mod said;
mod table_cards;
mod tile_kinds;
mod unpacking;

pub use boxes::{check_axes, check_ends, image_to_amend, image_to_cut};
pub use checked::{
    fill_law, image_to_pack_law, pack_plan_law, packed_image_law, packed_primary_law,
    plan_to_pack_law, primary_law,
};
pub use job_checks::{PackedImage, fill_check, image_to_unpack, missing_hdu, plan_to_pack};
pub use table_cards::table_check;
pub use tile_kinds::tile_kind;
pub use unpacking::plan_of;
