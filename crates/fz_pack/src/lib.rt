//! Packs a file: each image that can be packed becomes the table of its tiles, and every other HDU is copied.
//!
//! Reading order: `pack_file`, `law`, `file`, `again`, `hdu`; `image` (the table of an image, round by round), `turns` (the same,
//! in two halves of the window).
#![tactic(auto)]

mod again;
mod file;
mod hdu;
mod image;
mod law;
mod pack_file;
mod turns;

pub use image::{ImageToPack, write_image};
pub use pack_file::pack;
