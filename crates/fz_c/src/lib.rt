//! The codecs of tiles, and packed images piece by piece, for programs in C and in whatever calls C (FITS
//! 4.0, sections 10.1 and 10.4).
//! `include/fz.h` has the declarations.
//!
//! No export has a `requires`: each tests its arguments, and answers 0 or a number below 0 that says why it
//! gives nothing. What no test can see the caller owes: real addresses, true lengths, no overlap of what is
//! read and what is written, and bytes that nobody changes during the call. No call allocates memory, waits,
//! or keeps anything from one call to the next.
//!
//! Reading order: `fault`, `asked`, `range`; then the exports: `version`, `tile`, `rice`, `plio`, `part`,
//! `sum`; `front`, `image`, `boxes`.
#![tactic(auto)]

mod asked;
mod boxes;
mod fault;
mod front;
mod image;
mod part;
mod plio;
mod range;
mod rice;
mod sum;
mod tile;
mod version;

pub use boxes::{fz_box, fz_box_needs, fz_box_reads};
pub use front::{fz_front_len, fz_hdu, fz_plan};
pub use image::{fz_row, fz_tile};
pub use part::{FzMark, fz_decode_part, fz_first_mark};
pub use plio::{fz_plio_decode, fz_plio_encode};
pub use rice::{fz_rice_decode, fz_rice_encode};
pub use sum::fz_sum;
pub use tile::{FzCoded, fz_decode_tile, fz_encode_tile};
pub use version::fz_version;
