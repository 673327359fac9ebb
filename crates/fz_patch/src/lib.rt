//! Puts an image into a box of a packed one, in place: `patch`.
//!
//! Reading order: `column`; `settled`, `places`, `cards`, `codes`, `rows`, `sums`, `steps`; `patch_file`.
#![tactic(auto)]

mod cards;
mod codes;
mod column;
mod patch_file;
mod places;
mod rows;
mod settled;
mod steps;
mod sums;

pub use fz_base::{FileStore, MemStore, Store, Write};
pub use patch_file::patch;
