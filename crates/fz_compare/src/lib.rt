//! Whether the rows and the heap of a packed image are those that `pack` writes for its pixels.
//!
//! Reading order: `bytes`, `coded`, `tiles`.
#![tactic(auto)]

mod bytes;
mod coded;
mod tiles;

pub use bytes::has_bytes;
pub use tiles::compare_tiles;
