//! Bits in lent slices, the most significant first: a writer and a reader.
//!
//! Reading order: `writer`, `reader`, `fields`, `laws`.
#![tactic(auto)]

mod fields;
mod laws;
mod reader;
mod writer;

pub use laws::{bytes_law, number_law, room_law};
pub use reader::{BitReader, Ended, ZeroStop};
pub use writer::{BitWriter, Full};
