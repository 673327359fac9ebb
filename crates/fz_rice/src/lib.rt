//! The RICE_1 code of lists of numbers, at 8, 16 and 32 bits (FITS 4.0, section 10.4.1).
//!
//! Reading order: `coder`, `numbers`, `fields`, `encode`, `full_block`, `decode`, `several`, `marks`, `laws`.
#![tactic(auto)]

mod coder;
mod decode;
mod encode;
mod fields;
mod full_block;
mod laws;
mod marks;
mod numbers;
mod several;

pub use coder::{CodeFault, Coder};
pub use laws::{marks_law, one_code_law, producer_law, reading_law, round_trip_law};
pub use marks::Mark;
