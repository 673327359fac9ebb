//! PLIO line lists both ways, as slices of bytes (FITS 4.0, section 10.4.3).
//!
//! Reading order: `word`, `operation`; to read a list `step`, `decoder`; to write one `run`,
//! `list_writer`, `encoder`.
#![tactic(auto)]

mod decoder;
mod encoder;
mod list_writer;
mod operation;
mod run;
mod step;
mod word;

pub use decoder::{LineFault, decode};
pub use encoder::{PlioStop, can_hold_law, encode, line_list_law};
