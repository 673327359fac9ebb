//! The job `drill`: makes a file of so many rows in memory, packs it with each codec, unpacks and cuts what came out, and prints
//! whether the same bytes came back.
//!
//! Reading order: `drilling`, `codecs`, `outcome`, `files`, `parts`, `law`, `lengths`,
//! `making`, `lines`.
#![tactic(auto)]

mod codecs;
mod drilling;
mod files;
mod law;
mod lengths;
mod lines;
mod making;
mod outcome;
mod parts;

pub use drilling::drill;
pub use lengths::{drill_bound_law, lengths_law};
