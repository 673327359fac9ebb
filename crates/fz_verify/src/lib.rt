//! Verifies a file, decoding every tile and judging the checksums of every HDU, and lists its HDUs: one line for each.
//!
//! Reading order: `verify_file`, `list_file`, `law`, `checking`, `listing`, `hdu`, `sums`, `lines`.
#![tactic(auto)]

mod checking;
mod hdu;
mod law;
mod lines;
mod list_file;
mod listing;
mod sums;
mod verify_file;

pub use list_file::list;
pub use verify_file::{verify, verify_decoded};
