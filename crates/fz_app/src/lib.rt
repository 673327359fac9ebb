//! What the program does: the words of a command line become a job, the job a status, and the status
//! a line and a number. And how a program packs and unpacks bytes in memory, with the promise of the whole in one line.
//!
//! Reading order: `status`, `host`, `run_job`, `comparing`, `patch_words`, `line`, `kind_name`; `memory`, `memory_run`,
//! `fixed_sink`.
#![tactic(auto)]

mod comparing;
mod fixed_sink;
mod host;
mod kind_name;
mod line;
mod memory;
mod memory_run;
mod patch_words;
mod run_job;
mod status;

pub use fz_words::begins_patch;
pub use memory::{pack_and_unpack, pack_bytes, unpack_bytes};
pub use patch_words::run_patch;
pub use run_job::run;
pub use status::Status;
