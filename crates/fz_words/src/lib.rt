//! The words of the command line: what they ask for.
//!
//! Reading order: `table`, `cut`, `part`, `line`, `number`, `lists`, `settings`, `request`, `patch_request`.
#![tactic(auto)]

mod cut;
mod line;
mod lists;
mod number;
mod part;
mod patch_request;
mod request;
mod settings;
mod table;

pub use patch_request::{PatchRequest, begins_patch, read_patch_words};
pub use request::{Request, Usage, read_words};
