//! What the program says on standard error, after a run, of why the run ended so: one or two lines for people.
//!
//! Reading order: `ended`, `lines`, `hint`; for wrong words `command`, `setting`, `laws`, `synopsis`, `pages`, `asking`, `mistake`, `walk`,
//! `wrong`; for files `files`, `faults`, `place`, `card_again`, `sentences`.
#![tactic(auto)]

mod asking;
mod card_again;
mod command;
mod ended;
mod faults;
mod files;
mod hint;
mod laws;
mod lines;
mod mistake;
mod pages;
mod place;
mod sentences;
mod setting;
mod synopsis;
mod walk;
mod wrong;

pub use ended::{Ended, Failing};
pub use hint::explain;
pub use laws::table_law;
