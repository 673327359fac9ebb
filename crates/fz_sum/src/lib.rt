//! Checksums of an HDU: the ones' complement sum of bytes, the sixteen characters that stand for a sum, and the
//! cards DATASUM and CHECKSUM (FITS 4.0, section 4.4.2.7 and appendix J).
//!
//! Reading order: `words` and `sum` (a sum of bytes), `encoding` and `cards` (what is written), `text`,
//! `verdicts` and `judging` (what is read), `laws`.
#![tactic(auto)]

mod cards;
mod encoding;
mod judging;
mod laws;
mod sum;
mod text;
mod verdicts;
mod words;

pub use cards::{blank_checksum_card, checksum_card, datasum_card};
pub use encoding::characters;
pub use judging::{checksum_verdict, datasum_verdict, verdict, verdicts_law};
pub use laws::{all_ones_law, characters_law, datasum_law, sum_law, with_card_law};
pub use sum::Sum;
pub use text::{sum_of_card, sum_of_text};
pub use verdicts::Verdict;
