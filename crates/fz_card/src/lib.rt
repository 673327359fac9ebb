//! Cards of a FITS header. Read `card`, then `text`, `value`, `quoted` and `zero` (what a card says), then `line`
//! and `made` (cards that are made), then `names`, `keywords` and `tables`, then `list` (cards
//! one after another) and `laws`. Reference pixels of cutouts, which are decimals less a whole number, are in `decimal`
//! and `decimal_reading` (the decimal that a text writes), `decimal_writing` (its text) and `shifting` (its card).
#![tactic(auto)]

mod card;
mod decimal;
mod decimal_reading;
mod decimal_writing;
mod keywords;
mod laws;
mod line;
mod list;
mod made;
mod names;
mod quoted;
mod shifting;
mod tables;
mod text;
mod value;
mod zero;

pub use card::{CARD_LEN, Card, FIELD_LEN, NAME_LEN, Name, renamed_value_law};
pub use decimal::Decimal;
pub use keywords::keywords_law;
pub use laws::card_laws;
pub use line::Line;
pub use list::{first_of_name, first_of_name_law};
pub use made::{int_card, logical_card, made_cards_law, number_card, text_card};
pub use names::{is_numbered, number_behind, numbered, numbers_law, whole_number};
pub use quoted::text_law;
pub use shifting::{decimal_law, shift, shifted_card_law};
pub use tables::{is_dropped, is_reserved, names_law, renamed, restored};
pub use text::{blanks_law, value_text_law, without_first_blanks};
pub use value::{int_law, integer, integer_text_law, logical_law};
pub use zero::{are_digits, without_point, zero_law};
