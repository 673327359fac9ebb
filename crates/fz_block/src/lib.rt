//! HDUs of a file: the header at a place, read and checked, and where its data and the next HDU begin.
//!
//! Reading order: `axes`, `header`, `cards`, `blocks`, `mandatory`, `refusing`, `read`, `next`, `reuse`, `again`,
//! `laws`.
#![tactic(auto)]

mod again;
mod axes;
mod blocks;
mod cards;
mod header;
mod laws;
mod mandatory;
mod next;
mod read;
mod refusing;
mod reuse;

pub use again::header_again;
pub use axes::Axes;
pub use blocks::{BLOCK_LEN, header_blocks};
pub use cards::card;
pub use header::{Header, Sort, data_start, next_start};
pub use laws::{
    again_law, cards_law, first_card_law, found_hdus_law, found_law, hdu_at_law, hdu_law,
    hdu_list_law, number_law, passing_law, refusals_law, start_law, walk_law,
};
pub use next::{ReadHeader, header_at};
pub use read::{buffered_header, read_header};
pub use refusing::{refuse_at, refuse_if, refused};
pub use reuse::header_into;
