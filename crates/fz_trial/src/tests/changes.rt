//! Files that are changed by hand.
use crate::tests::files::{Hdu, file_of};
use fz_card::CARD_LEN;
use std::alloc::{AllocError, Global};

/// Where the header of HDU 1 is, after a primary of one block.
const TABLE_AT: usize = 2880;

/// Where its data are, after a header of one block.
const DATA_AT: usize = 5760;

/// What is done to a file.
#[derive(Clone, Copy)]
pub(crate) enum Change {
    Nothing,
    /// It is cut to so many bytes, or gets zeros up to them.
    Length(usize),
    /// A byte is put at a place.
    Byte(usize, u8),
    /// The header of the small file gets a further card.
    Card(&'static str),
    /// Cards of the table in HDU 1 become these, by their index, and its data get bytes at places, counted from their front.
    Table(&'static [(usize, &'static str)], &'static [(usize, &'static [u8])]),
}

/// A file of these HDUs, changed.
pub(crate) fn changed(
    alloc: Global,
    hdus: &[Hdu<'_>],
    change: &Change,
) -> Result<Vec<u8>, AllocError> {
    let mut file = file_of(alloc, hdus)?;
    match change {
        Change::Nothing => {}
        Change::Length(len) => file.resize(*len, 0)?,
        Change::Byte(at, byte) => put(&mut file, *at, &[*byte]),
        Change::Card(text) => {
            replace_card(&mut file, 5 * CARD_LEN, text);
            replace_card(&mut file, 6 * CARD_LEN, "END");
        }
        Change::Table(cards, data) => {
            for (index, text) in *cards {
                replace_card(&mut file, place(TABLE_AT, *index, CARD_LEN), text);
            }
            for (at, bytes) in *data {
                put(&mut file, place(DATA_AT, *at, 1), bytes);
            }
        }
    }
    Ok(file)
}

// The place of an element of so many bytes after a place.
fn place(front: usize, index: usize, len: usize) -> usize {
    front.saturating_add(index.saturating_mul(len))
}

/// Puts bytes at a place, if the file has that.
pub(crate) fn put(file: &mut [u8], at: usize, bytes: &[u8]) {
    if at <= file.len() && bytes.len() <= file.len() - at {
        file[at..at + bytes.len()].copy_from_slice(bytes);
    }
}

// Puts a card of this text at a place.
fn replace_card(file: &mut [u8], at: usize, text: &str) {
    let mut card = [b' '; CARD_LEN];
    put(&mut card, 0, text.as_bytes());
    put(file, at, &card);
}
