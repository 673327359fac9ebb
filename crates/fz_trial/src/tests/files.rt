//! Files that are written out HDU by HDU.
use fz_block::BLOCK_LEN;
use std::alloc::{AllocError, Global};

/// An HDU by its cards before END and its data: numbers of 32 bits, big-endian, and bytes after them. Blanks after END and the
/// fill are left out. In the table of an image the numbers of a row are the count and the offset of a coded tile, and then of a
/// stored one.
#[derive(Clone, Copy)]
pub(crate) struct Hdu<'a> {
    pub(crate) cards: &'a [&'a str],
    pub(crate) numbers: &'a [u32],
    pub(crate) bytes: &'a [u8],
}

/// What a file is packed with, the file, and the packed file.
pub(crate) struct Case<'a> {
    pub(crate) options: &'a [&'a str],
    pub(crate) plain: &'a [Hdu<'a>],
    pub(crate) packed: &'a [Hdu<'a>],
}

/// A file of these HDUs.
pub(crate) fn file_of(alloc: Global, hdus: &[Hdu<'_>]) -> Result<Vec<u8>, AllocError> {
    let mut file = Vec::new(alloc);
    for hdu in hdus {
        put_header(&mut file, hdu.cards)?;
        for number in hdu.numbers {
            file.extend_from_slice(&number.to_be_bytes())?;
        }
        file.extend_from_slice(hdu.bytes)?;
        fill_block(&mut file, 0)?;
    }
    Ok(file)
}

/// Puts cards of these texts, END, and blanks to a whole block.
pub(crate) fn put_header(file: &mut Vec<u8>, cards: &[&str]) -> Result<(), AllocError> {
    for card in cards {
        put_card(file, card)?;
    }
    put_card(file, "END")?;
    fill_block(file, b' ')
}

/// Puts a card of this text, which has at most 80 characters.
pub(crate) fn put_card(file: &mut Vec<u8>, text: &str) -> Result<(), AllocError> {
    file.extend_from_slice(text.as_bytes())?;
    let short = 80 - text.len().min(80);
    file.resize(file.len() + short, b' ')
}

/// Fills the last block.
pub(crate) fn fill_block(file: &mut Vec<u8>, with: u8) -> Result<(), AllocError> {
    let over = file.len() % BLOCK_LEN;
    if over > 0 {
        file.resize(file.len() + (BLOCK_LEN - over), with)?;
    }
    Ok(())
}
