//! An image of any number of rows of four pixels, and the file that it is packed into, by the rules of the formats. The pixels of
//! row i are i, i + 1, i and i + 1, so its Rice code is i and the differences of the small file.
use crate::tests::files::{fill_block, put_header};
use crate::tests::small::{EMPTY_PRIMARY, SMALL, SMALL_TABLE};
use std::alloc::{AllocError, Global};

/// The image.
pub(crate) fn plain_rows(alloc: Global, rows: u16) -> Result<Vec<u8>, AllocError> {
    let high = format!(in alloc; "NAXIS2  = {rows:>20}")?;
    let mut cards: [&str; 5] = SMALL;
    cards[4] = high.as_str();
    let mut file = Vec::new(alloc);
    put_header(&mut file, &cards)?;
    for row in 0..rows {
        for pixel in [row, row + 1, row, row + 1] {
            file.extend_from_slice(&pixel.to_be_bytes())?;
        }
    }
    fill_block(&mut file, 0)?;
    Ok(file)
}

/// The packed file: each row has a code of four bytes.
pub(crate) fn packed_rows(alloc: Global, rows: u16) -> Result<Vec<u8>, AllocError> {
    let high = format!(in alloc; "NAXIS2  = {rows:>20}")?;
    let heap = format!(in alloc; "PCOUNT  = {:>20}", 4 * u32::from(rows))?;
    let image = format!(in alloc; "ZNAXIS2 = {rows:>20}")?;
    let mut cards: [&str; 25] = SMALL_TABLE;
    cards[4] = high.as_str();
    cards[5] = heap.as_str();
    cards[24] = image.as_str();
    let mut file = Vec::new(alloc);
    put_header(&mut file, &EMPTY_PRIMARY)?;
    put_header(&mut file, &cards)?;
    put_descriptors(&mut file, rows)?;
    for row in 0..rows {
        file.extend_from_slice(&row.to_be_bytes())?;
        file.extend_from_slice(&[0x19, 0x48])?;
    }
    fill_block(&mut file, 0)?;
    Ok(file)
}

// The counts and the offsets of the codes, and those of stored tiles, of which there are none.
fn put_descriptors(file: &mut Vec<u8>, rows: u16) -> Result<(), AllocError> {
    for row in 0..rows {
        for number in [4, 4 * u32::from(row), 0, 0] {
            file.extend_from_slice(&number.to_be_bytes())?;
        }
    }
    Ok(())
}
