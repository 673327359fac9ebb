//! The files that `drill` works on: images of columns of its pixels.
ghost use Rattle.std.specs.Prelude.{◌≡◌, ℕ, ◌+◌, ◌-◌, ◌*◌, ◌≤◌, ◌<◌, ◌++◌, codes, length, replicate, IfOk, OnOk};
ghost use Rattle.fz_block.specs.Hdus.{header_bytes};
ghost use Rattle.fz_head.specs.PackedHeader.{numbered_number_card};
ghost use Rattle.fz_tile.specs.Plain.{plain_bytes};
ghost use Rattle.fz_drill.specs.Files.{IsRows, image_cards, image_file, image_pixels, row_pixels};

use fz_block::BLOCK_LEN;
use fz_card::{Card, Line, Name, int_card, logical_card, made_cards_law, numbered};
use std::alloc::{AllocError, Global};

/// The columns of the file.
pub(crate) const COLUMNS: u32 = 256;

/// The first of the columns that are cut from it, counted from 0.
pub(crate) const CUT_FROM: u32 = 32;

/// How many are cut.
pub(crate) const CUT_COLUMNS: u32 = 32;

/// Makes a file in memory: an image of these columns of the pixels of `drill`, and of so many rows.
pub(crate) fn make_file(
    alloc: Global,
    first: u32,
    columns: u32,
    rows: u32,
) -> Result<Vec<u8>, AllocError>
    requires rows { IsRows rows }
    requires columns { first + columns ≤ 256 }
    ensures { IfOk result (λ file. file.items ≡ image_file first columns rows) }
{
    let mut file = header_of(columns, rows).to_vec(alloc)?;
    push_rows(&mut file, first, columns, rows)?;
    let whole = (file.len() + (BLOCK_LEN - 1)) / BLOCK_LEN * BLOCK_LEN;
    extend(&mut file, whole)?;
    Ok(file)
}

// The header of an image of 16-bit pixels, with so many columns and rows.
fn header_of(columns: u32, rows: u32) -> [u8; BLOCK_LEN]
    requires rows { rows ≤ 16384 }
    requires columns { columns ≤ 256 }
    ensures { result ≡ header_bytes (image_cards columns rows) }
{
    made_cards_law();
    let mut header = Line::new();
    header.push(&logical_card(Name::SIMPLE, true).bytes);
    header.push(&int_card(Name::BITPIX, 16).bytes);
    header.push(&int_card(Name::NAXIS, 2).bytes);
    header.push(&axis_card(1, columns).bytes);
    header.push(&axis_card(2, rows).bytes);
    header.push(b"END");
    header.bytes()
}

// The card of the length of an axis.
fn axis_card(i: u32, len: u32) -> Card
    requires axis { (1 ≤ i) × (i ≤ 9) }
    ensures card { result.bytes ≡ numbered_number_card (codes "NAXIS") i len }
    ensures len { length result.bytes ≡ 80 }
{
    made_cards_law();
    int_card(numbered(b"NAXIS", i), i64::from(len))
}

// Puts the pixels of all rows after what is there.
fn push_rows(file: &mut Vec<u8>, first: u32, columns: u32, rows: u32) -> Result<(), AllocError>
    requires rows { rows ≤ 16384 }
    requires columns { first + columns ≤ 256 }
    ensures { OnOk result (file.new.items ≡ file.old.items ++ plain_bytes 16 (image_pixels first columns rows)) }
{
    let mut room = [0u8; 2 * COLUMNS as usize];
    let row = &mut room[..2 * columns as usize];
    for y in 0..rows {
        write_row(row, first, y);
        file.extend_from_slice(row)?;
    }
    Ok(())
}

// Writes the pixels of a row, from this column on.
fn write_row(row: &mut [u8], first: u32, y: u32)
    requires rows { y < 16384 }
    requires columns { (columns : ℕ) × (length row.old ≡ 2 * columns) × (first + columns ≤ 256) }
    ensures { (columns : ℕ) → length row.old ≡ 2 * columns → row.new ≡ plain_bytes 16 (row_pixels first columns y) }
{
    let base = 1000 + y * y % 1000;
    for i in 0..row.len() / 2 {
        let pixel = (base + 7 * ((first + i as u32) / 32)) as u16;
        let [high, low] = pixel.to_be_bytes();
        row[2 * i] = high;
        row[2 * i + 1] = low;
    }
}

// Grows the file with zeros to a length that it does not have yet.
fn extend(file: &mut Vec<u8>, to: usize) -> Result<(), AllocError>
    ensures { OnOk result (file.new.items ≡ file.old.items ++ replicate (to - length file.old.items) 0) }
{
    if file.len() < to {
        file.resize(to, 0)?;
    }
    Ok(())
}
