//! Rows become tiles that are higher and shorter, by one worker, who has room for a part of each row at a time.
use crate::conditions::Conditions;
use crate::runs::{Outcome, outcome_of};
use crate::tests::alike::holds;
use crate::tests::files::{fill_block, put_header};
use crate::tests::small::SMALL;
use crate::words::command;
use fz_base::FreeGate;
use std::alloc::{AllocError, Global};
use std::test::Fail;
use std::thread::Threads;

/// The lengths of the rows: with blocks of 16 and of 32 pixels the last one is cut short in the first, and whole in the second.
static LENGTHS: [u32; 2] = [600, 608];

/// Rows are packed with blocks of 16 and of 32 pixels.
static ROWS: [&str; 2] = ["pack --block=16 IN OUT", "pack --block=32 IN OUT"];

/// New tiles end after a block, or within one: packed from the plain file, and from the rows.
static TILES: [(&str, &str); 3] = [
    (
        "pack --tile=256,256 IN OUT",
        "retile --tile=256,256 --workers=1 IN OUT",
    ),
    (
        "pack --tile=100,200 IN OUT",
        "retile --tile=100,200 --workers=1 IN OUT",
    ),
    (
        "pack --tile=70,300 IN OUT",
        "retile --tile=70,300 --workers=1 IN OUT",
    ),
];

// A pixel: noise, which is stored; the same in a whole row; noise that is coded; and a slope.
fn pixel_at(x: u32, y: u32) -> u32 {
    let noise = x
        .wrapping_mul(2_654_435_761)
        .wrapping_add(y.wrapping_mul(40_503));
    match y % 8 {
        0 => noise,
        1 => 7,
        2 => noise >> 20,
        _ => x.wrapping_add(noise >> 28),
    }
}

// Puts the lower bits of a pixel, as many as BITPIX says.
fn put_pixel(file: &mut Vec<u8>, bits: u32, pixel: u32) -> Result<(), AllocError> {
    let bytes = pixel.to_be_bytes();
    match bits {
        8 => file.extend_from_slice(&bytes[3..])?,
        16 => file.extend_from_slice(&bytes[2..])?,
        _ => file.extend_from_slice(&bytes)?,
    }
    Ok(())
}

// An image of so many rows of pixels of so many bits.
fn image_of(alloc: Global, bits: u32, length: u32, rows: u32) -> Result<Vec<u8>, AllocError> {
    let bitpix = format!(in alloc; "BITPIX  = {bits:>20}")?;
    let long = format!(in alloc; "NAXIS1  = {length:>20}")?;
    let high = format!(in alloc; "NAXIS2  = {rows:>20}")?;
    let mut cards: [&str; 5] = SMALL;
    cards[1] = bitpix.as_str();
    cards[3] = long.as_str();
    cards[4] = high.as_str();
    let mut file = Vec::new(alloc);
    put_header(&mut file, &cards)?;
    for y in 0..rows {
        for x in 0..length {
            put_pixel(&mut file, bits, pixel_at(x, y))?;
        }
    }
    fill_block(&mut file, 0)?;
    Ok(file)
}

// What a run of the words leaves.
fn left_by<R: Threads + Sync + AllocGlobal>(
    rt: &R,
    words: &str,
    file: &[u8],
) -> Result<Outcome, AllocError> {
    let words = command(rt.alloc(), words)?;
    let on = Conditions::free(rt.alloc())?;
    outcome_of(rt, &words, file, &on, &FreeGate)
}

// Whether two runs ended alike, with the same file, and gave all back.
fn are_alike(one: &Outcome, other: &Outcome) -> bool {
    one.status == other.status
        && one.text.contents() == other.text.contents()
        && one.sink.contents() == other.sink.contents()
        && one.sink.made() == other.sink.made()
        && one.live == 0
}

// Whether the packed file becomes what the plain one becomes.
fn becomes_tiles<R: Threads + Sync + AllocGlobal>(
    rt: &R,
    packed: &[u8],
    plain: &[u8],
) -> Result<bool, AllocError> {
    for (pack, retile) in &TILES {
        let from_plain = left_by(rt, pack, plain)?;
        let from_packed = left_by(rt, retile, packed)?;
        if !are_alike(&from_packed, &from_plain) {
            return Ok(false);
        }
    }
    Ok(true)
}

#[test]
fn rows_are_read_in_parts(rt: HostRuntime) -> Result<(), Fail> {
    for bits in [8, 16, 32] {
        for &length in &LENGTHS {
            let plain = image_of(rt.alloc(), bits, length, 300)?;
            for words in &ROWS {
                let rows = left_by(&rt, words, &plain)?;
                holds(&rt, becomes_tiles(&rt, rows.sink.contents(), &plain)?);
            }
        }
    }
    Ok(())
}
