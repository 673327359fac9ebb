//! The table of marks, from which tiles of the image at hand are read on. It is among the numbers, of which no tile needs
//! more than half.
ghost use Rattle.std.specs.Prelude.{ℕ, ◌≡◌, ◌≢◌, ◌+◌, ◌-◌, ◌/◌, ◌^◌, ◌<◌, ◌≤◌, min, pos, replicate, IsTrue, IfSome, length as len};
ghost use Rattle.fz_look.specs.Marked.{HasNoMarks, IsKept, KeepsMark, mark_place, table_place, word_at};
ghost use Rattle.fz_look.specs.Scratch.{ScratchStays};

use crate::looked::Space;
use fz_pixels::{Mark, TileMark};
use fz_tile::Codec;

/// The places of one mark: the number of its tile and one, its pixel, its bit, and its residue.
const MARK_LEN: usize = 4;

/// The most places of the table, which is cleared for each HDU.
const MOST_PLACES: usize = 1 << 14;

/// The place among so many numbers at which the table begins.
pub(crate) fn table_at(codec: Codec, numbers: usize) -> usize
    ensures place { result ≡ table_place codec numbers }
    ensures within { result ≤ numbers }
{
    match codec {
        Codec::Rice { .. } => largest_table_at(numbers),
        Codec::Plio | Codec::Plain => numbers,
    }
}

// The same for an image that has a table.
fn largest_table_at(numbers: usize) -> usize
    ensures place { result ≡ numbers - min (numbers / 2) 16384 }
    ensures within { result ≤ numbers }
{
    numbers - (numbers / 2).min(MOST_PLACES)
}

/// The mark that is kept of a tile, if it is not after this pixel.
pub(crate) fn mark_before(table: &[i32], tile: u32, pixel: u32) -> Option<TileMark>
    requires tile { tile < 2 ^ 31 }
    ensures kept { IfSome result (IsKept table.now tile) }
    ensures before { IfSome result (λ m. m.pixel ≤ pixel) }
{
    if table.len() < MARK_LEN {
        return None;
    }
    let at = place_of(table, tile);
    if word(table, at) != tile + 1 {
        return None;
    }
    let mark = mark_at(table, at);
    if mark.pixel > pixel {
        return None;
    }
    Some(mark)
}

/// Keeps a mark of a tile, in place of the one that was there. The table may have no room for it; then nothing is kept.
pub(crate) fn keep_mark(table: &mut [i32], tile: u32, mark: TileMark)
    requires tile { tile < 2 ^ 31 }
    ensures kept { KeepsMark tile mark table.old table.new }
    ensures len { len table.new ≡ len table.old }
{
    if !has_room(table, &mark) {
        return;
    }
    let at = place_of(table, tile);
    put_word(table, at, tile + 1);
    put_word(table, at + 1, mark.pixel);
    put_word(table, at + 2, mark.mark.bit as u32);
    put_word(table, at + 3, mark.mark.last);
}

/// Forgets all marks.
pub fn forget_marks(space: &mut Space)
    ensures none { HasNoMarks space.new.numbers }
    ensures space { ScratchStays space.old space.new }
{
    clear_table(space.numbers.as_mut_slice());
}

// Clears the largest table that these numbers can have.
fn clear_table(numbers: &mut [i32])
    ensures none { HasNoMarks numbers.new }
    ensures len { len numbers.new ≡ len numbers.old }
{
    let at = largest_table_at(numbers.len());
    clear(&mut numbers[at..]);
}

// Puts zeros to all places.
fn clear(places: &mut [i32])
    ensures zeros { places.new ≡ replicate (len places.old) (pos 0) }
    ensures len { len places.new ≡ len places.old }
{
    places.fill(0);
}

// Whether the table has places for a mark, and each of its parts fits one.
fn has_room(table: &[i32], mark: &TileMark) -> bool
    ensures room { IsTrue result → 4 ≤ len table.now }
    ensures bit { IsTrue result → mark.now.mark.bit < 2 ^ 32 }
{
    table.len() >= MARK_LEN && mark.mark.bit <= u64::from(u32::MAX)
}

// The place at which the mark of a tile begins.
fn place_of(table: &[i32], tile: u32) -> usize
    requires room { 4 ≤ len table.now }
    ensures place { result ≡ mark_place (len table.now) tile }
    ensures within { result + 4 ≤ len table.now }
{
    MARK_LEN * (tile as usize % (table.len() / MARK_LEN))
}

// The mark that begins at this place.
fn mark_at(table: &[i32], at: usize) -> TileMark
    requires within { at + 4 ≤ len table.now }
    ensures pixel { word_at table.now (at + 1) ≡ result.pixel }
    ensures bit { word_at table.now (at + 2) ≡ result.mark.bit }
    ensures last { word_at table.now (at + 3) ≡ result.mark.last }
{
    TileMark {
        pixel: word(table, at + 1),
        mark: Mark {
            bit: u64::from(word(table, at + 2)),
            last: word(table, at + 3),
        },
    }
}

// What a place has, as unsigned.
fn word(table: &[i32], k: usize) -> u32
    requires within { k < len table.now }
    ensures word { word_at table.now k ≡ result }
{
    table[k].cast_unsigned()
}

// Puts an unsigned value to a place.
fn put_word(table: &mut [i32], k: usize, value: u32)
    requires within { k < len table.old }
    ensures word { word_at table.new k ≡ value }
    ensures others { (j : ℕ) → j ≢ k → word_at table.new j ≡ word_at table.old j }
    ensures len { len table.new ≡ len table.old }
{
    table[k] = value.cast_signed();
}
