//! Cards written one after another into a buffer.
ghost use Rattle.std.specs.Prelude.{ℕ, ◌≡◌, ◌+◌, ◌-◌, ◌*◌, ◌≤◌, List, [], ◌∷◌, ◌++◌, take, codes, length as len};
ghost use Rattle.fz_card.specs.Layout.{blanks};
ghost use Rattle.fz_card.specs.Made.{FitsName};
ghost use Rattle.fz_block.specs.Header.{whole_blocks_of};
ghost use Rattle.fz_block.specs.Hdus.{header_bytes};
ghost use Rattle.fz_head.specs.PackedHeader.{numbered_number_card};
ghost use Rattle.fz_head.specs.Written.{AreWritten, Adds, card_list};

use fz_block::BLOCK_LEN;
use fz_card::{CARD_LEN, Card, int_card, numbered};

/// The name of the card that ends a header (FITS 4.0, section 4.4.1.1).
const END: [u8; 3] = *b"END";

/// The card of a length along axis `i`, as NAXIS1.
pub(crate) fn length_card(stem: &[u8], i: u32, length: u32) -> Card
    requires { FitsName stem.now i }
    ensures { result.bytes ≡ numbered_number_card stem.now i length }
{
    int_card(numbered(stem, i), i64::from(length))
}

/// Writes a card after so many cards, and answers how many are there then.
pub(crate) fn put(card: &Card, count: usize, out: &mut [u8]) -> usize
    requires { 80 * (count + 1) ≤ len out.old }
    ensures written { Adds (card.now.bytes ∷ []) count out.old result out.new }
    ensures number { result ≡ count + 1 }
{
    let start = CARD_LEN * count;
    out[start..start + CARD_LEN].copy_from_slice(&card.bytes);
    count + 1
}

/// Writes the cards after so many cards, and answers how many are there then.
pub(crate) fn put_all(cards: &[Card], count: usize, out: &mut [u8]) -> usize
    requires { 80 * (count + len cards.now) ≤ len out.old }
    ensures written { Adds (card_list cards.now) count out.old result out.new }
    ensures number { result ≡ count + len cards.now }
{
    let mut written = count;
    for card in cards {
        written = put(card, written, out);
    }
    written
}

/// Writes END after so many cards, and blanks to whole blocks, and answers their length.
pub(crate) fn finish(count: usize, out: &mut [u8]) -> usize
    requires { whole_blocks_of (80 * (count + 1)) ≤ len out.old }
    ensures header { (cards : List (List ℕ)) → AreWritten cards count out.old →
        (take result out.new ≡ header_bytes cards) × (result ≡ len (header_bytes cards)) }
    ensures size { result ≡ whole_blocks_of (80 * (count + 1)) }
{
    let start = CARD_LEN * count;
    let end = (start + CARD_LEN).div_ceil(BLOCK_LEN) * BLOCK_LEN;
    write_end(start, out);
    write_blanks(start + END.len(), end, out);
    end
}

// Writes the letters END from this byte on.
fn write_end(start: usize, out: &mut [u8])
    requires { start + 3 ≤ len out.old }
    ensures { take (start + 3) out.new ≡ take start out.old ++ codes "END" }
{
    out[start..start + END.len()].copy_from_slice(&END);
}

// Writes blanks from this byte on up to another.
fn write_blanks(start: usize, end: usize, out: &mut [u8])
    requires { (start ≤ end) × (end ≤ len out.old) }
    ensures { take end out.new ≡ take start out.old ++ blanks (end - start) }
{
    out[start..end].fill(b' ');
}
