//! The reference pixels of a part (FITS 4.0, section 8.1).
ghost use Rattle.std.specs.Prelude.{ℕ, ◌≡◌, ◌+◌, ◌*◌, ◌≤◌, List, ◌++◌, map, take, drop, codes, length as len};
ghost use Rattle.fz_card.specs.Layout.{card_name};
ghost use Rattle.fz_card.specs.Naming.{number_behind, up_to};
ghost use Rattle.fz_block.specs.Cards.{card_at};
ghost use Rattle.fz_block.specs.Hdus.{header_bytes};
ghost use Rattle.fz_files.specs.CutoutBytes.{moved_card, shift_along, shift_if};
ghost use Rattle.fz_files.specs.Picks.{HasPicks};
ghost use Rattle.fz_cut.specs.Moved.{AreCards};

use fz_block::card;
use fz_card::{CARD_LEN, Card, Name, number_behind, numbers_law, shift};
use fz_grid::Sieve;

/// Moves the reference pixels of the cards of a header by the corner of the part: the first pixel of the part was that
/// of the corner.
pub(crate) fn move_pixels(sieve: &Sieve, header: &mut [u8])
    requires sieve { HasPicks sieve.now }
    requires few { len header.old ≤ 737280 }
    ensures moved { (cards : List (List ℕ)) → AreCards cards → header.old ≡ header_bytes cards
        → header.new ≡ header_bytes (map (moved_card sieve.now) cards) }
    ensures len { len header.new ≡ len header.old }
{
    // What no card but CRPIXi is.
    numbers_law();
    let cards = (header.len() / CARD_LEN) as u32;
    for i in 0..cards {
        move_card(sieve, i, header);
    }
}

// Moves the reference pixel of the card of this index.
fn move_card(sieve: &Sieve, i: u32, header: &mut [u8])
    requires sieve { HasPicks sieve.now }
    requires inside { 80 * (i + 1) ≤ len header.old }
    ensures card { header.new ≡ take (80 * i) header.old ++ (moved_card sieve.now (card_at header.old i) ++ drop (80 * (i + 1)) header.old) }
    ensures whole { len (moved_card sieve.now (card_at header.old i)) ≡ 80 }
    ensures len { len header.new ≡ len header.old }
{
    let moved = moved_card(sieve, &card(header, i));
    let start = CARD_LEN * i as usize;
    header[start..start + CARD_LEN].copy_from_slice(&moved.bytes);
}

// The card of the part: CRPIXi of one of its axes is shifted, and every other card stays.
fn moved_card(sieve: &Sieve, card: &Card) -> Card
    requires { HasPicks sieve.now }
    ensures { result.bytes ≡ moved_card sieve.now card.now.bytes }
{
    let by = shift_by(sieve, card.name());
    if by == 0 {
        return *card;
    }
    match shift(card, by) {
        Some(moved) => moved,
        None => *card,
    }
}

// By how much the reference pixel moves that a card of this name says.
fn shift_by(sieve: &Sieve, name: Name) -> u32
    requires { HasPicks sieve.now }
    ensures { result ≡ shift_if sieve.now (up_to sieve.now.n (number_behind (codes "CRPIX") name.bytes)) }
{
    numbers_law();
    match number_behind(name, b"CRPIX") {
        Some(i) if i <= sieve.n => shift_along(sieve, i),
        _ => 0,
    }
}

// By how much the reference pixel of axis `i`, counted from 1, moves: by the corner if every pixel from there on is
// picked.
fn shift_along(sieve: &Sieve, i: u32) -> u32
    requires sieve { HasPicks sieve.now }
    requires axis { (1 ≤ i) × (i ≤ sieve.now.n) }
    ensures { result ≡ shift_along sieve.now i }
{
    let at = i as usize - 1;
    if sieve.step[at] == 1 { sieve.lo[at] } else { 0 }
}
