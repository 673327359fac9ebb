//! Cards that are found by what they say.
ghost use Rattle.std.specs.Prelude.{◌≡◌, ◌+◌, ◌*◌, ◌<◌, ◌≤◌, ◌&&◌, ◌||◌, false, true, not, bytes_eq, codes, position, unwrap_or, length as len};
ghost use Rattle.fz_card.specs.Layout.{card_name};
ghost use Rattle.fz_card.specs.Reading.{logical_of, text_of, has_text};
ghost use Rattle.fz_card.specs.CardLists.{has_name};
ghost use Rattle.fz_head.specs.PackChecks.{is_offset as is_offset_of};
ghost use Rattle.fz_head.specs.Written.{first_cards};

use fz_block::card;
use fz_card::{Card, Name};

/// Whether the card has this name.
pub fn has_name(card: &Card, name: &Name) -> bool
    ensures { result ≡ has_name name.now.bytes card.now.bytes }
{
    card.name() == *name
}

/// Whether the card has this name and the value T.
pub fn is_set(card: &Card, name: &Name) -> bool
    ensures { result ≡ (has_name name.now.bytes card.now.bytes && unwrap_or (logical_of card.now.bytes) false) }
{
    has_name(card, name) && card.logical().unwrap_or(false)
}

/// The index of the first of so many cards that has this name and the value T.
pub fn first_set(buf: &[u8], cards: u32, name: &Name) -> Option<u32>
    requires { 80 * cards ≤ len buf.now }
    ensures { result ≡ position (λ c. has_name name.now.bytes c && unwrap_or (logical_of c) false) (first_cards buf.now cards) }
{
    for i in 0..cards {
        if is_set(&card(buf, i), name) {
            return Some(i);
        }
    }
    None
}

// Whether the card says an offset of the pixels that is not zero.
fn is_offset(card: &Card) -> bool
    ensures { result ≡ is_offset_of card.now.bytes }
{
    has_name(card, &Name::BZERO) && !card.zero().unwrap_or(true)
}

/// The index of the first of so many cards that says an offset of the pixels that is not zero.
pub fn first_offset(buf: &[u8], cards: u32) -> Option<u32>
    requires { 80 * cards ≤ len buf.now }
    ensures { result ≡ position is_offset_of (first_cards buf.now cards) }
{
    for i in 0..cards {
        if is_offset(&card(buf, i)) {
            return Some(i);
        }
    }
    None
}
