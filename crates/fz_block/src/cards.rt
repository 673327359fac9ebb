//! The cards of a header in a buffer.
ghost use Rattle.std.specs.Prelude.{◌≡◌, ◌+◌, ◌*◌, ◌≤◌, ◌&&◌, false, length, bytes_eq, unwrap_or};
ghost use Rattle.fz_card.specs.Layout.{card_name};
ghost use Rattle.fz_card.specs.Reading.{logical_of};
ghost use Rattle.fz_block.specs.Cards.{card_at, end_of, end_among};

use fz_card::{Card, Name};

/// The length of a card in bytes.
pub(crate) const CARD_LEN: usize = 80;

/// The card of this index.
pub fn card(buf: &[u8], i: u32) -> Card
    requires { 80 * (i + 1) ≤ length buf.now }
    ensures { result.bytes ≡ card_at buf.now i }
{
    let start = CARD_LEN * i as usize;
    let mut bytes = [b' '; CARD_LEN];
    bytes.copy_from_slice(&buf[start..start + CARD_LEN]);
    Card { bytes }
}

/// Whether the card has this name.
pub(crate) fn is_named(card: &Card, name: &Name) -> bool
    ensures { result ≡ bytes_eq (card_name card.now.bytes) name.now.bytes }
{
    card.bytes[..8] == name.bytes[..]
}

/// The index of the first card named END, if the cards have one.
#[tactic(auto, using(crate::proofs::Ends::ends))]
pub(crate) fn end_card(cards: &[u8]) -> Option<u32>
    requires { length cards.now ≤ 737280 }
    ensures { result ≡ end_of cards.now }
{
    let count = (cards.len() / CARD_LEN) as u32;
    for i in 0..count {
        if is_named(&card(cards, i), &Name::END) {
            return Some(i);
        }
    }
    None
}

/// Whether the card has this name and the value T.
pub(crate) fn is_set(card: &Card, name: &Name) -> bool
    ensures { result ≡ (bytes_eq (card_name card.now.bytes) name.now.bytes && unwrap_or (logical_of card.now.bytes) false) }
{
    is_named(card, name) && card.logical().unwrap_or(false)
}
