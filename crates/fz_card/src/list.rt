//! Cards that are one after another, as in a header.
ghost use Rattle.std.specs.Prelude.{◌≡◌, ℕ, ◌+◌, ◌*◌, ◌≤◌, ◌↔◌, List, Some, None, length, take, drop};
ghost use Rattle.std.specs.Option.{option_map};
ghost use Rattle.fz_card.specs.CardLists.{cards_in, has_name, first_of_name, IsFirstOfName};

use crate::card::{CARD_LEN, Card, NAME_LEN, Name};

/// The first of so many cards that has this name, if one has (FITS 4.0, section 4.1.2.1).
pub fn first_of_name(buf: &[u8], cards: u32, name: Name) -> Option<Card>
    requires { 80 * cards ≤ length buf.now }
    ensures { option_map (λ c. c.bytes) result ≡ first_of_name name.bytes (cards_in cards buf.now) }
{
    for i in 0..cards {
        let start = CARD_LEN * i as usize;
        if is_named(buf, start, name) {
            return Some(card_from(buf, start));
        }
    }
    None
}

/// Whether the card that begins at this byte has this name.
fn is_named(buf: &[u8], start: usize, name: Name) -> bool
    requires { start + 80 ≤ length buf.now }
    ensures { result ≡ has_name name.bytes (take 80 (drop start buf.now)) }
{
    buf[start..start + NAME_LEN] == name.bytes[..]
}

/// The card that begins at this byte.
fn card_from(buf: &[u8], start: usize) -> Card
    requires { start + 80 ≤ length buf.now }
    ensures { result.bytes ≡ take 80 (drop start buf.now) }
{
    let mut bytes = [b' '; CARD_LEN];
    bytes.copy_from_slice(&buf[start..start + CARD_LEN]);
    Card { bytes }
}

/// `first_of_name` gives the first card of the name, and none exactly if no card has it.
pub fn first_of_name_law()
    ensures found { (name card : List ℕ) (cards : List (List ℕ)) → (first_of_name name cards ≡ Some card) ↔ IsFirstOfName name cards card }
    ensures none { (name : List ℕ) (cards : List (List ℕ)) → (first_of_name name cards ≡ None)
        ↔ ((card : List ℕ) → ¬ (IsFirstOfName name cards card)) }
{}
