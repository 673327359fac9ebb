//! Cards that are made of a name and a value, without a comment, in the fixed format (FITS 4.0, section 4.2).
ghost use Rattle.std.specs.Prelude.{◌≡◌, ◌≤◌, ◌++◌, length, codes};
ghost use Rattle.fz_card.specs.Value.{IsShort};
ghost use Rattle.fz_card.specs.Made.{IsCardText, value_card, right_aligned, int_card_bytes, logical_card_bytes, text_card_bytes};
ghost use Rattle.fz_card.specs.Laws.{MadeCardLaws};

use crate::card::{CARD_LEN, Card, FIELD_LEN, Name};
use crate::line::Line;
use itoa::Buffer;

/// The length of columns 11 to 30, at the end of which a number is.
const NUMBER_LEN: usize = 20;

/// The fewest characters between the quotes of a text.
const SHORTEST_TEXT: usize = 8;

/// A card with an integer, which ends in column 30.
pub fn int_card(name: Name, value: i64) -> Card
    requires { IsShort value }
    ensures { result.bytes ≡ int_card_bytes name.bytes value }
{
    let mut buffer = Buffer::new();
    number_card(name, buffer.format(value).as_bytes())
}

/// A card with `T` or `F` in column 30.
pub fn logical_card(name: Name, value: bool) -> Card
    ensures { result.bytes ≡ logical_card_bytes name.bytes value }
{
    number_card(name, if value { b"T" } else { b"F" })
}

/// A card with a text: its opening quote in column 11, blanks up to 8 characters, the closing quote.
pub fn text_card(name: Name, text: &[u8]) -> Card
    requires { IsCardText text.now }
    ensures { result.bytes ≡ text_card_bytes name.bytes text.now }
{
    let mut line = value_line(name);
    line.push(b"'");
    line.push(text);
    line.push_blanks(SHORTEST_TEXT.saturating_sub(text.len()));
    line.push(b"'");
    Card {
        bytes: line.bytes(),
    }
}

/// The start of a card with a value: the name and `= `.
fn value_line(name: Name) -> Line<CARD_LEN>
    ensures { result ≡ name.bytes ++ codes "= " }
{
    let mut line = Line::new();
    line.push(&name.bytes);
    line.push(b"= ");
    line
}

/// A card whose value is this text, as the digits of a number: it ends in column 30, or begins in column 11 if it
/// has more than 20 characters (FITS 4.0, sections 4.2.3 and 4.2.4).
pub fn number_card(name: Name, text: &[u8]) -> Card
    requires { length text.now ≤ FIELD_LEN }
    ensures { result.bytes ≡ value_card name.bytes (right_aligned 20 text.now) }
{
    let mut line = value_line(name);
    line.push_blanks(NUMBER_LEN.saturating_sub(text.len()));
    line.push(text);
    Card {
        bytes: line.bytes(),
    }
}

/// Each card that is made has 80 bytes, and the name and the value that it was made of; so it is no END card if that
/// name is none.
pub fn made_cards_law()
    ensures { MadeCardLaws }
{}
