//! The card of a decimal less a whole number.
ghost use Rattle.std.specs.Prelude.{◌≡◌, ◌^◌, ◌<◌, ◌≤◌, IfSome, IfNone, unsigned_abs};
ghost use Rattle.std.specs.Option.{option_map};
ghost use Rattle.fz_card.specs.declared.decimal.Decimal.{Decimal};
ghost use Rattle.fz_card.specs.Layout.{card_name};
ghost use Rattle.fz_card.specs.Made.{value_card, right_aligned};
ghost use Rattle.fz_card.specs.Decimals.{HasDecimal, IsShifted, decimal_text};
ghost use Rattle.fz_card.specs.DecimalReading.{decimal_of, shifted};
ghost use Rattle.fz_card.specs.DecimalLaws.{DecimalLaws, ShiftedIsCard};

use crate::card::Card;
use crate::decimal::{Decimal, less};
use crate::decimal_reading::decimal_in;
use crate::decimal_writing::decimal_line;
use crate::made::{made_cards_law, number_card};
use crate::text::value_text_law;
use crate::value::integer_text_law;

/// The card with its decimal less this whole number, and `None` exactly if its value is no decimal: a sign, 1 to 18
/// digits with at most one point and an exponent from -9 to 9, of which the sign, the point and the exponent may be
/// left away (FITS 4.0, sections 4.2.4 and 8.1). The new value has as many digits after the point as hold the old one
/// exactly, and the card has no comment.
pub fn shift(card: &Card, by: u32) -> Option<Card>
    ensures value { IfSome result (λ c. IsShifted card.now.bytes by c.bytes) }
    ensures none { IfNone result ((d : Decimal) → ¬ (HasDecimal card.now.bytes d)) }
    ensures function { option_map (λ c. c.bytes) result ≡ shifted card.now.bytes by }
{
    decimal_law();
    let decimal = decimal_of(card)?;
    Some(decimal_card(card, less(decimal, by)))
}

/// The decimal of the card, if its value is one.
fn decimal_of(card: &Card) -> Option<Decimal>
    ensures value { result ≡ decimal_of card.now.bytes }
    ensures few { IfSome result (λ d. d.places ≤ 28) }
    ensures low { IfSome result (λ d. unsigned_abs d.number ≤ 10 ^ 28) }
{
    decimal_in(card.value_text()?)
}

/// The card with this decimal in place of its value.
fn decimal_card(card: &Card, decimal: Decimal) -> Card
    requires few { decimal.places ≤ 28 }
    requires low { unsigned_abs decimal.number < 10 ^ 38 }
    ensures { result.bytes ≡ value_card (card_name card.now.bytes) (right_aligned 20 (decimal_text decimal)) }
{
    number_card(card.name(), decimal_line(decimal).text())
}

/// A card has at most one decimal, which `decimal_of` gives, and `shifted` gives the card with it less a whole number.
pub fn decimal_law()
    ensures { DecimalLaws }
{
    integer_text_law();
    value_text_law();
}

/// The card with its decimal less a whole number is a card of 80 bytes, with the same name.
pub fn shifted_card_law()
    ensures { ShiftedIsCard }
{
    decimal_law();
    made_cards_law();
}
