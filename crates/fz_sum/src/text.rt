//! The number that the text of a DATASUM card gives.
ghost use Rattle.std.specs.Prelude.{◌≡◌, ℕ, IfSome, IfNone, length};
ghost use Rattle.fz_sum.specs.Texts.{GivesSum, CardGivesSum, sum_of_text, sum_of_card, sum_of_digits};

use fz_card::{
    Card, FIELD_LEN, are_digits, blanks_law, card_laws, whole_number, without_first_blanks,
};

/// The sum that this text gives: after any blanks at its front, one or more digits that write a number of 32 bits
/// (FITS 4.0, section 4.4.2.7). Any other text gives none.
pub fn sum_of_text(text: &[u8]) -> Option<u32>
    ensures value { IfSome result (GivesSum text.now) }
    ensures none { IfNone result ((sum : ℕ) → ¬ (GivesSum text.now sum)) }
    ensures function { result ≡ sum_of_text text.now }
{
    blanks_law();
    sum_of_digits(without_first_blanks(text))
}

/// The sum that the text value of this card gives.
pub fn sum_of_card(card: &Card) -> Option<u32>
    ensures value { IfSome result (CardGivesSum card.now.bytes) }
    ensures none { IfNone result ((sum : ℕ) → ¬ (CardGivesSum card.now.bytes sum)) }
    ensures function { result ≡ sum_of_card card.now.bytes }
{
    card_laws();
    let mut text = [b' '; FIELD_LEN];
    let len = card.text(&mut text)?;
    sum_of_text(&text[..len])
}

/// The number that the digits write, if they are digits and it fits.
fn sum_of_digits(digits: &[u8]) -> Option<u32>
    ensures { result ≡ sum_of_digits digits.now }
{
    if are_digits(digits) {
        whole_number(digits)
    } else {
        None
    }
}
