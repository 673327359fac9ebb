//! Whether the value of a card is zero.
ghost use Rattle.std.specs.Prelude.{◌≡◌, ◌↔◌, ℕ, List, Bool, Some, IfSome, IfNone};
ghost use Rattle.std.specs.Str.{all_ascii_digits};
ghost use Rattle.fz_card.specs.Value.{ZeroValue, HasValue};
ghost use Rattle.fz_card.specs.Zeros.{skip_zeros, skip_point, is_numeral, is_exponent, is_zero_number, is_zero_text, zero_in};
ghost use Rattle.fz_card.specs.Reading.{zero_of};
ghost use Rattle.fz_card.specs.Laws.{ZeroOfLaw};

use crate::card::Card;
use crate::value::without_sign;

impl Card {
    /// Whether the value is a number that is zero, as `0`, `-0.` or `0.0D+10`, or `None` if the card has no
    /// value or a blank field (FITS 4.0, section 4.2.4).
    pub fn zero(&self) -> Option<bool>
        ensures value { IfSome result (ZeroValue self.now.bytes) }
        ensures none { IfNone result (¬ (HasValue self.now.bytes)) }
        ensures function { result ≡ zero_of self.now.bytes }
    {
        zero_of_text(self.value_text()?)
    }
}

fn zero_of_text(text: &[u8]) -> Option<bool>
    ensures { result ≡ zero_in text.now }
{
    if text.is_empty() {
        None
    } else {
        Some(is_zero_number(without_sign(text)))
    }
}

/// Whether the number, of which the sign is taken off, is zeros with at most one point, and maybe an exponent.
fn is_zero_number(number: &[u8]) -> bool
    ensures { result ≡ is_zero_number number.now }
{
    let whole = without_zeros(number);
    let fraction = without_point(whole);
    let rest = without_zeros(fraction);
    number.len() + fraction.len() > whole.len() + rest.len() && is_exponent(rest)
}

fn without_zeros(mut text: &[u8]) -> &[u8]
    ensures { result.now ≡ skip_zeros text.entry.now }
{
    while let [b'0', rest @ ..] = text {
        text = rest;
    }
    text
}

/// The text without a point at its front.
pub fn without_point(text: &[u8]) -> &[u8]
    ensures { result.now ≡ skip_point text.now }
{
    match text {
        [b'.', rest @ ..] => rest,
        _ => text,
    }
}

/// Whether the text is empty, or a letter, an optional sign and digits.
fn is_exponent(text: &[u8]) -> bool
    ensures { result ≡ is_exponent text.now }
{
    match text {
        [] => true,
        [b'E' | b'D', exponent @ ..] => is_numeral(without_sign(exponent)),
        _ => false,
    }
}

/// Whether the text is only digits.
pub fn are_digits(text: &[u8]) -> bool
    ensures { result ≡ all_ascii_digits text.now }
{
    text.iter().all(u8::is_ascii_digit)
}

fn is_numeral(digits: &[u8]) -> bool
    ensures { result ≡ is_numeral digits.now }
{
    !digits.is_empty() && digits.iter().all(u8::is_ascii_digit)
}

/// A card has at most one zero value, true or false, which `zero_of` gives.
pub fn zero_law()
    ensures once { (card : List ℕ) (a b : Bool) → ZeroValue card a → ZeroValue card b → a ≡ b }
    ensures function { ZeroOfLaw }
{}
